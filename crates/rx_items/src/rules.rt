//! Where the value of a property stands, by the element's name.
ghost use Rattle.std.specs.Prelude.{◌≡◌, true};
ghost use Rattle.rx_terms.specs.Common.{list_all, is_ascii};
ghost use Rattle.rx_microdata.specs.Facts as facts;
ghost use Rattle.rx_items.specs.Rules.{name_in, source_seen};

/// Where the value of an element that is no item stands.
#[derive(Clone, Copy)]
pub(crate) enum ValueSource {
    /// In the attribute of this name.
    AsWritten(&'static str),
    /// There, as a reference.
    AsReference(&'static str),
    /// There, or else in the text of the element's own text children.
    OrOwnText(&'static str),
    /// In the text.
    AllText,
}

/// Where an element of this name has it (HTML, 5.2.4). The attribute's name is ASCII.
pub(crate) fn source_of(name: &str) -> ValueSource
    ensures source { source_seen result ≡ facts.source_of name.now }
    ensures ascii { list_all is_ascii (name_in (source_seen result)) ≡ true }
{
    match name {
        "meta" => ValueSource::AsWritten("content"),
        "audio" | "embed" | "iframe" | "img" | "source" | "track" | "video" => {
            ValueSource::AsReference("src")
        }
        "a" | "area" | "link" => ValueSource::AsReference("href"),
        "object" => ValueSource::AsReference("data"),
        "data" | "meter" => ValueSource::AsWritten("value"),
        "time" => ValueSource::OrOwnText("datetime"),
        _ => ValueSource::AllText,
    }
}
