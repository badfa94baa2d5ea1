//! The tables of names, on the bytes of a name.
ghost use Rattle.std.specs.Prelude.{◌≡◌, option_map, codes, [], ◌∷◌, take, drop};
ghost use Rattle.rx_grammar.specs.Names.{same, is_among};
ghost use Rattle.rx_grammar.specs.Names as names;
ghost use Rattle.rx_grammar.specs.Contents as contents;
ghost use Rattle.rx_nest.specs.Ordinary.{ordinary_names, omissible_names};
ghost use Rattle.rx_nest.specs.Rows.{row_seen};

use crate::places::Place;
use rx_grammar::{Content, RawName};

/// The start tags that end an element whose end tag may be omitted.
#[derive(Clone, Copy, Debug, PartialEq, Eq)]
pub(crate) enum OmittedEnd {
    Item,
    Definition,
    Paragraph,
    Choice,
    Part,
    TableRow,
    Cell,
}

pub(crate) fn row_of(name: &str) -> Option<OmittedEnd>
    ensures { option_map row_seen result ≡ names.row_of name.now }
{
    match name {
        "li" => Some(OmittedEnd::Item),
        "dt" | "dd" => Some(OmittedEnd::Definition),
        "p" => Some(OmittedEnd::Paragraph),
        "option" => Some(OmittedEnd::Choice),
        "thead" | "tbody" | "tfoot" => Some(OmittedEnd::Part),
        "tr" => Some(OmittedEnd::TableRow),
        "td" | "th" => Some(OmittedEnd::Cell),
        _ => None,
    }
}

fn is_part(name: &str) -> bool
    ensures { result ≡ is_among names.table_parts name.now }
{
    matches!(name, "thead" | "tbody" | "tfoot")
}

// The names in parts, since the check of a match takes time with the square of its length.
fn ends_paragraph(name: &str) -> bool
    ensures { result ≡ is_among names.paragraph_enders name.now }
{
    ends_paragraph_early(name) || ends_paragraph_amid(name) || ends_paragraph_late(name)
}

fn ends_paragraph_early(name: &str) -> bool
    ensures { result ≡ is_among (take 13 names.paragraph_enders) name.now }
{
    matches!(
        name,
        "address"
            | "article"
            | "aside"
            | "blockquote"
            | "dd"
            | "details"
            | "div"
            | "dl"
            | "dt"
            | "fieldset"
            | "figcaption"
            | "figure"
            | "footer"
    )
}

fn ends_paragraph_amid(name: &str) -> bool
    ensures { result ≡ is_among (take 13 (drop 13 names.paragraph_enders)) name.now }
{
    matches!(
        name,
        "form"
            | "h1"
            | "h2"
            | "h3"
            | "h4"
            | "h5"
            | "h6"
            | "header"
            | "hgroup"
            | "hr"
            | "li"
            | "main"
            | "menu"
    )
}

fn ends_paragraph_late(name: &str) -> bool
    ensures { result ≡ is_among (drop 26 names.paragraph_enders) name.now }
{
    matches!(
        name,
        "nav"
            | "ol"
            | "p"
            | "pre"
            | "section"
            | "table"
            | "tbody"
            | "td"
            | "tfoot"
            | "th"
            | "thead"
            | "tr"
            | "ul"
    )
}

/// Whether the row has the name.
pub(crate) fn has(row: OmittedEnd, name: &str) -> bool
    ensures { result ≡ is_among (row_seen row) name.now }
{
    match row {
        OmittedEnd::Item => name == "li",
        OmittedEnd::Definition => matches!(name, "dt" | "dd"),
        OmittedEnd::Paragraph => ends_paragraph(name),
        OmittedEnd::Choice => matches!(name, "option" | "optgroup" | "hr"),
        OmittedEnd::Part => is_part(name),
        OmittedEnd::TableRow => name == "tr" || is_part(name),
        OmittedEnd::Cell => matches!(name, "td" | "th" | "tr") || is_part(name),
    }
}

// The void names in two parts, of which each is short enough to be compared in place.
pub(crate) fn is_void(name: &str) -> bool
    ensures { result ≡ is_among names.void_names name.now }
{
    is_early_void(name) || is_late_void(name)
}

fn is_early_void(name: &str) -> bool
    ensures { result ≡ is_among (take 7 names.void_names) name.now }
{
    matches!(
        name,
        "area" | "base" | "br" | "col" | "embed" | "hr" | "img"
    )
}

fn is_late_void(name: &str) -> bool
    ensures { result ≡ is_among (drop 7 names.void_names) name.now }
{
    matches!(
        name,
        "input" | "link" | "meta" | "param" | "source" | "track" | "wbr"
    )
}

/// Whether the name is one of those that stand in no table here and that most pages have most often.
pub(crate) fn is_ordinary(name: &str) -> bool
    ensures { result ≡ is_among ordinary_names name.now }
{
    matches!(
        name,
        "span"
            | "code"
            | "div"
            | "strong"
            | "em"
            | "dl"
            | "ul"
            | "section"
            | "h3"
            | "h2"
            | "h4"
            | "h1"
            | "a"
            | "b"
            | "i"
    )
}

/// Whether the name is one of those that stand in the table of omitted end tags alone and that most pages have most often.
pub(crate) fn is_omissible(name: &str) -> bool
    ensures { result ≡ is_among omissible_names name.now }
{
    matches!(name, "p" | "li" | "dd" | "dt" | "td" | "th" | "tr")
}

pub(crate) fn is_holding(name: &str) -> bool
    ensures { result ≡ is_among names.holding_names name.now }
{
    matches!(
        name,
        "a" | "audio" | "del" | "ins" | "map" | "noscript" | "video"
    )
}

/// Whether a line feed directly after the start tag is dropped.
pub(crate) fn drops(name: &str) -> bool
    ensures { result ≡ is_among (codes "pre" ∷ codes "textarea" ∷ codes "listing" ∷ []) name.now }
{
    matches!(name, "pre" | "textarea" | "listing")
}

pub(crate) fn holds_html_in_svg(name: &str) -> bool
    ensures { result ≡ is_among contents.html_in_svg name.now }
{
    matches!(name, "foreignobject" | "desc" | "title")
}

pub(crate) fn inside_html(name: &str) -> Place
    ensures { result ≡ contents.inside_html name.now }
{
    match name {
        "svg" => Place::foreign(true),
        "math" => Place::foreign(false),
        "script" => Place::of(Content::Raw(RawName::Script)),
        "style" => Place::of(Content::Raw(RawName::Style)),
        "iframe" => Place::of(Content::Raw(RawName::Iframe)),
        "noembed" => Place::of(Content::Raw(RawName::Noembed)),
        "noframes" => Place::of(Content::Raw(RawName::Noframes)),
        "xmp" => Place::of(Content::Raw(RawName::Xmp)),
        "title" => Place::of(Content::Rcdata(RawName::Title)),
        "textarea" => Place::of(Content::Rcdata(RawName::Textarea)),
        _ => Place::of(Content::Html),
    }
}

pub(crate) fn is_foreign_root(name: &str) -> bool
    ensures { result ≡ contents.is_foreign_root name.now }
{
    matches!(name, "svg" | "math")
}

/// Whether the name is this word of ASCII.
pub(crate) fn is_word(name: &str, word: &str) -> bool
    ensures { result ≡ same name.now word.now }
{
    name == word
}
