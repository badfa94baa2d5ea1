//! The attributes of a tag that Microdata reads.
ghost use Rattle.std.specs.Prelude.{◌≡◌, true, IfOk, OnOk, List, is_some};
ghost use Rattle.rx_grammar.specs.Common.{list_all, chars, is_ascii, Attribute, value_of, seen_slice};
ghost use Rattle.rx_tags.specs.Seen.{tag_seen};
ghost use Rattle.rx_items.specs.Words.{AreMarks, word_kept, word_span, word_text, words_of, text_of_words, is_marked};

use crate::rows::Words;
use crate::spans::{Span, keep};
use rx_tags::Tag;
use rx_terms::NoMemory;
use rx_values::TextStore;

/// The value of the tag's first attribute of that name, which is ASCII.
pub(crate) fn attribute<'a>(tag: &Tag<'a>, name: &str) -> Option<&'a str>
    requires { list_all is_ascii name.now ≡ true }
    ensures { seen_slice result ≡ value_of (tag_seen tag.now).attributes name.now }
{
    tag.attr(name)
}

/// What tells whether an element matters, and is kept where it does.
#[derive(Clone, Copy)]
pub(crate) struct Marks<'a> {
    pub(crate) is_item: bool,
    pub(crate) names: Option<&'a str>,
    pub(crate) id: Option<&'a str>,
}

/// The marks of a tag, each looked for once.
pub(crate) fn marks_of<'a>(tag: &Tag<'a>) -> Marks<'a>
    ensures { AreMarks (tag_seen tag.now).attributes result }
{
    Marks {
        is_item: attribute(tag, "itemscope").is_some(),
        names: attribute(tag, "itemprop"),
        id: attribute(tag, "id"),
    }
}

/// Whether the element matters: it is an item, or has property names or an id.
pub(crate) fn is_marked_by(marks: &Marks<'_>) -> bool
    ensures { (attributes : List Attribute) → AreMarks attributes marks.now → result ≡ is_marked attributes }
{
    marks.is_item || marks.names.is_some() || marks.id.is_some()
}

/// Keeps the value of an attribute, whose name is ASCII.
pub(crate) fn keep_attribute(
    words: &mut TextStore,
    tag: &Tag<'_>,
    name: &str,
) -> Result<Option<Span>, NoMemory>
    requires { list_all is_ascii name.now ≡ true }
    ensures text { OnOk result (words.new ≡ word_text words.old (value_of (tag_seen tag.now).attributes name.now)) }
    ensures span { IfOk result (λ span. span ≡ word_span words.old (value_of (tag_seen tag.now).attributes name.now)) }
{
    let Some(value) = attribute(tag, name) else {
        return Ok(None);
    };
    let span = keep(words, value)?;
    Ok(Some(span))
}

/// Whether an attribute is there, and where what is kept of tags ends behind its value.
#[derive(Clone, Copy)]
struct KeptWord {
    is_there: bool,
    end: usize,
}

/// Keeps a value, where there is one.
fn keep_value(words: &mut TextStore, value: Option<&str>) -> Result<KeptWord, NoMemory>
    ensures text { OnOk result (words.new ≡ word_text words.old (seen_slice value.entry)) }
    ensures kept { IfOk result (λ kept. kept ≡ word_kept words.old (seen_slice value.entry)) }
{
    let Some(value) = value else {
        return Ok(KeptWord {
            is_there: false,
            end: words.mark(),
        });
    };
    words.push(value)?;
    Ok(KeptWord {
        is_there: true,
        end: words.mark(),
    })
}

/// The same of an attribute, whose name is ASCII.
fn keep_word(words: &mut TextStore, tag: &Tag<'_>, name: &str) -> Result<KeptWord, NoMemory>
    requires { list_all is_ascii name.now ≡ true }
    ensures text { OnOk result (words.new ≡ word_text words.old (value_of (tag_seen tag.now).attributes name.now)) }
    ensures kept { IfOk result (λ kept. kept ≡ word_kept words.old (value_of (tag_seen tag.now).attributes name.now)) }
{
    keep_value(words, attribute(tag, name))
}

/// Keeps what an element is called, of what types it is, and to what it refers.
pub(crate) fn keep_words(
    words: &mut TextStore,
    tag: &Tag<'_>,
    marks: &Marks<'_>,
) -> Result<Words, NoMemory>
    requires { AreMarks (tag_seen tag.now).attributes marks.now }
    ensures text { OnOk result (words.new ≡ text_of_words words.old (tag_seen tag.now).attributes) }
    ensures words { IfOk result (λ kept. kept ≡ words_of words.old (tag_seen tag.now).attributes) }
{
    let from = words.mark();
    let names = keep_value(words, marks.names)?;
    let id = keep_value(words, marks.id)?;
    let types = keep_word(words, tag, "itemtype")?;
    let item_id = keep_word(words, tag, "itemid")?;
    let references = keep_word(words, tag, "itemref")?;
    Ok(Words {
        from,
        names_end: names.end,
        id_end: id.end,
        types_end: types.end,
        item_id_end: item_id.end,
        references_end: references.end,
        has_names: names.is_there,
        has_id: id.is_there,
        has_types: types.is_there,
        has_item_id: item_id.is_there,
        has_references: references.is_there,
    })
}
