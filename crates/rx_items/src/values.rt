//! What a tag says of the value of its element.
ghost use Rattle.std.specs.Prelude.{◌≡◌, true, [], IfOk, OnOk, unwrap_or};
ghost use Rattle.rx_terms.specs.Common.{list_all, chars, is_ascii, tokens, seen_slice};
ghost use Rattle.rx_microdata.specs.Facts as facts;
ghost use Rattle.rx_microdata.specs.Properties.{is_any};
ghost use Rattle.rx_tags.specs.Seen.{tag_seen};
ghost use Rattle.rx_items.specs.Values.{taken_by, taken_if, text_by, text_if, written_span, referred_span, own_unless};
ghost use Rattle.rx_items.specs.Rules.{name_in, source_seen};

use crate::rules::{ValueSource, source_of};
use crate::spans::Span;
use crate::words::keep_attribute;
use rx_tags::Tag;
use rx_terms::NoMemory;
use rx_values::TextStore;

/// What is known of a value when its element begins.
#[derive(Clone, Copy)]
pub(crate) enum Taken {
    /// None is asked for, or the attribute is absent.
    Empty,
    /// The attribute's value.
    Written(Span),
    /// The attribute's value, which is a reference.
    Reference(Span),
    /// The element's text.
    Text,
    /// Its child text content.
    ChildText,
}

fn written(span: Option<Span>) -> Taken
    ensures { result ≡ written_span span }
{
    match span {
        Some(span) => Taken::Written(span),
        None => Taken::Empty,
    }
}

fn referred(span: Option<Span>) -> Taken
    ensures { result ≡ referred_span span }
{
    match span {
        Some(span) => Taken::Reference(span),
        None => Taken::Empty,
    }
}

fn own_unless(span: Option<Span>) -> Taken
    ensures { result ≡ own_unless span }
{
    match span {
        Some(span) => Taken::Written(span),
        None => Taken::ChildText,
    }
}

/// Whether there is a property name among these.
pub(crate) fn is_named(names: Option<&str>) -> bool
    ensures { result ≡ is_any (tokens (unwrap_or (seen_slice names.entry) [])) }
{
    match names {
        Some(names) => has_token(names),
        None => false,
    }
}

/// Whether anything is left behind the white space at the front. Mostly that looks at one byte.
fn has_token(text: &str) -> bool
    ensures { result ≡ is_any (tokens (chars text.now)) }
{
    !text.trim_ascii_start().is_empty()
}

/// Keeps the value of an element where it is asked for and stands in the tag.
pub(crate) fn take_value(
    words: &mut TextStore,
    tag: &Tag<'_>,
    is_asked: bool,
) -> Result<Taken, NoMemory>
    ensures text { OnOk result (words.new ≡ text_if is_asked words.old (tag_seen tag.now)) }
    ensures value { IfOk result (λ taken. taken ≡ taken_if is_asked words.old (tag_seen tag.now)) }
{
    if !is_asked {
        return Ok(Taken::Empty);
    }
    take_by(words, tag, source_for(tag))
}

fn source_for(tag: &Tag<'_>) -> ValueSource
    ensures source { source_seen result ≡ facts.source_of (tag_seen tag.now).name }
    ensures ascii { list_all is_ascii (name_in (source_seen result)) ≡ true }
{
    source_of(tag.name())
}

fn take_by(words: &mut TextStore, tag: &Tag<'_>, source: ValueSource) -> Result<Taken, NoMemory>
    requires { list_all is_ascii (name_in (source_seen source)) ≡ true }
    ensures text { OnOk result (words.new ≡ text_by (source_seen source) words.old (tag_seen tag.now).attributes) }
    ensures value { IfOk result (λ taken. taken ≡ taken_by (source_seen source) words.old (tag_seen tag.now).attributes) }
{
    match source {
        ValueSource::AsWritten(name) => Ok(written(keep_attribute(words, tag, name)?)),
        ValueSource::AsReference(name) => Ok(referred(keep_attribute(words, tag, name)?)),
        ValueSource::OrOwnText(name) => Ok(own_unless(keep_attribute(words, tag, name)?)),
        ValueSource::AllText => Ok(Taken::Text),
    }
}
