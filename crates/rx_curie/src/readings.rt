//! What a word of an attribute means.
ghost use Rattle.std.specs.Prelude.{◌≡◌, true, false, Option, Some, None, option_map, codes, if◌then◌else◌};
ghost use Rattle.rx_rdfa.specs.Common.{chars, begins_with, seen_slice, vocab, is_relative, has_scheme};
ghost use Rattle.rx_rdfa.specs.Readings as the;
ghost use Rattle.rx_names.specs.Lines.{vocabulary_of};
ghost use Rattle.rx_names.specs.Views.{names_seen, Along};
ghost use Rattle.rx_curie.specs.Brackets.{inside_brackets};
ghost use Rattle.rx_curie.specs.Absolute.{none_or_absolute, none_or_named};
ghost use Rattle.rx_curie.specs.Seen.{reading_seen};

use rx_names::{NamesView, is_low_line, is_term};
use rx_refs::has_scheme;
use rx_words::{behind, is_empty, split_last, split_once, trim};

/// What a word of an attribute means (RDFa Core 1.1, section 7.4), as slices of it and of the names in force.
#[derive(Clone, Copy, Debug, PartialEq, Eq)]
pub enum Reading<'a> {
    /// An IRI.
    Full(&'a str),
    /// An IRI in two parts: that of a prefix or vocabulary, and what follows it.
    Joined(&'a str, &'a str),
    /// An author's blank node, by what follows its `_:`.
    Label(&'a str),
    /// A reference that is still to be resolved against the base.
    Reference(&'a str),
}

/// The empty prefix (RDFa Core 1.1, section 7.4.2).
const XHTML_VOCABULARY: &str = "http://www.w3.org/1999/xhtml/vocab#";

/// What a token of `property`, `rel`, `rev`, `typeof` or `datatype` means, or `None` exactly where it means nothing
/// (TERMorCURIEorAbsIRI; RDFa Core 1.1, section 7.4.4). No memory is taken.
pub fn read_term<'a>(names: &NamesView<'a>, text: &'a str) -> Option<Reading<'a>>
    ensures line { Along names.now (λ context line. option_map reading_seen result ≡ the.read_term context line (chars text.now)) }
    ensures absolute { is_relative (vocabulary_of (names_seen names.now)) ≡ false → none_or_absolute (option_map reading_seen result) ≡ true }
    ensures named { none_or_named (option_map reading_seen result) ≡ true }
{
    if is_term(text) {
        return read_as_term(names, text);
    }
    read_no_term(names, text)
}

/// What the value of `about` or `resource` means, or `None` exactly where it means nothing (SafeCURIEorCURIEorIRI; RDFa
/// Core 1.1, section 7.4.5). No memory is taken.
pub fn read_resource<'a>(names: &NamesView<'a>, text: &'a str) -> Option<Reading<'a>>
    ensures line { Along names.now (λ context line. option_map reading_seen result ≡ the.read_resource context line (chars text.now)) }
    ensures absolute { none_or_absolute (option_map reading_seen result) ≡ true }
{
    read_trimmed(names, trim(text))
}

/// A term, under the default vocabulary or without one.
fn read_as_term<'a>(names: &NamesView<'a>, text: &'a str) -> Option<Reading<'a>>
    ensures line { Along names.now (λ context line. option_map reading_seen result ≡ the.read_as_term context line (vocab line) (chars text.now)) }
    ensures absolute { is_relative (vocabulary_of (names_seen names.now)) ≡ false → none_or_absolute (option_map reading_seen result) ≡ true }
    ensures named { none_or_named (option_map reading_seen result) ≡ true }
{
    if let Some(vocabulary) = names.vocab() {
        return Some(Reading::Joined(vocabulary, text));
    }
    match names.term(text) {
        Some(iri) => Some(Reading::Full(iri)),
        None => None,
    }
}

/// A CURIE or a text with a scheme.
pub(crate) fn read_no_term<'a>(names: &NamesView<'a>, text: &'a str) -> Option<Reading<'a>>
    ensures line { Along names.now (λ context line. option_map reading_seen result ≡ the.read_no_term context line (chars text.now)) }
    ensures absolute { none_or_absolute (option_map reading_seen result) ≡ true }
    ensures named { none_or_named (option_map reading_seen result) ≡ true }
{
    match read_curie(names, text) {
        Some(reading) => Some(reading),
        None => full_if_scheme(text),
    }
}

fn full_if_scheme(text: &str) -> Option<Reading<'_>>
    ensures reading { option_map reading_seen result ≡ (if has_scheme (chars text.now) then Some (the.Full (chars text.now)) else None) }
    ensures absolute { none_or_absolute (option_map reading_seen result) ≡ true }
    ensures named { none_or_named (option_map reading_seen result) ≡ true }
{
    if has_scheme(text) {
        return Some(Reading::Full(text));
    }
    None
}

/// A CURIE.
fn read_curie<'a>(names: &NamesView<'a>, text: &'a str) -> Option<Reading<'a>>
    ensures line { Along names.now (λ context line. option_map reading_seen result ≡ the.read_curie context line (chars text.now)) }
    ensures absolute { none_or_absolute (option_map reading_seen result) ≡ true }
    ensures named { none_or_named (option_map reading_seen result) ≡ true }
{
    let Some((prefix, reference)) = split_once(text, ':') else {
        return None;
    };
    if begins_with_slashes(reference) {
        return None;
    }
    read_parts(names, prefix, reference)
}

/// A prefix with the reference behind its colon.
fn read_parts<'a>(names: &NamesView<'a>, prefix: &'a str, reference: &'a str) -> Option<Reading<'a>>
    ensures line { Along names.now (λ context line. option_map reading_seen result ≡ the.read_parts context line (chars prefix.now) (chars reference.now)) }
    ensures absolute { none_or_absolute (option_map reading_seen result) ≡ true }
    ensures named { none_or_named (option_map reading_seen result) ≡ true }
{
    if is_empty(prefix) {
        return Some(Reading::Joined(XHTML_VOCABULARY, reference));
    }
    if is_low_line(prefix) {
        return Some(Reading::Label(reference));
    }
    match names.prefix(prefix) {
        Some(iri) => Some(Reading::Joined(iri, reference)),
        None => None,
    }
}

/// A text without white space at its ends: a CURIE in brackets, a CURIE or a reference.
fn read_trimmed<'a>(names: &NamesView<'a>, text: &'a str) -> Option<Reading<'a>>
    ensures line { Along names.now (λ context line. option_map reading_seen result ≡ the.read_trimmed context line (chars text.now)) }
    ensures absolute { none_or_absolute (option_map reading_seen result) ≡ true }
{
    match bracketed(text) {
        Some(inside) => read_curie(names, inside),
        None => curie_or_reference(names, text),
    }
}

/// What stands between `[` at the text's front and `]` at its end.
fn bracketed(text: &str) -> Option<&str>
    ensures { seen_slice result ≡ inside_brackets (chars text.now) }
{
    match behind(text, "[") {
        Some(rest) => split_last(rest, ']'),
        None => None,
    }
}

fn curie_or_reference<'a>(names: &NamesView<'a>, text: &'a str) -> Option<Reading<'a>>
    ensures line { Along names.now (λ context line. option_map reading_seen result ≡ the.curie_or_reference context line (chars text.now)) }
    ensures absolute { none_or_absolute (option_map reading_seen result) ≡ true }
{
    match read_curie(names, text) {
        Some(reading) => Some(reading),
        None => Some(Reading::Reference(text)),
    }
}

fn begins_with_slashes(text: &str) -> bool
    ensures { result ≡ begins_with (codes "//") (chars text.now) }
{
    behind(text, "//").is_some()
}
