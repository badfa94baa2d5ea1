//! The faults for which a start tag is refused.
ghost use Rattle.std.specs.Prelude.{◌≡◌, ◌++◌, false, true, None, Some, bytes_eq, option_map};
ghost use Rattle.rx_rdfa.specs.Common.{list_all, chars, is_ascii, seen_slice, is_relative, refusal};
ghost use Rattle.rx_rdfa.specs.Facts as the;
ghost use Rattle.rx_names.specs.Lines.{vocabulary_of};
ghost use Rattle.rx_names.specs.Views.{names_seen, Along};
ghost use Rattle.rx_curie.specs.Given.{own_vocabulary, kind_of_refusal, OnFacts};
ghost use Rattle.rx_curie.specs.Refusing.{is_that_iri, is_uncleaned, markup, markup_of, kind_or_none};
ghost use Rattle.rx_curie.specs.Seen.{reading_seen};

use crate::comparisons::are_text;
use crate::literals::{is_relative, is_word, own_vocabulary};
use crate::readings::{Reading, read_term};
use rx_grammar::Kind;
use rx_names::{Attributes, NamesView};
use rx_words::trim;

/// The fault for which a start tag with these attributes is refused under these names, or `None` exactly where it has facts,
/// where no element around declares a vocabulary without a scheme. The first that holds is answered: `RelativeVocab` where
/// the tag declares such a vocabulary, `XmlLiteral` where it has `property` and a datatype that reads as rdf:XMLLiteral,
/// `HtmlLiteral` where that is rdf:HTML. No memory is taken.
#[inline]
pub fn refusal_below(attributes: &Attributes<'_>, names: &NamesView<'_>) -> Option<Kind>
    ensures line { OnFacts names.now attributes.now (λ facts. result ≡ option_map kind_of_refusal (refusal facts)) }
    ensures own { result ≡ None → is_relative (own_vocabulary attributes.now) ≡ false }
    ensures kinds { kind_or_none result ≡ true }
{
    if is_relative(own_vocabulary(attributes)) {
        return Some(Kind::RelativeVocab);
    }
    match attributes.value("property") {
        Some(_property) => markup_of(names, attributes.value("datatype")),
        None => None,
    }
}

/// The same wherever the tag stands: where an element around declares the vocabulary in force, and that has no scheme, the
/// answer is `RelativeVocab`, too.
pub(crate) fn refusal_by(attributes: &Attributes<'_>, names: &NamesView<'_>) -> Option<Kind>
    ensures line { OnFacts names.now attributes.now (λ facts. result ≡ option_map kind_of_refusal (refusal facts)) }
    ensures relative { is_relative (vocabulary_of (names_seen names.now)) ≡ true → result ≡ Some Kind.RelativeVocab }
    ensures own { result ≡ None → is_relative (own_vocabulary attributes.now) ≡ false }
    ensures absolute { result ≡ None → is_relative (vocabulary_of (names_seen names.now)) ≡ false }
    ensures kinds { kind_or_none result ≡ true }
{
    if is_relative(names.vocab()) {
        return Some(Kind::RelativeVocab);
    }
    refusal_below(attributes, names)
}

/// The kind of markup that a literal with this attribute `datatype` is, if it is any.
fn markup_of(names: &NamesView<'_>, value: Option<&str>) -> Option<Kind>
    ensures line { Along names.now (λ context line. result ≡ option_map kind_of_refusal (markup_of context line (seen_slice value.entry))) }
    ensures kinds { kind_or_none result ≡ true }
{
    let Some(value) = value else {
        return None;
    };
    match read_term(names, trim(value)) {
        Some(datatype) => markup(datatype),
        None => None,
    }
}

/// The kind of markup that the reading names as a datatype, if it is any.
fn markup(datatype: Reading<'_>) -> Option<Kind>
    ensures value { result ≡ option_map kind_of_refusal (markup (the.iri_of (reading_seen datatype.entry))) }
    ensures kinds { kind_or_none result ≡ true }
{
    if makes(
        datatype,
        "http://www.w3.org/1999/02/22-rdf-syntax-ns#XMLLiteral",
    ) {
        return Some(Kind::XmlLiteral);
    }
    if makes(datatype, "http://www.w3.org/1999/02/22-rdf-syntax-ns#HTML") {
        return Some(Kind::HtmlLiteral);
    }
    None
}

/// Whether the reading makes this IRI, which is ASCII and has neither escapes nor what is to be escaped.
fn makes(reading: Reading<'_>, iri: &str) -> bool
    requires ascii { list_all is_ascii iri.now ≡ true }
    requires clean { list_all is_uncleaned iri.now ≡ true }
    ensures { result ≡ is_that_iri (the.iri_of (reading_seen reading.entry)) iri.now }
{
    match reading {
        Reading::Full(whole) => is_word(whole, iri),
        Reading::Joined(front, more) => are_word(front, more, iri),
        Reading::Label(_label) => false,
        Reading::Reference(_reference) => false,
    }
}

/// Whether the two texts, the second behind the first, are this word, which is ASCII.
fn are_word(front: &str, more: &str, word: &str) -> bool
    requires { list_all is_ascii word.now ≡ true }
    ensures { result ≡ bytes_eq (chars front.now ++ chars more.now) word.now }
{
    are_text(front, more, word)
}
