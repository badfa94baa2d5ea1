//! What says how a literal is meant: datatype, vocabulary and language.
ghost use Rattle.std.specs.Prelude.{◌≡◌, ◌++◌, false, OnOk, Some, option_map, bytes_eq, true};
ghost use Rattle.rx_rdfa.specs.Common.{list_all, chars, is_ascii, has_scheme, Chars, seen_slice, cleaned, language, unless_empty, is_relative};
ghost use Rattle.rx_rdfa.specs.Facts as the;
ghost use Rattle.rx_names.specs.Lines.{vocabulary_of};
ghost use Rattle.rx_names.specs.Views.{names_seen, Along};
ghost use Rattle.rx_curie.specs.Given.{own_vocabulary, datatype_in};
ghost use Rattle.rx_curie.specs.Seen.{datatype_seen};

use crate::comparisons::is_same;
use crate::facts::Datatype;
use crate::fields::empty;
use crate::makers::IriMaker;
use crate::predicates::predicate;
use rx_names::{Attributes, NamesView};
use rx_refs::has_scheme;
use rx_terms::{Iri, Lang, NoMemory};
use rx_words::{behind, is_empty, trim};
use std::alloc::Global;

/// Puts the datatype into the field, where the attribute is there. It is read as one token; one that can't be read, and
/// rdf:langString, count as the empty one.
#[inline(always)]
pub(crate) fn put_datatype(
    field: &mut Option<Datatype>,
    maker: &mut IriMaker,
    names: &NamesView<'_>,
    value: Option<&str>,
) -> Result<(), NoMemory>
    requires { is_relative (vocabulary_of (names_seen names.now)) ≡ false }
    ensures { OnOk result (Along names.now (λ context line. option_map datatype_seen field.new ≡ datatype_in context line (seen_slice value.entry))) }
{
    let Some(value) = value else {
        empty(field);
        return Ok(());
    };
    let datatype = predicate(maker, names, trim(value))?;
    *field = Some(datatype_of(datatype));
    Ok(())
}

fn datatype_of(iri: Option<Iri>) -> Datatype
    ensures { datatype_seen result ≡ the.attribute_datatype iri }
{
    match iri {
        Some(iri) => {
            if is_word(
                iri.as_str(),
                "http://www.w3.org/1999/02/22-rdf-syntax-ns#langString",
            ) {
                return Datatype::Empty;
            }
            Datatype::Is(iri)
        }
        None => Datatype::Empty,
    }
}

/// Whether the text is this word, which is ASCII.
pub(crate) fn is_word(text: &str, word: &str) -> bool
    requires { list_all is_ascii word.now ≡ true }
    ensures { result ≡ bytes_eq (chars text.now) word.now }
{
    text == word
}

/// The vocabulary that a tag with these attributes declares, where that isn't empty.
pub(crate) fn own_vocabulary<'a>(attributes: &Attributes<'a>) -> Option<&'a str>
    ensures { seen_slice result ≡ own_vocabulary attributes.now }
{
    match attributes.value("vocab") {
        Some(value) => unless_empty(trim(value)),
        None => None,
    }
}

fn unless_empty(text: &str) -> Option<&str>
    ensures { seen_slice result ≡ unless_empty (chars text.now) }
{
    if is_empty(text) {
        return None;
    }
    Some(text)
}

/// Whether there is a vocabulary, and it has no scheme.
pub(crate) fn is_relative(vocabulary: Option<&str>) -> bool
    ensures { result ≡ is_relative (seen_slice vocabulary.entry) }
{
    match vocabulary {
        Some(vocabulary) => !is_absolute(vocabulary),
        None => false,
    }
}

/// Whether the text has a scheme. Most vocabularies begin with the scheme of HTTP, which is told without a search.
fn is_absolute(text: &str) -> bool
    ensures { result ≡ has_scheme (chars text.now) }
{
    begins_with(text, "https:") || begins_with(text, "http:") || has_scheme(text)
}

/// Whether the text begins with this scheme and its colon.
fn begins_with(text: &str, scheme: &str) -> bool
    requires { (rest : Chars) → has_scheme (chars scheme.now ++ rest) ≡ true }
    ensures { result ≡ true → has_scheme (chars text.now) ≡ true }
{
    behind(text, scheme).is_some()
}

/// Puts the IRI of the vocabulary that the tag declares into the field, where there is one.
#[inline(always)]
pub(crate) fn put_vocabulary(
    field: &mut Option<Iri>,
    maker: &mut IriMaker,
    declared: Option<&str>,
) -> Result<(), NoMemory>
    requires { is_relative (seen_slice declared) ≡ false }
    ensures { OnOk result (field.new ≡ option_map cleaned (seen_slice declared.entry)) }
{
    let Some(declared) = declared else {
        empty(field);
        return Ok(());
    };
    let iri = maker.cleaned(declared)?;
    *field = Some(iri);
    Ok(())
}

/// Puts the current language into the field.
#[inline(always)]
pub(crate) fn put_language(
    field: &mut Option<Lang>,
    alloc: Global,
    names: &NamesView<'_>,
) -> Result<(), NoMemory>
    ensures { OnOk result (Along names.now (λ context line. field.new ≡ language line)) }
{
    let Some(language) = names.lang() else {
        empty(field);
        return Ok(());
    };
    // mostly it is that of the tag before
    if is_language(field, language) {
        return Ok(());
    }
    *field = Lang::of(alloc, language)?;
    Ok(())
}

/// Whether the field has this language.
fn is_language(field: &Option<Lang>, language: &str) -> bool
    ensures { result ≡ true → field.now ≡ Some (chars language.now) }
{
    match field {
        Some(lang) => is_same(lang.as_str(), language),
        None => false,
    }
}
