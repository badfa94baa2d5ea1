//! What a start tag declares.
ghost use Rattle.std.specs.Prelude.{◌≡◌, [], ◌∷◌, ◌++◌, OnOk, IfOk};
ghost use Rattle.rx_rdfa.specs.Common.{flat_map, chars, lowered, tokens, seen_slice, counts, xmlns_of, of_prefix, pairs, unless_empty, attribute};
ghost use Rattle.rx_tags.specs.Seen.{tag_seen};
ghost use Rattle.rx_rdfa.specs.Pages.{token_tag};
ghost use Rattle.rx_names.specs.Rows.{declared_rows, mapping_rows, vocabulary_rows, language_rows, language_attribute};

use crate::attributes::Attributes;
use crate::rows::{Declaration, Rows};
use crate::words::{is_low_line, is_nc_name};
use rx_tags::Tag;
use rx_terms::{Lang, NoMemory, Text, has_scheme};
use rx_words::{behind, first_token, is_empty, lower, split_last, trim};
use std::alloc::Global;

/// Adds what the tag with these attributes declares. After want of memory some of it may stand there.
pub(crate) fn push_declarations(
    alloc: Global,
    rows: &mut Rows,
    attributes: &Attributes<'_>,
) -> Result<(), NoMemory>
    ensures ok { OnOk result (rows.new ≡ rows.old ++ declared_rows attributes.now) }
{
    push_namespaces(alloc, rows, attributes.tag())?;
    push_prefixes(alloc, rows, attributes.value("prefix"))?;
    push_vocabulary(alloc, rows, attributes.value("vocab"))?;
    push_language(alloc, rows, language_attribute(attributes))
}

/// The attribute that says the language: `xml:lang`, or else `lang`.
fn language_attribute<'a>(attributes: &Attributes<'a>) -> Option<&'a str>
    ensures value { seen_slice result ≡ language_attribute attributes.now }
{
    match attributes.value("xml:lang") {
        Some(value) => Some(value),
        None => attributes.value("lang"),
    }
}

/// The attributes `xmlns:NAME`.
fn push_namespaces(alloc: Global, rows: &mut Rows, tag: &Tag<'_>) -> Result<(), NoMemory>
    ensures ok { OnOk result (rows.new ≡ rows.old ++ mapping_rows (flat_map xmlns_of (token_tag (tag_seen tag.now)).attributes)) }
{
    for i in 0..tag.count() {
        let (name, value) = tag.attr_at(i);
        push_namespace(alloc, rows, name, value)?;
    }
    Ok(())
}

fn push_namespace(alloc: Global, rows: &mut Rows, name: &str, value: &str) -> Result<(), NoMemory>
    ensures ok { OnOk result (rows.new ≡ rows.old ++ mapping_rows (xmlns_of (chars name.now, chars value.now))) }
{
    match behind(name, "xmlns:") {
        Some(name) => push_mapping(alloc, rows, name, trim(value)),
        None => Ok(()),
    }
}

/// The pairs of the attribute `prefix`: each token that ends in a colon with the token after it.
fn push_prefixes(alloc: Global, rows: &mut Rows, value: Option<&str>) -> Result<(), NoMemory>
    ensures ok { OnOk result (rows.new ≡ rows.old ++ mapping_rows (of_prefix (seen_slice value.entry))) }
{
    match value {
        Some(value) => push_pairs(alloc, rows, value),
        None => Ok(()),
    }
}

fn push_pairs(alloc: Global, rows: &mut Rows, value: &str) -> Result<(), NoMemory>
    ensures ok { OnOk result (rows.new ≡ rows.old ++ mapping_rows (pairs (tokens (chars value.now)))) }
{
    let mut waiting = None;
    let mut rest = value;
    while let Some((token, behind)) = first_token(rest) {
        match waiting {
            Some(name) => {
                push_mapping(alloc, rows, name, token)?;
                waiting = None;
            }
            None => waiting = split_last(token, ':'),
        }
        rest = behind;
    }
    Ok(())
}

/// A prefix and its IRI, where the declaration counts.
fn push_mapping(alloc: Global, rows: &mut Rows, name: &str, iri: &str) -> Result<(), NoMemory>
    ensures ok { OnOk result (rows.new ≡ rows.old ++ mapping_rows ((lowered (chars name.now), chars iri.now) ∷ [])) }
{
    let name = lower(alloc, name)?;
    if !counts(name.as_str(), iri) {
        return Ok(());
    }
    let iri = Text::of(alloc, iri)?;
    rows.push(Declaration::Prefix(name, iri))
}

/// Whether a declaration counts: the prefix is an NCName other than `_`, and the IRI has a scheme.
fn counts(name: &str, iri: &str) -> bool
    ensures { result ≡ counts (chars name.now, chars iri.now) }
{
    is_nc_name(name) && !is_low_line(name) && has_scheme(iri)
}

fn push_vocabulary(alloc: Global, rows: &mut Rows, value: Option<&str>) -> Result<(), NoMemory>
    ensures ok { OnOk result (rows.new ≡ rows.old ++ vocabulary_rows (seen_slice value.entry)) }
{
    let Some(value) = value else {
        return Ok(());
    };
    let vocabulary = text_unless_empty(alloc, trim(value))?;
    rows.push(Declaration::Vocabulary(vocabulary))
}

fn text_unless_empty(alloc: Global, text: &str) -> Result<Option<Text>, NoMemory>
    ensures { IfOk result (λ some. some ≡ unless_empty (chars text.now)) }
{
    if is_empty(text) {
        return Ok(None);
    }
    let text = Text::of(alloc, text)?;
    Ok(Some(text))
}

fn push_language(alloc: Global, rows: &mut Rows, value: Option<&str>) -> Result<(), NoMemory>
    ensures ok { OnOk result (rows.new ≡ rows.old ++ language_rows (seen_slice value.entry)) }
{
    let Some(value) = value else {
        return Ok(());
    };
    let language = Lang::of(alloc, value)?;
    rows.push(Declaration::Language(language))
}
