//! The predicates of `property`, `rel` and `rev`.
ghost use Rattle.std.specs.Prelude.{◌≡◌, ◌++◌, false, true, IfOk, OnOk, option_map, option_and_then, option_to_list};
ghost use Rattle.rx_rdfa.specs.Common.{chars, seen_slice, is_relative};
ghost use Rattle.rx_rdfa.specs.Readings as readings;
ghost use Rattle.rx_rdfa.specs.Facts as the;
ghost use Rattle.rx_names.specs.Lines.{vocabulary_of};
ghost use Rattle.rx_names.specs.Views.{names_seen, Along};

use crate::fields::empty;
use crate::made::iri_of;
use crate::makers::IriMaker;
use crate::readings::read_no_term;
use crate::term_iris::{known_term, term_iri};
use rx_names::{NamesView, is_term};
use rx_terms::{Iri, Iris, NoMemory};
use rx_words::first_token;

/// Puts the predicates of `rel` or `rev` into the field, where the attribute counts as present. Beside `property` only CURIEs
/// and texts with a scheme are kept, and an attribute that keeps none counts as absent (HTML+RDFa 1.1, section 3.1).
#[inline(always)]
pub(crate) fn put_link(
    field: &mut Option<Iris>,
    maker: &mut IriMaker,
    names: &NamesView<'_>,
    value: Option<&str>,
    beside_property: bool,
) -> Result<(), NoMemory>
    requires { is_relative (vocabulary_of (names_seen names.now)) ≡ false }
    ensures { OnOk result (Along names.now (λ context line. field.new ≡ option_and_then (the.link context line beside_property) (seen_slice value.entry))) }
{
    let Some(value) = value else {
        empty(field);
        return Ok(());
    };
    *field = link_of(maker, names, value, beside_property)?;
    Ok(())
}

/// The predicates that the value keeps. Most tags have no such attribute, and don't come here.
#[inline(never)]
fn link_of(
    maker: &mut IriMaker,
    names: &NamesView<'_>,
    value: &str,
    beside_property: bool,
) -> Result<Option<Iris>, NoMemory>
    requires { is_relative (vocabulary_of (names_seen names.now)) ≡ false }
    ensures { IfOk result (λ iris. Along names.now (λ context line. iris ≡ the.link context line beside_property (chars value.now))) }
{
    if beside_property {
        return kept_predicates(maker, names, value);
    }
    let iris = predicates(maker, names, value)?;
    Ok(Some(iris))
}

/// Puts the predicates of `property` into the field, where the attribute is there.
#[inline(always)]
pub(crate) fn put_properties(
    field: &mut Option<Iris>,
    maker: &mut IriMaker,
    names: &NamesView<'_>,
    value: Option<&str>,
) -> Result<(), NoMemory>
    requires { is_relative (vocabulary_of (names_seen names.now)) ≡ false }
    ensures { OnOk result (Along names.now (λ context line. field.new ≡ option_map (the.predicates context line) (seen_slice value.entry))) }
{
    let Some(value) = value else {
        empty(field);
        return Ok(());
    };
    let iris = predicates(maker, names, value)?;
    *field = Some(iris);
    Ok(())
}

/// The predicates that the tokens name, in order.
fn predicates(maker: &mut IriMaker, names: &NamesView<'_>, value: &str) -> Result<Iris, NoMemory>
    requires { is_relative (vocabulary_of (names_seen names.now)) ≡ false }
    ensures { IfOk result (λ iris. Along names.now (λ context line. iris ≡ the.predicates context line (chars value.now))) }
{
    let mut iris = Iris::new(maker.alloc);
    let mut rest = value;
    while let Some((token, behind)) = first_token(rest) {
        push_predicate(maker, &mut iris, names, token)?;
        rest = behind;
    }
    Ok(iris)
}

/// The predicates of the tokens that are kept beside `property`, where there is one.
fn kept_predicates(
    maker: &mut IriMaker,
    names: &NamesView<'_>,
    value: &str,
) -> Result<Option<Iris>, NoMemory>
    requires { is_relative (vocabulary_of (names_seen names.now)) ≡ false }
    ensures { IfOk result (λ iris. Along names.now (λ context line. iris ≡ the.link context line true (chars value.now))) }
{
    let mut iris = Iris::new(maker.alloc);
    let mut is_present = false;
    let mut rest = value;
    while let Some((token, behind)) = first_token(rest) {
        if stays_beside_property(names, token) {
            push_predicate(maker, &mut iris, names, token)?;
            is_present = true;
        }
        rest = behind;
    }
    if !is_present {
        return Ok(None);
    }
    Ok(Some(iris))
}

/// Whether the token is kept beside `property`: it is a CURIE or a text with a scheme, and no term.
fn stays_beside_property(names: &NamesView<'_>, token: &str) -> bool
    ensures { Along names.now (λ context line. result ≡ the.stays_beside_property context line (chars token.now)) }
{
    if is_term(token) {
        return false;
    }
    read_no_term(names, token).is_some()
}

/// Adds the predicate that the token names, if it does.
fn push_predicate(
    maker: &mut IriMaker,
    iris: &mut Iris,
    names: &NamesView<'_>,
    token: &str,
) -> Result<(), NoMemory>
    requires { is_relative (vocabulary_of (names_seen names.now)) ≡ false }
    ensures { OnOk result (Along names.now (λ context line. iris.new ≡ iris.old ++ option_to_list (the.predicate context line (chars token.now)))) }
{
    match predicate(maker, names, token)? {
        Some(iri) => iris.push(iri),
        None => Ok(()),
    }
}

/// The predicate or datatype that the token names: a blank node is none.
pub(crate) fn predicate(
    maker: &mut IriMaker,
    names: &NamesView<'_>,
    token: &str,
) -> Result<Option<Iri>, NoMemory>
    requires { is_relative (vocabulary_of (names_seen names.now)) ≡ false }
    ensures { IfOk result (λ iri. Along names.now (λ context line. iri ≡ the.predicate context line (chars token.now))) }
{
    if let Some(iri) = known_term(maker, names, token) {
        let iri = iri.try_clone()?;
        return Ok(Some(iri));
    }
    if is_term(token) {
        return term_iri(maker, names, token);
    }
    iri_of_no_term(maker, names, token)
}

/// The IRI of a token that is no term.
fn iri_of_no_term(
    maker: &mut IriMaker,
    names: &NamesView<'_>,
    token: &str,
) -> Result<Option<Iri>, NoMemory>
    ensures { IfOk result (λ iri. Along names.now (λ context line. iri ≡ option_and_then the.iri_of (readings.read_no_term context line (chars token.now)))) }
{
    match read_no_term(names, token) {
        Some(reading) => iri_of(maker, reading),
        None => Ok(None),
    }
}
