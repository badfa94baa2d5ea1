//! The types of `typeof`.
ghost use Rattle.std.specs.Prelude.{◌≡◌, false, true, IfOk, OnOk, option_map};
ghost use Rattle.rx_rdfa.specs.Common.{chars, seen_slice, is_relative, is_term};
ghost use Rattle.rx_rdfa.specs.Readings as readings;
ghost use Rattle.rx_rdfa.specs.Facts as the;
ghost use Rattle.rx_names.specs.Lines.{vocabulary_of};
ghost use Rattle.rx_names.specs.Views.{names_seen, Along};
ghost use Rattle.rx_curie.specs.Seen.{refs_seen, GainsType};

use crate::fields::empty;
use crate::made::ref_of;
use crate::makers::IriMaker;
use crate::nodes::TypeList;
use crate::readings::read_no_term;
use crate::refs::Ref;
use crate::term_iris::{known_term, term_iri};
use rx_names::{NamesView, is_term};
use rx_terms::NoMemory;
use rx_words::first_token;

/// Puts the types into the field, where the attribute is there.
#[inline(always)]
pub(crate) fn put_types(
    field: &mut Option<TypeList>,
    maker: &mut IriMaker,
    names: &NamesView<'_>,
    value: Option<&str>,
) -> Result<(), NoMemory>
    requires { is_relative (vocabulary_of (names_seen names.now)) ≡ false }
    ensures { OnOk result (Along names.now (λ context line. option_map refs_seen field.new ≡ option_map (the.types_of context line) (seen_slice value.entry))) }
{
    let Some(value) = value else {
        empty(field);
        return Ok(());
    };
    let types = types_of(maker, names, value)?;
    *field = Some(types);
    Ok(())
}

/// The types that the tokens name, in order.
fn types_of(maker: &mut IriMaker, names: &NamesView<'_>, value: &str) -> Result<TypeList, NoMemory>
    requires { is_relative (vocabulary_of (names_seen names.now)) ≡ false }
    ensures { IfOk result (λ types. Along names.now (λ context line. refs_seen types ≡ the.types_of context line (chars value.now))) }
{
    let mut types = TypeList::new(maker.alloc);
    let mut rest = value;
    while let Some((token, behind)) = first_token(rest) {
        push_type(maker, &mut types, names, token)?;
        rest = behind;
    }
    Ok(types)
}

/// Adds the type that the token names, if it does.
fn push_type(
    maker: &mut IriMaker,
    types: &mut TypeList,
    names: &NamesView<'_>,
    token: &str,
) -> Result<(), NoMemory>
    requires { is_relative (vocabulary_of (names_seen names.now)) ≡ false }
    ensures { OnOk result (Along names.now (λ context line. GainsType types.old types.new (readings.read_term context line (chars token.now)))) }
{
    if let Some(iri) = known_term(maker, names, token) {
        return types.push(Ref::Iri(iri.try_clone()?));
    }
    if is_term(token) {
        return push_term(maker, types, names, token);
    }
    push_no_term(maker, types, names, token)
}

/// The same of a term.
fn push_term(
    maker: &mut IriMaker,
    types: &mut TypeList,
    names: &NamesView<'_>,
    token: &str,
) -> Result<(), NoMemory>
    requires term { is_term (chars token.now) ≡ true }
    requires vocabulary { is_relative (vocabulary_of (names_seen names.now)) ≡ false }
    ensures { OnOk result (Along names.now (λ context line. GainsType types.old types.new (readings.read_term context line (chars token.now)))) }
{
    match term_iri(maker, names, token)? {
        Some(iri) => types.push(Ref::Iri(iri)),
        None => Ok(()),
    }
}

/// The same of a token that is no term.
fn push_no_term(
    maker: &mut IriMaker,
    types: &mut TypeList,
    names: &NamesView<'_>,
    token: &str,
) -> Result<(), NoMemory>
    ensures { OnOk result (Along names.now (λ context line. GainsType types.old types.new (readings.read_no_term context line (chars token.now)))) }
{
    let Some(reading) = read_no_term(names, token) else {
        return Ok(());
    };
    let node = ref_of(maker, reading)?;
    types.push(node)
}
