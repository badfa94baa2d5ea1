//! What a reference means against a base.
ghost use Rattle.std.specs.Prelude.{◌≡◌, ◌++◌, IfOk, IfSome, take, drop, string_bytes, encode_utf8_all};
ghost use Rattle.rx_terms.specs.Common.{chars, IsCharBoundary, IsIri};
ghost use Rattle.rx_refs.specs.Resolve.{resolved, without_fragment};
ghost use Rattle.rx_refs.specs.Plain.{IsSplit};

use crate::escapes::clean_string;
use crate::parts::split;
use crate::plain::{Split, climbed, front_length, split_of, stands_alone};
use crate::recomposition::recompose;
use crate::slices::cut;
use crate::targets::target_of;
use rx_terms::{Iri, NoMemory};
use rx_words::trim;
use std::alloc::Global;

/// What the reference means against the base, by RFC 3986, section 5.2.2, strict. The reference is trimmed first, and
/// each character that no IRI may have becomes its escape last. Every text is a reference.
pub fn resolve(alloc: Global, base: &Iri, reference: &str) -> Result<Iri, NoMemory>
    ensures meaning { IfOk result (λ iri. iri ≡ resolved base.now (chars reference.now)) }
    ensures iri { IfOk result (λ iri. IsIri iri) }
{
    resolve_split(alloc, base, split_of(base.as_str()), reference)
}

/// The same, where it is told how the base may be cut.
pub(crate) fn resolve_split(
    alloc: Global,
    base: &Iri,
    split: Option<Split>,
    reference: &str,
) -> Result<Iri, NoMemory>
    requires { IfSome split (IsSplit (encode_utf8_all base.now)) }
    ensures meaning { IfOk result (λ iri. iri ≡ resolved base.now (chars reference.now)) }
    ensures iri { IfOk result (λ iri. IsIri iri) }
{
    if let Some(front) = front_length(base.as_str(), split, reference) {
        return behind_front(alloc, base, front, reference);
    }
    if let Some((front, left_out)) = climbed(base.as_str(), split, reference) {
        return behind_climbs(alloc, base, front, reference, left_out);
    }
    if stands_alone(reference) {
        return itself(alloc, base, reference);
    }
    resolve_by_parts(alloc, base, reference)
}

/// The reference, where it means itself.
fn itself(alloc: Global, base: &Iri, reference: &str) -> Result<Iri, NoMemory>
    requires { resolved base.now (chars reference.now) ≡ chars reference.now }
    ensures meaning { IfOk result (λ iri. iri ≡ resolved base.now (chars reference.now)) }
    ensures iri { IfOk result (λ iri. IsIri iri) }
{
    let _base = base.as_str();
    let text = String::from_str(alloc, reference)?;
    Iri::of_string(alloc, text)
}

/// The base up to a place and then the reference, where that is what it means.
fn behind_front(alloc: Global, base: &Iri, front: usize, reference: &str) -> Result<Iri, NoMemory>
    requires boundary { IsCharBoundary (encode_utf8_all base.now) front }
    requires meaning { resolved base.now (chars reference.now) ≡ chars (take front (encode_utf8_all base.now)) ++ chars reference.now }
    ensures meaning { IfOk result (λ iri. iri ≡ resolved base.now (chars reference.now)) }
    ensures iri { IfOk result (λ iri. IsIri iri) }
{
    let whole = joined(alloc, &base.as_str()[..front], reference)?;
    Iri::of_string(alloc, whole)
}

/// The base up to a place and then the reference from a place on, where that is what it means.
fn behind_climbs(
    alloc: Global,
    base: &Iri,
    front: usize,
    reference: &str,
    left_out: usize,
) -> Result<Iri, NoMemory>
    requires boundary { IsCharBoundary (encode_utf8_all base.now) front }
    requires cut { IsCharBoundary reference.now left_out }
    requires meaning { resolved base.now (chars reference.now) ≡ chars (take front (encode_utf8_all base.now)) ++ chars (drop left_out reference.now) }
    ensures meaning { IfOk result (λ iri. iri ≡ resolved base.now (chars reference.now)) }
    ensures iri { IfOk result (λ iri. IsIri iri) }
{
    let whole = joined(alloc, &base.as_str()[..front], &reference[left_out..])?;
    Iri::of_string(alloc, whole)
}

/// The one text behind the other.
fn joined(alloc: Global, front: &str, rest: &str) -> Result<String, NoMemory>
    ensures { IfOk result (λ text. chars (string_bytes text) ≡ chars front.now ++ chars rest.now) }
{
    let mut text = String::with_capacity(alloc, front.len() + rest.len())?;
    text.push_str(front)?;
    text.push_str(rest)?;
    Ok(text)
}

/// The same by all components.
#[inline(never)]
fn resolve_by_parts(alloc: Global, base: &Iri, reference: &str) -> Result<Iri, NoMemory>
    ensures meaning { IfOk result (λ iri. iri ≡ resolved base.now (chars reference.now)) }
    ensures iri { IfOk result (λ iri. IsIri iri) }
{
    let target = target_of(split(base.as_str()), split(trim(reference)));
    let text = recompose(alloc, &target)?;
    let clean = clean_string(alloc, text)?;
    Iri::of_string(alloc, clean)
}

/// The IRI up to its first `#`.
pub fn without_fragment(alloc: Global, iri: &Iri) -> Result<Iri, NoMemory>
    ensures text { IfOk result (λ front. front ≡ without_fragment iri.now) }
    ensures iri { IfOk result (λ front. IsIri front) }
{
    let (front, _fragment) = cut(iri.as_str(), '#');
    let text = String::from_str(alloc, front)?;
    Iri::of_string(alloc, text)
}
