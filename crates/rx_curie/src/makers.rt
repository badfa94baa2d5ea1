//! The IRIs of readings, of which a page has few, and most of them many times.
ghost use Rattle.std.specs.Prelude.{◌≡◌, ◌++◌, true, IfOk, IfSome};
ghost use Rattle.rx_rdfa.specs.Common.{chars, has_scheme, cleaned, is_term};
ghost use Rattle.rx_curie.specs.TermIris.{IsTermIri};

use crate::comparisons::are_text;
use crate::term_iris::TermIri;
use rx_refs::{clean_copy, push_clean};
use rx_terms::{Iri, NoMemory};
use std::alloc::Global;

/// How many IRIs a maker keeps.
const PLACES: usize = 256;

/// How many IRIs of terms it keeps beside these.
const TERM_PLACES: usize = 256;

/// An odd number whose bits are mixed (2^64 through the golden ratio): each bit of a number moves the highest bits of the
/// product.
const MIXER: u64 = 0x9E37_79B9_7F4A_7C15;

/// How many of a text's last bytes tell its place. IRIs of one page mostly differ at their ends.
const TOLD: usize = 8;

/// Makes the IRIs of readings, and keeps those that it made lately, so that one that comes again is shared. An IRI that is
/// shared is the one that would be made, so what is kept is no part of any contract.
#[derive(Drop)]
pub struct IriMaker {
    pub(crate) alloc: Global,
    // An IRI stands in the place of its text, where the next one that has this place takes its stead.
    places: Vec<Option<Iri>>,
    // The same of terms. There are no places before the first term.
    terms: Vec<Option<TermIri>>,
}

impl IriMaker {
    /// A maker that keeps no IRI yet.
    pub fn new(alloc: Global) -> Result<IriMaker, NoMemory> {
        let mut places = Vec::new(alloc);
        places.resize_with(PLACES, || None)?;
        Ok(IriMaker {
            alloc,
            places,
            terms: Vec::new(alloc),
        })
    }

    /// The IRI, with escapes for the characters that no IRI may have.
    pub(crate) fn cleaned(&mut self, iri: &str) -> Result<Iri, NoMemory>
        requires { has_scheme (chars iri.now) ≡ true }
        ensures { IfOk result (λ made. made ≡ cleaned (chars iri.now)) }
    {
        let place = place_of("", iri);
        if let Some(kept) = self.kept(place, "", iri) {
            return kept.try_clone();
        }
        let made = cleaned(self.alloc, iri)?;
        self.keep(place, &made)?;
        Ok(made)
    }

    /// The IRI of these two parts, with the same escapes.
    pub(crate) fn joined(&mut self, front: &str, more: &str) -> Result<Iri, NoMemory>
        requires { has_scheme (chars front.now) ≡ true }
        ensures { IfOk result (λ made. made ≡ cleaned (chars front.now ++ chars more.now)) }
    {
        let place = place_of(front, more);
        if let Some(kept) = self.kept(place, front, more) {
            return kept.try_clone();
        }
        let made = joined(self.alloc, front, more)?;
        self.keep(place, &made)?;
        Ok(made)
    }

    /// The IRI of a term under a vocabulary, which is kept for both.
    pub(crate) fn term(&mut self, vocabulary: &str, term: &str) -> Result<Iri, NoMemory>
        requires scheme { has_scheme (chars vocabulary.now) ≡ true }
        requires term { is_term (chars term.now) ≡ true }
        ensures { IfOk result (λ made. made ≡ cleaned (chars vocabulary.now ++ chars term.now)) }
    {
        let iri = self.joined(vocabulary, term)?;
        self.keep_term(vocabulary, term, &iri)?;
        Ok(iri)
    }

    /// What is kept in the place of this term.
    pub(crate) fn term_at(&self, term: &str) -> Option<&TermIri> {
        match self.terms.get(place_of_term(term)) {
            Some(Some(one)) => Some(one),
            _ => None,
        }
    }

    /// Keeps the IRI for the term and the vocabulary.
    fn keep_term(&mut self, vocabulary: &str, term: &str, iri: &Iri) -> Result<(), NoMemory>
        requires { IsTermIri (chars vocabulary.now) (chars term.now) iri.now }
    {
        if self.terms.is_empty() {
            self.terms.resize_with(TERM_PLACES, || None)?;
        }
        let one = TermIri::of(self.alloc, vocabulary, term, iri)?;
        if let Some(kept) = self.terms.get_mut(place_of_term(term)) {
            *kept = Some(one);
        }
        Ok(())
    }

    /// The IRI that is kept in the place, if its characters are those of the two parts.
    fn kept(&self, place: usize, front: &str, more: &str) -> Option<&Iri>
        ensures { IfSome result (λ iri. iri.now ≡ cleaned (chars front.now ++ chars more.now)) }
    {
        let Some(Some(iri)) = self.places.get(place) else {
            return None;
        };
        if !is_joined(iri, front, more) {
            return None;
        }
        Some(iri)
    }

    /// Keeps the IRI in the place.
    fn keep(&mut self, place: usize, iri: &Iri) -> Result<(), NoMemory> {
        if let Some(kept) = self.places.get_mut(place) {
            *kept = Some(iri.try_clone()?);
        }
        Ok(())
    }
}

/// Whether the IRI's characters are those of the two parts, which then have none to be escaped.
fn is_joined(iri: &Iri, front: &str, more: &str) -> bool
    ensures { result ≡ true → iri.now ≡ cleaned (chars front.now ++ chars more.now) }
{
    are_text(front, more, iri.as_str())
}

/// The place of the IRI of these two parts, by their length and their last bytes. Texts may share one, so that only the last
/// of them is kept.
fn place_of(front: &str, more: &str) -> usize {
    let bytes = more.as_bytes();
    let told = &bytes[bytes.len().saturating_sub(TOLD)..];
    let mut number = 0;
    for byte in told {
        number = number << 8 | u64::from(*byte);
    }
    let length = (front.len() as u64).wrapping_add(bytes.len() as u64);
    let mixed = number.wrapping_add(length).wrapping_mul(MIXER);
    // the highest eight bits
    (mixed >> 56) as usize
}

/// The place of a term, by its length and its ends. Terms may share one, so that only the last of them is kept.
fn place_of_term(term: &str) -> usize {
    let bytes = term.as_bytes();
    let (Some(first), Some(last)) = (bytes.first(), bytes.last()) else {
        return 0;
    };
    (bytes.len() % 64 * 16 + usize::from(*first) * 3 + usize::from(*last)) % TERM_PLACES
}

/// A new IRI, with escapes for the characters that no IRI may have.
fn cleaned(alloc: Global, iri: &str) -> Result<Iri, NoMemory>
    requires { has_scheme (chars iri.now) ≡ true }
    ensures { IfOk result (λ made. made ≡ cleaned (chars iri.now)) }
{
    let text = clean_copy(alloc, iri)?;
    Iri::of_string(alloc, text)
}

/// A new IRI of these two parts, with the same escapes.
fn joined(alloc: Global, iri: &str, more: &str) -> Result<Iri, NoMemory>
    requires { has_scheme (chars iri.now) ≡ true }
    ensures { IfOk result (λ made. made ≡ cleaned (chars iri.now ++ chars more.now)) }
{
    let mut text = String::with_capacity(alloc, iri.len().saturating_add(more.len()))?;
    push_clean(&mut text, iri)?;
    push_clean(&mut text, more)?;
    Iri::of_string(alloc, text)
}
