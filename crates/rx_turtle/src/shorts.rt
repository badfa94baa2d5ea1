//! Short forms of IRIs under a context's prefixes.
ghost use Rattle.std.specs.Prelude.{◌≡◌, ◌<◌, ◌≤◌, ◌-◌, length, true, false, IfOk, MatchOption, None, Some, slice_get, get_or, List, ℕ, drop, encode_utf8_all};
ghost use Rattle.rx_terms.specs.Common.{chars, IsIri, begins_with};
ghost use Rattle.rx_notation.specs.Short.{is_name_char, prefix_of, names_rise};
ghost use Rattle.rx_turtle.specs.Shorts.{EndsNone, place_at, place_below, prefix_place, IsPlace, IsPrefixedName};
ghost use Rattle.rx_turtle.specs.Rows.{AreRows};
ghost use Rattle.rx_turtle.specs.Slots.{IsSo};

use crate::known::ShortFormCache;
use crate::names::{begins_local, is_name_byte};
use crate::places::Places;
use rx_names::Context;
use rx_terms::{Iri, NoMemory};
use std::alloc::Global;
use std::marker::Model;

/// A context with the places of its prefixes by IRI, and what was found of the IRIs of a text. A contract sees the context's
/// prefixes.
#[derive(Drop)]
pub struct Shorts<'a> {
    context: &'a Context,
    places: Places<'a>,
    /// Asked before the places.
    known: ShortFormCache<'a>,
}

impl<'a> Model for Shorts<'a> {
    ghost use Rattle.rx_notation.specs.Short.{Prefixes};
    ghost use Rattle.rx_turtle.specs.Known.{Shortens};

    ghost Value = { Prefixes };

    ghost view = { λ shorts. shorts.context.now.prefixes };

    ghost invariant = { λ shorts. Shortens shorts.context.now.prefixes shorts.places shorts.known };
}

impl<'a> Shorts<'a> {
    /// Those of a context.
    pub fn of(alloc: Global, context: &'a Context) -> Result<Shorts<'a>, NoMemory>
        ensures prefixes { IfOk result (λ shorts. shorts ≡ context.now.prefixes) }
        ensures rows { IfOk result (λ shorts. AreRows context.now.prefixes) }
    {
        let places = Places::of(alloc, context)?;
        let Ok(known) = ShortFormCache::new(alloc) else {
            drop(places);
            return Err(NoMemory);
        };
        Ok(Shorts {
            context,
            places,
            known,
        })
    }

    /// How many prefixes the context has.
    pub fn len(&self) -> usize
        ensures len { result ≡ length self.now }
        ensures in_order { names_rise self.now ≡ true }
    {
        self.context.prefix_count()
    }

    /// A prefix and its IRI, by the prefix's place in byte order.
    pub fn at(&self, place: usize) -> (&str, &str)
        requires { place < length self.now }
        ensures row { slice_get self.now place ≡ Some (chars result.0.now, chars result.1.now) }
        ensures iri { IsIri (chars result.1.now) }
    {
        self.context.prefix_at(place)
    }

    /// The place of the prefix that makes the IRI's short form, where it has one. The time is that of the local name's
    /// length, and of each text as long as some prefix's IRI that ends as one and can stand before a local name.
    pub fn place(&self, iri: &Iri) -> Option<usize>
        ensures place { result ≡ prefix_place self.now iri.now }
        ensures is { IsPlace self.now (prefix_of self.now iri.now) result }
    {
        if self.context.prefix_count() == 0 {
            return None;
        }
        self.found(iri)
    }

    /// The same, and it is kept, so that the IRI isn't shortened again.
    pub fn learn(&mut self, iri: &'a Iri) -> Result<Option<usize>, NoMemory>
        ensures place { IfOk result (λ place. place ≡ prefix_place self.old iri.now) }
        ensures same { self.new ≡ self.old }
    {
        if self.context.prefix_count() == 0 {
            return Ok(None);
        }
        if let Some(place) = self.told(iri) {
            return Ok(place);
        }
        let place = self.searched(iri);
        self.known.keep(iri, place)?;
        Ok(place)
    }

    fn found(&self, iri: &Iri) -> Option<usize>
        ensures { result ≡ prefix_place self.now iri.now }
    {
        match self.told(iri) {
            Some(place) => place,
            None => self.searched(iri),
        }
    }

    /// What is known of the IRI.
    #[inline(always)]
    fn told(&self, iri: &Iri) -> Option<Option<usize>>
        ensures { IsSo result (prefix_place self.now iri.now) }
    {
        self.known.told(iri)
    }

    /// The place, where nothing is known.
    fn searched(&self, iri: &Iri) -> Option<usize>
        ensures { result ≡ prefix_place self.now iri.now }
    {
        self.place_within(iri.as_str().as_bytes())
    }

    fn place_within(&self, bytes: &[u8]) -> Option<usize>
        ensures { result ≡ place_below self.now bytes.now (length bytes.now) }
    {
        let mut left = bytes.len();
        while left > 0 {
            let end = left;
            left -= 1;
            if self.is_plain(bytes[left]) {
                continue;
            }
            if let Some(place) = self.place_at(bytes, end) {
                return Some(place);
            }
            if !is_name_byte(bytes[left]) {
                return None;
            }
        }
        self.place_at(bytes, 0)
    }

    /// Whether the byte is a character of names with which no prefix's IRI ends.
    #[inline(always)]
    fn is_plain(&self, byte: u8) -> bool
        ensures name { result ≡ true → is_name_char byte ≡ true }
        ensures none { result ≡ true → EndsNone self.now byte }
    {
        self.places.is_plain(byte)
    }

    /// Whether the IRI of a prefix has so many bytes. A text of another length isn't looked up, however long it is.
    #[inline(always)]
    fn has_length(&self, size: usize) -> bool
        ensures { result ≡ false → (bytes : List ℕ) → size ≤ length bytes → place_at self.now bytes size ≡ None }
    {
        self.places.has_length(size)
    }

    /// The place of the prefix that stands for the first bytes, where a local name can begin behind them.
    fn place_at(&self, bytes: &[u8], end: usize) -> Option<usize>
        requires { end ≤ length bytes.now }
        ensures { result ≡ place_at self.now bytes.now end }
    {
        if !self.has_length(end) {
            return None;
        }
        if end >= bytes.len() {
            return None;
        }
        if !begins_local(bytes[end]) {
            return None;
        }
        self.places.find(&bytes[..end])
    }

    /// The short form of the IRI, where it has one: the prefix's name, and the bytes of the local name.
    pub fn short<'b>(&'b self, iri: &'b Iri) -> Option<(&'b str, &'b [u8])>
        ensures { MatchOption result (prefix_of self.now iri.now ≡ None) (λ short. IsPrefixedName self.now iri.now (chars short.0.now) short.1.now) }
    {
        let Some(place) = self.place(iri) else {
            return None;
        };
        let (name, full) = self.at(place);
        Some((name, rest_of(iri, full)))
    }
}

/// The bytes of an IRI behind its front.
fn rest_of<'b>(iri: &'b Iri, front: &str) -> &'b [u8]
    requires { begins_with (chars front.now) iri.now ≡ true }
    ensures { result.now ≡ encode_utf8_all (drop (length (chars front.now)) iri.now) }
{
    let bytes = iri.as_str().as_bytes();
    &bytes[front.len()..]
}
