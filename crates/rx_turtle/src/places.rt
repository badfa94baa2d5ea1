//! An index of the prefixes by IRI.
ghost use Rattle.std.specs.Prelude.{◌≡◌, ℕ, false, get_or, IfOk, OnOk};
ghost use Rattle.rx_terms.specs.Common.{chars, IsIri};
ghost use Rattle.rx_notation.specs.Short.{Prefixes};
ghost use Rattle.rx_turtle.specs.Shorts.{place_from};
ghost use Rattle.rx_turtle.specs.Places.{Finds, PutsBytes, PutsPrefix};
ghost use Rattle.rx_turtle.specs.Rows.{IsRow, AreRows};

use crate::lengths::Lengths;
use crate::names::is_prefix_name;
use crate::plain::Plain;
use crate::slots::Slots;
use rx_names::Context;
use rx_terms::NoMemory;
use std::alloc::Global;
use std::collections::BTreeMap;

/// For IRIs the places of the prefixes that stand for them.
#[derive(Drop)]
pub(crate) struct Places<'a> {
    // A job's context has these IRIs. Whatever they are, a look-up takes a number of steps that grows by a logarithm.
    by_iri: BTreeMap<&'a [u8], usize>,
    /// How many bytes the IRIs have.
    lengths: Lengths,
    /// Asked before the map.
    slots: Slots<'a>,
    /// With which bytes none of the IRIs ends.
    plain: Plain,
}

impl<'a> Places<'a> {
    /// Those of a context. Of prefixes that stand for one IRI the first has its place here.
    pub(crate) fn of(alloc: Global, context: &'a Context) -> Result<Places<'a>, NoMemory>
        ensures finds { IfOk result (λ places. Finds 0 context.now.prefixes places) }
        ensures rows { IfOk result (λ places. AreRows context.now.prefixes) }
    {
        let mut places = Places {
            by_iri: BTreeMap::new(alloc),
            lengths: Lengths::new(alloc),
            slots: Slots::new(alloc, context.prefix_count())?,
            plain: Plain::new(),
        };
        for place in (0..context.prefix_count()).rev() {
            let (name, iri) = context.prefix_at(place);
            places.add(name, iri, place)?;
        }
        Ok(places)
    }

    /// Adds a place in front of the others.
    fn add(&mut self, name: &str, iri: &'a str, place: usize) -> Result<(), NoMemory>
        ensures puts { OnOk result (PutsPrefix (chars name.now, chars iri.now) place self.old self.new) }
        ensures row { IsIri (chars iri.now) → IsRow (chars name.now, chars iri.now) }
    {
        if !is_prefix_name(name) {
            return Ok(());
        }
        self.put(iri.as_bytes(), place)
    }

    fn put(&mut self, iri: &'a [u8], place: usize) -> Result<(), NoMemory>
        ensures { OnOk result (PutsBytes iri.now place self.old self.new) }
    {
        if self.by_iri.insert(iri, place).is_err() {
            return Err(NoMemory);
        }
        self.slots.put(iri, place);
        self.plain.end_with(iri);
        self.lengths.add(iri.len())
    }

    /// Whether the byte is a character of names with which no prefix's IRI ends.
    #[inline(always)]
    pub(crate) fn is_plain(&self, byte: u8) -> bool
        ensures { result ≡ get_or self.now.plain byte false }
    {
        self.plain.contains(byte)
    }

    /// Whether the IRI of a prefix has so many bytes.
    #[inline(always)]
    pub(crate) fn has_length(&self, size: usize) -> bool
        ensures { result ≡ get_or self.now.lengths size false }
    {
        self.lengths.contains(size)
    }

    /// The place of the prefix that stands for the IRI of these bytes.
    #[inline(always)]
    pub(crate) fn find(&self, iri: &[u8]) -> Option<usize>
        ensures { (place : ℕ) (context : Prefixes) → Finds place context self.now → result ≡ place_from place context iri.now }
    {
        match self.slots.told(iri) {
            Some(place) => place,
            None => self.look_up(iri),
        }
    }

    /// The same, where the IRI's slot doesn't tell.
    #[cold]
    #[inline(never)]
    fn look_up(&self, iri: &[u8]) -> Option<usize>
        ensures { (place : ℕ) (context : Prefixes) → Finds place context self.now → result ≡ place_from place context iri.now }
    {
        self.by_iri.get(iri).copied()
    }
}
