//! What is known of the IRIs of a text, so that one that comes again isn't shortened anew.
ghost use Rattle.std.specs.Prelude.{◌≡◌, ◌<◌, ℕ, length, Option, Some, None, IfOk, nat_eq, if◌then◌else◌};
ghost use Rattle.rx_terms.specs.Common.{pointwise, Chars};
ghost use Rattle.rx_turtle.specs.Slots.{IsSo};
ghost use Rattle.rx_turtle.specs.Known.{place_kept, IsEntry, AreEntries};

use rx_terms::{Iri, NoMemory};
use std::alloc::Global;
use std::hash::{FoldHasher, Hash, Hasher};
use std::marker::Model;
use std::mem;

/// How many entries there are at first. Half of them are used before there are more.
const FEW: usize = 64;

/// How many times as many there are then.
const MORE: usize = 4;

/// How many entries are looked at for one IRI, so that a page can't make a look-up long. Where all of them are those of
/// others, it takes the next one, whosever that is.
const NEAR: usize = 16;

/// What is kept of an IRI: its hash, itself, and the place of its prefix, where it has one.
#[derive(Clone, Copy)]
pub(crate) enum Entry<'a> {
    Empty,
    Kept(u64, &'a Iri, Option<usize>),
}

/// The IRIs that were shortened, by hash. A contract sees the list of entries.
#[derive(Drop)]
pub(crate) struct ShortFormCache<'a> {
    alloc: Global,
    entries: Vec<Entry<'a>>,
    /// How many were put in.
    count: usize,
}

impl<'a> Model for ShortFormCache<'a> {
    ghost use Rattle.std.specs.Prelude.{List, ◌<◌, length};
    ghost use Rattle.rx_turtle.specs.declared.known.Entry.{Entry};

    ghost Value = { List Entry };

    ghost view = { λ known. known.entries.items };

    ghost invariant = { λ known. 0 < length known.entries.items };
}

impl<'a> ShortFormCache<'a> {
    /// No IRI.
    pub(crate) fn new(alloc: Global) -> Result<ShortFormCache<'a>, NoMemory>
        ensures { IfOk result (λ known. (found : Chars → Option ℕ) → AreEntries found known) }
    {
        ShortFormCache::with_entries(alloc, FEW)
    }

    /// So many empty entries, which are a power of two.
    fn with_entries(alloc: Global, count: usize) -> Result<ShortFormCache<'a>, NoMemory>
        requires { 0 < count }
        ensures { IfOk result (λ known. (found : Chars → Option ℕ) → AreEntries found known) }
    {
        let entries = vec![in alloc; Entry::Empty; count]?;
        Ok(ShortFormCache {
            alloc,
            entries,
            count: 0,
        })
    }

    /// The place of the prefix that makes the IRI's short form, or that there is none, where it is known.
    #[inline(always)]
    pub(crate) fn told(&self, iri: &Iri) -> Option<Option<usize>>
        ensures { (found : Chars → Option ℕ) → AreEntries found self.now → IsSo result (found iri.now) }
    {
        self.entries[self.near(hash_of(iri))].told(iri)
    }

    /// Keeps what was found for the IRI.
    pub(crate) fn keep(&mut self, iri: &'a Iri, place: Option<usize>) -> Result<(), NoMemory>
        ensures { (found : Chars → Option ℕ) → place ≡ found iri.now → AreEntries found self.old → AreEntries found self.new }
    {
        self.make_room()?;
        self.put(Entry::Kept(hash_of(iri), iri, place));
        Ok(())
    }

    /// Sees to it that half of the entries are empty.
    #[inline(always)]
    fn make_room(&mut self) -> Result<(), NoMemory>
        ensures { (found : Chars → Option ℕ) → AreEntries found self.old → AreEntries found self.new }
    {
        if self.count < self.entries.len() / 2 {
            return Ok(());
        }
        self.grow()
    }

    #[cold]
    #[inline(never)]
    fn grow(&mut self) -> Result<(), NoMemory>
        ensures { (found : Chars → Option ℕ) → AreEntries found self.old → AreEntries found self.new }
    {
        let larger = self.larger()?;
        drop(mem::replace(self, larger));
        Ok(())
    }

    /// The same IRIs, with more entries.
    fn larger(&self) -> Result<ShortFormCache<'a>, NoMemory>
        ensures { IfOk result (λ known. (found : Chars → Option ℕ) → AreEntries found self.now → AreEntries found known) }
    {
        let mut larger = ShortFormCache::with_entries(
            self.alloc,
            self.entries.len().saturating_mul(MORE),
        )?;
        for i in 0..self.entries.len() {
            let entry = self.entries[i];
            larger.put(entry);
        }
        Ok(larger)
    }

    fn put(&mut self, entry: Entry<'a>)
        ensures { (found : Chars → Option ℕ) → IsEntry found entry.entry → AreEntries found self.old → AreEntries found self.new }
    {
        let Entry::Kept(hash, _iri, _place) = entry else {
            return;
        };
        let place = self.near(hash);
        self.entries[place] = entry;
        self.count = self.count.saturating_add(1);
    }

    /// The place of the entry for an IRI of this hash: that of such an IRI, or the first that is empty, or the one behind those
    /// that are looked at.
    #[inline(always)]
    fn near(&self, hash: u64) -> usize
        ensures { result < length self.now }
    {
        let mut place = self.within(hash as usize);
        for _ in 0..NEAR {
            if self.entries[place].is_for(hash) {
                return place;
            }
            place = self.within(place.wrapping_add(1));
        }
        place
    }

    /// A number as the place of an entry.
    #[inline(always)]
    fn within(&self, number: usize) -> usize
        ensures { result < length self.now }
    {
        number & (self.entries.len() - 1)
    }
}

impl<'a> Entry<'a> {
    /// Whether an IRI of this hash may stand here.
    #[inline(always)]
    fn is_for(&self, hash: u64) -> bool {
        match self {
            Entry::Empty => true,
            Entry::Kept(kept, _iri, _place) => *kept == hash,
        }
    }

    #[inline(always)]
    fn told(&self, iri: &Iri) -> Option<Option<usize>>
        ensures { result ≡ place_kept self.now iri.now }
    {
        match self {
            Entry::Empty => None,
            Entry::Kept(_hash, kept, place) => place_if(is_same(kept, iri), *place),
        }
    }
}

#[inline(always)]
fn place_if(is_there: bool, place: Option<usize>) -> Option<Option<usize>>
    ensures { result ≡ (if is_there then Some place else None) }
{
    if is_there { Some(place) } else { None }
}

#[inline(always)]
fn is_same(kept: &Iri, iri: &Iri) -> bool
    ensures { result ≡ pointwise nat_eq kept.now iri.now }
{
    *kept == *iri
}

/// A quick hash of the SipHash that the IRI brings along.
#[inline(always)]
fn hash_of(iri: &Iri) -> u64 {
    let mut hasher = FoldHasher::default();
    iri.hash(&mut hasher);
    hasher.finish()
}
