//! What a number of a text tells of the IRIs that prefixes stand for.
ghost use Rattle.std.specs.Prelude.{◌≡◌, ◌<◌, ℕ, List, length, Option, Some, None, IfOk, if◌then◌else◌, nat_eq};
ghost use Rattle.std.specs.Cmp.Lexicographic.{pointwise};
ghost use Rattle.rx_turtle.specs.Slots.{iri_hash, text_slot, with_iri, found_with, told_by, told_place, SlotsTell};

use rx_terms::NoMemory;
use std::alloc::Global;
use std::marker::Model;

/// How many prefixes have slots of their own, four for each.
const MOST: usize = 2048;

/// How many more slots there are.
const SPARE: usize = 180;

/// What is known of the IRIs that have one number.
#[derive(Clone, Copy)]
pub(crate) enum Slot<'a> {
    /// There is none.
    Free,
    /// There is one, and this is its prefix's place.
    One(&'a [u8], usize),
    /// There are more.
    Many,
}

/// For each number what is known of the IRIs that have it. Most texts that are no prefix's IRI are told so without a look
/// at more than a few of their bytes, and an IRI that has its number alone is compared once. A contract sees the list.
#[derive(Drop)]
pub(crate) struct Slots<'a> {
    slots: Vec<Slot<'a>>,
}

impl<'a> Model for Slots<'a> {
    ghost use Rattle.std.specs.Prelude.{List, ◌<◌, length};
    ghost use Rattle.rx_turtle.specs.declared.slots.Slot.{Slot};

    ghost Value = { List Slot };

    ghost view = { λ slots. slots.slots.items };

    ghost invariant = { λ slots. 0 < length slots.slots.items };
}

impl<'a> Slots<'a> {
    /// Slots for the IRIs of so many prefixes, none of which is there yet.
    pub(crate) fn new(alloc: Global, count: usize) -> Result<Slots<'a>, NoMemory>
        ensures { IfOk result (λ slots. SlotsTell slots (λ bytes. None)) }
    {
        let slots = vec![in alloc; Slot::Free; (count.min(MOST) * 4 + SPARE).next_power_of_two()]?;
        Ok(Slots { slots })
    }

    #[inline(always)]
    fn slot_of(&self, bytes: &[u8]) -> usize
        ensures slot { result ≡ text_slot self.now bytes.now }
        ensures within { result < length self.now }
    {
        number_of(bytes) & (self.slots.len() - 1)
    }

    /// The place of the prefix that stands for the IRI of these bytes, where that is known.
    #[inline(always)]
    pub(crate) fn told(&self, bytes: &[u8]) -> Option<Option<usize>>
        ensures { result ≡ told_place self.now bytes.now }
    {
        self.slots[self.slot_of(bytes)].told(bytes)
    }

    /// Puts the place of a prefix in, where it is the last for its IRI.
    pub(crate) fn put(&mut self, iri: &'a [u8], place: usize)
        ensures { (found : List ℕ → Option ℕ) → SlotsTell self.old found → SlotsTell self.new (found_with iri.now place found) }
    {
        let slot = self.slot_of(iri);
        self.slots[slot] = self.slots[slot].with(iri, place);
    }
}

impl<'a> Slot<'a> {
    #[inline(always)]
    fn told(&self, bytes: &[u8]) -> Option<Option<usize>>
        ensures { result ≡ told_by self.now bytes.now }
    {
        match self {
            Slot::Free => Some(None),
            Slot::One(iri, place) => Some(place_if(*iri == bytes, *place)),
            Slot::Many => None,
        }
    }

    /// The slot with an IRI more, of a prefix that comes before those that are there.
    fn with(&self, iri: &'a [u8], place: usize) -> Slot<'a>
        ensures { result ≡ with_iri self.now iri.entry place }
    {
        match self {
            Slot::Free => Slot::One(iri, place),
            Slot::One(other, _place) => {
                if *other == iri {
                    Slot::One(iri, place)
                } else {
                    Slot::Many
                }
            }
            Slot::Many => Slot::Many,
        }
    }
}

#[inline(always)]
fn place_if(is_there: bool, place: usize) -> Option<usize>
    ensures { result ≡ (if is_there then Some place else None) }
{
    if is_there { Some(place) } else { None }
}

/// A number of the text, by its length and three of its last bytes. The last byte of a prefix's IRI is mostly `/` or `#`, and
/// tells little. Of the prefixes that are in wide use no two have one slot.
#[inline(always)]
fn number_of(bytes: &[u8]) -> usize
    ensures { result ≡ iri_hash bytes.now }
{
    let size = bytes.len();
    if size < 8 {
        return size;
    }
    size + 127 * usize::from(bytes[size - 3])
        + 31 * usize::from(bytes[size - 5])
        + 1021 * usize::from(bytes[size - 8])
}
