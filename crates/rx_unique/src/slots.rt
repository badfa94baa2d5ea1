//! Slots for keys, by the low bits of their quick hashes.
ghost use Rattle.std.specs.Prelude.{◌≡◌, ◌≢◌, ◌<◌, suc, ℕ, List, length, IsTrue, IfSome, IfNone, IfOk, OnOk};
ghost use Rattle.rx_unique.specs.Slots.{hash_slot, slot_mark, AreHeld};

use rx_terms::NoMemory;
use std::alloc::Global;
use std::marker::Model;
use std::mem;

/// For the low bits of a hash the place of the first key that came with them. So a slot that is free says that no key has
/// these bits, and most keys that are there own their slot. A page that makes many keys meet in one slot leaves them without
/// one, and they are found in another way. A contract sees a list: 0 for a slot that is free, and else more than the place.
#[derive(Drop)]
pub(crate) struct Slots {
    alloc: Global,
    // so many as a power of two, and several for each key, so that most keys have their own
    marks: Vec<u32>,
}

impl Model for Slots {
    ghost use Rattle.std.specs.Prelude.{List, ℕ};

    ghost Value = { List ℕ };

    ghost view = { λ slots. slots.marks.items };
}

/// How many slots there are at first.
const FIRST: usize = 16;

/// How many there are at least for each key.
const EACH: usize = 4;

/// A slot can say the places before this one.
const SAID: usize = u32::MAX as usize;

impl Slots {
    /// No slot.
    pub(crate) fn new(alloc: Global) -> Slots {
        Slots {
            alloc,
            marks: Vec::new(alloc),
        }
    }

    /// So many, each of which is free.
    fn with_count(alloc: Global, count: usize) -> Result<Slots, NoMemory>
        ensures { IfOk result (λ slots. length slots ≡ count) }
    {
        let marks = vec![in alloc; 0u32; count]?;
        Ok(Slots { alloc, marks })
    }

    #[inline(always)]
    fn slot_of(&self, hash: u64) -> usize
        ensures slot { result ≡ hash_slot self.now hash }
        ensures within { 0 < length self.now → result < length self.now }
    {
        hash as usize & self.marks.len().saturating_sub(1)
    }

    /// The place of the first key that came to the slot of the hash, or another where a slot can't say that one. None where no
    /// key came.
    #[inline(always)]
    pub(crate) fn first(&self, hash: u64) -> Option<usize>
        ensures free { IfNone result (slot_mark self.now hash ≡ 0) }
        ensures own { IfSome result (λ first. (place : ℕ) → slot_mark self.now hash ≡ suc place → first ≡ place) }
    {
        let mark = self.marks.get(self.slot_of(hash)).copied().unwrap_or(0);
        if mark == 0 {
            return None;
        }
        Some(mark as usize - 1)
    }

    /// Gives the slot of the hash to the key at the place if it is free. Tells whether the slot says that place then.
    #[inline(always)]
    pub(crate) fn take(&mut self, hash: u64, place: usize) -> bool
        requires { 0 < length self.old }
        ensures held { (others hashes : List ℕ) → AreHeld self.old others hashes → AreHeld self.new others hashes }
        ensures taken { slot_mark self.new hash ≢ 0 }
        ensures own { IsTrue result → slot_mark self.new hash ≡ suc place }
        ensures length { length self.new ≡ length self.old }
        ensures stays { slot_mark self.old hash ≢ 0 → self.new ≡ self.old }
    {
        let slot = self.slot_of(hash);
        if self.marks[slot] != 0 {
            return false;
        }
        self.marks[slot] = mark_of(place);
        place < SAID
    }

    /// Sees to it that there are several slots for each of the keys of these hashes and for one more. Where there is no memory
    /// for more, there stay as many as there are.
    #[inline(always)]
    pub(crate) fn make_room(&mut self, hashes: &[u64]) -> Result<(), NoMemory>
        ensures held { (others : List ℕ) → AreHeld self.old others hashes.now → AreHeld self.new others hashes.now }
        ensures some { OnOk result (0 < length self.new) }
    {
        if self.marks.len() / EACH > hashes.len() {
            return Ok(());
        }
        self.grow(hashes)
    }

    #[cold]
    #[inline(never)]
    fn grow(&mut self, hashes: &[u64]) -> Result<(), NoMemory>
        ensures held { (others : List ℕ) → AreHeld self.old others hashes.now → AreHeld self.new others hashes.now }
        ensures some { OnOk result (0 < length self.new) }
    {
        if let Some(grown) = self.grown(hashes) {
            drop(mem::replace(self, grown));
            return Ok(());
        }
        if self.marks.is_empty() {
            return Err(NoMemory);
        }
        Ok(())
    }

    /// Twice as many for the same keys. They come to them in the same order, so each key that owns its slot owns its new one.
    /// No proof says so: if one didn't, there would be no more slots.
    fn grown(&self, hashes: &[u64]) -> Option<Slots>
        ensures held { IfSome result (λ grown. (others : List ℕ) → AreHeld self.now others hashes.now → AreHeld grown others hashes.now) }
        ensures some { IfSome result (λ grown. 0 < length grown) }
    {
        let count = self.marks.len().saturating_mul(2).max(FIRST);
        let Ok(mut grown) = Slots::with_count(self.alloc, count) else {
            return None;
        };
        for place in 0..hashes.len() {
            let hash = hashes[place];
            if !grown.take(hash, place) && self.first(hash) == Some(place) {
                drop(grown);
                return None;
            }
        }
        Some(grown)
    }
}

/// What the slot of the key at the place says.
fn mark_of(place: usize) -> u32
    ensures taken { 0 < result }
    ensures own { place < 4294967295 → result ≡ suc place }
{
    if place < SAID {
        place as u32 + 1
    } else {
        u32::MAX
    }
}
