//! Keys, each once.
ghost use Rattle.std.specs.Prelude.{◌≡◌, ◌<◌, ℕ, Bool, List, [], ◌∷◌, ◌++◌, length, get_or, not, position, slice_get, Some, None, true, false, IsTrue, IsFalse, OnOk, OnErr, IfOk, IfSome};
ghost use Rattle.std.specs.List.{list_any, position_or_len, IsDistinct};
ghost use Rattle.rx_unique.specs.Hashes.{hash_of, quick_hash_of};
ghost use Rattle.rx_unique.specs.Slots.{IsHeld, AreHeld};
ghost use Rattle.rx_unique.specs.Unique.{insert_key};
ghost use Rattle.rx_unique.specs.Others.{MayGain};

use crate::hashes::{hash_of, quick_hash_of};
use crate::others::Others;
use crate::slots::Slots;
use rx_terms::NoMemory;
use std::alloc::Global;
use std::collections::hash_map::Equivalent;
use std::hash::Hash;
use std::marker::Model;

/// Keys in the order in which they came, each once. A contract sees the list.
#[derive(Drop)]
pub struct Unique<K: Eq + Hash> {
    keys: Vec<K>,
    // of each key its quick hash
    hashes: Vec<u64>,
    // by the quick hash the first key that came with its low bits, so that most look-ups end with it
    slots: Slots,
    // the keys that found their slot taken
    others: Others,
}

impl<K: Eq + Hash> Model for Unique<K> {
    ghost use Rattle.std.specs.Prelude.{List};
    ghost use Rattle.rx_unique.specs.Hashes.{hash_of, quick_hash_of};
    ghost use Rattle.rx_unique.specs.Unique.{AreKept};

    ghost Value = { List K };

    ghost view = { λ unique. unique.keys.items };

    ghost invariant = { λ unique. AreKept K.eq (λ k. quick_hash_of (K.hash_input k)) (λ k. hash_of (K.hash_input k))
        unique.keys.items unique.hashes.items unique.slots unique.others.places.items unique.others.numbers };
}

impl<K: Eq + Hash> Unique<K> {
    /// No key.
    pub fn new(alloc: Global) -> Unique<K>
        ensures empty { result ≡ [] }
    {
        Unique {
            keys: Vec::new(alloc),
            hashes: Vec::new(alloc),
            slots: Slots::new(alloc),
            others: Others::new(alloc),
        }
    }

    /// How many keys there are.
    pub fn len(&self) -> usize
        ensures len { result ≡ length self.now }
        ensures unique { IsDistinct K.eq self.now }
    {
        self.keys.len()
    }

    /// The key at the place.
    pub fn at(&self, place: usize) -> &K
        requires { place < length self.now }
        ensures { slice_get self.now place ≡ Some result.now }
    {
        &self.keys[place]
    }

    /// The place of the key that is alike.
    pub fn get_index_of<Q: Equivalent<K>>(&self, key: Q) -> Option<usize>
        ensures index { result ≡ position (Q.equivalent key) self.now }
    {
        self.find(quick_hash_of(&key), key)
    }

    /// Whether a key is alike.
    pub fn contains<Q: Equivalent<K>>(&self, key: Q) -> bool
        ensures { result ≡ list_any (Q.equivalent key) self.now }
    {
        self.get_index_of(key).is_some()
    }

    /// Whether the key at the place is alike.
    fn is_at<Q: Equivalent<K>>(&self, place: usize, key: Q) -> bool
        ensures yes { IsTrue result → position (Q.equivalent key) self.now ≡ Some place }
        ensures no { IsFalse result → (default : K) → place < length self.now → Q.equivalent key (get_or self.now place default) ≡ false }
    {
        if place >= self.keys.len() {
            return false;
        }
        key.equivalent(&self.keys[place])
    }

    /// The place of the key that is alike, by its quick hash.
    fn find<Q: Equivalent<K>>(&self, hash: u64, key: Q) -> Option<usize>
        requires { hash ≡ quick_hash_of (Q.hash_input key) }
        ensures { result ≡ position (Q.equivalent key) self.now }
    {
        let Some(first) = self.slots.first(hash) else {
            return None;
        };
        if self.is_at(first, key) {
            return Some(first);
        }
        let mut next = self.others.numbers.last(hash_of(&key));
        while let Some(other) = next {
            let place = self.others.places[other];
            if key.equivalent(&self.keys[place]) {
                return Some(place);
            }
            next = self.others.numbers.earlier(other);
        }
        None
    }
}

impl<K: Eq + Hash + Drop> Unique<K> {
    /// Adds the key at the end where none is alike. Gives the place of the one that is there then, and whether it is new.
    pub fn insert_full(&mut self, key: K) -> Result<(usize, bool), NoMemory>
        ensures keys { OnOk result (self.new ≡ insert_key K.eq self.old key) }
        ensures index { IfOk result (λ r. r.0 ≡ position_or_len (K.eq key) self.old) }
        ensures added { IfOk result (λ r. r.1 ≡ not (list_any (K.eq key) self.old)) }
        ensures stored { IfOk result (λ r. (k : K) × (slice_get self.new r.0 ≡ Some k) × (K.eq key k ≡ true)) }
        ensures err { OnErr result (self.new ≡ self.old) }
    {
        let hash = quick_hash_of(&key);
        if let Some(place) = self.find(hash, &key) {
            return Ok((place, false));
        }
        let place = self.len();
        self.push(hash, key)?;
        Ok((place, true))
    }

    /// The same. Gives whether the key is new.
    pub fn insert(&mut self, key: K) -> Result<bool, NoMemory>
        ensures keys { OnOk result (self.new ≡ insert_key K.eq self.old key) }
        ensures added { IfOk result (λ is_new. is_new ≡ not (list_any (K.eq key) self.old)) }
        ensures err { OnErr result (self.new ≡ self.old) }
    {
        let (_place, is_new) = self.insert_full(key)?;
        Ok(is_new)
    }

    /// Adds a key that is new, by its quick hash.
    fn push(&mut self, hash: u64, key: K) -> Result<(), NoMemory>
        requires hash { hash ≡ quick_hash_of (K.hash_input key) }
        requires fresh { position (K.eq key) self.old ≡ None }
        ensures ok { OnOk result (self.new ≡ self.old ++ key ∷ []) }
        ensures err { OnErr result (self.new ≡ self.old) }
    {
        self.keys.reserve(1)?;
        self.hashes.reserve(1)?;
        self.slots.make_room(&self.hashes)?;
        let place = self.keys.len();
        file(&mut self.slots, &mut self.others, hash, place, &key)?;
        self.hashes.push(hash)?;
        self.keys.push(key)?;
        Ok(())
    }

    /// The keys, in their order.
    pub fn into_vec(self) -> Vec<K>
        ensures items { result.items ≡ self }
        ensures unique { IsDistinct K.eq self }
    {
        self.keys
    }
}

/// Gives the slot of the quick hash to the key at the place; where it is another's the key becomes one of the others.
#[inline(always)]
fn file<K: Hash>(
    slots: &mut Slots,
    others: &mut Others,
    hash: u64,
    place: usize,
    key: &K,
) -> Result<(), NoMemory>
    requires { 0 < length slots.old }
    ensures held { (hashes : List ℕ) → AreHeld slots.old others.old.places.items hashes → AreHeld slots.new others.new.places.items hashes }
    ensures own { OnOk result (IsHeld slots.new others.new.places.items hash place) }
    ensures added { OnOk result (MayGain place (hash_of (K.hash_input key.now)) others.old others.new) }
    ensures err { OnErr result ((others.new.places.items ≡ others.old.places.items) × (others.new.numbers ≡ others.old.numbers)) }
{
    if slots.take(hash, place) {
        return Ok(());
    }
    others.push(hash_of(key), place)
}
