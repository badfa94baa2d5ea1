//! Triples, each once.
ghost use Rattle.std.specs.Prelude.{◌≡◌, ◌<◌, [], length, IfOk, OnOk, Some, slice_get, nat_eq};
ghost use Rattle.rx_model.specs.Common.{distinct, with_one, same_triple, triple_seen, triples_seen};

use crate::keyed::Keyed;
use indexmap::IndexSet;
use rx_terms::{NoMemory, Triple};
use std::alloc::Global;
use std::marker::Model;

/// Triples in order of first appearance, each once. A contract sees the list.
///
/// A page chooses the triples, and triples that meet in the table cost a comparison each. So the table's key has to hang on
/// all that the page says of them.
#[derive(Debug, Drop)]
pub(crate) struct TripleSet {
    triples: IndexSet<Triple, Keyed>,
}

impl Model for TripleSet {
    ghost use Rattle.std.specs.Prelude.{List};
    ghost use Rattle.rx_terms.specs.declared.triples.Triple.{Triple};

    ghost Value = { List Triple };

    ghost view = { λ set. set.triples.keys };
}

impl TripleSet {
    /// No triple.
    pub(crate) fn new(alloc: Global, keyed: Keyed) -> TripleSet
        ensures { result ≡ [] }
    {
        TripleSet {
            triples: IndexSet::with_hasher(alloc, keyed),
        }
    }

    /// No triple, with room for so many.
    fn with_capacity(alloc: Global, count: usize, keyed: Keyed) -> Result<TripleSet, NoMemory>
        ensures { IfOk result (λ set. set ≡ []) }
    {
        let triples = IndexSet::with_capacity_and_hasher(alloc, count, keyed)?;
        Ok(TripleSet { triples })
    }

    /// The triples of a list, without those that stand before. None is copied, and the list's room is given back on the way,
    /// so that there is never room for all of them twice.
    pub(crate) fn of(
        alloc: Global,
        triples: Vec<Triple>,
        keyed: Keyed,
    ) -> Result<TripleSet, NoMemory>
        ensures { IfOk result (λ set. triples_seen set ≡ distinct (same_triple nat_eq) (triples_seen triples.items)) }
    {
        let mut set = TripleSet::with_capacity(alloc, triples.len(), keyed)?;
        let mut rest = triples;
        rest.reverse();
        while let Some(triple) = rest.pop() {
            set.add(triple)?;
            give_back(&mut rest);
        }
        Ok(set)
    }

    /// Adds the triple at the end, where it isn't there yet.
    pub(crate) fn add(&mut self, triple: Triple) -> Result<(), NoMemory>
        ensures { OnOk result (triples_seen self.new ≡ with_one (same_triple nat_eq) (triples_seen self.old) (triple_seen triple)) }
    {
        self.triples.insert(triple)?;
        Ok(())
    }

    /// How many there are.
    pub(crate) fn len(&self) -> usize
        ensures len { result ≡ length self.now }
        ensures each_once { distinct (same_triple nat_eq) (triples_seen self.now) ≡ triples_seen self.now }
    {
        self.triples.len()
    }

    /// The one at a place below `len`, from 0.
    pub(crate) fn at(&self, i: usize) -> &Triple
        requires { i < length self.now }
        ensures { slice_get self.now i ≡ Some result.now }
    {
        &self.triples[i]
    }

    /// What makes its hashers.
    pub(crate) fn keyed(&self) -> Keyed {
        *self.triples.hasher()
    }

    /// The triples themselves, in order, without a copy.
    pub(crate) fn into_vec(self, alloc: Global) -> Result<Vec<Triple>, NoMemory>
        ensures items { IfOk result (λ triples. triples.items ≡ self) }
        ensures each_once { OnOk result (distinct (same_triple nat_eq) (triples_seen self) ≡ triples_seen self) }
    {
        let mut triples = Vec::with_capacity(alloc, self.triples.len())?;
        for triple in self.triples {
            triples.push(triple)?;
        }
        Ok(triples)
    }
}

/// Gives back now and then the room that a list has left behind its last triple.
fn give_back(rest: &mut Vec<Triple>)
    ensures { rest.new.items ≡ rest.old.items }
{
    if rest.len() % 4096 == 0 {
        rest.shrink_to_fit();
    }
}
