//! A list of triples.
ghost use Rattle.std.specs.Prelude.{◌≡◌, ◌<◌, [], ◌∷◌, ◌++◌, length, OnOk, OnErr, Some, slice_get, ◌==◌};

use crate::texts::NoMemory;
use crate::triples::Triple;
use std::alloc::Global;
use std::marker::Model;

/// A list of triples that only grows, in the order of its pushes. A contract sees the list.
#[derive(Debug, Drop)]
pub struct TripleList {
    triples: Vec<Triple>,
}

impl Model for TripleList {
    ghost use Rattle.std.specs.Prelude.{List};
    ghost use Rattle.rx_terms.specs.declared.triples.Triple.{Triple};

    ghost Value = { List Triple };

    ghost view = { λ list. list.triples.items };
}

impl TripleList {
    /// An empty list.
    pub fn new(alloc: Global) -> TripleList
        ensures { result ≡ [] }
    {
        TripleList {
            triples: Vec::new(alloc),
        }
    }

    /// Adds the triple at the end.
    pub fn push(&mut self, triple: Triple) -> Result<(), NoMemory>
        ensures ok { OnOk result (self.new ≡ self.old ++ triple ∷ []) }
        ensures err { OnErr result (self.new ≡ self.old) }
    {
        self.triples.push(triple)?;
        Ok(())
    }

    /// How many triples there are.
    pub fn len(&self) -> usize
        ensures { result ≡ length self.now }
    {
        self.triples.len()
    }

    /// Whether there is none.
    pub fn is_empty(&self) -> bool
        ensures { result ≡ (length self.now == 0) }
    {
        self.triples.is_empty()
    }

    /// The triple at a place below `len`, from 0.
    pub fn at(&self, i: usize) -> &Triple
        requires { i < length self.now }
        ensures { slice_get self.now i ≡ Some result.now }
    {
        &self.triples[i]
    }

    /// The triples themselves, in order, without a copy.
    pub fn into_vec(self) -> Vec<Triple>
        ensures { result.items ≡ self }
    {
        self.triples
    }
}
