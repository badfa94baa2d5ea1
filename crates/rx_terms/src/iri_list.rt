//! A list of IRIs.
ghost use Rattle.std.specs.Prelude.{◌≡◌, ◌<◌, [], ◌∷◌, ◌++◌, length, OnOk, OnErr, Some, slice_get, ◌==◌};

use crate::iris::Iri;
use crate::texts::NoMemory;
use std::alloc::Global;
use std::marker::Model;

/// A list of IRIs that only grows, in the order of its pushes. Most lists have one, which takes no memory. A contract sees
/// the list.
#[derive(Debug, Drop)]
pub struct Iris {
    first: Option<Iri>,
    others: Vec<Iri>,
}

impl Model for Iris {
    ghost use Rattle.std.specs.Prelude.{ℕ, List};
    ghost use Rattle.rx_terms.specs.Iris.{first_with, IsFilled};

    ghost Value = { List (List ℕ) };

    ghost view = { λ list. first_with list.first list.others.items };

    ghost invariant = { λ list. IsFilled list.first list.others.items };
}

impl Iris {
    /// An empty list.
    pub fn new(alloc: Global) -> Iris
        ensures { result ≡ [] }
    {
        Iris {
            first: None,
            others: Vec::new(alloc),
        }
    }

    /// Adds the IRI at the end.
    pub fn push(&mut self, iri: Iri) -> Result<(), NoMemory>
        ensures ok { OnOk result (self.new ≡ self.old ++ iri ∷ []) }
        ensures err { OnErr result (self.new ≡ self.old) }
    {
        if self.first.is_none() {
            self.first = Some(iri);
            return Ok(());
        }
        self.others.push(iri)?;
        Ok(())
    }

    /// How many IRIs there are.
    pub fn len(&self) -> usize
        ensures { result ≡ length self.now }
    {
        match self.first {
            Some(_) => 1 + self.others.len(),
            None => 0,
        }
    }

    /// Whether there is none.
    pub fn is_empty(&self) -> bool
        ensures { result ≡ (length self.now == 0) }
    {
        self.first.is_none()
    }

    /// The IRI at a place below `len`, from 0.
    pub fn at(&self, i: usize) -> &Iri
        requires { i < length self.now }
        ensures { slice_get self.now i ≡ Some result.now }
    {
        match &self.first {
            Some(iri) if i == 0 => iri,
            _ => &self.others[i - 1],
        }
    }
}
