//! Where the group of a key may stand.
use crate::keys::By;
use rx_graph::Resource;
use rx_terms::{Blank, NoMemory};
use std::alloc::Global;

/// A place for the IRI that was met last, and one for each blank node of a small number. What isn't so costs a look-up, and
/// changes no group.
#[derive(Drop)]
pub(crate) struct Hints {
    iri: usize,
    blanks: Vec<usize>,
}

impl Hints {
    /// Hints for so many triples. No predicate is a blank node.
    pub(crate) fn new(alloc: Global, count: usize, by: By) -> Result<Hints, NoMemory> {
        let size = match by {
            By::Subject => count,
            By::Predicate => 0,
        };
        let blanks = vec![in alloc; 0usize; size]?;
        Ok(Hints { iri: 0, blanks })
    }

    /// Where the group of this key may stand.
    pub(crate) fn place(&self, key: Resource) -> usize {
        match key {
            Resource::Iri(_iri) => self.iri,
            Resource::Blank(blank) => self.place_of_blank(blank),
        }
    }

    fn place_of_blank(&self, blank: Blank) -> usize {
        if blank.0 >= self.blanks.len() as u64 {
            return 0;
        }
        self.blanks[blank.0 as usize]
    }

    /// Keeps where the group of this key stands.
    pub(crate) fn keep(&mut self, key: Resource, place: usize) {
        match key {
            Resource::Iri(_iri) => self.iri = place,
            Resource::Blank(blank) => self.keep_blank(blank, place),
        }
    }

    fn keep_blank(&mut self, blank: Blank, place: usize) {
        if blank.0 < self.blanks.len() as u64 {
            self.blanks[blank.0 as usize] = place;
        }
    }
}
