//! A graph.
ghost use Rattle.std.specs.Prelude.{◌≡◌, ◌<◌, length, IfOk, Some, slice_get, ◌==◌, nat_eq, true};
ghost use Rattle.rx_model.specs.Common.{distinct, same_triple, triples_seen};
ghost use Rattle.rx_graph.specs.Graph.{IsNumbered};

use crate::keyed::Keyed;
use crate::keys::Key;
use crate::sets::TripleSet;
use rx_terms::{NoMemory, Triple, TripleList};
use std::alloc::Global;
use std::marker::Model;

/// An RDF graph (RDF 1.1 Concepts, section 3): a set of triples, kept in order of first appearance. A contract sees
/// the list of its triples, each once.
#[derive(Debug, Drop)]
pub struct Graph {
    triples: TripleSet,
    /// Whether it is known that the blank nodes are 0, 1, 2 in order of first occurrence.
    is_numbered: bool,
}

impl Model for Graph {
    ghost use Rattle.std.specs.Prelude.{List};
    ghost use Rattle.rx_terms.specs.declared.triples.Triple.{Triple};
    ghost use Rattle.rx_graph.specs.Graph.{IsGraph};

    ghost Value = { List Triple };

    ghost view = { λ graph. graph.triples };

    ghost invariant = { λ graph. IsGraph graph.triples graph.is_numbered };
}

impl Graph {
    /// The graph of a list: its triples, without those that stand before.
    pub fn of(alloc: Global, triples: &TripleList) -> Result<Graph, NoMemory>
        ensures { IfOk result (λ graph. triples_seen graph ≡ distinct (same_triple nat_eq) (triples_seen triples.now)) }
    {
        Graph::of_owned(alloc, copied(alloc, triples)?)
    }

    /// The same of a list that is handed over, so that no triple is copied.
    pub fn of_owned(alloc: Global, triples: TripleList) -> Result<Graph, NoMemory>
        ensures { IfOk result (λ graph. triples_seen graph ≡ distinct (same_triple nat_eq) (triples_seen triples)) }
    {
        let keyed = Keyed::by(Key::of(&triples));
        Graph::of_keyed(alloc, triples, keyed, false)
    }

    /// The same where the triples' key is at hand, and maybe that their blank nodes are numbered.
    pub(crate) fn of_keyed(
        alloc: Global,
        triples: TripleList,
        keyed: Keyed,
        is_numbered: bool,
    ) -> Result<Graph, NoMemory>
        requires numbered { is_numbered ≡ true → IsNumbered (triples_seen triples) }
        ensures { IfOk result (λ graph. triples_seen graph ≡ distinct (same_triple nat_eq) (triples_seen triples)) }
    {
        let count = triples.len();
        let triples = TripleSet::of(alloc, triples.into_vec(), keyed)?;
        // What stands twice has no new blank node, but only where none does it is known without a proof of that.
        let is_whole = triples.len() == count;
        Ok(Graph {
            triples,
            is_numbered: is_numbered & is_whole,
        })
    }

    /// The graph of these triples.
    pub(crate) fn of_set(triples: TripleSet) -> Graph
        ensures { result ≡ triples }
    {
        Graph {
            triples,
            is_numbered: false,
        }
    }

    /// Whether it is known, and so without a walk, that the blank nodes are 0, 1, 2 in order of first occurrence.
    pub(crate) fn is_known_numbered(&self) -> bool
        ensures { result ≡ true → IsNumbered (triples_seen self.now) }
    {
        self.is_numbered
    }

    /// How many triples there are.
    pub fn len(&self) -> usize
        ensures len { result ≡ length self.now }
        ensures each_once { distinct (same_triple nat_eq) (triples_seen self.now) ≡ triples_seen self.now }
    {
        self.triples.len()
    }

    /// Whether there is none.
    pub fn is_empty(&self) -> bool
        ensures { result ≡ (length self.now == 0) }
    {
        self.triples.len() == 0
    }

    /// The triple at a place below `len`, from 0.
    pub fn at(&self, i: usize) -> &Triple
        requires { i < length self.now }
        ensures { slice_get self.now i ≡ Some result.now }
    {
        self.triples.at(i)
    }

    /// An equal graph.
    pub fn try_clone(&self, alloc: Global) -> Result<Graph, NoMemory>
        ensures { IfOk result (λ graph. graph ≡ self.now) }
    {
        let mut triples = TripleList::new(alloc);
        for i in 0..self.len() {
            triples.push(self.at(i).try_clone()?)?;
        }
        let graph = Graph::of_owned(alloc, triples)?;
        Ok(graph)
    }

    /// The set of its triples.
    pub(crate) fn into_set(self) -> TripleSet
        ensures { result ≡ self }
    {
        self.triples
    }
}

/// An equal list.
fn copied(alloc: Global, triples: &TripleList) -> Result<TripleList, NoMemory>
    ensures { IfOk result (λ copied. copied ≡ triples.now) }
{
    let mut copied = TripleList::new(alloc);
    for i in 0..triples.len() {
        copied.push(triples.at(i).try_clone()?)?;
    }
    Ok(copied)
}
