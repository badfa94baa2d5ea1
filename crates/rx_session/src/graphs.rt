//! The graph of a page's triples, its blank nodes counted.
ghost use Rattle.std.specs.Prelude.{◌≡◌, IfOk};
ghost use Rattle.rx_model.specs.Seen.{triples_seen};
ghost use Rattle.rx_page.specs.Written.{graph_made};
ghost use Rattle.rx_quads.specs.Raised.{raised, past};

use rx_graph::Graph;
use rx_page::graph_of;
use rx_quads::{count_nodes, raised};
use rx_terms::{NoMemory, TripleList};
use std::alloc::Global;

/// A graph, and how many blank nodes it has.
#[derive(Drop)]
pub(crate) struct Counted {
    pub(crate) graph: Graph,
    pub(crate) nodes: u64,
}

impl Counted {
    /// The graph of the triples, its blank nodes numbered from `first` on.
    pub(crate) fn of(alloc: Global, list: TripleList, first: u64) -> Result<Counted, NoMemory>
        ensures graph { IfOk result (λ counted. triples_seen counted.graph ≡ raised first (graph_made list)) }
        ensures nodes { IfOk result (λ counted. counted.nodes ≡ past (graph_made list)) }
    {
        let numbered = graph_of(alloc, list)?;
        let Ok(nodes) = count_nodes(&numbered) else {
            drop(numbered);
            return Err(NoMemory);
        };
        let graph = raised(alloc, numbered, first)?;
        Ok(Counted { graph, nodes })
    }
}
