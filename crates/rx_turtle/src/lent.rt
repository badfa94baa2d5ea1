//! The triples of a graph, lent.
ghost use Rattle.std.specs.Prelude.{◌≡◌, IfOk};
ghost use Rattle.rx_model.specs.Seen.{triples_seen};
ghost use Rattle.rx_turtle.specs.Groups.{lent_triples};

use rx_graph::Graph;
use rx_terms::{NoMemory, Triple};
use std::alloc::Global;

/// The graph's triples.
pub fn borrowed<'a>(alloc: Global, graph: &'a Graph) -> Result<Vec<&'a Triple>, NoMemory>
    ensures { IfOk result (λ triples. lent_triples triples.items ≡ triples_seen graph.now) }
{
    let mut triples = Vec::with_capacity(alloc, graph.len())?;
    for i in 0..graph.len() {
        triples.push(graph.at(i))?;
    }
    Ok(triples)
}
