//! Which patterns copy which, by number.
ghost use Rattle.std.specs.Prelude.{◌≡◌, IfOk, OnOk};
ghost use Rattle.rx_model.specs.Seen.{triple_seen, triples_seen};
ghost use Rattle.rx_graph.specs.Patterns.{edges_by};
ghost use Rattle.rx_graph.specs.Copying.{copy_linked, AreLinks};

use crate::resources::{Nodes, Resource};
use crate::rows::Rows;
use rx_terms::{NoMemory, Triple, TripleList};
use std::alloc::Global;

/// For each of the nodes the numbers of those that it copies.
pub(crate) fn links<'a>(
    alloc: Global,
    triples: &'a TripleList,
    nodes: &Nodes<'a>,
) -> Result<Rows, NoMemory>
    ensures { IfOk result (λ links. AreLinks (edges_by nodes.now (triples_seen triples.now)) nodes.now links) }
{
    let mut links = Rows::empty(alloc, nodes.len())?;
    for i in 0..triples.len() {
        link(triples.at(i), nodes, &mut links)?;
    }
    Ok(links)
}

/// Adds what the triple links.
fn link<'a>(triple: &'a Triple, nodes: &Nodes<'a>, links: &mut Rows) -> Result<(), NoMemory>
    ensures { OnOk result (links.new ≡ copy_linked nodes.now links.old (triple_seen triple.now)) }
{
    let Some(copied) = nodes.live(triple) else {
        return Ok(());
    };
    let Some(to) = nodes.number(copied) else {
        return Ok(());
    };
    let Some(from) = nodes.number(Resource::of_node(&triple.subject)) else {
        return Ok(());
    };
    links.put(from, to)
}
