//! What is said of a node, by the places of its triples.
ghost use Rattle.std.specs.Prelude.{◌≡◌, ◌++◌, IfOk, OnOk, slice_get, option_map, option_to_list};
ghost use Rattle.rx_model.specs.Seen.{node_seen, triple_seen, triples_seen};
ghost use Rattle.rx_shapes.specs.Places.{picked};
ghost use Rattle.rx_shapes.specs.Table.{AreShapes};
ghost use Rattle.rx_turtle.specs.Runs.{runs};
ghost use Rattle.rx_turtle.specs.declared.keys.By.TheVariants as by;
ghost use Rattle.rx_turtle.specs.Said.{said_of};
ghost use Rattle.rx_turtle.specs.Groups.{lent_triples, AppendsLent};

use crate::arranging::by_predicate;
use rx_graph::Graph;
use rx_shapes::Shapes;
use rx_terms::{NoMemory, Node, Triple};
use std::alloc::Global;

/// The triples of the node, with those of one predicate side by side. The time is that of their number.
pub(crate) fn said_of<'a>(
    alloc: Global,
    graph: &'a Graph,
    shapes: &Shapes,
    node: &Node,
) -> Result<Vec<&'a Triple>, NoMemory>
    requires { AreShapes (triples_seen graph.now) shapes.now }
    ensures { IfOk result (λ said. runs by.Predicate (lent_triples said.items) ≡ said_of (triples_seen graph.now) (node_seen node.now)) }
{
    let triples = picked(alloc, graph, shapes.places(node))?;
    Ok(by_predicate(alloc, &triples)?)
}

/// The triples at the places.
fn picked<'a>(
    alloc: Global,
    graph: &'a Graph,
    places: &[usize],
) -> Result<Vec<&'a Triple>, NoMemory>
    ensures { IfOk result (λ triples. lent_triples triples.items ≡ picked (triples_seen graph.now) places.now) }
{
    let mut triples = Vec::with_capacity(alloc, places.len())?;
    for i in 0..places.len() {
        pick(&mut triples, graph, places[i])?;
    }
    Ok(triples)
}

fn pick<'a>(triples: &mut Vec<&'a Triple>, graph: &'a Graph, place: usize) -> Result<(), NoMemory>
    ensures { OnOk result (AppendsLent triples.old.items triples.new.items (option_to_list (slice_get (triples_seen graph.now) place))) }
{
    let Some(triple) = triple_at(graph, place) else {
        return Ok(());
    };
    triples.push(triple)?;
    Ok(())
}

fn triple_at(graph: &Graph, place: usize) -> Option<&Triple>
    ensures { option_map (λ t. triple_seen t.now) result ≡ slice_get (triples_seen graph.now) place }
{
    if place >= graph.len() {
        return None;
    }
    Some(graph.at(place))
}
