//! Which subjects have node objects.
ghost use Rattle.std.specs.Prelude.{◌≡◌, [], not, ◌&&◌};
ghost use Rattle.rx_model.specs.Seen.{node_seen, triples_seen};
ghost use Rattle.rx_shapes.specs.Table.{shape_in};
ghost use Rattle.rx_jsonld.specs.Lists.{is_listed, listed};
ghost use Rattle.rx_jsonld.specs.Places.{nodes_added, starts_with_place};

use crate::listed::is_listed;
use rx_graph::{Graph, Nodes};
use rx_shapes::Shapes;
use rx_terms::Node;

/// Whether the node has its node object at a place: this is the first one of its places, and it is no listed cell.
pub(crate) fn begins_node(
    graph: &Graph,
    shapes: &Shapes,
    cells: &Nodes,
    places: &[usize],
    place: usize,
    subject: &Node,
) -> bool
    requires listed { cells.now ≡ nodes_added [] (listed (shape_in shapes.now) (triples_seen graph.now)) }
    ensures { result ≡ (starts_with_place places.now place && not (is_listed (shape_in shapes.now) (triples_seen graph.now) (node_seen subject.now))) }
{
    starts(places, place) && !is_listed(graph, shapes, cells, subject)
}

fn starts(places: &[usize], place: usize) -> bool
    ensures { result ≡ starts_with_place places.now place }
{
    match places {
        [first, ..] => *first == place,
        [] => false,
    }
}
