//! The cells that are listed.
ghost use Rattle.std.specs.Prelude.{◌≡◌, length, map, nat_eq, IfOk, OnOk, []};
ghost use Rattle.rx_model.specs.Common.{distinct, same_triple, node_seen, triple_seen, triples_seen};
ghost use Rattle.rx_pieces.specs.Writable.{IsWritable};
ghost use Rattle.rx_shapes.specs.Table.{shape_in};
ghost use Rattle.rx_jsonld.specs.Lists.{cells_at, chain, is_listed, listed};
ghost use Rattle.rx_jsonld.specs.Places.{PlacesAre, nodes_added};

use crate::chains::{chain, first_cell};
use rx_graph::{Graph, Nodes, Resource};
use rx_pieces::is_writable;
use rx_shapes::Shapes;
use rx_terms::{Blank, NoMemory, Node, Triple};
use std::alloc::Global;

/// The cells of all lists of a graph that are listed where they are used, each once. The time is that of the graph's length.
pub(crate) fn listed_cells<'a>(
    alloc: Global,
    graph: &'a Graph,
    shapes: &Shapes,
) -> Result<Nodes<'a>, NoMemory>
    requires { PlacesAre (triples_seen graph.now) shapes.now }
    ensures cells { IfOk result (λ cells. cells ≡ nodes_added [] (listed (shape_in shapes.now) (triples_seen graph.now))) }
    ensures once { IfOk result (λ cells. distinct (same_triple nat_eq) (triples_seen graph.now) ≡ triples_seen graph.now) }
    ensures writable { IfOk result (λ cells. IsWritable (triples_seen graph.now)) }
{
    let mut cells = Nodes::new(alloc);
    for i in 0..graph.len() {
        let triple = graph.at(i);
        add_cells_at(alloc, graph, shapes, triple, &mut cells)?;
        is_writable(triple);
    }
    Ok(cells)
}

/// Adds the cells that are listed where the triple's object stands.
fn add_cells_at(
    alloc: Global,
    graph: &Graph,
    shapes: &Shapes,
    triple: &Triple,
    cells: &mut Nodes,
) -> Result<(), NoMemory>
    requires { PlacesAre (triples_seen graph.now) shapes.now }
    ensures { OnOk result (cells.new ≡ nodes_added cells.old (cells_at (shape_in shapes.now) (triples_seen graph.now) (triple_seen triple.now))) }
{
    match first_cell(shapes, triple) {
        Some(first) => add_chain(alloc, graph, shapes, first, cells),
        None => Ok(()),
    }
}

fn add_chain(
    alloc: Global,
    graph: &Graph,
    shapes: &Shapes,
    first: Blank,
    cells: &mut Nodes,
) -> Result<(), NoMemory>
    requires { PlacesAre (triples_seen graph.now) shapes.now }
    ensures { OnOk result (cells.new ≡ nodes_added cells.old (chain (triples_seen graph.now) (length (triples_seen graph.now)) first.0)) }
{
    let chain = chain(alloc, graph, shapes, first)?;
    add_all(cells, &chain)?;
    Ok(())
}

fn add_all(cells: &mut Nodes, chain: &[Blank]) -> Result<(), NoMemory>
    ensures { OnOk result (cells.new ≡ nodes_added cells.old (map (λ b. b.0) chain.now)) }
{
    for cell in chain {
        cells.add(Resource::Blank(*cell))?;
    }
    Ok(())
}

/// Whether the node is one of the listed cells.
pub(crate) fn is_listed(graph: &Graph, shapes: &Shapes, cells: &Nodes, node: &Node) -> bool
    requires { cells.now ≡ nodes_added [] (listed (shape_in shapes.now) (triples_seen graph.now)) }
    ensures { result ≡ is_listed (shape_in shapes.now) (triples_seen graph.now) (node_seen node.now) }
{
    cells.contains(Resource::of_node(node))
}
