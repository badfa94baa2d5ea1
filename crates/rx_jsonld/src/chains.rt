//! Chains of cells, and which of them are listed.
ghost use Rattle.std.specs.Prelude.{◌≡◌, length, map, option_map, IfOk};
ghost use Rattle.rx_model.specs.Terms as model;
ghost use Rattle.rx_model.specs.Common.{node_seen, term_seen, triple_seen, triples_seen, rdf_rest};
ghost use Rattle.rx_shapes.specs.Table.{shape_in};
ghost use Rattle.rx_shapes.specs.Subjects.{object_at};
ghost use Rattle.rx_shapes.specs.Cells.{predicate_of};
ghost use Rattle.rx_jsonld.specs.Lists.{blank_in, cell_by, cell_listed, chain, first_cell, is_cell, is_cell_by, may_hold_list, may_list};
ghost use Rattle.rx_jsonld.specs.Places.{PlacesAre};

use rx_graph::Graph;
use rx_shapes::{CellPart, Shape, Shapes, is_first, is_rest, is_type, object_of};
use rx_terms::{Blank, Iri, NoMemory, Node, Term, Triple};
use std::alloc::Global;

// ---- which chains are listed

/// The first cell of the chain that is listed where it is the triple's object.
pub(crate) fn first_cell(shapes: &Shapes, triple: &Triple) -> Option<Blank>
    ensures { option_map (λ b. b.0) result ≡ first_cell (shape_in shapes.now) (triple_seen triple.now) }
{
    match &triple.object {
        Term::Iri(_iri) => None,
        Term::Blank(blank) => cell_listed(shapes, triple, *blank),
        Term::Literal(_literal) => None,
    }
}

/// The cell, where it is one and the triple may have a list. Few nodes are cells, so this is looked at first.
fn cell_listed(shapes: &Shapes, triple: &Triple, blank: Blank) -> Option<Blank>
    ensures { option_map (λ b. b.0) result ≡ cell_listed (shape_in shapes.now) (may_hold_list (shape_in shapes.now) (triple_seen triple.now)) blank.0 }
{
    if !is_cell_number(shapes, blank) {
        return None;
    }
    if may_list(shapes, &triple.subject, &triple.predicate) {
        Some(blank)
    } else {
        None
    }
}

/// Whether a subject and a predicate may have a list.
fn may_list(shapes: &Shapes, subject: &Node, predicate: &Iri) -> bool
    ensures { result ≡ may_list (shape_in shapes.now) (node_seen subject.now) predicate.now }
{
    !(is_cell(shapes, subject) && is_rest(predicate))
        && (!is_first(predicate) && !is_type(predicate))
}

fn is_cell(shapes: &Shapes, node: &Node) -> bool
    ensures { result ≡ is_cell (shape_in shapes.now) (node_seen node.now) }
{
    match node {
        Node::Iri(_iri) => false,
        Node::Blank(blank) => is_cell_number(shapes, *blank),
    }
}

fn is_cell_number(shapes: &Shapes, blank: Blank) -> bool
    ensures { result ≡ is_cell_by (shape_in shapes.now blank.0) }
{
    match shapes.shape(blank) {
        Shape::Cell => true,
        Shape::Inside => false,
        Shape::Labelled => false,
    }
}

// ---- the cells of a chain

/// The cells from one on, each of which goes on to the next.
pub(crate) fn chain(
    alloc: Global,
    graph: &Graph,
    shapes: &Shapes,
    first: Blank,
) -> Result<Vec<Blank>, NoMemory>
    requires { PlacesAre (triples_seen graph.now) shapes.now }
    ensures { IfOk result (λ cells. map (λ b. b.0) cells.items ≡ chain (triples_seen graph.now) (length (triples_seen graph.now)) first.0) }
{
    let mut cells = Vec::new(alloc);
    let mut next = Some(first);
    for _ in 0..graph.len() {
        let Some(cell) = next else {
            return Ok(cells);
        };
        cells.push(cell)?;
        next = cell_after(graph, shapes, cell);
    }
    Ok(cells)
}

fn cell_after(graph: &Graph, shapes: &Shapes, cell: Blank) -> Option<Blank>
    requires { PlacesAre (triples_seen graph.now) shapes.now }
    ensures { option_map (λ b. b.0) result ≡ blank_in (object_at (triples_seen graph.now) (model.Blank cell.0) rdf_rest) }
{
    blank_in(object_at(graph, shapes, cell, CellPart::Rest))
}

fn blank_in(object: Option<&Term>) -> Option<Blank>
    ensures { option_map (λ b. b.0) result ≡ blank_in (option_map (λ o. term_seen o.now) object.entry) }
{
    match object {
        Some(Term::Blank(blank)) => Some(*blank),
        Some(Term::Iri(_iri)) => None,
        Some(Term::Literal(_literal)) => None,
        None => None,
    }
}

/// The first object of a cell's predicate.
pub(crate) fn object_at<'a>(
    graph: &'a Graph,
    shapes: &Shapes,
    cell: Blank,
    part: CellPart,
) -> Option<&'a Term>
    requires { PlacesAre (triples_seen graph.now) shapes.now }
    ensures { option_map (λ o. term_seen o.now) result ≡ object_at (triples_seen graph.now) (model.Blank cell.0) (predicate_of part) }
{
    let node = Node::Blank(cell);
    let found = object_of(graph, shapes.places(&node), part);
    drop(node);
    found
}
