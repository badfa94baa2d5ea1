//! Shapes.
ghost use Rattle.std.specs.Prelude.{◌≡◌, IfOk, Some};
ghost use Rattle.rx_model.specs.Seen.{node_seen, triples_seen};
ghost use Rattle.rx_graph.specs.Resources.{number_in};
ghost use Rattle.rx_shapes.specs.Links.{IsTripleIndex, AreNodeShapes, subject_rows, shape_by, shapes_by};
ghost use Rattle.rx_shapes.specs.Table.{AreShapes, shape_at, shape_in, places_in};

use crate::index::Index;
use crate::links::{cell_nodes, inner_nodes, mark, subject_rows};
use crate::rows::Rows;
use rx_graph::Graph;
use rx_terms::{Blank, NoMemory, Node};
use std::alloc::Global;
use std::marker::Model;

/// How a blank node can be written.
#[derive(Clone, Copy, Debug, PartialEq, Eq)]
pub enum Shape {
    /// By a label.
    Labelled,
    /// Where it is used, between square brackets.
    Inside,
    /// Where it is used, as an item between round brackets.
    Cell,
}

/// The shapes of a graph's blank nodes, and the places of its nodes' triples.
#[derive(Drop)]
pub struct Shapes {
    nodes: Index,
    places: Rows,
    shapes: Vec<Shape>,
}

impl Model for Shapes {
    ghost use Rattle.rx_shapes.specs.Table.{ShapeTable};

    ghost Value = { ShapeTable };

    ghost view = { λ s. record { nodes = s.nodes; places = s.places; shapes = s.shapes.items } };
}

impl Shapes {
    /// Those of a graph. The time is that of the graph's length.
    pub fn of(alloc: Global, graph: &Graph) -> Result<Shapes, NoMemory>
        ensures { IfOk result (λ shapes. AreShapes (triples_seen graph.now) shapes) }
    {
        let nodes = Index::of(alloc, graph)?;
        let Ok(places) = subject_rows(alloc, graph, &nodes) else {
            drop(nodes);
            return Err(NoMemory);
        };
        let Ok(shapes) = shapes_of(alloc, graph, &nodes, &places) else {
            drop(nodes);
            drop(places);
            return Err(NoMemory);
        };
        Ok(Shapes {
            nodes,
            places,
            shapes,
        })
    }

    /// The shape of a blank node. One that isn't in the graph is labelled.
    pub fn shape(&self, blank: Blank) -> Shape
        ensures { result ≡ shape_in self.now blank.0 }
    {
        shape_at(&self.shapes, self.nodes.number(&Node::Blank(blank)))
    }

    /// The positions in the graph of the triples with that subject, in order.
    pub fn places(&self, subject: &Node) -> &[usize]
        ensures { result.now ≡ places_in self.now (node_seen subject.now) }
    {
        match self.nodes.number(subject) {
            Some(number) => self.places.row(number),
            None => &[],
        }
    }
}

fn shape_at(shapes: &[Shape], number: Option<usize>) -> Shape
    ensures { result ≡ shape_at shapes.now number }
{
    match number {
        Some(number) => shape_of_number(shapes, number),
        None => Shape::Labelled,
    }
}

fn shape_of_number(shapes: &[Shape], number: usize) -> Shape
    ensures { result ≡ shape_at shapes.now (Some number) }
{
    if number >= shapes.len() {
        return Shape::Labelled;
    }
    shapes[number]
}

/// For each node its shape, by the places of its triples.
fn shapes_of(
    alloc: Global,
    graph: &Graph,
    nodes: &Index,
    places: &Rows,
) -> Result<Vec<Shape>, NoMemory>
    requires nodes { IsTripleIndex (triples_seen graph.now) nodes.now }
    requires places { places.now ≡ subject_rows (triples_seen graph.now) nodes.now }
    ensures { IfOk result (λ shapes. AreNodeShapes (triples_seen graph.now) nodes.now shapes.items) }
{
    let inner = inner_nodes(alloc, graph, nodes)?;
    let cells = cell_nodes(alloc, graph, nodes, &inner, places)?;
    Ok(shapes_by(alloc, nodes.len(), &inner, &cells)?)
}

fn shapes_by(
    alloc: Global,
    size: usize,
    inner: &[bool],
    cells: &[bool],
) -> Result<Vec<Shape>, NoMemory>
    ensures { IfOk result (λ shapes. shapes.items ≡ shapes_by inner.now cells.now size) }
{
    let mut shapes = Vec::with_capacity(alloc, size)?;
    for i in 0..size {
        shapes.push(shape_by(mark(inner, i), mark(cells, i)))?;
    }
    Ok(shapes)
}

fn shape_by(is_inner: bool, is_cell: bool) -> Shape
    ensures { result ≡ shape_by is_inner is_cell }
{
    if is_cell {
        return Shape::Cell;
    }
    if is_inner {
        return Shape::Inside;
    }
    Shape::Labelled
}
