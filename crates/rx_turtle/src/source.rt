//! What is written: a graph, and the shapes of its blank nodes.
use rx_graph::Graph;
use rx_shapes::Shapes;
use std::alloc::Global;

/// A graph, and the shapes of its blank nodes.
#[derive(Clone, Copy)]
pub struct Source<'a> {
    /// Where memory comes from.
    pub alloc: Global,
    /// The graph.
    pub graph: &'a Graph,
    /// The shapes of its blank nodes.
    pub shapes: &'a Shapes,
}
