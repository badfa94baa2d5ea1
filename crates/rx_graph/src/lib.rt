//! Graphs of RDF: a set of triples in order of first appearance, the copying of RDFa's patterns, and the numbering of
//! blank nodes.
//!
//! What each call gives is exactly what `rx_model` defines. [`Nodes`] and [`Rows`] are what a layer above needs to group a
//! graph's triples: borrowed nodes by number, and lists of numbers.
#![tactic(auto)]

mod copying;
mod graphs;
mod index;
mod joining;
mod keyed;
mod keys;
mod leading;
mod links;
mod marks;
mod numbering;
mod order;
mod patterns;
mod reached;
mod resources;
mod rows;
mod sets;
mod vocabulary;
mod walked;

pub use copying::{copy_patterns, copy_patterns_owned};
pub use graphs::Graph;
pub use numbering::{relabel, relabel_owned};
pub use resources::{Nodes, Resource};
pub use rows::Rows;
