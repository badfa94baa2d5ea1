//! Shapes of blank nodes: which of them a text can write where they are used, nested or as a list, and which need a label.
//!
//! The words are defined in `specs/Shapes.antt`, on any graph. Each step here takes time in proportion to the graph's
//! length, whatever it holds: long chains, long lists and cycles.
#![tactic(auto)]

ghost use Rattle.std.specs.Prelude.{ℕ};
ghost use Rattle.rx_shapes.specs.Examples.{ExamplesHold};
ghost use Rattle.rx_shapes.specs.Laws.{ShapesForgetNames};

mod cells;
mod chains;
mod index;
mod links;
mod reach;
mod rows;
mod shapes;
mod vocabulary;

pub use cells::{CellPart, object_of};
pub use shapes::{Shape, Shapes};
pub use vocabulary::{is_first, is_nil, is_rest, is_type};

/// The worked examples: what each node of some small graphs is, and why.
pub fn examples_hold()
    ensures { ExamplesHold }
{}

/// Where the blank nodes of a list have other names, each its own, they have the same shapes.
pub fn shapes_forget_names()
    ensures { ShapesForgetNames ℕ ℕ }
{}
