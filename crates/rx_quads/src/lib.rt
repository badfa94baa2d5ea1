//! A graph handed over quad by quad: blank nodes that are numbered from a number on, how many there are, and the terms of
//! each quad as bytes.
#![tactic(auto)]

ghost use Rattle.std.specs.Prelude.{nat_eq};
ghost use Rattle.rx_quads.specs.Raised.{RaisesOneToOne, NumbersWithoutGaps};

mod counting;
mod quads;
mod raising;
mod terms;

pub use counting::count_nodes;
pub use quads::Quads;
pub use raising::raised;
pub use terms::{ShownQuad, ShownTerm, TermKind};

/// Raising the numbers of blank nodes renames these one to one.
pub fn raising_renames()
    ensures { RaisesOneToOne }
{}

/// The blank nodes of a list that was numbered, and raised, are exactly the numbers from the first one on, so many as are
/// counted.
pub fn numbers_have_no_gaps()
    ensures { NumbersWithoutGaps nat_eq }
{}
