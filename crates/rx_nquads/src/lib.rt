//! N-Quads: the text of a graph, and what a text denotes.
//!
//! [`write()`] sends exactly the text that `specs/Writing.antt` defines to a sink, in pieces, so that the text is never
//! whole in memory; [`text`] gives it as bytes, for where it is small or is wanted whole, and [`put_quad`] adds one line. By the relation of
//! `specs/Document.antt`, which is stated of whole texts and apart from the writer, that text denotes exactly the graph's
//! quads.
#![tactic(auto)]

ghost use Rattle.rx_nquads.specs.Document.{StatesOne, DenotesOne};
ghost use Rattle.rx_nquads.specs.Quads.{ProperStays};

mod lines;
mod terms;
mod writing;

pub use lines::Lines;
pub use rx_pieces::WriteError;
pub use writing::{put_quad, text, write};

/// A line states at most one quad.
pub fn a_line_states_one()
    ensures { StatesOne }
{}

/// A text denotes at most one set of quads.
pub fn a_text_denotes_one()
    ensures { DenotesOne }
{}

/// The quad of a triple has that triple, but for a literal that is typed xsd:string in place of plain.
pub fn proper_triples_stay()
    ensures { ProperStays }
{}
