//! Turtle: the text of a graph under a context's prefixes.
//!
//! [`write()`] sends exactly the text that `rx_notation` defines to a sink, in pieces, so that the text is never whole in
//! memory; [`text`] gives it as bytes, for where it is small or is wanted whole. By `rx_notation`'s relation, which is stated
//! of whole texts and apart from the layout, that text denotes the graph's triples.
//!
//! [`write_nested()`] and [`nested`] do the same for the text that `rx_nested` defines, in which blank nodes are written where
//! they are used.
#![tactic(auto)]

mod arranging;
mod cells;
mod cuts;
mod due;
mod groups;
mod hints;
mod keys;
mod known;
mod lengths;
mod lent;
mod lines;
mod names;
mod nested_plan;
mod nested_writing;
mod nesting;
mod places;
mod plain;
mod plan;
mod prefixes;
mod said;
mod shorts;
mod slots;
mod source;
mod stack;
mod starts;
mod terms;
mod token_texts;
mod token_uses;
mod tokens;
mod uses;
mod writing;

pub use nested_writing::{nested, write_nested};
pub use rx_pieces::WriteError;
pub use writing::{text, write};
