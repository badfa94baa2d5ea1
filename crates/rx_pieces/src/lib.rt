//! Terms on their way to a sink: what the writers of N-Quads and of Turtle have in common.
//!
//! [`Pieces`] sends bytes to a sink in pieces, and remembers that the sink failed, so that what adds to it answers nothing.
//! The functions that are called `push_` and what they add write the terms that both formats write alike. The sink
//! [`Whole`] keeps a text whole.
#![tactic(auto)]

mod errors;
mod escapes;
mod labels;
mod pieces;
mod terms;
mod whole;
mod writable;

pub use errors::WriteError;
pub use escapes::push_text;
pub use labels::{LABEL, push_label};
pub use pieces::Pieces;
pub use terms::{push, push_between, push_iri, push_lang};
pub use whole::Whole;
pub use writable::{is_writable, is_writable_blank, is_writable_iri, is_writable_literal};
