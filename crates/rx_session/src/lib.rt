//! One page that is in memory already and is handed over in pieces: open, feed, finish, then its text or its quads.
//!
//! A [`Session`] does with a page what the command does with a file, by the same definitions: it gives the one text that
//! the task makes of the page's bytes, or the one fault that they have, and want of memory is an answer. Blank nodes may be
//! numbered from a number on, and in place of a text the quads may be shown one at a time. [`open_extraction`],
//! [`open_items`] and [`open_check`] take what is asked for as numbers and bytes, as it comes from outside.
#![tactic(auto)]

mod copies;
mod errors;
mod given;
mod graphs;
mod kinds;
mod outputs;
mod requests;
mod sessions;
mod values;
mod works;

pub use copies::copy_front;
pub use errors::{OpenError, SessionError};
pub use kinds::kind_number;
pub use outputs::Output;
pub use requests::{open_check, open_extraction, open_items};
pub use rx_grammar::name_of;
pub use rx_job::Format;
pub use rx_quads::{ShownQuad, ShownTerm, TermKind};
pub use rx_walk::{Fault, Kind};
pub use sessions::{Extraction, Session};
