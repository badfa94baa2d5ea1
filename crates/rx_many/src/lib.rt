//! Several pages in one dataset.
//!
//! [`Many`] takes the graphs of pages, and the faults of those that are refused, one after another. Its text has the quads
//! of the accepted pages in N-Quads, each in the graph of its page's address without fragment, and a comment for each page
//! that is refused. No two pages share a blank node, and no quad is written twice.
#![tactic(auto)]

ghost use Rattle.rx_many.specs.Rows.{RowsHold};

mod blanks;
mod documents;
mod many;
mod names;
mod pages;
mod refusals;
mod statements;

pub use many::Many;
pub use rx_grammar::{Fault, Kind};

/// The worked examples of documents hold.
pub fn rows_hold()
    ensures { RowsHold }
{}
