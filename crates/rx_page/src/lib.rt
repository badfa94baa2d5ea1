//! A page that is read in pieces, and what comes of it for a task: its one text, or its one fault.
//!
//! What a task makes of a page's bytes is said here, and that it is one thing or the other (`Tasks`, `Outcomes`). A
//! [`PageReader`] is fed a page's bytes, and gives its triples, its items, or that it is a page. [`graph_of`], [`text_of`],
//! [`text_of_items`] and [`right_text`] make a text of that in memory, and [`Outcome`] writes it piece by piece. Where the
//! bytes come from, and where the text goes, is the caller's.
#![tactic(auto)]

ghost use Rattle.rx_page.specs.Outcomes.{OneOutcome};

mod contexts;
mod forms;
mod json_texts;
mod outcomes;
mod readers;
mod shaped;
mod texts;
mod walks;

pub use contexts::{LARGEST_CONTEXT, context_of};
pub use forms::Form;
pub use json_texts::text_of_items;
pub use outcomes::{Outcome, graph_of};
pub use readers::PageReader;
pub use texts::{right_text, text_of};

/// Whatever its bytes, a page has under a context exactly one outcome: one tree in which nothing is refused, or one first
/// fault, which for `extract` and `check` is one of its form or of what a start tag says to RDFa, and for `items` one of its
/// form or of an item.
pub fn a_page_has_one_outcome()
    ensures { OneOutcome }
{}
