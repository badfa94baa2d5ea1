//! The command: from the words of a command line to a status, a text on one sink and a line on another.
//!
//! [`run`] carries the promise of the whole program as its contract: what is written of a page is the text of the graph
//! that RDFa's rules give its tree, any other page is refused with its first fault, several pages give one document, and
//! each status comes exactly where its clause says.
#![tactic(auto)]

ghost use Rattle.rx_command.specs.Endings.{OneAnswer, EndingsSay};
ghost use Rattle.rx_command.specs.Samples.{SamplesArePages};
ghost use Rattle.rx_command.specs.Rows.{RowsAreAnswered};

mod errors;
mod files;
mod gathering;
mod inputs;
mod pages;
mod samples;
mod statuses;
mod top;

pub use rx_walk::{Fault, Kind};
pub use statuses::Status;
pub use top::run;

/// The sample page of each number that may be asked for is a page, and none of its start tags is refused.
pub fn samples_are_pages()
    ensures { SamplesArePages }
{}

/// Whatever is asked for, and whatever files there are, one answer is right: one status with one text and one line.
pub fn there_is_one_answer()
    ensures { OneAnswer }
{}

/// What follows from the one statement of how a run ends: that what is written denotes what it has to, that each refusal has its
/// cause, and which status comes where nothing failed.
pub fn endings_say_the_rest()
    ensures { EndingsSay }
{}

/// Worked rows: of these words and files this status, this text and this line are right.
pub fn rows_are_answered()
    ensures { RowsAreAnswered }
{}
