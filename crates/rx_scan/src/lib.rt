//! Tokens of a page from pieces of bytes, wherever they are cut.
//!
//! A [`Scan`] stands for a state of the reader of bytes in rx_pages. [`Scan::step`] takes bytes up to the end of a token,
//! and what it took and shows is what the reader says of these bytes, in the content that [`Scan::enter`] has set. A fault
//! comes exactly where the reader decides one before a token is complete, and then at each later call; want of memory
//! likewise, and never in text between tokens.
//!
//! A `Mark` says of the characters since the last token what they may become, in a few words of memory and with none of the
//! characters themselves; `move_of` says what the next character does there. Both stand for the verdicts on characters in
//! rx_pages, which look at all of them.
#![tactic(auto)]

ghost use Rattle.rx_scan.specs.Laws.{KnownAreTags, MovesAreVerdicts};
ghost use Rattle.rx_scan.specs.Spelled.{RefusesWhatIsFaulty, ScansWhatIsSpelled, StepsSpell};

mod advances;
mod answers;
mod buffers;
mod bytes;
mod declarations;
mod doctypes;
mod endings;
mod entries;
mod fronts;
mod known_tags;
mod latch;
mod marks;
mod moves;
mod pending;
mod phases;
mod places;
mod plain;
mod raw_ends;
mod readers;
mod refusals;
mod runs;
mod scans;
mod settings;
mod tag_entries;
mod texts;
mod whole_references;
mod whole_tags;
mod wide_chars;
mod words;

pub use answers::Token;
pub use latch::Latch;
pub use rx_chars::Syntax;
pub use rx_grammar::{Content, Fault, Kind, Limits, RawName};
pub use rx_tags::{Stop, Tag};
pub use scans::Scan;

/// From where nothing is unfinished, and in whatever content of the syntax, bytes are scanned as these tokens, with this state
/// behind them, exactly where they spell them so: within the limits, and what is left of them begins a token.
pub fn scans_what_is_spelled()
    ensures { ScansWhatIsSpelled }
{}

/// There bytes are refused with this fault exactly where it is their first one, by what the grammar says of a byte and of the
/// characters before it, whichever elements are open.
pub fn refuses_what_is_faulty()
    ensures { RefusesWhatIsFaulty }
{}

/// So what a step answers is the token that is spelled at its place, and its fault is the scanner's share of the page's.
pub fn steps_spell()
    ensures { StepsSpell }
{}

/// Each move says what the verdict on the next character is, and what pends afterwards, whatever the characters are that
/// the mark stands for.
pub fn moves_are_verdicts()
    ensures { MovesAreVerdicts }
{}

/// The characters since the last token are known to begin a tag exactly where the mark says so, and with the next one
/// exactly where `is_tag_with` does.
pub fn known_are_tags()
    ensures { KnownAreTags }
{}
