//! One tag of a page, read a character at a time and lent as slices.
//!
//! [`TagBuf::step`] answers `Done` exactly where the characters after a tag's `<` spell a tag, which is the one that is
//! lent; `More` exactly where they begin one in which no fault stands, and spell none; and `Bad` exactly where the last of
//! them decides the tag's fault, with its kind, in HTML and in XHTML. Only want of memory is free: it leaves the tag as it
//! was. [`TagBuf::take_front`] takes many bytes at once, as by so many steps that answer `More`, and [`TagBuf::take_whole`] a tag
//! that stands whole, as by so many steps of which the last answers `Done`. A whole [`Tag`] lends its name, and the names and
//! values of its attributes, from the buffer in which they were decoded, and the buffer keeps its memory from tag to tag.
#![tactic(auto)]

mod attributes;
mod fronts;
mod lists;
mod moves;
mod pairs;
mod references;
mod repeats;
mod tag_buf;
mod tag_name;
mod tag_text;
mod tags;
mod texts;
mod values;

pub use moves::{begins_tag, ends_name, is_letter, is_white_space};
pub use pairs::TagError;
pub use references::{meaning, run_move};
pub use rx_chars::Syntax;
pub use rx_grammar::{Fault, Kind, Limits, Stop};
pub use tag_buf::TagBuf;
pub use tag_text::TagStep;
pub use tags::Tag;
pub use values::{cased, no_meaning};
