//! The outside: a shelf of files to read and a sink of bytes to write, each with a count of its faults.
//!
//! A [`Shelf`] and a [`Sink`] are traits whose contracts say, for every implementation, what a call does to the bytes
//! that are left, taken and held, and that a call fails only where the count of faults rose or a file is missing.
//! [`MemShelf`] and [`MemSink`] are in memory and exact to the call, for tests and embedders; [`FileShelf`] and
//! [`StdSink`] are the system's, and tell nothing of their content.
#![tactic(auto)]

mod counter;
mod file_list;
mod file_shelf;
mod mem_shelf;
mod mem_sink;
mod puts;
mod shelf;
mod sink;
mod sizes;
mod std_sink;

pub use file_list::FileList;
pub use file_shelf::FileShelf;
pub use mem_shelf::MemShelf;
pub use mem_sink::MemSink;
pub use puts::put_all;
pub use shelf::{Failed, Shelf};
pub use sink::Sink;
pub use sizes::PIECE;
pub use std_sink::StdSink;
