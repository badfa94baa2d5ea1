//! What the words of a command line ask for.
//!
//! [`Job::of`] reads the words: a task, options in any order, each at most once, and a page or, of one task, several pages
//! and their addresses. No file is opened here.
#![tactic(auto)]

mod arguments;
mod asking;
mod errors;
mod formats;
mod jobs;
mod listing;
mod options;
mod pages;
mod values;
mod words;

pub use asking::{Asking, Several};
pub use errors::JobError;
pub use formats::{Format, names_graphs};
pub use jobs::Job;
pub use pages::Pages;
