//! The values of properties: text that is gathered, and the forms of times.
//!
//! [`TextStore`] keeps the text of all elements that gather it in one buffer. [`pattern`] tells by which datatype a
//! text is a time.
#![tactic(auto)]

mod clocks;
mod durations;
mod patterns;
mod readers;
mod text_store;
mod years;
mod zones;

pub use patterns::{TimeKind, pattern};
pub use text_store::TextStore;
