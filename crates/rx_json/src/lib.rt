//! JSON of whatever says by `Serialize` what it is: its compact text, and its value.
//!
//! Definitions are in `specs/`.
#![tactic(auto)]

mod texts;

pub use rx_terms::NoMemory;
pub use texts::{OUT_OF_MEMORY, text_of, value_of};
