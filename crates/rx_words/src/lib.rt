//! Words: the values of attributes, trimmed and cut into tokens, and texts in lower case.
//!
//! Letter case is that of A to Z alone, and white space that of HTML: tab, LF, FF, CR and space. No call but [`lower`]
//! takes memory.
#![tactic(auto)]

mod cuts;
mod letter_case;
mod tokens;

pub use cuts::{behind, is_empty, split_last, split_once, trim};
pub use letter_case::{is_same_lowered, lower};
pub use tokens::first_token;
