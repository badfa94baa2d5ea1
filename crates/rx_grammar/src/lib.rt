//! What a page is, which tree it has, and which byte of it is faulty: the grammar of HTML and XHTML pages.
//!
//! The definitions stand in specs/, and every layer that reads pages is proved against them. The types here name what
//! the definitions and the code share: the kinds of faults, the limits, and the contents of elements.
#![tactic(auto)]

mod contents;
mod faults;
mod kinds;
mod limits;
mod stops;

pub use contents::{Content, RawName};
pub use faults::{Fault, Kind};
pub use kinds::name_of;
pub use limits::Limits;
pub use stops::Stop;
