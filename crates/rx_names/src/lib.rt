//! The names in force at an element: prefixes, default vocabulary, language and terms.
//!
//! [`Names`] begins with a [`Context`], takes the start tag of each element that is opened, and drops its declarations when the
//! element ends. Its [`NamesView`] answers what RDFa Core 1.1, sections 7.4 and 7.5, says of the line of tags that are open, and
//! lends slices. Each declaration is kept once, whatever stands below it. A contract sees what is kept, and for every line of
//! tags that it stands for (`NamesStand`) what is answered.
#![tactic(auto)]

mod attributes;
mod context_files;
mod contexts;
mod declarations;
mod file_tables;
mod kept_rows;
mod names;
mod numbers;
mod rows;
mod standard;
mod tables;
mod words;

pub use attributes::{Attributes, attribute};
pub use context_files::ContextError;
pub use contexts::Context;
pub use names::{Names, NamesView};
pub use words::{is_low_line, is_nc_name, is_term};
