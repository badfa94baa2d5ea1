//! Microdata items of a page that is read in pieces, and their JSON.
//!
//! A table takes the events of a page, and ends as its rows: its items, elements with property names, and those with an id.
//! Beside each row is kept which members it reaches, by where it stands and by `itemref`; JSON is written of both.
#![tactic(auto)]

ghost use Rattle.rx_items.specs.JsonLaws.{JsonIsReadBack, JsonNests};
ghost use Rattle.rx_items.specs.Rows.{RowsSuffice};
ghost use Rattle.rx_items.specs.Showing.{TablesShow};

mod collectors;
mod disjoint;
mod distinct;
mod elements;
mod extras;
mod faults;
mod gathering;
mod ids;
mod items;
mod keeping;
mod kept;
mod members;
mod named;
mod pages;
mod parts;
mod reaches;
mod references;
mod rows;
mod rules;
mod spans;
mod starts;
mod tables;
mod values;
mod visits;
mod walks;
mod words;
mod writing;

pub use items::Items;
pub use rx_nest::{Fault, Kind, Limits, Syntax};
pub use rx_tags::{Stop, Tag};
pub use rx_terms::{Iri, NoMemory};
pub use walks::ItemWalk;

/// The JSON of a page's items nests at most 122 levels of lists and objects, fewer than the 127 that a reader takes.
pub fn json_nests()
    ensures { JsonNests }
{}

/// The compact text of the JSON of a page's items is read back as that JSON.
pub fn json_is_read_back()
    ensures { JsonIsReadBack }
{}

/// The rows of a page, which are its items, its elements with property names and those with an id, come to the JSON or
/// the fault of the whole page.
pub fn rows_suffice()
    ensures { RowsSuffice }
{}

/// Of the events of a page's tree the table has the tree's rows.
pub fn tables_show()
    ensures { TablesShow }
{}
