//! The rules of RDFa on one page, as its elements come: a stack of contexts, one for each open element.
//!
//! [`Eval`] takes a page's start tags, texts and ends, and gives its triples: the frames of the open elements, the owners of
//! lists, and the calls.
//!
//! What one element says by itself are functions on values (RDFa Core 1.1, section 7.5). An element stands at a
//! [`places::Surroundings`], inside a [`contexts::EvaluationContext`]; its [`rx_curie::Facts`] are what its start tag says.
//! [`places::Surroundings::start`] gives its resources and its value, and adds its triples. [`values::TextRule`] says the value
//! of an element whose value is its text. [`Labels`] keeps the numbers of the blank nodes that authors name. [`Placed::of`] and
//! [`value_of`] are the same rules for one element by itself.
#![tactic(auto)]

mod blanks;
mod closing;
mod contexts;
mod drawing;
mod elements;
mod entries;
mod eval;
mod frames;
mod handing;
mod hanging;
mod inherited;
mod iris;
mod labels;
mod listing;
mod numbers;
mod opening;
mod pending;
mod placed;
mod places;
mod resources;
mod stack;
mod starts;
mod triples;
mod values;

ghost use Rattle.rx_eval.specs.KeptTexts.{KeepsWhereGathered, KeptTextsHold};
ghost use Rattle.rx_eval.specs.Reserving.{ReservedAreFilled};

pub use blanks::is_blank;
pub use eval::Eval;
pub use inherited::{Direction, Hanging, Inherited};
pub use iris::OwnIris;
pub use labels::Labels;
pub use placed::{Placed, value_of};

/// A text that takes its places in lists at its end stands where it would have stood, had it been known at its element's
/// start.
pub fn reserved_are_filled()
    ensures { ReservedAreFilled }
{}

/// An open element's frame keeps a text exactly where the rules say that the element gathers one (RDFa Core 1.1, section 7.5,
/// step 11): where its property has the element's text for its value.
pub fn text_is_kept_where_it_is_gathered()
    ensures { KeepsWhereGathered }
{}

/// Worked lines of open elements: which of them gather their text.
pub fn kept_texts_hold()
    ensures { KeptTextsHold }
{}
