//! From a page's bytes, in pieces, to the list of its triples.
#![tactic(auto)]

ghost use Rattle.rx_walk.specs.CallsOf.{CallsOfTree, PiecesAreAlike};
ghost use Rattle.rx_walk.specs.Leading.{PiecesLeadAlike};
ghost use Rattle.rx_walk.specs.KeptTexts.{KeepsOneText};
ghost use Rattle.rx_walk.specs.Numberings.{ListIsNumbered, NumbersGrow, WalkIsNumbered};

mod calls;
mod checks;
mod courses;
mod evaluation;
mod origins;
mod scopes;
mod stages;
mod walks;

pub use checks::Check;
pub use rx_eval::Inherited;
pub use rx_nest::{Fault, Kind, Limits, Stop, Syntax};
pub use walks::Walk;

/// What is told of a page, start tag by start tag, character by character and end by end, are the calls for its tree, which
/// carries the facts of each element.
pub fn calls_are_of_the_tree()
    ensures { CallsOfTree }
{}

/// It makes no difference to the list of triples in which pieces text is told.
pub fn pieces_are_alike()
    ensures { PiecesAreAlike }
{}

/// It makes no difference to an evaluator's state either.
pub fn pieces_lead_alike()
    ensures { PiecesLeadAlike }
{}

/// Once a page's base is known, the text that a walk keeps is that of the outermost open element that gathers its own, as far
/// as it has come; where none does, it keeps no text.
pub fn walks_keep_one_text()
    ensures { KeepsOneText }
{}

/// Once a page's base is known, there is one numbering of blank nodes, one to one, under which a walk's triples so far and
/// what it shows of its innermost open element are what the rules say of the elements that were read.
pub fn walks_are_numbered()
    ensures { WalkIsNumbered }
{}

/// With the bytes of a page a numbering only grows: what has a number keeps it, whatever a walk is fed.
pub fn numbers_grow()
    ensures { NumbersGrow }
{}

/// The list of a page is told under a numbering that has grown out of each that a walk has had for the page's first bytes.
pub fn lists_are_numbered()
    ensures { ListIsNumbered }
{}
