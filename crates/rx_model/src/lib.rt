//! The model of RDF 1.1: terms, graphs and renaming, and the property copying of HTML+RDFa, over any type of blank
//! nodes.
//!
//! Definitions are in `specs/`. Each function here but `is` is a law about them, and does nothing when it is called.
#![tactic(auto)]

ghost use Rattle.std.specs.Prelude.{ℕ, nat_eq};
ghost use Rattle.rx_model.specs.Common.{Node, CopiesPatterns, LeadsAlong, NumbersOneToOne, SeenOneToOne};
ghost use Rattle.rx_model.specs.Renaming.{NamesDoNotMatter};

mod vocabulary;

pub use vocabulary::{RDF_FIRST, RDF_NIL, RDF_REST, RDF_TYPE, is};

/// The set of the copied list is the patterned set of the list.
pub fn copying_follows_patterns()
    ensures { CopiesPatterns nat_eq }
{}

/// The test of what live copy triples lead to is that of the relation.
pub fn pairs_lead_along()
    ensures { LeadsAlong nat_eq }
{}

/// Numbering renames the blank nodes one to one.
pub fn numbering_renames()
    ensures { NumbersOneToOne nat_eq }
{}

/// Where the blank nodes of a list have other names, each its own, what is numbered of its copied list is the same.
pub fn names_do_not_matter()
    ensures { NamesDoNotMatter nat_eq }
{}

/// What the model sees of a triple tells which it is.
pub fn seen_one_to_one()
    ensures { SeenOneToOne }
{}
