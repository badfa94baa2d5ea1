//! What a start tag says to RDFa: its attributes read under the names in force.
//!
//! [`read_term`] and [`read_resource`] are the readings of RDFa Core 1.1, section 7.4, and lend slices. [`Facts::of`] reads all
//! attributes of a tag, and refuses a vocabulary without a scheme and literals that are markup.
//!
//! An [`IriMaker`] makes the IRIs of a page's tags, and shares those that it made lately.
#![tactic(auto)]

ghost use Rattle.rx_curie.specs.Seen.{FactsOneToOne};

mod comparisons;
mod facts;
mod fields;
mod literals;
mod made;
mod makers;
mod nodes;
mod predicates;
mod readings;
mod refs;
mod refusals;
mod resources;
mod term_iris;
mod types;

pub use facts::{Datatype, ElementKind, Facts, FactsError};
pub use makers::IriMaker;
pub use nodes::TypeList;
pub use readings::{Reading, read_resource, read_term};
pub use refs::Ref;
pub use refusals::refusal_below;
pub use rx_grammar::Kind;

/// Facts that are seen as the same facts of the rules are the same.
pub fn seen_one_to_one()
    ensures { FactsOneToOne }
{}
