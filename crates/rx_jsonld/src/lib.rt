//! JSON-LD: the value of a graph in expanded and flattened form, and what such a value denotes.
//!
//! Definitions are in `specs/`.
#![tactic(auto)]

ghost use Rattle.rx_jsonld.specs.Document.{JsonLdSpellsOne, KeysStandOnce};
ghost use Rattle.rx_jsonld.specs.Laws.{DenotesFormed, ListsCells, ValueDenotes, ValuesAreFlat};
ghost use Rattle.rx_jsonld.specs.Meaning.{JsonLdDenotesOne};
ghost use Rattle.rx_jsonld.specs.Rows.{RowsHold};

mod chains;
mod groups;
mod listed;
mod nodes;
mod objects;
mod said;
mod texts;

pub use texts::{text, value};

/// The worked examples hold.
pub fn rows_hold()
    ensures { RowsHold }
{}

/// A value is that of at most one document.
pub fn a_value_spells_one()
    ensures { JsonLdSpellsOne }
{}

/// No object of a document's value has a key twice.
pub fn keys_stand_once()
    ensures { KeysStandOnce }
{}

/// Two graphs that one value denotes differ in the names of blank nodes alone.
pub fn a_value_denotes_one()
    ensures { JsonLdDenotesOne }
{}

/// The triples that a value denotes have IRIs, datatypes and language tags of the form that N-Quads asks.
pub fn a_value_denotes_formed_terms()
    ensures { DenotesFormed }
{}

/// At most six arrays and objects of a list's value lie in each other, and no number in it is a float.
pub fn values_are_flat()
    ensures { ValuesAreFlat }
{}

/// The value of a list in which each triple stands once denotes the list's set up to the names of blank nodes, but that a
/// literal that is typed xsd:string is read as the plain one.
pub fn a_value_denotes_its_triples()
    ensures { ValueDenotes }
{}

/// The cells that are listed are those of which the words say so: whose chain's first cell is the object of a triple whose
/// predicate is neither rdf:first nor rdf:type.
pub fn cells_are_listed()
    ensures { ListsCells }
{}
