//! Texts, IRIs, literals and triples of RDF 1.1: the values that every layer above speaks of.
//!
//! An [`Iri`], a [`Lang`] and a [`Literal`] are checked where they are made, so no layer above checks them again. Two
//! values are equal exactly where RDF 1.1 Concepts says that the terms are. Each call that takes memory answers
//! [`NoMemory`] where there is none, and then leaves its value unchanged.
#![tactic(auto)]

ghost use Rattle.rx_terms.specs.Literal.{EqualAsInRdf};

mod iri_list;
mod iris;
mod langs;
mod literals;
mod texts;
mod triple_list;
mod triples;

pub use iri_list::Iris;
pub use iris::{Iri, IriError, has_scheme, is_forbidden, is_scheme};
pub use langs::Lang;
pub use literals::{Literal, LiteralKind};
pub use texts::{NoMemory, Text};
pub use triple_list::TripleList;
pub use triples::{Blank, Node, Quad, Term, Triple};

/// Triples whose literals [`Literal::typed`] made are equal values exactly where they are one triple of RDF 1.1
/// Concepts: subject and predicate, and of a literal object lexical form, datatype and language tag, are equal
/// character by character.
pub fn equal_as_in_rdf()
    ensures { EqualAsInRdf }
{}
