//! Literals (RDF 1.1 Concepts, section 3.3).
ghost use Rattle.std.specs.Prelude.{◌≡◌, IfOk};

use crate::iris::Iri;
use crate::langs::Lang;
use crate::texts::{NoMemory, Text};

/// What a literal has beside its characters.
#[derive(Debug, Drop, PartialEq, Eq, Hash)]
pub enum LiteralKind {
    /// Nothing: its datatype is xsd:string.
    Plain,
    /// A language tag: its datatype is rdf:langString.
    Tagged(Lang),
    /// A datatype other than xsd:string, where [`Literal::typed`] made it.
    Typed(Iri),
}

/// A literal: its characters, and its language tag or datatype.
#[derive(Debug, Drop, PartialEq, Eq, Hash)]
pub struct Literal {
    // First, since what is hashed before a text goes in whole words.
    pub kind: LiteralKind,
    pub lexical: Text,
}

const XSD_STRING: &str = "http://www.w3.org/2001/XMLSchema#string";

impl LiteralKind {
    /// An equal kind.
    pub fn try_clone(&self) -> Result<LiteralKind, NoMemory>
        ensures { IfOk result (λ kind. kind ≡ self.now) }
    {
        match self {
            LiteralKind::Plain => Ok(LiteralKind::Plain),
            LiteralKind::Tagged(lang) => Ok(LiteralKind::Tagged(lang.try_clone()?)),
            LiteralKind::Typed(iri) => Ok(LiteralKind::Typed(iri.try_clone()?)),
        }
    }
}

impl Literal {
    ghost use Rattle.rx_terms.specs.Literal.{typed_literal, IsProperLiteral};

    /// The literal of this datatype. That of xsd:string is plain, so that equal literals are equal values.
    pub fn typed(lexical: Text, datatype: Iri) -> Literal
        ensures typed { result ≡ typed_literal lexical datatype }
        ensures proper { IsProperLiteral result }
    {
        if datatype.as_str() == XSD_STRING {
            return Literal {
                lexical,
                kind: LiteralKind::Plain,
            };
        }
        Literal {
            lexical,
            kind: LiteralKind::Typed(datatype),
        }
    }

    /// An equal literal.
    pub fn try_clone(&self) -> Result<Literal, NoMemory>
        ensures { IfOk result (λ literal. literal ≡ self.now) }
    {
        Ok(Literal {
            lexical: self.lexical.try_clone()?,
            kind: self.kind.try_clone()?,
        })
    }
}
