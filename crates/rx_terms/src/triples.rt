//! Nodes, terms, triples and quads (RDF 1.1 Concepts, sections 3 and 4).
ghost use Rattle.std.specs.Prelude.{◌≡◌, IfOk};

use crate::iris::Iri;
use crate::literals::Literal;
use crate::texts::NoMemory;

/// A blank node, by its number.
#[derive(Clone, Copy, Debug, PartialEq, Eq, PartialOrd, Ord, Hash)]
pub struct Blank(pub u64);

/// What may be a triple's subject.
#[derive(Debug, Drop, PartialEq, Eq, Hash)]
pub enum Node {
    Iri(Iri),
    Blank(Blank),
}

/// What may be a triple's object.
#[derive(Debug, Drop, PartialEq, Eq, Hash)]
pub enum Term {
    Iri(Iri),
    Blank(Blank),
    Literal(Literal),
}

/// A statement: the subject has the object by the predicate.
#[derive(Debug, Drop, PartialEq, Eq, Hash)]
pub struct Triple {
    pub subject: Node,
    pub predicate: Iri,
    pub object: Term,
}

/// A triple in the graph of a name, or in the default graph.
#[derive(Debug, Drop, PartialEq, Eq, Hash)]
pub struct Quad {
    pub triple: Triple,
    pub graph: Option<Iri>,
}

impl Node {
    /// An equal node.
    pub fn try_clone(&self) -> Result<Node, NoMemory>
        ensures { IfOk result (λ node. node ≡ self.now) }
    {
        match self {
            Node::Iri(iri) => Ok(Node::Iri(iri.try_clone()?)),
            Node::Blank(blank) => Ok(Node::Blank(*blank)),
        }
    }
}

impl Term {
    /// An equal term.
    pub fn try_clone(&self) -> Result<Term, NoMemory>
        ensures { IfOk result (λ term. term ≡ self.now) }
    {
        match self {
            Term::Iri(iri) => Ok(Term::Iri(iri.try_clone()?)),
            Term::Blank(blank) => Ok(Term::Blank(*blank)),
            Term::Literal(literal) => Ok(Term::Literal(literal.try_clone()?)),
        }
    }
}

impl Triple {
    /// An equal triple.
    pub fn try_clone(&self) -> Result<Triple, NoMemory>
        ensures { IfOk result (λ triple. triple ≡ self.now) }
    {
        Ok(Triple {
            subject: self.subject.try_clone()?,
            predicate: self.predicate.try_clone()?,
            object: self.object.try_clone()?,
        })
    }
}
