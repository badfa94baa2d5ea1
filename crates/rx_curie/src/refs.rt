//! What an attribute names as a resource.
ghost use Rattle.std.specs.Prelude.{◌≡◌, IfOk};

use rx_terms::{Iri, NoMemory, Text};

/// What an attribute names as a resource (RDFa Core 1.1, section 7.4).
#[derive(Debug, Drop, PartialEq, Eq)]
pub enum Ref {
    /// An IRI, made of a prefix or a term, or written in full.
    Iri(Iri),
    /// An author's blank node, by what follows its `_:`.
    Label(Text),
    /// A reference that is still to be resolved against the base, as it is written.
    Relative(Text),
}

impl Ref {
    /// An equal one.
    pub fn try_clone(&self) -> Result<Ref, NoMemory>
        ensures clone { IfOk result (λ copy. copy ≡ self.now) }
    {
        match self {
            Ref::Iri(iri) => Ok(Ref::Iri(iri.try_clone()?)),
            Ref::Label(label) => Ok(Ref::Label(label.try_clone()?)),
            Ref::Relative(reference) => Ok(Ref::Relative(reference.try_clone()?)),
        }
    }
}
