//! A base against which many references are resolved.
ghost use Rattle.std.specs.Prelude.{◌≡◌, IfOk};
ghost use Rattle.rx_terms.specs.Common.{chars, IsIri};
ghost use Rattle.rx_refs.specs.Resolve.{resolved};

use crate::plain::{Split, split_of};
use crate::resolution::resolve_split;
use rx_terms::{Iri, NoMemory};
use std::alloc::Global;
use std::marker::Model;

/// A base, whose parts are told once for all its references. A contract sees it as the IRI's characters.
#[derive(Debug, Drop)]
pub struct Base {
    iri: Iri,
    split: Option<Split>,
}

impl Model for Base {
    ghost use Rattle.std.specs.Prelude.{ℕ, List, IfSome, encode_utf8_all};
    ghost use Rattle.rx_refs.specs.Plain.{IsSplit};

    ghost Value = { List ℕ };

    ghost view = { λ b. b.iri };

    ghost invariant = { λ b. IfSome b.split (IsSplit (encode_utf8_all b.iri)) };
}

impl Base {
    /// The base that the IRI is.
    pub fn of(iri: Iri) -> Base
        ensures { result ≡ iri }
    {
        let split = split_of(iri.as_str());
        Base { iri, split }
    }

    /// The IRI.
    pub fn iri(&self) -> &Iri
        ensures { result.now ≡ self.now }
    {
        &self.iri
    }

    /// What the reference means against the base, as [`resolve`](crate::resolve) says. An error is want of memory.
    pub fn resolve(&self, alloc: Global, reference: &str) -> Result<Iri, NoMemory>
        ensures meaning { IfOk result (λ iri. iri ≡ resolved self.now (chars reference.now)) }
        ensures iri { IfOk result (λ iri. IsIri iri) }
    {
        resolve_split(alloc, &self.iri, self.split, reference)
    }
}
