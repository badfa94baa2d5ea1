//! The IRIs that the triples of lists have of their own.
ghost use Rattle.std.specs.Prelude.{◌≡◌, IfOk, true};
ghost use Rattle.rx_model.specs.Common.{list_all, is_ascii, IsIri, rdf_first, rdf_rest, rdf_nil};

use rx_model::{RDF_FIRST, RDF_NIL, RDF_REST};
use rx_terms::{Iri, NoMemory};
use std::alloc::Global;
use std::marker::Model;

/// The IRIs that any list needs, made once for all of them. A contract sees nothing of the value, for it is always the
/// same.
#[derive(Drop)]
pub(crate) struct CellIris {
    first: Iri,
    rest: Iri,
    nil: Iri,
}

impl Model for CellIris {
    ghost use Rattle.rx_lists.specs.CellIris.{AreOfCells};

    ghost Value = { Unit {0} };

    ghost view = { λ iris. tt };

    ghost invariant = { λ iris. AreOfCells iris.first iris.rest iris.nil };
}

impl CellIris {
    /// Makes the IRIs.
    pub(crate) fn new(alloc: Global) -> Result<CellIris, NoMemory> {
        Ok(CellIris {
            first: iri(alloc, RDF_FIRST)?,
            rest: iri(alloc, RDF_REST)?,
            nil: iri(alloc, RDF_NIL)?,
        })
    }

    /// rdf:first, the predicate of a cell's item.
    pub(crate) fn first(&self) -> &Iri
        ensures { result.now ≡ rdf_first }
    {
        &self.first
    }

    /// rdf:rest, the predicate of what follows a cell.
    pub(crate) fn rest(&self) -> &Iri
        ensures { result.now ≡ rdf_rest }
    {
        &self.rest
    }

    /// rdf:nil, which ends a list.
    pub(crate) fn nil(&self) -> &Iri
        ensures { result.now ≡ rdf_nil }
    {
        &self.nil
    }
}

/// An IRI of RDF's namespace.
fn iri(alloc: Global, text: &str) -> Result<Iri, NoMemory>
    requires ascii { list_all is_ascii text.now ≡ true }
    requires form { IsIri text.now }
    ensures { IfOk result (λ iri. iri ≡ text.now) }
{
    let text = String::from_str(alloc, text)?;
    Iri::of_string(alloc, text)
}
