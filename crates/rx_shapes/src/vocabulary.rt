//! RDF's vocabulary for lists and types.
ghost use Rattle.std.specs.Prelude.{◌≡◌, bytes_eq};
ghost use Rattle.rx_model.specs.Common.{rdf_type, rdf_first, rdf_rest, rdf_nil};

use rx_model::{RDF_FIRST, RDF_NIL, RDF_REST, RDF_TYPE, is};
use rx_terms::Iri;

/// Whether the IRI is rdf:type, which says of what class a node is (RDF Schema 1.1, 3.3).
pub fn is_type(iri: &Iri) -> bool
    ensures { result ≡ bytes_eq iri.now rdf_type }
{
    is(iri, RDF_TYPE)
}

/// Whether the IRI is rdf:first, which says a cell's item (RDF Schema 1.1, 5.2).
pub fn is_first(iri: &Iri) -> bool
    ensures { result ≡ bytes_eq iri.now rdf_first }
{
    is(iri, RDF_FIRST)
}

/// Whether the IRI is rdf:rest, which says what comes after a cell (RDF Schema 1.1, 5.2).
pub fn is_rest(iri: &Iri) -> bool
    ensures { result ≡ bytes_eq iri.now rdf_rest }
{
    is(iri, RDF_REST)
}

/// Whether the IRI is rdf:nil, the list of nothing (RDF Schema 1.1, 5.2).
pub fn is_nil(iri: &Iri) -> bool
    ensures { result ≡ bytes_eq iri.now rdf_nil }
{
    is(iri, RDF_NIL)
}
