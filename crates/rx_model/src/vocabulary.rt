//! The IRIs of RDF's own vocabulary (RDF Schema 1.1, 5.2 and 3.3).
ghost use Rattle.std.specs.Prelude.{◌≡◌, true, bytes_eq};
ghost use Rattle.rx_model.specs.Common.{list_all, is_ascii};

use rx_terms::Iri;

/// Says of what class a node is.
pub const RDF_TYPE: &str = "http://www.w3.org/1999/02/22-rdf-syntax-ns#type";

/// Says a cell's item.
pub const RDF_FIRST: &str = "http://www.w3.org/1999/02/22-rdf-syntax-ns#first";

/// Says what comes after a cell.
pub const RDF_REST: &str = "http://www.w3.org/1999/02/22-rdf-syntax-ns#rest";

/// The list of nothing.
pub const RDF_NIL: &str = "http://www.w3.org/1999/02/22-rdf-syntax-ns#nil";

/// Whether the IRI is this one, of ASCII.
pub fn is(iri: &Iri, name: &str) -> bool
    requires { list_all is_ascii name.now ≡ true }
    ensures { result ≡ bytes_eq iri.now name.now }
{
    iri.as_str() == name
}
