//! The IRIs that RDFa's triples have of their own.
ghost use Rattle.std.specs.Prelude.{◌≡◌, ◌++◌, IfOk, true};
ghost use Rattle.rx_rdfa.specs.Common.{list_all, is_ascii, IsIri, uses_vocabulary, xsd, rdf_type};
ghost use Rattle.rx_values.specs.Kinds.{datatype_name};

use rx_model::RDF_TYPE;
use rx_terms::{Iri, NoMemory};
use rx_values::TimeKind;
use std::alloc::Global;
use std::marker::Model;

const USES_VOCABULARY: &str = "http://www.w3.org/ns/rdfa#usesVocabulary";

/// The IRIs that any element's start may need, made once for a page. A contract sees nothing of the value, for it is always
/// the same.
#[derive(Debug, Drop)]
pub struct OwnIris {
    rdf_type: Iri,
    uses_vocabulary: Iri,
}

impl Model for OwnIris {
    ghost use Rattle.rx_eval.specs.Iris.{AreRdfaIris};

    ghost Value = { Unit {0} };

    ghost view = { λ iris. tt };

    ghost invariant = { λ iris. AreRdfaIris iris.rdf_type iris.uses_vocabulary };
}

impl OwnIris {
    /// Makes the IRIs.
    pub fn new(alloc: Global) -> Result<OwnIris, NoMemory> {
        Ok(OwnIris {
            rdf_type: iri(alloc, RDF_TYPE)?,
            uses_vocabulary: iri(alloc, USES_VOCABULARY)?,
        })
    }

    /// rdf:type.
    pub fn rdf_type(&self) -> &Iri
        ensures { result.now ≡ rdf_type }
    {
        &self.rdf_type
    }

    /// rdfa:usesVocabulary.
    pub fn uses_vocabulary(&self) -> &Iri
        ensures { result.now ≡ uses_vocabulary }
    {
        &self.uses_vocabulary
    }
}

/// The datatype of a form of times.
pub(crate) fn time_datatype(alloc: Global, kind: TimeKind) -> Result<Iri, NoMemory>
    ensures { IfOk result (λ iri. iri ≡ xsd ++ datatype_name kind) }
{
    match kind {
        TimeKind::Date => iri(alloc, "http://www.w3.org/2001/XMLSchema#date"),
        TimeKind::Time => iri(alloc, "http://www.w3.org/2001/XMLSchema#time"),
        TimeKind::DateTime => iri(alloc, "http://www.w3.org/2001/XMLSchema#dateTime"),
        TimeKind::Duration => iri(alloc, "http://www.w3.org/2001/XMLSchema#duration"),
        TimeKind::Year => iri(alloc, "http://www.w3.org/2001/XMLSchema#gYear"),
        TimeKind::YearMonth => iri(alloc, "http://www.w3.org/2001/XMLSchema#gYearMonth"),
    }
}

fn iri(alloc: Global, text: &str) -> Result<Iri, NoMemory>
    requires ascii { list_all is_ascii text.now ≡ true }
    requires form { IsIri text.now }
    ensures { IfOk result (λ iri. iri ≡ text.now) }
{
    let text = String::from_str(alloc, text)?;
    Iri::of_string(alloc, text)
}
