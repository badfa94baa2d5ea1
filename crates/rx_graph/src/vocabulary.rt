//! RDFa's vocabulary for patterns.
ghost use Rattle.std.specs.Prelude.{◌≡◌, bytes_eq, nat_eq};
ghost use Rattle.rx_model.specs.Common.{rdfa_copy, rdfa_pattern, says_pattern, term_seen, triple_seen, same_term};
ghost use Rattle.rx_model.specs.Terms as model;

use rx_model::{RDF_TYPE, is};
use rx_terms::{Term, Triple};

const RDFA_COPY: &str = "http://www.w3.org/ns/rdfa#copy";

const RDFA_PATTERN: &str = "http://www.w3.org/ns/rdfa#Pattern";

/// Whether the triple says of its subject that it is an rdfa:Pattern.
pub(crate) fn says_pattern(triple: &Triple) -> bool
    ensures { result ≡ says_pattern nat_eq (triple_seen triple.now).predicate (triple_seen triple.now).object }
{
    is(&triple.predicate, RDF_TYPE) && is_pattern_class(&triple.object)
}

fn is_pattern_class(term: &Term) -> bool
    ensures { result ≡ same_term nat_eq (term_seen term.now) (model.Resource (model.Iri rdfa_pattern)) }
{
    match term {
        Term::Iri(iri) => is(iri, RDFA_PATTERN),
        Term::Blank(_blank) => false,
        Term::Literal(_literal) => false,
    }
}

/// Whether the triple's predicate is rdfa:copy.
pub(crate) fn copies(triple: &Triple) -> bool
    ensures { result ≡ bytes_eq triple.now.predicate rdfa_copy }
{
    is(&triple.predicate, RDFA_COPY)
}
