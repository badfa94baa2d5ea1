//! What kind of value a triple's object gives.
ghost use Rattle.std.specs.Prelude.{◌≡◌, option_map};
ghost use Rattle.rx_model.specs.Seen.{term_seen, triple_seen};
ghost use Rattle.rx_graph.specs.Resources.{resource_seen};
ghost use Rattle.rx_jsonld.specs.Value.{is_empty_list, may_be_empty, type_of};

use rx_graph::Resource;
use rx_shapes::{is_first, is_nil, is_rest, is_type};
use rx_terms::{Iri, Term, Triple};

/// The node that the triple gives as a type.
pub(crate) fn type_of(triple: &Triple) -> Option<Resource<'_>>
    ensures { option_map resource_seen result ≡ type_of (triple_seen triple.now) }
{
    if is_type(&triple.predicate) {
        Resource::of_term(&triple.object)
    } else {
        None
    }
}

/// Whether the object is rdf:nil and is written as a list of no items.
pub(crate) fn is_empty_list(predicate: &Iri, object: &Term) -> bool
    ensures { result ≡ is_empty_list predicate.now (term_seen object.now) }
{
    match object {
        Term::Iri(iri) => may_be_empty(predicate) && is_nil(iri),
        Term::Blank(_blank) => false,
        Term::Literal(_literal) => false,
    }
}

fn may_be_empty(predicate: &Iri) -> bool
    ensures { result ≡ may_be_empty predicate.now }
{
    !is_first(predicate) && !is_rest(predicate)
}
