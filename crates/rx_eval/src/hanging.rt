//! What an element hands on to its children (RDFa Core 1.1, section 7.5, steps 10 and 13).
ghost use Rattle.std.specs.Prelude.{◌≡◌, IfOk, option_map};
ghost use Rattle.rx_rdfa.specs.Common.{node_seen, hangs, holds_some, listed};
ghost use Rattle.rx_curie.specs.Seen.{facts_seen};
ghost use Rattle.rx_eval.specs.ElementResources.{found_seen};
ghost use Rattle.rx_eval.specs.Places.{object_under};

use crate::places::Surroundings;
use crate::resources::{ElementResources, clone_option};
use rx_curie::Facts;
use rx_terms::{Iris, NoMemory, Node};

fn has_some(predicates: &Option<Iris>) -> bool
    ensures { result ≡ holds_some (listed predicates.now) }
{
    match predicates {
        Some(predicates) => !predicates.is_empty(),
        None => false,
    }
}

/// Whether the predicates of `rel` and `rev` wait for subjects further down (RDFa Core 1.1, section 7.5, step 10).
#[inline]
pub fn hangs(facts: &Facts, found: &ElementResources) -> bool
    ensures { result ≡ hangs (facts_seen facts.now) (found_seen found.now) }
{
    if found.object.is_some() {
        return false;
    }
    has_some(&facts.rel) || has_some(&facts.rev)
}

/// The object that the children inherit, where it isn't the subject (RDFa Core 1.1, section 7.5, step 13).
#[inline]
pub fn object_below(
    place: &Surroundings<'_>,
    facts: &Facts,
    found: &ElementResources,
) -> Result<Option<Node>, NoMemory>
    ensures { IfOk result (λ object. option_map node_seen object ≡ object_under place.now (facts_seen facts.now) (found_seen found.now)) }
{
    if hangs(facts, found) {
        return Ok(Some(place.fresh()));
    }
    clone_option(&found.object)
}
