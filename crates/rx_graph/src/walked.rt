//! What one walk through a list tells.
ghost use Rattle.std.specs.Prelude.{◌≡◌, true, false, IfSome};
ghost use Rattle.rx_model.specs.Common.{list_any, triples_seen};
ghost use Rattle.rx_graph.specs.Graph.{IsNumbered};
ghost use Rattle.rx_graph.specs.Patterns.{copies};

use crate::keyed::Keyed;
use crate::keys::Key;
use crate::numbering::next_behind;
use crate::vocabulary::copies;
use rx_terms::TripleList;

/// What is known of a list in which no triple has the predicate rdfa:copy.
#[derive(Clone, Copy)]
pub(crate) struct Walked {
    /// What makes hashers that begin with the list's key.
    pub(crate) keyed: Keyed,
    /// Whether the blank nodes are 0, 1, 2 in order of first occurrence.
    pub(crate) is_numbered: bool,
}

/// What a walk through the list tells. Nothing where a triple has the predicate rdfa:copy.
///
/// It is one walk for all three, since a long list doesn't stay near the processor from one walk to the next.
pub(crate) fn walk(triples: &TripleList) -> Option<Walked>
    ensures none { IfSome result (λ walked. list_any copies (triples_seen triples.now) ≡ false) }
    ensures numbered { IfSome result (λ walked. walked.is_numbered ≡ true → IsNumbered (triples_seen triples.now)) }
{
    let mut key = Key::new();
    let mut next = Some(0);
    for i in 0..triples.len() {
        let triple = triples.at(i);
        if copies(triple) {
            return None;
        }
        next = next_behind(triple, next);
        key.take(triple);
    }
    let is_numbered = next.is_some();
    let keyed = Keyed::by(key);
    Some(Walked { keyed, is_numbered })
}
