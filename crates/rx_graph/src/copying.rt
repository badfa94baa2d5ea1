//! Property copying (HTML+RDFa 1.1, section 3.5).
ghost use Rattle.std.specs.Prelude.{◌≡◌, IfOk, nat_eq};
ghost use Rattle.rx_model.specs.Common.{copied, triples_seen};

use crate::graphs::Graph;
use crate::keyed::Keyed;
use crate::keys::Key;
use crate::patterns::Patterns;
use crate::sets::TripleSet;
use crate::walked::walk;
use rx_terms::{NoMemory, TripleList};
use std::alloc::Global;

/// The graph of the list with its patterns copied: each triple in order, dropped where its subject is a pattern that is
/// copied, replaced by what it copies where it is a live copy triple, and kept otherwise.
///
/// The time is that of the list's length and of what is copied, but for sorting what several patterns give at once.
pub fn copy_patterns(alloc: Global, triples: &TripleList) -> Result<Graph, NoMemory>
    ensures { IfOk result (λ graph. triples_seen graph ≡ copied nat_eq (triples_seen triples.now)) }
{
    let patterns = Patterns::of(alloc, triples)?;
    let set = treat_each(alloc, &patterns, triples);
    drop(patterns);
    Ok(Graph::of_set(set?))
}

/// What stands in place of each triple of the list, in order.
fn treat_each<'a>(
    alloc: Global,
    patterns: &Patterns<'a>,
    triples: &'a TripleList,
) -> Result<TripleSet, NoMemory>
    requires { patterns.now ≡ triples.now }
    ensures { IfOk result (λ set. triples_seen set ≡ copied nat_eq (triples_seen triples.now)) }
{
    let mut gathering = TripleSet::new(alloc, Keyed::by(Key::of(triples)));
    for i in 0..triples.len() {
        patterns.treat(alloc, triples.at(i), &mut gathering)?;
    }
    Ok(gathering)
}

/// The same of a list that is handed over: no triple is copied where none has the predicate rdfa:copy.
pub fn copy_patterns_owned(alloc: Global, triples: TripleList) -> Result<Graph, NoMemory>
    ensures { IfOk result (λ graph. triples_seen graph ≡ copied nat_eq (triples_seen triples)) }
{
    match walk(&triples) {
        Some(walked) => Graph::of_keyed(alloc, triples, walked.keyed, walked.is_numbered),
        None => copy_patterns(alloc, &triples),
    }
}
