//! Triples that stand side by side, cut where their key changes.
ghost use Rattle.std.specs.Prelude.{◌≡◌, [], ◌<◌, ◌≤◌, true, false, length, take, drop, MatchOption};
ghost use Rattle.std.specs.List.{list_all};
ghost use Rattle.rx_graph.specs.Resources.{resource_seen};
ghost use Rattle.rx_turtle.specs.Groups.{has_key, lent_triples};
ghost use Rattle.rx_turtle.specs.Cuts.{IsFirstRun};
ghost use Rattle.rx_turtle.specs.Runs.{runs, starts_with_key};

use crate::keys::{By, has_key, key_of};
use rx_graph::Resource;
use rx_terms::Triple;

/// Triples that stand side by side and have one key, and those behind them.
#[derive(Clone, Copy)]
pub struct Run<'s, 'a> {
    /// The key.
    pub key: Resource<'a>,
    /// The triples that have it.
    pub triples: &'s [&'a Triple],
    /// Those behind them.
    pub rest: &'s [&'a Triple],
}

/// The first of the triples, as far as they have one key.
pub fn cut<'s, 'a>(triples: &'s [&'a Triple], by: By) -> Option<Run<'s, 'a>>
    ensures runs { MatchOption result (runs by (lent_triples triples.now) ≡ []) (IsFirstRun by (lent_triples triples.now)) }
    ensures fewer { MatchOption result (triples.now ≡ []) (λ run. length run.rest.now < length triples.now) }
{
    if triples.is_empty() {
        return None;
    }
    let key = key_of(triples[0], by);
    let (run, rest) = triples.split_at(end_of_run(triples, by, key));
    Some(Run {
        key,
        triples: run,
        rest,
    })
}

/// How many of the first triples have this key. The first one has it.
fn end_of_run(triples: &[&Triple], by: By, key: Resource) -> usize
    requires { starts_with_key by (resource_seen key) (lent_triples triples.now) ≡ true }
    ensures some { 0 < result }
    ensures within { result ≤ length triples.now }
    ensures have { list_all (has_key by (resource_seen key.entry)) (lent_triples (take result triples.now)) ≡ true }
    ensures ends { starts_with_key by (resource_seen key.entry) (lent_triples (drop result triples.now)) ≡ false }
{
    for i in 1..triples.len() {
        if !has_key(triples[i], by, key) {
            return i;
        }
    }
    triples.len()
}
