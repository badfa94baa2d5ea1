//! Triples in the order in which they are written.
ghost use Rattle.std.specs.Prelude.{◌≡◌, ◌<◌, ◌++◌, length, map, flat_map, nat_eq, IfOk, OnOk, take, drop, [], ◌∷◌};
ghost use Rattle.rx_model.specs.Common.{contains, same_node, triple_seen, triples_seen};
ghost use Rattle.rx_graph.specs.Resources.{resource_seen};
ghost use Rattle.rx_turtle.specs.declared.keys.By.TheVariants as by;
ghost use Rattle.rx_turtle.specs.Groups.{group_key, grouped, lent_triples, those_with, AppendsLent};
ghost use Rattle.rx_turtle.specs.Runs.{all_in, runs, like_first, said_by, said_in, by_predicate};

use crate::groups::Groups;
use crate::keys::{By, has_key, key_of};
use crate::lent::borrowed;
use rx_graph::{Graph, Resource};
use rx_terms::{NoMemory, Triple};
use std::alloc::Global;

/// How many triples are arranged without an index: then looking through them costs less.
const FEW: usize = 8;

/// The graph's triples, with those of one subject side by side, and of these those of one predicate. Subjects come in order
/// of first occurrence, and so do the predicates of each, and the triples of these.
pub fn arranged<'a>(alloc: Global, graph: &'a Graph) -> Result<Vec<&'a Triple>, NoMemory>
    ensures { IfOk result (λ list. map said_in (runs by.Subject (lent_triples list.items)) ≡ map said_by (grouped by.Subject (triples_seen graph.now))) }
{
    let triples = borrowed(alloc, graph)?;
    let subjects = Groups::of(alloc, &triples, By::Subject)?;
    Ok(arrange(alloc, &subjects, triples.len())?)
}

/// The triples, with those of one predicate side by side. Predicates come in order of first occurrence, and so do the
/// triples of each.
pub fn by_predicate<'a>(alloc: Global, triples: &[&'a Triple]) -> Result<Vec<&'a Triple>, NoMemory>
    ensures { IfOk result (λ list. runs by.Predicate (lent_triples list.items) ≡ grouped by.Predicate (lent_triples triples.now)) }
{
    let mut list = Vec::with_capacity(alloc, triples.len())?;
    push_arranged(alloc, &mut list, triples)?;
    Ok(list)
}

/// The triples of each subject, with those of one predicate side by side. There are so many triples.
fn arrange<'a>(
    alloc: Global,
    subjects: &Groups<'a>,
    size: usize,
) -> Result<Vec<&'a Triple>, NoMemory>
    ensures { IfOk result (λ list. lent_triples list.items ≡ flat_map by_predicate subjects.now) }
{
    let mut list = Vec::with_capacity(alloc, size)?;
    for i in 0..subjects.len() {
        let (_subject, triples) = subjects.at(i);
        push_arranged(alloc, &mut list, triples)?;
    }
    Ok(list)
}

/// Adds the triples, with those of one predicate side by side. The time is that of their number.
fn push_arranged<'a>(
    alloc: Global,
    list: &mut Vec<&'a Triple>,
    triples: &[&'a Triple],
) -> Result<(), NoMemory>
    ensures { OnOk result (AppendsLent list.old.items list.new.items (all_in (grouped by.Predicate (lent_triples triples.now)))) }
{
    if triples.len() <= FEW {
        return push_few(list, triples);
    }
    let groups = Groups::of(alloc, triples, By::Predicate)?;
    push_groups(list, &groups)?;
    Ok(())
}

/// The same without an index. The time is that of the square of their number.
fn push_few<'a>(list: &mut Vec<&'a Triple>, triples: &[&'a Triple]) -> Result<(), NoMemory>
    ensures { OnOk result (AppendsLent list.old.items list.new.items (all_in (grouped by.Predicate (lent_triples triples.now)))) }
{
    for i in 0..triples.len() {
        let (before, from) = triples.split_at(i);
        push_like_first(list, before, from)?;
    }
    Ok(())
}

/// Adds the triples that have the predicate of the first of them, where none before it has that.
fn push_like_first<'a>(
    list: &mut Vec<&'a Triple>,
    before: &[&'a Triple],
    from: &[&'a Triple],
) -> Result<(), NoMemory>
    ensures { OnOk result (AppendsLent list.old.items list.new.items (like_first by.Predicate (lent_triples before.now) (lent_triples from.now))) }
{
    if from.is_empty() {
        return Ok(());
    }
    let key = key_of(from[0], By::Predicate);
    if occurs(before, key) {
        return Ok(());
    }
    push_those_with(list, from, key)
}

/// Whether one of the triples has this predicate.
fn occurs(triples: &[&Triple], key: Resource) -> bool
    ensures { result ≡ contains (same_node nat_eq) (map (group_key by.Predicate) (lent_triples triples.now)) (resource_seen key.entry) }
{
    for i in 0..triples.len() {
        if has_key(triples[i], By::Predicate, key) {
            return true;
        }
    }
    false
}

/// Adds those of the triples that have this predicate.
fn push_those_with<'a>(
    list: &mut Vec<&'a Triple>,
    triples: &[&'a Triple],
    key: Resource,
) -> Result<(), NoMemory>
    ensures { OnOk result (AppendsLent list.old.items list.new.items (those_with by.Predicate (resource_seen key.entry) (lent_triples triples.now))) }
{
    for i in 0..triples.len() {
        push_if(list, triples[i], key)?;
    }
    Ok(())
}

fn push_if<'a>(
    list: &mut Vec<&'a Triple>,
    triple: &'a Triple,
    key: Resource,
) -> Result<(), NoMemory>
    ensures { OnOk result (AppendsLent list.old.items list.new.items (those_with by.Predicate (resource_seen key.entry) (triple_seen triple.now ∷ []))) }
{
    if !has_key(triple, By::Predicate, key) {
        return Ok(());
    }
    list.push(triple)?;
    Ok(())
}

/// Adds the triples of each group.
fn push_groups<'a>(list: &mut Vec<&'a Triple>, groups: &Groups<'a>) -> Result<(), NoMemory>
    ensures { OnOk result (AppendsLent list.old.items list.new.items (all_in groups.now)) }
{
    for i in 0..groups.len() {
        let (_key, triples) = groups.at(i);
        push_all(list, triples)?;
    }
    Ok(())
}

fn push_all<'a>(list: &mut Vec<&'a Triple>, triples: &[&'a Triple]) -> Result<(), NoMemory>
    ensures { OnOk result (AppendsLent list.old.items list.new.items (lent_triples triples.now)) }
{
    for i in 0..triples.len() {
        list.push(triples[i])?;
    }
    Ok(())
}
