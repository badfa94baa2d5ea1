//! What an element puts into lists at its start.
ghost use Rattle.std.specs.Prelude.{◌≡◌, OnOk, IfOk, Some, map, option_map, filter_map};
ghost use Rattle.rx_rdfa.specs.Common.{node_seen, term_seen, listed};
ghost use Rattle.rx_curie.specs.Seen.{facts_seen};
ghost use Rattle.rx_eval.specs.ElementResources.{found_seen};
ghost use Rattle.rx_eval.specs.Contexts.{waiting_seen};
ghost use Rattle.rx_eval.specs.OwnersSeen.{owners_seen, places_for};
ghost use Rattle.rx_eval.specs.Listing.{Puts, entries_for, linked_entries, touched_entries, awaited_entry, own_entries, listed_entries, entries_put, places_unless, own_reserved, reserved_places};

use crate::contexts::IncompleteTriple;
use crate::entries::{add_awaited, add_each, slot_each, touch_each};
use crate::hanging::hangs;
use crate::resources::ElementResources;
use crate::values::node_term;
use rx_curie::Facts;
use rx_lists::{Lists, Owner, SlotId};
use rx_terms::{Iris, NoMemory, Node, Term};
use std::alloc::Global;

/// Puts the object into the lists of `rel`.
fn put_linked(
    lists: &mut Lists,
    owner: Owner,
    rel: &Option<Iris>,
    object: &Option<Node>,
) -> Result<(), NoMemory>
    ensures { OnOk result (Puts lists.old lists.new (linked_entries owner.0 rel.now (option_map node_seen object.now))) }
{
    let Some(object) = object else {
        return Ok(());
    };
    match rel {
        Some(rel) => add_each(lists, owner, rel, &node_term(object)?),
        None => Ok(()),
    }
}

/// Makes the lists of `rel` that wait.
fn put_touched(
    lists: &mut Lists,
    owner: Owner,
    rel: &Option<Iris>,
    waits: bool,
) -> Result<(), NoMemory>
    ensures { OnOk result (Puts lists.old lists.new (touched_entries owner.0 rel.now waits)) }
{
    if !waits {
        return Ok(());
    }
    match rel {
        Some(rel) => touch_each(lists, owner, rel),
        None => Ok(()),
    }
}

/// Puts the value into the lists of `property`, or reserves its places where it is the element's text.
fn put_valued(
    alloc: Global,
    lists: &mut Lists,
    owner: Owner,
    property: &Option<Iris>,
    value: &Option<Term>,
) -> Result<Vec<SlotId>, NoMemory>
    ensures lists { OnOk result (Puts lists.old lists.new (entries_for owner.0 (Some (option_map term_seen value.now)) property.now)) }
    ensures slots { IfOk result (λ slots. slots.items ≡ places_unless value.now (places_for owner.0 (listed property.now) (owners_seen lists.old))) }
{
    let Some(property) = property else {
        return Ok(Vec::new(alloc));
    };
    match value {
        Some(value) => {
            add_each(lists, owner, property, value)?;
            Ok(Vec::new(alloc))
        }
        None => slot_each(alloc, lists, owner, property),
    }
}

/// Puts what an element with `inlist` has into its lists, and gives the places that wait for its text.
fn put_own(
    alloc: Global,
    lists: &mut Lists,
    owner: Owner,
    facts: &Facts,
    found: &ElementResources,
    value: &Option<Term>,
) -> Result<Vec<SlotId>, NoMemory>
    ensures lists { OnOk result (Puts lists.old lists.new
        (own_entries owner.0 (facts_seen facts.now) (found_seen found.now) (option_map term_seen value.now))) }
    ensures slots { IfOk result (λ slots. slots.items ≡ own_reserved owner.0 (facts_seen facts.now) (found_seen found.now) value.now lists.old) }
{
    put_linked(lists, owner, &facts.rel, &found.object)?;
    put_touched(lists, owner, &facts.rel, hangs(facts, found))?;
    put_valued(alloc, lists, owner, &facts.property, value)
}

/// Adds the subject to the lists that wait. Where nothing waits, no copy of it is made.
fn put_awaited(
    lists: &mut Lists,
    waiting: &[IncompleteTriple],
    subject: &Node,
) -> Result<(), NoMemory>
    ensures { OnOk result (Puts lists.old lists.new (filter_map (awaited_entry (node_seen subject.now)) (map waiting_seen waiting.now))) }
{
    if waiting.is_empty() {
        return Ok(());
    }
    add_awaited(lists, waiting, &node_term(subject)?)
}

/// Puts what the element has into lists, and gives the places that wait for its text.
pub(crate) fn put_all(
    alloc: Global,
    lists: &mut Lists,
    owner: Owner,
    facts: &Facts,
    found: &ElementResources,
    value: &Option<Term>,
    waiting: &[IncompleteTriple],
) -> Result<Vec<SlotId>, NoMemory>
    ensures lists { OnOk result (Puts lists.old lists.new (entries_put owner.0 (facts_seen facts.now) (found_seen found.now) value.now waiting.now)) }
    ensures slots { IfOk result (λ slots. slots.items ≡ reserved_places owner.0 (facts_seen facts.now) (found_seen found.now) value.now lists.old) }
{
    let slots = put_listed(alloc, lists, owner, facts, found, value)?;
    put_awaited(lists, waiting, &found.subject)?;
    Ok(slots)
}

/// The same of an element with `inlist`, and nothing of any other.
fn put_listed(
    alloc: Global,
    lists: &mut Lists,
    owner: Owner,
    facts: &Facts,
    found: &ElementResources,
    value: &Option<Term>,
) -> Result<Vec<SlotId>, NoMemory>
    ensures lists { OnOk result (Puts lists.old lists.new
        (listed_entries owner.0 (facts_seen facts.now) (found_seen found.now) (option_map term_seen value.now))) }
    ensures slots { IfOk result (λ slots. slots.items ≡ reserved_places owner.0 (facts_seen facts.now) (found_seen found.now) value.now lists.old) }
{
    if !facts.inlist {
        return Ok(Vec::new(alloc));
    }
    put_own(alloc, lists, owner, facts, found, value)
}
