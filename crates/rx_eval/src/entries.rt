//! What elements put into lists (RDFa Core 1.1, section 7.5, steps 9 to 12).
ghost use Rattle.std.specs.Prelude.{◌≡◌, OnOk, IfOk, Some, None, map};
ghost use Rattle.rx_rdfa.specs.Common.{put, term_seen, entry};
ghost use Rattle.rx_lists.specs.Owners.{changed};
ghost use Rattle.rx_eval.specs.OwnersSeen.{owners_seen, places_for};
ghost use Rattle.rx_eval.specs.Listing.{Puts};
ghost use Rattle.rx_eval.specs.Entries.{put_each, slots_for, put_awaited};

use crate::contexts::IncompleteTriple;
use rx_lists::{Lists, Owner, SlotId};
use rx_terms::{Iri, Iris, NoMemory, Term};
use std::alloc::Global;

/// Adds the item at the end of the owner's list of the predicate.
pub(crate) fn add_item(
    lists: &mut Lists,
    owner: Owner,
    predicate: &Iri,
    item: &Term,
) -> Result<(), NoMemory>
    ensures { OnOk result (lists.new ≡ changed (put predicate.now (Some (Some item.now))) lists.old owner.0) }
{
    let term = item.try_clone()?;
    let slot = lists.slot(owner, predicate)?;
    lists.fill(slot, term);
    Ok(())
}

/// Adds the item to the owner's list of each predicate.
pub(crate) fn add_each(
    lists: &mut Lists,
    owner: Owner,
    predicates: &Iris,
    item: &Term,
) -> Result<(), NoMemory>
    ensures code { OnOk result (lists.new ≡ put_each owner.0 (Some (Some item.now)) predicates.now lists.old) }
    ensures seen { OnOk result (Puts lists.old lists.new (map (entry owner.0 (Some (Some (term_seen item.now)))) predicates.now)) }
{
    for i in 0..predicates.len() {
        add_item(lists, owner, predicates.at(i), item)?;
    }
    Ok(())
}

/// Makes the owner's list of each predicate.
pub(crate) fn touch_each(lists: &mut Lists, owner: Owner, predicates: &Iris) -> Result<(), NoMemory>
    ensures code { OnOk result (lists.new ≡ put_each owner.0 None predicates.now lists.old) }
    ensures seen { OnOk result (Puts lists.old lists.new (map (entry owner.0 None) predicates.now)) }
{
    for i in 0..predicates.len() {
        lists.touch(owner, predicates.at(i))?;
    }
    Ok(())
}

/// Reserves the next place of the owner's list of each predicate.
pub(crate) fn slot_each(
    alloc: Global,
    lists: &mut Lists,
    owner: Owner,
    predicates: &Iris,
) -> Result<Vec<SlotId>, NoMemory>
    ensures lists { OnOk result (lists.new ≡ put_each owner.0 (Some None) predicates.now lists.old) }
    ensures seen { OnOk result (Puts lists.old lists.new (map (entry owner.0 (Some None)) predicates.now)) }
    ensures slots { IfOk result (λ slots. slots.items ≡ slots_for owner predicates.now lists.old) }
    ensures places { IfOk result (λ slots. slots.items ≡ places_for owner.0 predicates.now (owners_seen lists.old)) }
{
    let mut slots = Vec::new(alloc);
    for i in 0..predicates.len() {
        let slot = lists.slot(owner, predicates.at(i))?;
        slots.push(slot)?;
    }
    Ok(slots)
}

/// Adds the item to each list that waits.
pub(crate) fn add_awaited(
    lists: &mut Lists,
    waiting: &[IncompleteTriple],
    item: &Term,
) -> Result<(), NoMemory>
    ensures { OnOk result (lists.new ≡ put_awaited item.now waiting.now lists.old) }
{
    for one in waiting {
        match one {
            IncompleteTriple::InList(owner, predicate) => add_item(lists, *owner, predicate, item)?,
            IncompleteTriple::Forward(_predicate) => {}
            IncompleteTriple::Reverse(_predicate) => {}
        }
    }
    Ok(())
}
