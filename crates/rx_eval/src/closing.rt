//! The end of an element (RDFa Core 1.1, section 7.5, steps 11 and 14).
ghost use Rattle.std.specs.Prelude.{◌≡◌, ◌+◌, OnOk, IfOk, option_map};
ghost use Rattle.rx_model.specs.Common.{chars, node_seen, term_seen, triples_seen};
ghost use Rattle.rx_lists.specs.Appends.{Appends};
ghost use Rattle.rx_eval.specs.OwnersSeen.{owners_seen, open_seen, cells_seen, forgotten_seen};
ghost use Rattle.rx_eval.specs.States.{frame_seen, owner_seen};
ghost use Rattle.rx_eval.specs.Ending.{ending_seen, end_owner, cells_count, EndingBecomes, EndsFrame};
ghost use Rattle.rx_eval.specs.Closing.{Fills, filled_in, gathered_value, slots_in, target_triples};

use crate::frames::{Frame, Gathered, Target};
use crate::triples::push_each;
use rx_lists::{Lists, Owner, SlotId};
use rx_terms::{NoMemory, Term, TripleList};
use rx_values::TextStore;
use std::alloc::Global;

/// Puts the value into each of the places.
fn fill_each(lists: &mut Lists, slots: &[SlotId], value: &Term) -> Result<(), NoMemory>
    ensures code { OnOk result (lists.new ≡ filled_in slots.now value.now lists.old) }
    ensures seen { OnOk result (Fills lists.old lists.new slots.now (term_seen value.now)) }
{
    for slot in slots {
        lists.fill(*slot, value.try_clone()?);
    }
    Ok(())
}

/// Puts a value into each of the places that nothing else wants; apart from the way of triples.
#[inline(never)]
fn fill_last(lists: &mut Lists, slots: &[SlotId], value: Term) -> Result<(), NoMemory>
    ensures { OnOk result (Fills lists.old lists.new slots.now (term_seen value)) }
{
    fill_each(lists, slots, &value)
}

/// The value that the text is goes where it is wanted: into triples, or into the places in lists.
fn put_value(
    out: &mut TripleList,
    lists: &mut Lists,
    gathered: &Gathered,
    value: Term,
) -> Result<(), NoMemory>
    ensures said { OnOk result (Appends out.old out.new (target_triples gathered.now.target (node_seen gathered.now.subject) (term_seen value))) }
    ensures filled { OnOk result (Fills lists.old lists.new (slots_in gathered.now.target) (term_seen value)) }
{
    match &gathered.target {
        Target::Said(predicates) => push_each(out, &gathered.subject, predicates, value),
        Target::Listed(slots) => fill_last(lists, slots.as_slice(), value),
    }
}

/// The end of an element's text.
pub(crate) fn end_text(
    alloc: Global,
    out: &mut TripleList,
    lists: &mut Lists,
    gathered: &Gathered,
    text: &str,
) -> Result<(), NoMemory>
    ensures said { OnOk result (Appends out.old out.new
        (target_triples gathered.now.target (node_seen gathered.now.subject) (gathered_value gathered.now (chars text.now)))) }
    ensures filled { OnOk result (Fills lists.old lists.new (slots_in gathered.now.target) (gathered_value gathered.now (chars text.now))) }
{
    let value = gathered.rule.value(alloc, text)?;
    put_value(out, lists, gathered, value)
}

/// Adds the triples of an owner's lists, whose cells are numbered from `next` on, and gives the next number. Where no
/// number is left for a cell there is no memory for one either. Most elements have no owner of their own, so that this
/// stands apart from their way.
#[inline(never)]
pub(crate) fn end_lists(
    out: &mut TripleList,
    lists: &mut Lists,
    owner: Owner,
    next: u64,
) -> Result<u64, NoMemory>
    ensures triples { OnOk result (Appends out.old out.new (cells_seen next (open_seen (owners_seen lists.old) owner.0))) }
    ensures next { IfOk result (λ after. after ≡ next + cells_count (open_seen (owners_seen lists.old) owner.0)) }
    ensures lists { OnOk result (owners_seen lists.new ≡ forgotten_seen (owners_seen lists.old) owner.0) }
{
    if !lists.fits(owner, next) {
        return Err(NoMemory);
    }
    let finished = lists.finish(owner, next)?;
    push_all(out, finished.triples)?;
    Ok(finished.next_blank)
}

/// Adds the triples themselves, in order.
fn push_all(out: &mut TripleList, triples: TripleList) -> Result<(), NoMemory>
    ensures { OnOk result (Appends out.old out.new (triples_seen triples)) }
{
    for triple in triples.into_vec() {
        out.push(triple)?;
    }
    Ok(())
}

/// The same of an owner, if there is one.
#[inline(always)]
pub(crate) fn end_owner(
    out: &mut TripleList,
    lists: &mut Lists,
    owner: Option<Owner>,
    next: u64,
) -> Result<u64, NoMemory>
    ensures { IfOk result (λ after. EndingBecomes (ending_seen out.old lists.old next) (end_owner (option_map owner_seen owner)) (ending_seen out.new lists.new after)) }
{
    match owner {
        Some(owner) => end_lists(out, lists, owner, next),
        None => Ok(next),
    }
}

/// The end of an element: its text, if it gathers it, the lists of its object, and those of its subject. Gives the next
/// number of a cell.
pub(crate) fn end_frame(
    alloc: Global,
    out: &mut TripleList,
    lists: &mut Lists,
    frame: &Frame,
    text: &TextStore,
    next: u64,
) -> Result<u64, NoMemory>
    ensures { IfOk result (λ after. EndsFrame (frame_seen frame.now) text.now (ending_seen out.old lists.old next) (ending_seen out.new lists.new after)) }
{
    if let Some(gathered) = &frame.gathered {
        end_text(alloc, out, lists, gathered, text.since(gathered.mark))?;
    }
    let next = end_owner(out, lists, frame.below, next)?;
    end_owner(out, lists, frame.own, next)
}
