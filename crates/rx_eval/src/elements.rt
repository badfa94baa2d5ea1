//! The start of an element (RDFa Core 1.1, section 7.5).
ghost use Rattle.std.specs.Prelude.{◌≡◌, ◌&&◌, false, OnOk, IfOk, Some, None, is_some, is_none, length, map, option_map, if◌then◌else◌};
ghost use Rattle.rx_model.specs.Seen.{node_seen};
ghost use Rattle.rx_curie.specs.Seen.{facts_seen};
ghost use Rattle.rx_eval.specs.Contexts.{context_seen, waiting_seen};
ghost use Rattle.rx_eval.specs.ElementResources.{found_seen};
ghost use Rattle.rx_lists.specs.Appends.{Appends};
ghost use Rattle.rx_eval.specs.OwnersSeen.{owners_seen};
ghost use Rattle.rx_eval.specs.Frames.{hanging_by};
ghost use Rattle.rx_eval.specs.Listing.{listed_places};
ghost use Rattle.rx_eval.specs.Gathering.{target_seen};
ghost use Rattle.rx_eval.specs.Closing.{slots_in};
ghost use Rattle.rx_eval.specs.States.{owner_seen};
ghost use Rattle.rx_eval.specs.Elements.{handed_by, hanging_below, owner_in, begun_below, begun_below_number};
ghost use Rattle.rx_eval.specs.Entering.{GathersAt, GathersListed, GathersFound, handed_found, lists_found, own_found, below_found, at_element, start_at, below_at, lists_at, gathers_at, own_at, below_own_at};

use crate::contexts::{EvaluationContext, Hangings};
use crate::frames::{Frame, Gathered, Target, clone_iris, waiting_of};
use crate::handing::begin;
use crate::hanging::{hangs, object_below};
use crate::iris::OwnIris;
use crate::listing::put_all;
use crate::places::Surroundings;
use crate::resources::ElementResources;
use crate::values::TextRule;
use rx_curie::Facts;
use rx_lists::{Lists, Owner, SlotId};
use rx_terms::{Iris, NoMemory, Node, Term, TripleList};
use std::alloc::Global;

/// The owner, or the other one where there is none.
pub(crate) fn owner_or(owner: Option<Owner>, other: Owner) -> Owner
    ensures { result ≡ owner_in owner other }
{
    match owner {
        Some(owner) => owner,
        None => other,
    }
}

/// A new owner of lists for the children, where they have an object that isn't the subject.
fn begin_below(
    lists: &mut Lists,
    object: &Option<Node>,
    subject: &Node,
) -> Result<Option<Owner>, NoMemory>
    ensures lists { OnOk result (lists.new ≡ begun_below object.now subject.now lists.old) }
    ensures owner { IfOk result (λ owner. owner ≡ begun_below_number object.now subject.now (length lists.old)) }
{
    match object {
        Some(object) => begin(lists, object, subject),
        None => Ok(None),
    }
}

/// What is known of the value where the element gathers its text: there is a property, and nothing else is its value.
fn gathered(
    alloc: Global,
    facts: &Facts,
    found: &ElementResources,
    value: &Option<Term>,
    slots: Vec<SlotId>,
    mark: usize,
) -> Result<Option<Gathered>, NoMemory>
    ensures some { IfOk result (λ gathered. is_some gathered ≡ (is_some facts.now.property && is_none value.now)) }
    ensures what { IfOk result (GathersListed (facts_seen facts.now) (found_seen found.now) slots.items mark) }
{
    let Some(property) = &facts.property else {
        return Ok(None);
    };
    if value.is_some() {
        return Ok(None);
    }
    let target = target(alloc, facts, property, slots)?;
    Ok(Some(Gathered {
        subject: found.subject.try_clone()?,
        rule: TextRule::of(facts)?,
        target,
        mark,
    }))
}

/// Where the value goes: to the places in lists with `inlist`, else to triples.
fn target(
    alloc: Global,
    facts: &Facts,
    property: &Iris,
    slots: Vec<SlotId>,
) -> Result<Target, NoMemory>
    ensures said { IfOk result (λ target. target_seen target ≡ (if facts.now.inlist then None else Some property.now)) }
    ensures slots { IfOk result (λ target. slots_in target ≡ listed_places (facts_seen facts.now) slots.items) }
{
    if facts.inlist {
        return Ok(Target::Listed(slots));
    }
    Ok(Target::Said(clone_iris(alloc, property)?))
}

/// The frame of a skipped element, which hands all on.
fn skipped(around: &EvaluationContext) -> Result<Frame, NoMemory>
    ensures context { IfOk result (λ frame. frame.context ≡ around.now) }
    ensures nothing { IfOk result (λ frame. (frame.own ≡ None) × (frame.below ≡ None) × (frame.gathered ≡ None)) }
{
    Ok(Frame {
        context: around.share()?,
        own: None,
        below: None,
        gathered: None,
        skipped: 0,
    })
}

/// The start of an element at a place: adds its triples, begins its owners, puts what it has into lists, and gives its
/// frame, whose text begins at the mark.
pub(crate) fn enter(
    place: &Surroundings<'_>,
    facts: &Facts,
    iris: &OwnIris,
    lists: &mut Lists,
    out: &mut TripleList,
    mark: usize,
) -> Result<Frame, NoMemory>
    ensures start { OnOk result (Appends out.old out.new (at_element start_at place.now (facts_seen facts.now))) }
    ensures context { IfOk result (λ frame. context_seen frame.context ≡ at_element below_at place.now (facts_seen facts.now) (length lists.old)) }
    ensures lists { OnOk result (owners_seen lists.new ≡ at_element lists_at place.now (facts_seen facts.now) (owners_seen lists.old)) }
    ensures gathers { IfOk result (λ frame. is_some frame.gathered ≡ at_element gathers_at place.now (facts_seen facts.now)) }
    ensures text { IfOk result (λ frame. GathersAt place.now (facts_seen facts.now) lists.old mark frame.gathered) }
    ensures own { IfOk result (λ frame. option_map owner_seen frame.own ≡ at_element own_at place.now (facts_seen facts.now) (length lists.old)) }
    ensures below { IfOk result (λ frame. option_map owner_seen frame.below ≡ at_element below_own_at place.now (facts_seen facts.now) (length lists.old)) }
{
    let started = place.start(facts, iris, out)?;
    if started.found.skipped {
        return skipped(place.around);
    }
    enter_found(place, facts, &started.found, &started.value, lists, mark)
}

/// The same of an element that isn't skipped, but for its triples.
fn enter_found(
    place: &Surroundings<'_>,
    facts: &Facts,
    found: &ElementResources,
    value: &Option<Term>,
    lists: &mut Lists,
    mark: usize,
) -> Result<Frame, NoMemory>
    requires { found.now.skipped ≡ false }
    ensures context { IfOk result (λ frame. context_seen frame.context ≡ handed_found place.now (facts_seen facts.now) (found_seen found.now) lists.old) }
    ensures lists { OnOk result (owners_seen lists.new ≡ lists_found place.now (facts_seen facts.now) (found_seen found.now) lists.old value.now) }
    ensures gathers { IfOk result (λ frame. is_some frame.gathered ≡ (is_some facts.now.property && is_none value.now)) }
    ensures text { IfOk result (λ frame. GathersFound place.now (facts_seen facts.now) (found_seen found.now) lists.old mark frame.gathered) }
    ensures own { IfOk result (λ frame. option_map owner_seen frame.own ≡ own_found place.now (facts_seen facts.now) (found_seen found.now) lists.old) }
    ensures below { IfOk result (λ frame. option_map owner_seen frame.below ≡ below_found place.now (facts_seen facts.now) (found_seen found.now) lists.old) }
{
    let around = place.around;
    let object = object_below(place, facts, found)?;
    let subject = &found.subject;
    let own = begin(lists, subject, &around.object)?;
    let below = begin_below(lists, &object, subject)?;
    let owner = owner_or(own, around.owner);
    let waiting = around.hanging.as_slice();
    let slots = put_all(place.alloc, lists, owner, facts, found, value, waiting)?;
    let gathered = gathered(place.alloc, facts, found, value, slots, mark)?;
    let context = hand(
        place.alloc,
        facts,
        found,
        object,
        owner,
        owner_or(below, owner),
    )?;
    Ok(Frame {
        context,
        own,
        below,
        gathered,
        skipped: 0,
    })
}

/// What waits for the children of an element that isn't skipped. At most elements that is nothing, for which no list is
/// made.
#[inline(always)]
fn waiting_below(
    alloc: Global,
    facts: &Facts,
    found: &ElementResources,
    own: Owner,
) -> Result<Hangings, NoMemory>
    ensures { IfOk result (λ hangings. map waiting_seen hangings ≡ hanging_below (facts_seen facts.now) (found_seen found.now) own.0) }
{
    if !hangs(facts, found) {
        return Ok(Hangings::none());
    }
    shared_waiting(alloc, facts, own)
}

/// The triples of `rel` and `rev` that wait, to be shared; apart from the way of most elements.
#[inline(never)]
fn shared_waiting(alloc: Global, facts: &Facts, own: Owner) -> Result<Hangings, NoMemory>
    ensures { IfOk result (λ hangings. map waiting_seen hangings ≡ hanging_by (facts_seen facts.now) own.0) }
{
    let waiting = waiting_of(alloc, facts, own)?;
    Hangings::of(alloc, waiting)
}

/// What the children of an element that isn't skipped inherit.
#[inline(never)]
fn hand(
    alloc: Global,
    facts: &Facts,
    found: &ElementResources,
    object: Option<Node>,
    own: Owner,
    below: Owner,
) -> Result<EvaluationContext, NoMemory>
    ensures { IfOk result (λ context. context_seen context
        ≡ handed_by (facts_seen facts.now) (found_seen found.now) (option_map node_seen object) own.0 below.0) }
{
    let hanging = waiting_below(alloc, facts, found, own)?;
    let object = match object {
        Some(object) => object,
        None => found.subject.try_clone()?,
    };
    Ok(EvaluationContext {
        subject: found.subject.try_clone()?,
        object,
        hanging,
        owner: below,
    })
}
