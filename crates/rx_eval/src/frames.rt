//! An open element.
ghost use Rattle.std.specs.Prelude.{◌≡◌, ◌++◌, OnOk, IfOk, map};
ghost use Rattle.rx_curie.specs.Seen.{facts_seen};
ghost use Rattle.rx_eval.specs.Contexts.{waiting_seen};
ghost use Rattle.rx_eval.specs.Frames.{forward_by, reverse_by, hanging_by};

use crate::contexts::{EvaluationContext, IncompleteTriple};
use crate::values::TextRule;
use rx_curie::Facts;
use rx_lists::{Owner, SlotId};
use rx_terms::{Iri, Iris, NoMemory, Node};
use std::alloc::Global;

/// Where the value of an element's text goes.
#[derive(Debug, Drop)]
pub(crate) enum Target {
    /// Triples with these predicates.
    Said(Iris),
    /// Places in lists.
    Listed(Vec<SlotId>),
}

/// What is known of the value of an element that gathers its text.
#[derive(Drop)]
pub(crate) struct Gathered {
    pub(crate) subject: Node,
    pub(crate) rule: TextRule,
    pub(crate) target: Target,
    /// Where the element's text begins in the text that is kept.
    pub(crate) mark: usize,
}

/// An open element: what it hands on, the owners that it began, its text where that is wanted, and how many elements of
/// which nothing is said are open around it, inside the next frame.
#[derive(Drop)]
pub(crate) struct Frame {
    pub(crate) context: EvaluationContext,
    pub(crate) own: Option<Owner>,
    pub(crate) below: Option<Owner>,
    pub(crate) gathered: Option<Gathered>,
    pub(crate) skipped: u32,
}

/// The list again.
pub(crate) fn clone_iris(alloc: Global, iris: &Iris) -> Result<Iris, NoMemory>
    ensures { IfOk result (λ copy. copy ≡ iris.now) }
{
    let mut copy = Iris::new(alloc);
    for i in 0..iris.len() {
        copy.push(iris.at(i).try_clone()?)?;
    }
    Ok(copy)
}

/// One of `rel` that waits: forward, or as a list.
fn forward(predicate: &Iri, inlist: bool, owner: Owner) -> Result<IncompleteTriple, NoMemory>
    ensures { IfOk result (λ one. waiting_seen one ≡ forward_by inlist owner.0 predicate.now) }
{
    let predicate = predicate.try_clone()?;
    if inlist {
        return Ok(IncompleteTriple::InList(owner, predicate));
    }
    Ok(IncompleteTriple::Forward(predicate))
}

fn push_forward(
    waiting: &mut Vec<IncompleteTriple>,
    predicates: &Iris,
    inlist: bool,
    owner: Owner,
) -> Result<(), NoMemory>
    ensures { OnOk result (map waiting_seen waiting.new.items ≡ map waiting_seen waiting.old.items ++ map (forward_by inlist owner.0) predicates.now) }
{
    for i in 0..predicates.len() {
        let one = forward(predicates.at(i), inlist, owner)?;
        waiting.push(one)?;
    }
    Ok(())
}

fn push_reverse(waiting: &mut Vec<IncompleteTriple>, predicates: &Iris) -> Result<(), NoMemory>
    ensures { OnOk result (map waiting_seen waiting.new.items ≡ map waiting_seen waiting.old.items ++ map reverse_by predicates.now) }
{
    for i in 0..predicates.len() {
        let one = IncompleteTriple::Reverse(predicates.at(i).try_clone()?);
        waiting.push(one)?;
    }
    Ok(())
}

/// What waits below an element without object: the predicates of `rel`, then those of `rev`.
pub(crate) fn waiting_of(
    alloc: Global,
    facts: &Facts,
    owner: Owner,
) -> Result<Vec<IncompleteTriple>, NoMemory>
    ensures { IfOk result (λ waiting. map waiting_seen waiting.items ≡ hanging_by (facts_seen facts.now) owner.0) }
{
    let mut waiting = Vec::new(alloc);
    if let Some(rel) = &facts.rel {
        push_forward(&mut waiting, rel, facts.inlist, owner)?;
    }
    if let Some(rev) = &facts.rev {
        push_reverse(&mut waiting, rev)?;
    }
    Ok(waiting)
}
