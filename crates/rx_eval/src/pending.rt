//! An element that says no more than what it refers to: it gets its frame once something is said inside, which is mostly never.
ghost use Rattle.std.specs.Prelude.{◌≡◌, ◌<◌, ◌≤◌, ◌^◌, ◌+◌, OnOk, IfOk, length};
ghost use Rattle.rx_rdfa.specs.Renaming.{labels as labels_of};
ghost use Rattle.rx_curie.specs.Seen.{facts_seen};
ghost use Rattle.rx_eval.specs.Opened.{Opens, skipped_state};
ghost use Rattle.rx_eval.specs.Ending.{Closes};
ghost use Rattle.rx_eval.specs.Referring.{PendingMayWait, with_pending};

use crate::resources::{only_reference, says_nothing};
use crate::stack::Stack;
use rx_curie::Facts;
use rx_terms::{NoMemory, Node};
use std::mem;

/// An element that waits for its frame: what it refers to, and how many elements of which nothing is said are open inside it.
#[derive(Drop)]
pub(crate) struct Pending {
    pub(crate) subject: Node,
    pub(crate) inside: u32,
}

/// Opens an element.
#[inline(always)]
pub(crate) fn open(
    stack: &mut Stack,
    pending: &mut Option<Pending>,
    facts: &Facts,
) -> Result<(), NoMemory>
    requires kept { PendingMayWait pending.old stack.old }
    requires drawn { stack.old.drawn + 1 + length (labels_of (facts_seen facts.now)) ≤ 2 ^ 61 }
    requires level { length (with_pending pending.old stack.old).frames < stack.old.levels }
    ensures ok { OnOk result (Opens (with_pending pending.old stack.old) (facts_seen facts.now) (with_pending pending.new stack.new)) }
    ensures kept { PendingMayWait pending.new stack.new }
{
    if stack.depth() > 0 && says_nothing(facts) {
        open_silent(stack, pending);
        return Ok(());
    }
    open_saying(stack, pending, facts)
}

/// Opens an element of which nothing is said, which isn't the root.
#[inline(always)]
fn open_silent(stack: &mut Stack, pending: &mut Option<Pending>)
    requires kept { PendingMayWait pending.old stack.old }
    requires drawn { stack.old.drawn + 1 ≤ 2 ^ 61 }
    requires level { length (with_pending pending.old stack.old).frames < stack.old.levels }
    requires inside { 0 < length stack.old.frames }
    ensures state { with_pending pending.new stack.new ≡ skipped_state (with_pending pending.old stack.old) }
    ensures kept { PendingMayWait pending.new stack.new }
{
    // Elements that are open have levels, whose number has 32 bits.
    let _levels = stack.levels();
    match pending {
        Some(pending) => pending.inside += 1,
        None => stack.skip(),
    }
}

/// Opens an element of which something is said, or the root.
#[inline(never)]
fn open_saying(
    stack: &mut Stack,
    pending: &mut Option<Pending>,
    facts: &Facts,
) -> Result<(), NoMemory>
    requires kept { PendingMayWait pending.old stack.old }
    requires drawn { stack.old.drawn + 1 + length (labels_of (facts_seen facts.now)) ≤ 2 ^ 61 }
    requires level { length (with_pending pending.old stack.old).frames < stack.old.levels }
    ensures ok { OnOk result (Opens (with_pending pending.old stack.old) (facts_seen facts.now) (with_pending pending.new stack.new)) }
    ensures kept { PendingMayWait pending.new stack.new }
{
    let waiting = mem::replace(pending, None);
    settle(stack, waiting)?;
    let next = open_settled(stack, facts)?;
    drop(mem::replace(pending, next));
    Ok(())
}

/// The element that waits gets its frame.
fn settle(stack: &mut Stack, pending: Option<Pending>) -> Result<(), NoMemory>
    requires { PendingMayWait pending stack.old }
    ensures { OnOk result (stack.new ≡ with_pending pending stack.old) }
{
    match pending {
        Some(pending) => {
            let Pending { subject, inside } = pending;
            stack.open_referring(subject, inside)
        }
        None => Ok(()),
    }
}

/// Opens an element where none waits: it waits itself, where it says no more than what it refers to.
fn open_settled(stack: &mut Stack, facts: &Facts) -> Result<Option<Pending>, NoMemory>
    requires drawn { stack.old.drawn + 1 + length (labels_of (facts_seen facts.now)) ≤ 2 ^ 61 }
    requires level { length stack.old.frames < stack.old.levels }
    ensures ok { IfOk result (λ pending. Opens stack.old (facts_seen facts.now) (with_pending pending stack.new)) }
    ensures kept { IfOk result (λ pending. PendingMayWait pending stack.new) }
{
    if let Some(reference) = only_reference(facts) {
        if stack.lets_wait() {
            return Ok(Some(Pending {
                subject: stack.resolve(reference)?,
                inside: 0,
            }));
        }
    }
    stack.open_framed(facts)?;
    Ok(None)
}

/// Closes the innermost element.
#[inline(always)]
pub(crate) fn close(stack: &mut Stack, pending: &mut Option<Pending>) -> Result<(), NoMemory>
    requires kept { PendingMayWait pending.old stack.old }
    requires inside { 0 < length (with_pending pending.old stack.old).frames }
    ensures ok { OnOk result (Closes (with_pending pending.old stack.old) (with_pending pending.new stack.new)) }
    ensures kept { PendingMayWait pending.new stack.new }
{
    let Some(last) = pending else {
        return stack.close();
    };
    if last.inside > 0 {
        last.inside -= 1;
        return Ok(());
    }
    drop(mem::replace(pending, None));
    Ok(())
}
