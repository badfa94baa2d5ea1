//! The stack of contexts, where an element that says no more than what it refers to waits for its frame.
ghost use Rattle.std.specs.Prelude.{◌≡◌, ◌<◌, ◌≤◌, ◌^◌, ◌+◌, ◌↔◌, nat_le, true, false, List, [], None, length, IfOk, OnOk, OnErr, IsOk, IsErr};
ghost use Rattle.rx_rdfa.specs.Common.{chars, triples_seen, node_seen, Call, Enter, Read, Leave, line_after, no_line};
ghost use Rattle.rx_rdfa.specs.Renaming.{labels as labels_of};
ghost use Rattle.rx_curie.specs.Seen.{facts_seen};
ghost use Rattle.rx_eval.specs.Keeping.{gathers_some};
ghost use Rattle.rx_eval.specs.Opened.{handed_on, Opens, MayOpen, begun_state, read_text};
ghost use Rattle.rx_eval.specs.Waits.{ShowsContext, waits};
ghost use Rattle.rx_eval.specs.Numbering.{Numbering};
ghost use Rattle.rx_eval.specs.Standing.{EvaluatorStands, TakesCall, TakesCallOn, no_numbers};
ghost use Rattle.rx_eval.specs.Shown.{ShowsAfter, MakesTriples};
ghost use Rattle.rx_eval.specs.Ending.{Closes};

use crate::inherited::Inherited;
use crate::pending::{Pending, close, open};
use crate::stack::Stack;
use rx_curie::Facts;
use rx_terms::{Iri, NoMemory, Node, TripleList};
use std::alloc::Global;
use std::marker::Model;
use std::mem;

/// The elements of a page that are open, as their start tags, texts and ends come, and the triples so far. After want of
/// memory the value is spent: every call that takes memory answers it again, and so does [`Eval::finish`].
///
/// The value stands for the calls that it has taken, read as the front of a tree, under a numbering of blank nodes that is
/// one to one and only grows.
#[derive(Drop)]
pub struct Eval {
    stack: Stack,
    /// The element that waits for its frame, inside the stack's innermost one.
    pending: Option<Pending>,
}

impl Model for Eval {
    ghost use Rattle.rx_eval.specs.States.{State};
    ghost use Rattle.rx_eval.specs.Referring.{with_pending, PendingMayWait};

    ghost Value = { State };

    ghost view = { λ e. with_pending e.pending e.stack };

    ghost invariant = { λ e. PendingMayWait e.pending e.stack };
}

impl Eval {
    /// How many elements are open.
    pub fn depth(&self) -> u32
        ensures frames { result ≡ length self.now.frames }
        ensures stands { (to : Numbering) (list : List Call) → EvaluatorStands to list self.now → result ≡ length (line_after list no_line).facts }
    {
        // No more elements are open than levels, whose number has 32 bits.
        let _levels = self.stack.levels();
        match &self.pending {
            Some(pending) => self.stack.depth() + 1 + pending.inside,
            None => self.stack.depth(),
        }
    }

    /// The context in which a child of the innermost open element would stand: the rules' own, with the numbers of the
    /// triples' blank nodes.
    pub fn inherited(&self) -> Inherited<'_>
        ensures frames { ShowsContext result (handed_on self.now.page self.now.frames) }
        ensures stands { (to : Numbering) (list : List Call) → EvaluatorStands to list self.now → ShowsAfter to self.now.base list result }
    {
        match &self.pending {
            Some(pending) => inside_referring(&pending.subject),
            None => self.stack.inherited(),
        }
    }

    /// No element, before the root, with the memory for so many levels of frames.
    pub fn new(alloc: Global, base: Iri, levels: u32) -> Result<Eval, NoMemory>
        ensures ok { IfOk result (λ eval. eval ≡ begun_state base levels) }
        ensures stands { IfOk result (λ eval. EvaluatorStands no_numbers [] eval) }
    {
        Ok(Eval {
            stack: Stack::new(alloc, base, levels)?,
            pending: None,
        })
    }

    /// Whether there are numbers for the blank nodes of one more element, whatever labels it has.
    pub fn has_numbers(&self, facts: &Facts) -> bool
        ensures { result ≡ nat_le (self.now.drawn + 1 + length (labels_of (facts_seen facts.now))) (2 ^ 61) }
    {
        self.stack.has_numbers(facts)
    }

    /// A start tag: opens an element inside the innermost one. The triples of its start are there then, its owners of
    /// lists are begun, and what it has stands in their lists (RDFa Core 1.1, section 7.5, steps 2 to 13).
    pub fn enter(&mut self, facts: &Facts) -> Result<(), NoMemory>
        requires { self.old.out_of_memory ≡ false → MayOpen self.old (facts_seen facts.now) }
        ensures ok { OnOk result (Opens self.old (facts_seen facts.now) self.new) }
        ensures stands { OnOk result (TakesCallOn (Enter (facts_seen facts.now)) self.old self.new) }
        ensures unspent { OnOk result (self.old.out_of_memory ≡ false) }
        ensures out_of_memory { OnErr result (self.new.out_of_memory ≡ true) }
    {
        if self.stack.is_spent() {
            return Err(NoMemory);
        }
        if open(&mut self.stack, &mut self.pending, facts).is_err() {
            self.stack.spend();
            return Err(NoMemory);
        }
        Ok(())
    }

    /// Text inside the innermost element. It is kept only while some open element gathers it; else it takes no memory.
    pub fn text(&mut self, text: &str) -> Result<(), NoMemory>
        ensures ok { OnOk result (self.new ≡ read_text (chars text.now) self.old) }
        ensures stands { OnOk result (TakesCall (Read (chars text.now)) self.old self.new) }
        ensures unspent { OnOk result (self.old.out_of_memory ≡ false) }
        ensures out_of_memory { OnErr result (self.new.out_of_memory ≡ true) }
        ensures quiet { self.old.out_of_memory ≡ false → gathers_some self.old.frames ≡ false → IsOk result }
    {
        if self.stack.text(text).is_err() {
            drop(mem::replace(&mut self.pending, None));
            return Err(NoMemory);
        }
        Ok(())
    }

    /// The end of the innermost element: the values that are its text, and the lists that end with it (RDFa Core 1.1,
    /// section 7.5, steps 11 and 14). Want of memory is also the answer where the numbers of blank nodes don't suffice
    /// for the cells of these lists, one for each place.
    pub fn leave(&mut self) -> Result<(), NoMemory>
        requires { self.old.out_of_memory ≡ false → 0 < length self.old.frames }
        ensures ok { OnOk result (Closes self.old self.new) }
        ensures stands { OnOk result (TakesCallOn Leave self.old self.new) }
        ensures unspent { OnOk result (self.old.out_of_memory ≡ false) }
        ensures out_of_memory { OnErr result (self.new.out_of_memory ≡ true) }
    {
        if self.stack.is_spent() {
            return Err(NoMemory);
        }
        if close(&mut self.stack, &mut self.pending).is_err() {
            self.stack.spend();
            return Err(NoMemory);
        }
        Ok(())
    }

    /// The triples of the page, whose root has ended: the list that the rules give for the tree of the calls, with its blank
    /// nodes replaced by their numbers. Takes no memory; want of memory comes exactly from a spent value.
    pub fn finish(self) -> Result<TripleList, NoMemory>
        ensures ok { IfOk result (λ triples. triples_seen triples ≡ self.out) }
        ensures made { IfOk result (λ triples. MakesTriples self (triples_seen triples)) }
        ensures out_of_memory { IsErr result ↔ (self.out_of_memory ≡ true) }
    {
        let Eval { stack, pending } = self;
        drop(pending);
        stack.finish()
    }
}

/// The context inside an element that says no more than what it refers to.
fn inside_referring(subject: &Node) -> Inherited<'_>
    ensures subject { node_seen result.subject.now ≡ node_seen subject.now }
    ensures object { node_seen result.object.now ≡ node_seen subject.now }
    ensures hanging { waits result ≡ [] }
{
    Inherited {
        subject,
        object: subject,
        waiting: &[],
    }
}
