//! The stack of contexts: the open elements that have their frames, and those of which nothing is said.
ghost use Rattle.std.specs.Prelude.{◌≡◌, ◌∷◌, ◌<◌, ◌≤◌, ◌^◌, ◌+◌, ◌↔◌, ◌==◌, nat_le, true, false, [], None, Some, option_map, if◌then◌else◌, length, IfOk, OnOk, OnErr, IsOk, IsErr};
ghost use Rattle.rx_rdfa.specs.Common.{chars, triples_seen, node_seen, resolved};
ghost use Rattle.rx_model.specs.Terms.{Iri as named_by};
ghost use Rattle.rx_rdfa.specs.Renaming.{labels as labels_of};
ghost use Rattle.rx_curie.specs.Seen.{facts_seen};
ghost use Rattle.rx_eval.specs.Contexts.{context_seen};
ghost use Rattle.rx_eval.specs.Keeping.{gathers_some, outermost_place, is_place};
ghost use Rattle.rx_eval.specs.Opened.{handed_on, Opens, begun_state, read_text, skipped_state};
ghost use Rattle.rx_eval.specs.OwnersSeen.{owners_seen, owning};
ghost use Rattle.rx_eval.specs.Entering.{begun_seen};
ghost use Rattle.rx_eval.specs.Referring.{LetsWait, referred_by, referring_frame};
ghost use Rattle.rx_eval.specs.Waits.{ShowsContext};
ghost use Rattle.rx_eval.specs.Ending.{Closes};
ghost use Rattle.rx_eval.specs.States.{owner_seen, frame_seen};

use crate::closing::{end_frame, end_owner};
use crate::contexts::{EvaluationContext, Hangings};
use crate::drawing::draw_labels;
use crate::elements::{enter, owner_or};
use crate::frames::Frame;
use crate::handing::begin;
use crate::inherited::Inherited;
use crate::iris::OwnIris;
use crate::labels::Labels;
use crate::numbers::label_count;
use crate::opening::{around, next_number};
use crate::places::{Surroundings, level_at};
use crate::resources::says_nothing;
use rx_curie::Facts;
use rx_lists::{Lists, Owner};
use rx_refs::Base;
use rx_terms::{Iri, NoMemory, Node, Text, TripleList};
use rx_values::TextStore;
use std::alloc::Global;
use std::marker::Model;

/// The first number of a cell; all other blank nodes have lower ones.
const CELLS: u64 = 1 << 61;

/// The open elements, and what they have come to. It is spent once memory ran out.
#[derive(Drop)]
pub(crate) struct Stack {
    alloc: Global,
    base: Base,
    iris: OwnIris,
    levels: u32,
    page: EvaluationContext,
    /// How many elements are open.
    depth: u32,
    /// The open elements, but for those of which nothing is said: each frame counts those around it.
    frames: Vec<Frame>,
    /// How many of those are open inside the last frame.
    skipped: u32,
    labels: Labels,
    drawn: u64,
    cells: u64,
    lists: Lists,
    text: TextStore,
    /// The place of the outermost frame that gathers its text.
    outermost: Option<usize>,
    out: TripleList,
    ended: bool,
    out_of_memory: bool,
}

/// What a new stack takes memory for.
struct StackParts {
    page: EvaluationContext,
    iris: OwnIris,
    frames: Vec<Frame>,
    labels: Labels,
}

/// What holds around the root: the page is subject and object, and the first owner of lists.
fn around_root(alloc: Global, base: &Iri, lists: &mut Lists) -> Result<EvaluationContext, NoMemory>
    requires { lists.old ≡ [] }
    ensures context { IfOk result (λ context. context_seen context ≡ record { subject = named_by base.now; object = named_by base.now; hanging = []; owner = 0 }) }
    ensures lists { OnOk result (owners_seen lists.new ≡ Some (owning (named_by base.now) []) ∷ []) }
{
    let page = Node::Iri(base.try_clone()?);
    let owner = lists.start(page.try_clone()?)?;
    Ok(EvaluationContext {
        subject: page.try_clone()?,
        object: page,
        hanging: Hangings::of(alloc, Vec::new(alloc))?,
        owner,
    })
}

impl StackParts {
    fn of(alloc: Global, base: &Iri, lists: &mut Lists, levels: u32) -> Result<StackParts, NoMemory>
        requires { lists.old ≡ [] }
        ensures page { IfOk result (λ parts. context_seen parts.page ≡ record { subject = named_by base.now; object = named_by base.now; hanging = []; owner = 0 }) }
        ensures frames { IfOk result (λ parts. parts.frames.items ≡ []) }
        ensures labels { IfOk result (λ parts. parts.labels ≡ []) }
        ensures lists { OnOk result (owners_seen lists.new ≡ Some (owning (named_by base.now) []) ∷ []) }
    {
        let page = around_root(alloc, base, lists)?;
        let Ok(iris) = OwnIris::new(alloc) else {
            drop(page);
            return Err(NoMemory);
        };
        let Ok(labels) = Labels::new(alloc) else {
            drop(page);
            drop(iris);
            return Err(NoMemory);
        };
        let Ok(frames) = Vec::with_capacity(alloc, levels as usize) else {
            drop(page);
            drop(iris);
            drop(labels);
            return Err(NoMemory);
        };
        Ok(StackParts {
            page,
            iris,
            frames,
            labels,
        })
    }
}

impl Model for Stack {
    ghost use Rattle.rx_model.specs.Seen.{triples_seen};
    ghost use Rattle.rx_eval.specs.States.{State};
    ghost use Rattle.rx_eval.specs.Skipping.{all_frames};
    ghost use Rattle.rx_eval.specs.Keeping.{IsSound};
    ghost use Rattle.rx_eval.specs.Contexts.{context_seen};
    ghost use Rattle.rx_eval.specs.OwnersSeen.{owners_seen};

    ghost Value = { State };

    ghost view = { λ e. record {
      base = e.base;
      levels = e.levels;
      page = context_seen e.page;
      frames = all_frames (context_seen e.page) e.frames.items e.skipped;
      labels = e.labels;
      drawn = e.drawn;
      cells = e.cells;
      owners = owners_seen e.lists;
      kept = e.text;
      out = triples_seen e.out;
      ended = e.ended;
      out_of_memory = e.out_of_memory;
    } };

    ghost invariant = { λ e. IsSound e.levels e.depth (context_seen e.page) e.frames.items e.skipped e.outermost e.text };
}

impl Stack {
    /// How many elements are open.
    #[inline(always)]
    pub(crate) fn depth(&self) -> u32
        ensures { result ≡ length self.now.frames }
    {
        self.depth
    }

    /// How many elements may be open.
    #[inline(always)]
    pub(crate) fn levels(&self) -> u32
        ensures { result ≡ self.now.levels }
    {
        self.levels
    }

    /// Whether memory ran out.
    #[inline(always)]
    pub(crate) fn is_spent(&self) -> bool
        ensures { result ≡ self.now.out_of_memory }
    {
        self.out_of_memory
    }

    /// Memory ran out.
    pub(crate) fn spend(&mut self)
        ensures { self.new ≡ record self.old { out_of_memory = true } }
    {
        self.out_of_memory = true;
    }

    /// What the reference means on the page.
    pub(crate) fn resolve(&self, reference: &Text) -> Result<Node, NoMemory>
        ensures { IfOk result (λ node. node_seen node ≡ named_by (resolved self.now.base reference.now)) }
    {
        Ok(Node::Iri(self.base.resolve(self.alloc, reference.as_str())?))
    }

    /// Whether an element that says no more than what it refers to may wait inside the innermost one: it isn't the root, it
    /// completes nothing, and no list ends with it.
    #[inline(always)]
    pub(crate) fn lets_wait(&self) -> bool
        ensures { result ≡ true → LetsWait self.now }
    {
        if self.depth == 0 {
            return false;
        }
        if !self.lists.ends_open() {
            return false;
        }
        around(&self.page, self.frames.as_slice())
            .hanging
            .as_slice()
            .is_empty()
    }

    /// The context in which a child of the innermost open element would stand.
    pub(crate) fn inherited(&self) -> Inherited<'_>
        ensures { ShowsContext result (handed_on self.now.page self.now.frames) }
    {
        let context = around(&self.page, self.frames.as_slice());
        Inherited {
            subject: &context.subject,
            object: &context.object,
            waiting: context.hanging.as_slice(),
        }
    }

    /// No element, before the root, with the memory for so many levels of frames.
    pub(crate) fn new(alloc: Global, base: Iri, levels: u32) -> Result<Stack, NoMemory>
        ensures { IfOk result (λ stack. stack ≡ begun_state base levels) }
    {
        let Ok(mut lists) = Lists::new(alloc) else {
            drop(base);
            return Err(NoMemory);
        };
        match StackParts::of(alloc, &base, &mut lists, levels) {
            Ok(
                StackParts {
                    page,
                    iris,
                    frames,
                    labels,
                },
            ) => Ok(Stack {
                alloc,
                base: Base::of(base),
                iris,
                levels,
                page,
                depth: 0,
                frames,
                skipped: 0,
                labels,
                drawn: 0,
                cells: CELLS,
                lists,
                text: TextStore::new(alloc),
                outermost: None,
                out: TripleList::new(alloc),
                ended: false,
                out_of_memory: false,
            }),
            Err(error) => {
                drop(base);
                drop(lists);
                Err(error)
            }
        }
    }

    /// Whether there are numbers for the blank nodes of one more element, whatever labels it has. Where nothing is said it has
    /// none, and is told first.
    #[inline(always)]
    pub(crate) fn has_numbers(&self, facts: &Facts) -> bool
        ensures { result ≡ nat_le (self.now.drawn + 1 + length (labels_of (facts_seen facts.now))) (2 ^ 61) }
    {
        if says_nothing(facts) {
            return self.drawn < CELLS;
        }
        self.has_numbers_of_labels(facts)
    }

    /// The same by its labels.
    #[inline(never)]
    fn has_numbers_of_labels(&self, facts: &Facts) -> bool
        ensures { result ≡ nat_le (self.now.drawn + 1 + length (labels_of (facts_seen facts.now))) (2 ^ 61) }
    {
        u128::from(self.drawn) + 1 + label_count(facts) <= u128::from(CELLS)
    }

    /// Text inside the innermost element. It is kept only while some open element gathers it; else it takes no memory.
    pub(crate) fn text(&mut self, text: &str) -> Result<(), NoMemory>
        ensures ok { OnOk result (self.new ≡ read_text (chars text.now) self.old) }
        ensures unspent { OnOk result (self.old.out_of_memory ≡ false) }
        ensures out_of_memory { OnErr result (self.new.out_of_memory ≡ true) }
        ensures quiet { self.old.out_of_memory ≡ false → gathers_some self.old.frames ≡ false → IsOk result }
    {
        if self.out_of_memory {
            return Err(NoMemory);
        }
        if !self.gathers() {
            return Ok(());
        }
        if self.text.push(text).is_err() {
            self.out_of_memory = true;
            return Err(NoMemory);
        }
        Ok(())
    }

    /// The triples so far. Takes no memory; want of memory comes exactly from a spent value.
    pub(crate) fn finish(self) -> Result<TripleList, NoMemory>
        ensures ok { IfOk result (λ triples. triples_seen triples ≡ self.out) }
        ensures out_of_memory { IsErr result ↔ (self.out_of_memory ≡ true) }
    {
        if self.out_of_memory {
            drop(self);
            return Err(NoMemory);
        }
        Ok(self.out)
    }

    /// Whether some open element gathers its text.
    fn gathers(&self) -> bool
        ensures { result ≡ gathers_some self.now.frames }
    {
        self.outermost.is_some()
    }

    /// The end of the innermost element: the values that are its text, and the lists that end with it.
    pub(crate) fn close(&mut self) -> Result<(), NoMemory>
        requires { 0 < length self.old.frames }
        ensures { OnOk result (Closes self.old self.new) }
    {
        if self.skipped > 0 {
            self.skipped -= 1;
            self.depth -= 1;
            return Ok(());
        }
        let Some(frame) = self.frames.pop() else {
            unreachable!();
        };
        let place = self.frames.as_slice().len();
        let was_outermost = is_place(self.outermost, place);
        self.outermost = without(self.outermost, was_outermost);
        self.skipped = frame.skipped;
        self.depth -= 1;
        let cells = end_frame(
            self.alloc,
            &mut self.out,
            &mut self.lists,
            &frame,
            &self.text,
            self.cells,
        );
        drop(frame);
        forget(&mut self.text, was_outermost);
        let page = page_owner(self.depth, self.page.owner);
        self.cells = end_owner(&mut self.out, &mut self.lists, page, cells?)?;
        self.ended = is_ended(self.ended, self.depth);
        Ok(())
    }

    /// Opens an element of which nothing is said, which isn't the root: it is counted.
    #[inline(always)]
    pub(crate) fn skip(&mut self)
        requires inside { 0 < length self.old.frames }
        requires drawn { self.old.drawn + 1 ≤ 2 ^ 61 }
        requires level { length self.old.frames < self.old.levels }
        ensures { self.new ≡ skipped_state self.old }
    {
        // Elements that are open have levels, whose number has 32 bits.
        let _levels = self.levels;
        let context = around(&self.page, self.frames.as_slice());
        self.drawn = next_number(context, self.drawn);
        self.skipped += 1;
        self.depth += 1;
    }

    /// Opens an element with a frame of its own.
    #[inline(never)]
    pub(crate) fn open_framed(&mut self, facts: &Facts) -> Result<(), NoMemory>
        requires drawn { self.old.drawn + 1 + length (labels_of (facts_seen facts.now)) ≤ 2 ^ 61 }
        requires level { length self.old.frames < self.old.levels }
        ensures { OnOk result (Opens self.old (facts_seen facts.now) self.new) }
    {
        // Elements that are open have levels, whose number has 32 bits.
        let _levels = self.levels;
        let fresh = draw_labels(&mut self.labels, facts, self.drawn)?;
        let frames = self.frames.as_slice();
        let place = frames.len();
        let around = around(&self.page, frames);
        let surroundings = Surroundings {
            alloc: self.alloc,
            base: &self.base,
            around,
            level: level_at(self.depth as usize),
            labels: &self.labels,
            fresh,
        };
        let mark = self.text.mark();
        let mut frame = enter(
            &surroundings,
            facts,
            &self.iris,
            &mut self.lists,
            &mut self.out,
            mark,
        )?;
        let drawn = next_number(&frame.context, fresh);
        let gathers = frame.gathered.is_some();
        frame.skipped = self.skipped;
        self.frames.push(frame)?;
        self.skipped = 0;
        self.depth += 1;
        self.drawn = drawn;
        self.outermost = first_of(self.outermost, gathers, place);
        Ok(())
    }

    /// Opens an element that says no more than what it refers to, and so many in it of which nothing is said.
    #[inline(never)]
    pub(crate) fn open_referring(&mut self, subject: Node, inside: u32) -> Result<(), NoMemory>
        requires rooted { 0 < length self.old.frames }
        requires level { length self.old.frames + 1 + inside ≤ self.old.levels }
        ensures { OnOk result (self.new ≡ referred_by (node_seen subject) inside self.old) }
    {
        // Elements that are open have levels, whose number has 32 bits.
        let _levels = self.levels;
        let frames = self.frames.as_slice();
        let place = frames.len();
        let around = around(&self.page, frames);
        let frame = frame_referring(around, &mut self.lists, subject, self.skipped)?;
        self.frames.push(frame)?;
        self.skipped = inside;
        self.depth += 1 + inside;
        self.outermost = first_of(self.outermost, false, place);
        Ok(())
    }
}

/// The frame of an element that refers to the subject and says no more, around which so many say nothing.
fn frame_referring(
    around: &EvaluationContext,
    lists: &mut Lists,
    subject: Node,
    skipped: u32,
) -> Result<Frame, NoMemory>
    ensures frame { IfOk result (λ frame. frame_seen frame ≡ referring_frame (context_seen around.now) (length lists.old) (node_seen subject)) }
    ensures skipped { IfOk result (λ frame. (frame.skipped ≡ skipped) × (frame.gathered ≡ None)) }
    ensures lists { OnOk result (owners_seen lists.new ≡ begun_seen (node_seen subject) (node_seen around.now.object) (owners_seen lists.old)) }
{
    let own = begin(lists, &subject, &around.object)?;
    let context = EvaluationContext {
        subject: subject.try_clone()?,
        object: subject,
        hanging: Hangings::none(),
        owner: owner_or(own, around.owner),
    };
    Ok(Frame {
        context,
        own,
        below: None,
        gathered: None,
        skipped,
    })
}

/// The place of the outermost frame that gathers, when one more is there.
fn first_of(outermost: Option<usize>, gathers: bool, depth: usize) -> Option<usize>
    ensures { result ≡ outermost_place outermost gathers depth }
{
    match outermost {
        Some(place) => Some(place),
        None => {
            if gathers {
                return Some(depth);
            }
            None
        }
    }
}

/// The page's owner, where no element is open any more.
fn page_owner(depth: u32, owner: Owner) -> Option<Owner>
    ensures { option_map owner_seen result ≡ (if depth == 0 then Some owner.0 else None) }
{
    if depth == 0 {
        return Some(owner);
    }
    None
}

fn is_ended(ended: bool, depth: u32) -> bool
    ensures { result ≡ (if depth == 0 then true else ended) }
{
    depth == 0 || ended
}

/// Whether the frame that gathers outermost has this place.
fn is_place(outermost: Option<usize>, depth: usize) -> bool
    ensures { result ≡ is_place outermost depth }
{
    match outermost {
        Some(place) => place == depth,
        None => false,
    }
}

fn without(outermost: Option<usize>, ends: bool) -> Option<usize>
    ensures { result ≡ (if ends then None else outermost) }
{
    if ends {
        return None;
    }
    outermost
}

/// Drops the text that is kept, where nothing gathers it any more.
fn forget(text: &mut TextStore, ends: bool)
    ensures { text.new ≡ (if ends then [] else text.old) }
{
    if ends {
        text.cut(0);
    }
}
