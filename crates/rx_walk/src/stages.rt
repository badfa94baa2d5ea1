//! How far the seeking of the base has come.
ghost use Rattle.std.specs.Prelude.{◌≡◌, [], ◌∷◌, ◌++◌, IsOk, OnOk};
ghost use Rattle.rx_rdfa.specs.Common.{chars, Enter, Leave};
ghost use Rattle.rx_curie.specs.Seen.{facts_seen};
ghost use Rattle.rx_tags.specs.Seen.{tag_seen};
ghost use Rattle.rx_rdfa.specs.Pages.{token_tag};
ghost use Rattle.rx_walk.specs.CallsOf.{singles};
ghost use Rattle.rx_base.specs.Seekings.{seek_begun, seek_finished};
ghost use Rattle.rx_walk.specs.Quiets.{IsIdle};
ghost use Rattle.rx_walk.specs.Stages.{queue_seen, PendingTells, MayBe, MayTake, Tells};

use crate::calls::Call;
use crate::evaluation::{enter, evaluated};
use crate::origins::Origin;
use rx_base::{BaseSearchStep, Sought};
use rx_curie::Facts;
use rx_eval::Eval;
use rx_nest::Tag;
use rx_terms::{NoMemory, Text};
use std::mem;

/// What is looked for, and what was told so far.
#[derive(Debug, Drop)]
pub(crate) struct PendingBase {
    pub(crate) sought: Sought,
    pub(crate) queue: Vec<Call>,
}

/// The base is looked for, or it is known and an evaluator is at work.
#[derive(Drop)]
pub(crate) enum Stage {
    Seeking(PendingBase),
    Found(Eval),
}

impl PendingBase {
    fn push(&mut self, call: Call) -> Result<(), NoMemory>
        ensures queue { OnOk result (self.new.queue.items ≡ self.old.queue.items ++ call ∷ []) }
        ensures sought { self.new.sought ≡ self.old.sought }
    {
        match self.queue.push(call) {
            Ok(()) => Ok(()),
            Err(refused) => {
                drop(refused);
                Err(NoMemory)
            }
        }
    }

    fn begin(
        &mut self,
        origin: &Origin,
        count: u32,
        tag: &Tag<'_>,
        facts: &mut Facts,
    ) -> Result<Option<Eval>, NoMemory>
        requires { MayBe origin.now.levels (queue_seen self.old.queue.items ++ Enter (facts_seen facts.old) ∷ []) }
        ensures { PendingTells origin.now (λ seeking. seek_begun count seeking (token_tag (tag_seen tag.now))) (Enter (facts_seen facts.old) ∷ []) self.old result self.new }
    {
        // The queue keeps them, and the next tag is read into others.
        let kept = mem::replace(facts, Facts::none());
        self.push(Call::Enter(kept))?;
        match self.sought.begun(count as usize, tag) {
            BaseSearchStep::Seeks(sought) => {
                self.sought = sought;
                Ok(None)
            }
            BaseSearchStep::Known(href) => {
                let eval = evaluated(origin, href, self.queue.as_slice())?;
                Ok(Some(eval))
            }
        }
    }

    fn finish(&mut self, origin: &Origin, count: u32) -> Result<Option<Eval>, NoMemory>
        requires { MayBe origin.now.levels (queue_seen self.old.queue.items ++ Leave ∷ []) }
        ensures { PendingTells origin.now (seek_finished count) (Leave ∷ []) self.old result self.new }
    {
        self.push(Call::Leave)?;
        if !self.sought.ends(count as usize) {
            return Ok(None);
        }
        let eval = evaluated(origin, None, self.queue.as_slice())?;
        Ok(Some(eval))
    }
}

impl Stage {
    /// An element with these facts begins inside so many that are open.
    #[inline(always)]
    pub(crate) fn begin(
        &mut self,
        origin: &Origin,
        count: u32,
        tag: &Tag<'_>,
        facts: &mut Facts,
    ) -> Result<(), NoMemory>
        requires { MayTake origin.now.levels (Enter (facts_seen facts.old) ∷ []) self.old }
        ensures { OnOk result (Tells origin.now (λ seeking. seek_begun count seeking (token_tag (tag_seen tag.now))) (Enter (facts_seen facts.old) ∷ []) self.old self.new) }
    {
        match self {
            Stage::Found(eval) => enter(eval, facts),
            Stage::Seeking(_head) => self.begin_seeking(origin, count, tag, facts),
        }
    }

    /// The same, where the base is mostly looked for still. That is so at a few elements of a page, and an evaluator that is
    /// made here is large, so that this stands apart.
    #[inline(never)]
    fn begin_seeking(
        &mut self,
        origin: &Origin,
        count: u32,
        tag: &Tag<'_>,
        facts: &mut Facts,
    ) -> Result<(), NoMemory>
        requires { MayTake origin.now.levels (Enter (facts_seen facts.old) ∷ []) self.old }
        ensures { OnOk result (Tells origin.now (λ seeking. seek_begun count seeking (token_tag (tag_seen tag.now))) (Enter (facts_seen facts.old) ∷ []) self.old self.new) }
    {
        let known = match self {
            Stage::Found(eval) => return enter(eval, facts),
            Stage::Seeking(head) => head.begin(origin, count, tag, facts)?,
        };
        if let Some(eval) = known {
            drop(mem::replace(self, Stage::Found(eval)));
        }
        Ok(())
    }

    /// Text of the innermost element. It takes no memory where the base is known and no open element gathers its text.
    pub(crate) fn text(&mut self, origin: &Origin, text: &str) -> Result<(), NoMemory>
        ensures tells { OnOk result (Tells origin.now (λ seeking. seeking) (singles (chars text.now)) self.old self.new) }
        ensures quiet { IsIdle self.old → IsOk result × IsIdle self.new }
    {
        match self {
            Stage::Found(eval) => eval.text(text),
            Stage::Seeking(head) => {
                let text = Text::of(origin.alloc, text)?;
                head.push(Call::Text(text))
            }
        }
    }

    /// The innermost of so many elements ends.
    #[inline(always)]
    pub(crate) fn finish(&mut self, origin: &Origin, count: u32) -> Result<(), NoMemory>
        requires { MayTake origin.now.levels (Leave ∷ []) self.old }
        ensures { OnOk result (Tells origin.now (seek_finished count) (Leave ∷ []) self.old self.new) }
    {
        match self {
            Stage::Found(eval) => eval.leave(),
            Stage::Seeking(_head) => self.finish_seeking(origin, count),
        }
    }

    /// The same, where the base is mostly looked for still.
    #[inline(never)]
    fn finish_seeking(&mut self, origin: &Origin, count: u32) -> Result<(), NoMemory>
        requires { MayTake origin.now.levels (Leave ∷ []) self.old }
        ensures { OnOk result (Tells origin.now (seek_finished count) (Leave ∷ []) self.old self.new) }
    {
        let known = match self {
            Stage::Found(eval) => return eval.leave(),
            Stage::Seeking(head) => head.finish(origin, count)?,
        };
        if let Some(eval) = known {
            drop(mem::replace(self, Stage::Found(eval)));
        }
        Ok(())
    }
}
