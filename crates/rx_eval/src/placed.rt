//! The resources of one element, and its value, by themselves.
ghost use Rattle.std.specs.Prelude.{◌≡◌, ◌<◌, ◌≤◌, ◌^◌, ◌+◌, ◌-◌, length, option_map, IfOk, OnErr};
ghost use Rattle.rx_model.specs.Common.{chars, node_seen, term_seen};
ghost use Rattle.rx_rdfa.specs.Renaming.{labels as labels_of};
ghost use Rattle.rx_curie.specs.Seen.{facts_seen};
ghost use Rattle.rx_eval.specs.Contexts.{context_seen};
ghost use Rattle.rx_eval.specs.Labels.{DrawnSome};
ghost use Rattle.rx_eval.specs.Moment.{labelled};
ghost use Rattle.rx_eval.specs.Placing.{placed_seen, plain_context, Places};
ghost use Rattle.rx_eval.specs.ElementResources.{found_seen};
ghost use Rattle.rx_eval.specs.TextRules.{value_with};

use crate::blanks::number_after;
use crate::contexts::{EvaluationContext, Hangings};
use crate::drawing::draw_labels;
use crate::labels::Labels;
use crate::places::{Surroundings, level_at};
use crate::resources::{ElementResources, clone_option};
use crate::values::{TextRule, value_now};
use rx_curie::Facts;
use rx_lists::Owner;
use rx_refs::Base;
use rx_terms::{Iri, NoMemory, Node, Term};
use std::alloc::Global;

/// The resources of an element (RDFa Core 1.1, section 7.5, steps 5 and 6): new subject, typed resource, current object
/// resource, and whether it is skipped; and the number that comes next.
#[derive(Debug, Drop)]
pub struct Placed {
    pub subject: Node,
    pub typed: Option<Node>,
    pub object: Option<Node>,
    pub skipped: bool,
    pub next_blank: u64,
}

/// A context of which only the subject and the object are known.
fn plain_context(
    alloc: Global,
    subject: &Node,
    object: &Node,
) -> Result<EvaluationContext, NoMemory>
    ensures { IfOk result (λ context. context_seen context ≡ plain_context (node_seen subject.now) (node_seen object.now)) }
{
    Ok(EvaluationContext {
        subject: subject.try_clone()?,
        object: object.try_clone()?,
        hanging: Hangings::of(alloc, Vec::new(alloc))?,
        owner: Owner(0),
    })
}

impl Placed {
    /// The resources of an element of a level, the root's being 1, that inherits a subject and an object. Its labels that
    /// have no number draw theirs first, from `next_blank` on; a new node has the number after them. After want of memory
    /// the first of these labels may have drawn theirs.
    pub fn of(
        alloc: Global,
        facts: &Facts,
        level: u32,
        base: &Iri,
        subject: &Node,
        object: &Node,
        next_blank: u64,
        labels: &mut Labels,
    ) -> Result<Placed, NoMemory>
        requires level { 1 ≤ level }
        requires room { next_blank + 1 + length (labels_of (facts_seen facts.now)) < 2 ^ 64 }
        ensures ok { IfOk result (Places labels.old next_blank base.now (level - 1) (node_seen subject.now) (node_seen object.now)
            (facts_seen facts.now) labels.new) }
        ensures err { OnErr result (DrawnSome labels.old next_blank (labels_of (facts_seen facts.now)) labels.new) }
    {
        let fresh = draw_labels(labels, facts, next_blank)?;
        let context = plain_context(alloc, subject, object)?;
        let copy = base.try_clone()?;
        let against = Base::of(copy);
        let place = Surroundings {
            alloc,
            base: &against,
            around: &context,
            level: level_at((level - 1) as usize),
            labels,
            fresh,
        };
        let found = place.find(facts)?;
        let next_blank = number_after(&found, fresh);
        Ok(Placed {
            subject: found.subject,
            typed: found.typed,
            object: found.object,
            skipped: found.skipped,
            next_blank,
        })
    }

    fn found(&self) -> Result<ElementResources, NoMemory>
        ensures { IfOk result (λ found. found_seen found ≡ placed_seen self.now) }
    {
        Ok(ElementResources {
            subject: self.subject.try_clone()?,
            typed: clone_option(&self.typed)?,
            object: clone_option(&self.object)?,
            skipped: self.skipped,
        })
    }
}

/// The value of an element's property, with the element's text (RDFa Core 1.1, section 7.5, step 11; HTML+RDFa 1.1,
/// section 3.1). A label of the facts that has no number yet counts as number 0.
pub fn value_of(
    alloc: Global,
    facts: &Facts,
    placed: &Placed,
    base: &Iri,
    labels: &Labels,
    text: &str,
) -> Result<Term, NoMemory>
    ensures { IfOk result (λ term. term_seen term
        ≡ value_with (labelled labels.now) base.now (facts_seen facts.now) (placed_seen placed.now) (chars text.now)) }
{
    let found = placed.found()?;
    let copy = base.try_clone()?;
    let against = Base::of(copy);
    let value = value_now(alloc, &against, labels, facts, &found)?;
    match value {
        Some(value) => Ok(value),
        None => TextRule::of(facts)?.value(alloc, text),
    }
}
