//! Where an element stands.
ghost use Rattle.std.specs.Prelude.{◌≡◌, IfOk};
ghost use Rattle.rx_model.specs.Seen.{node_seen};
ghost use Rattle.rx_curie.specs.Seen.{ref_seen};
ghost use Rattle.rx_eval.specs.Places.{level_at, named_node};

use crate::contexts::EvaluationContext;
use crate::labels::Labels;
use rx_curie::Ref;
use rx_refs::Base;
use rx_terms::{Blank, NoMemory, Node};
use std::alloc::Global;

/// How deep an element stands, as far as the rules ask.
#[derive(Clone, Copy, Debug, PartialEq, Eq)]
pub enum Level {
    /// The root of the page.
    Root,
    /// A child of the root, as its head and body are.
    RootChild,
    /// Any other element.
    Deeper,
}

/// Where an element stands: the base, what it inherits, its level, and the numbers of blank nodes.
#[derive(Clone, Copy)]
pub struct Surroundings<'a> {
    pub alloc: Global,
    pub base: &'a Base,
    /// What the element inherits.
    pub around: &'a EvaluationContext,
    pub level: Level,
    /// The numbers of the labels, those of the element's own labels among them.
    pub labels: &'a Labels,
    /// The number of a new node; an element makes one at the most.
    pub fresh: u64,
}

/// The level of an element with so many elements around it.
pub fn level_at(around: usize) -> Level
    ensures { result ≡ level_at around }
{
    match around {
        0 => Level::Root,
        1 => Level::RootChild,
        _ => Level::Deeper,
    }
}

/// The node that is named.
pub(crate) fn named(
    alloc: Global,
    base: &Base,
    labels: &Labels,
    name: &Ref,
) -> Result<Node, NoMemory>
    ensures { IfOk result (λ node. node_seen node ≡ named_node labels.now base.now (ref_seen name.now)) }
{
    match name {
        Ref::Iri(iri) => Ok(Node::Iri(iri.try_clone()?)),
        Ref::Label(label) => Ok(Node::Blank(Blank(labels.number_or_zero(label)))),
        Ref::Relative(reference) => Ok(Node::Iri(base.resolve(alloc, reference.as_str())?)),
    }
}
