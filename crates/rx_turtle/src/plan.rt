//! What is written, made whole before the first byte is.
ghost use Rattle.std.specs.Prelude.{◌≡◌, length, IfOk};
ghost use Rattle.rx_model.specs.Seen.{triples_seen};
ghost use Rattle.rx_notation.specs.Layout.{turtle};
ghost use Rattle.rx_turtle.specs.Written.{planned_text};
ghost use Rattle.rx_turtle.specs.Graphs.{DenoteTurtle, turtle_bytes};

use crate::arranging::arranged;
use crate::shorts::Shorts;
use crate::uses::used_marks;
use rx_graph::Graph;
use rx_names::Context;
use rx_terms::{NoMemory, Triple};
use std::alloc::Global;

/// The short forms of IRIs, which prefixes are used, and the triples in the order in which they are written.
#[derive(Drop)]
pub(crate) struct Plan<'a> {
    pub(crate) shorts: Shorts<'a>,
    pub(crate) marks: Vec<bool>,
    pub(crate) triples: Vec<&'a Triple>,
}

impl<'a> Plan<'a> {
    /// The plan for a graph's text under the context's prefixes.
    pub(crate) fn of(
        alloc: Global,
        graph: &'a Graph,
        context: &'a Context,
    ) -> Result<Plan<'a>, NoMemory>
        ensures text { IfOk result (λ plan. planned_text plan ≡ turtle context.now.prefixes (triples_seen graph.now)) }
        ensures sizes { IfOk result (λ plan. length plan.marks.items ≡ length plan.shorts) }
        ensures denotes { IfOk result (λ plan. DenoteTurtle graph.now (turtle_bytes context.now.prefixes graph.now)) }
    {
        let mut shorts = Shorts::of(alloc, context)?;
        let Ok(marks) = used_marks(alloc, graph, &mut shorts) else {
            drop(shorts);
            return Err(NoMemory);
        };
        let Ok(triples) = arranged(alloc, graph) else {
            drop(shorts);
            drop(marks);
            return Err(NoMemory);
        };
        Ok(Plan {
            shorts,
            marks,
            triples,
        })
    }
}
