//! What is written of a nested text, made whole before the first byte is.
ghost use Rattle.std.specs.Prelude.{◌≡◌, length, IfOk};
ghost use Rattle.rx_model.specs.Seen.{triples_seen};
ghost use Rattle.rx_shapes.specs.Table.{AreShapes, shape_in};
ghost use Rattle.rx_pieces.specs.Writable.{Pushes};
ghost use Rattle.rx_notation.specs.Nesting.{nested};
ghost use Rattle.rx_turtle.specs.Nested.{nested_of};
ghost use Rattle.rx_turtle.specs.Graphs.{DenoteNested, nested_bytes};

use crate::nesting::tokens_of;
use crate::prefixes::push_prefixes;
use crate::shorts::Shorts;
use crate::source::Source;
use crate::token_texts::push_tokens;
use crate::token_uses::{is_graph, token_marks};
use crate::tokens::Token;
use rx_graph::Graph;
use rx_names::Context;
use rx_pieces::Pieces;
use rx_ports::Sink;
use rx_shapes::Shapes;
use rx_terms::NoMemory;
use std::alloc::Global;

/// The short forms of IRIs, which prefixes are used, and the text's tokens.
#[derive(Drop)]
pub(crate) struct NestedPlan<'a> {
    pub(crate) shorts: Shorts<'a>,
    pub(crate) marks: Vec<bool>,
    pub(crate) tokens: Vec<Token<'a>>,
}

impl<'a> NestedPlan<'a> {
    /// The plan for a graph's nested text under the context's prefixes.
    pub(crate) fn of(
        alloc: Global,
        graph: &'a Graph,
        shapes: &'a Shapes,
        context: &'a Context,
    ) -> Result<NestedPlan<'a>, NoMemory>
        requires { AreShapes (triples_seen graph.now) shapes.now }
        ensures text { IfOk result (λ plan. nested_of plan ≡ nested context.now.prefixes (triples_seen graph.now) (shape_in shapes.now)) }
        ensures sizes { IfOk result (λ plan. length plan.marks.items ≡ length plan.shorts) }
        ensures denotes { IfOk result (λ plan. DenoteNested graph.now (nested_bytes context.now.prefixes graph.now shapes.now)) }
    {
        let mut shorts = Shorts::of(alloc, context)?;
        let source = Source {
            alloc,
            graph,
            shapes,
        };
        let Ok(tokens) = tokens_of(&source) else {
            drop(shorts);
            return Err(NoMemory);
        };
        let Ok(marks) = token_marks(alloc, &tokens, &mut shorts) else {
            drop(shorts);
            drop(tokens);
            return Err(NoMemory);
        };
        is_graph(graph);
        Ok(NestedPlan {
            shorts,
            marks,
            tokens,
        })
    }
}

/// Adds the whole text.
pub(crate) fn push_nested<S: Sink>(out: &mut Pieces, sink: &mut S, plan: &NestedPlan)
    requires { length plan.now.marks.items ≡ length plan.now.shorts }
    ensures { Pushes S.held S.faults out.old sink.old out.new sink.new (nested_of plan.now) }
{
    push_prefixes(out, sink, &plan.shorts, &plan.marks);
    push_tokens(out, sink, &plan.shorts, &plan.tokens);
}
