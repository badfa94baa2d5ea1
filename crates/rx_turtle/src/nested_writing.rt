//! The nested text of a graph.
ghost use Rattle.std.specs.Prelude.{◌≡◌, ◌≤◌, IfOk, IsErrOf, OnOk};
ghost use Rattle.rx_ports.specs.Counts.{Rose};
ghost use Rattle.rx_model.specs.Seen.{triples_seen};
ghost use Rattle.rx_pieces.specs.Underway.{Sends, SendsPart};
ghost use Rattle.rx_shapes.specs.Table.{AreShapes};
ghost use Rattle.rx_turtle.specs.Graphs.{DenoteNested, nested_bytes};

use crate::nested_plan::{NestedPlan, push_nested};
use rx_graph::Graph;
use rx_names::Context;
use rx_pieces::{Pieces, Whole, WriteError};
use rx_ports::Sink;
use rx_shapes::Shapes;
use rx_terms::NoMemory;
use std::alloc::Global;

/// The room in bytes that is taken for each triple at first.
const TRIPLE: usize = 64;

/// Writes the graph's text in Turtle as `write` does, but with blank nodes where they are used, in brackets or as lists, as
/// far as their shapes allow (RDF 1.1 Turtle, 2.7 and 2.8). The shapes are those of the graph. The bytes are UTF-8.
///
/// They are sent in pieces of 65,536 bytes, the last of which may have fewer. All memory is taken before the first byte is
/// written. Nodes may nest as deep as they like.
pub fn write_nested<S: Sink>(
    alloc: Global,
    graph: &Graph,
    shapes: &Shapes,
    context: &Context,
    sink: &mut S,
) -> Result<(), WriteError>
    requires shapes { AreShapes (triples_seen graph.now) shapes.now }
    ensures ok { OnOk result (Sends (nested_bytes context.now.prefixes graph.now shapes.now) (S.held sink.old) (S.held sink.new)) }
    ensures denotes { OnOk result (DenoteNested graph.now (nested_bytes context.now.prefixes graph.now shapes.now)) }
    ensures partly { IsErrOf result WriteError.Failed → SendsPart (nested_bytes context.now.prefixes graph.now shapes.now) (S.held sink.old) (S.held sink.new) }
    ensures cause { IsErrOf result WriteError.Failed → Rose (S.faults sink.old) (S.faults sink.new) }
    ensures untouched { IsErrOf result WriteError.NoMemory → sink.new ≡ sink.old }
    ensures later { S.faults sink.old ≤ S.faults sink.new }
    ensures steady { OnOk result (S.faults sink.new ≡ S.faults sink.old) }
{
    let plan = NestedPlan::of(alloc, graph, shapes, context)?;
    let Ok(mut pieces) = Pieces::new(alloc) else {
        drop(plan);
        return Err(WriteError::NoMemory);
    };
    push_nested(&mut pieces, sink, &plan);
    drop(plan);
    pieces.send(sink)?;
    Ok(())
}

/// The graph's nested text, as `write_nested` writes it.
pub fn nested(
    alloc: Global,
    graph: &Graph,
    shapes: &Shapes,
    context: &Context,
) -> Result<Vec<u8>, NoMemory>
    requires shapes { AreShapes (triples_seen graph.now) shapes.now }
    ensures bytes { IfOk result (λ bytes. bytes.items ≡ nested_bytes context.now.prefixes graph.now shapes.now) }
    ensures denotes { IfOk result (λ bytes. DenoteNested graph.now bytes.items) }
{
    let mut whole = Whole::with_room(alloc, graph.len().saturating_mul(TRIPLE))?;
    match write_nested(alloc, graph, shapes, context, &mut whole) {
        Ok(()) => Ok(whole.into_bytes()),
        Err(_error) => Err(NoMemory),
    }
}
