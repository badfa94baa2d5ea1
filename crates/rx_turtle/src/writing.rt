//! The text of a graph.
ghost use Rattle.std.specs.Prelude.{◌≡◌, ◌≤◌, IfOk, IsErrOf, OnOk};
ghost use Rattle.rx_ports.specs.Counts.{Rose};
ghost use Rattle.rx_pieces.specs.Underway.{Sends, SendsPart};
ghost use Rattle.rx_turtle.specs.Graphs.{DenoteTurtle, turtle_bytes};

use crate::lines::push_plan;
use crate::plan::Plan;
use rx_graph::Graph;
use rx_names::Context;
use rx_pieces::{Pieces, Whole, WriteError};
use rx_ports::Sink;
use rx_terms::NoMemory;
use std::alloc::Global;

/// The room in bytes that is taken for each triple at first.
const TRIPLE: usize = 64;

/// Writes the graph's text in Turtle under the context's prefixes to the sink: the prefixes that it uses, and then each
/// subject with its predicates and their objects. The bytes are UTF-8.
///
/// They are sent in pieces of 65,536 bytes, the last of which may have fewer. All memory is taken before the first byte is
/// written.
pub fn write<S: Sink>(
    alloc: Global,
    graph: &Graph,
    context: &Context,
    sink: &mut S,
) -> Result<(), WriteError>
    ensures ok { OnOk result (Sends (turtle_bytes context.now.prefixes graph.now) (S.held sink.old) (S.held sink.new)) }
    ensures denotes { OnOk result (DenoteTurtle graph.now (turtle_bytes context.now.prefixes graph.now)) }
    ensures partly { IsErrOf result WriteError.Failed → SendsPart (turtle_bytes context.now.prefixes graph.now) (S.held sink.old) (S.held sink.new) }
    ensures cause { IsErrOf result WriteError.Failed → Rose (S.faults sink.old) (S.faults sink.new) }
    ensures untouched { IsErrOf result WriteError.NoMemory → sink.new ≡ sink.old }
    ensures later { S.faults sink.old ≤ S.faults sink.new }
    ensures steady { OnOk result (S.faults sink.new ≡ S.faults sink.old) }
{
    let plan = Plan::of(alloc, graph, context)?;
    let Ok(mut pieces) = Pieces::new(alloc) else {
        drop(plan);
        return Err(WriteError::NoMemory);
    };
    push_plan(&mut pieces, sink, &plan);
    drop(plan);
    pieces.send(sink)?;
    Ok(())
}

/// The graph's text in Turtle, as `write` writes it.
pub fn text(alloc: Global, graph: &Graph, context: &Context) -> Result<Vec<u8>, NoMemory>
    ensures bytes { IfOk result (λ bytes. bytes.items ≡ turtle_bytes context.now.prefixes graph.now) }
    ensures denotes { IfOk result (λ bytes. DenoteTurtle graph.now bytes.items) }
{
    let mut whole = Whole::with_room(alloc, graph.len().saturating_mul(TRIPLE))?;
    match write(alloc, graph, context, &mut whole) {
        Ok(()) => Ok(whole.into_bytes()),
        Err(_error) => Err(NoMemory),
    }
}
