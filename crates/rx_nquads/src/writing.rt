//! The text of a graph.
ghost use Rattle.std.specs.Prelude.{◌≡◌, ◌≤◌, ◌++◌, Err, IfOk, IsErrOf, OnErr, OnOk, encode_utf8_all, option_map, false};
ghost use Rattle.rx_model.specs.Common.{chars, triple_seen, triples_seen};
ghost use Rattle.rx_ports.specs.Counts.{Rose};
ghost use Rattle.rx_nquads.specs.Graphs.{DenoteGraph, document_bytes, lent_name, line_bytes};
ghost use Rattle.rx_nquads.specs.Writing.{graph_text, line_text, nquads};
ghost use Rattle.rx_pieces.specs.Underway.{Sends, SendsPart};
ghost use Rattle.rx_pieces.specs.Writable.{Pushes, WritableName, WritableTriple};

use crate::terms::{push_object, push_subject};
use rx_graph::Graph;
use rx_pieces::{Pieces, Whole, WriteError, push, push_between, push_iri};
use rx_ports::Sink;
use rx_terms::{Iri, NoMemory, Triple};
use std::alloc::Global;

/// The room in bytes that is taken for each line at first.
const LINE: usize = 64;

/// Writes the graph's text in N-Quads to the sink: a line for each triple, in the graph's order, each quad in the graph
/// of this name where one is given. The bytes are UTF-8.
///
/// They are sent in pieces of 65,536 bytes, the last of which may have fewer. The memory of a piece is taken before the
/// first byte is written, and no more, however large the graph is.
pub fn write<S: Sink>(
    alloc: Global,
    graph: &Graph,
    name: Option<&Iri>,
    sink: &mut S,
) -> Result<(), WriteError>
    ensures ok { OnOk result (Sends (document_bytes graph.now name.entry) (S.held sink.old) (S.held sink.new)) }
    ensures denotes { OnOk result (DenoteGraph graph.now name.entry (document_bytes graph.now name.entry)) }
    ensures partly { IsErrOf result WriteError.Failed → SendsPart (document_bytes graph.now name.entry) (S.held sink.old) (S.held sink.new) }
    ensures cause { IsErrOf result WriteError.Failed → Rose (S.faults sink.old) (S.faults sink.new) }
    ensures untouched { IsErrOf result WriteError.NoMemory → sink.new ≡ sink.old }
    ensures later { S.faults sink.old ≤ S.faults sink.new }
    ensures steady { OnOk result (S.faults sink.new ≡ S.faults sink.old) }
{
    let mut pieces = Pieces::new(alloc)?;
    push_lines(&mut pieces, sink, graph, name);
    pieces.send(sink)?;
    Ok(())
}

/// The graph's text in N-Quads, as `write` writes it.
pub fn text(alloc: Global, graph: &Graph, name: Option<&Iri>) -> Result<Vec<u8>, NoMemory>
    ensures bytes { IfOk result (λ bytes. bytes.items ≡ document_bytes graph.now name.entry) }
    ensures denotes { IfOk result (λ bytes. DenoteGraph graph.now name.entry bytes.items) }
{
    let mut whole = Whole::with_room(alloc, graph.len().saturating_mul(LINE))?;
    match write(alloc, graph, name, &mut whole) {
        Ok(()) => Ok(whole.into_bytes()),
        Err(_error) => Err(NoMemory),
    }
}

/// Adds the line of one triple to a text in N-Quads, its quad in the graph of this name where one is given. Where there is
/// no memory, the text stays as it is.
pub fn put_quad(
    alloc: Global,
    text: &mut Vec<u8>,
    triple: &Triple,
    name: Option<&Iri>,
) -> Result<(), NoMemory>
    ensures ok { OnOk result (text.new.items ≡ text.old.items ++ line_bytes name.entry triple.now) }
    ensures err { OnErr result (text.new.items ≡ text.old.items) }
    ensures writable { OnOk result (WritableTriple (lent_name name.entry) (triple_seen triple.now)) }
{
    let line = line_of(alloc, triple, name)?;
    text.extend_from_slice(line.as_slice())?;
    Ok(())
}

/// The line of one triple.
fn line_of(alloc: Global, triple: &Triple, name: Option<&Iri>) -> Result<Vec<u8>, NoMemory>
    ensures bytes { IfOk result (λ line. line.items ≡ line_bytes name.entry triple.now) }
    ensures writable { OnOk result (WritableTriple (lent_name name.entry) (triple_seen triple.now)) }
{
    let mut whole = Whole::with_room(alloc, LINE)?;
    let Ok(mut pieces) = Pieces::new(alloc) else {
        drop(whole);
        return Err(NoMemory);
    };
    push_line(&mut pieces, &mut whole, triple, name);
    match pieces.send(&mut whole) {
        Ok(()) => Ok(whole.into_bytes()),
        Err(_failed) => {
            drop(whole);
            Err(NoMemory)
        }
    }
}

/// Adds the lines of all triples. Once the sink has failed, the rest isn't made.
fn push_lines<S: Sink>(out: &mut Pieces, sink: &mut S, graph: &Graph, name: Option<&Iri>)
    ensures adds { Pushes S.held S.faults out.old sink.old out.new sink.new (nquads (triples_seen graph.now) (lent_name name.entry)) }
    ensures denotes { out.new.failed ≡ false → DenoteGraph graph.now name.entry (document_bytes graph.now name.entry) }
{
    for i in 0..graph.len() {
        if out.has_failed() {
            return;
        }
        push_line(out, sink, graph.at(i), name);
    }
}

/// Adds the line of a triple in the graph of this name.
#[inline(always)]
pub(crate) fn push_line<S: Sink>(
    out: &mut Pieces,
    sink: &mut S,
    triple: &Triple,
    name: Option<&Iri>,
)
    ensures adds { Pushes S.held S.faults out.old sink.old out.new sink.new (line_text (lent_name name.entry) (triple_seen triple.now)) }
    ensures writable { WritableTriple (lent_name name.entry) (triple_seen triple.now) }
{
    push_subject(out, sink, &triple.subject);
    push_iri(out, sink, &triple.predicate);
    push_object(out, sink, &triple.object);
    push_name(out, sink, name);
    push(out, sink, ".\n");
}

/// Adds the graph name and a space, where there is a name.
#[inline(always)]
fn push_name<S: Sink>(out: &mut Pieces, sink: &mut S, name: Option<&Iri>)
    ensures adds { Pushes S.held S.faults out.old sink.old out.new sink.new (graph_text (lent_name name.entry)) }
    ensures writable { WritableName (lent_name name.entry) }
{
    match name {
        None => {}
        Some(iri) => push_between(out, sink, "<", iri, "> "),
    }
}
