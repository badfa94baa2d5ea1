//! What a page gives, and writing it.
ghost use Rattle.std.specs.Prelude.{◌≡◌, IfOk, OnOk, IsErrOf};
ghost use Rattle.rx_model.specs.Common.{copied, triples_seen};
ghost use Rattle.rx_ports.specs.Counts.{Rose};
ghost use Rattle.rx_ports.specs.Shelves.{WhereKnown, GrowsBy, GrowsByPart};
ghost use Rattle.rx_page.specs.Forms.{IsFormText, FormDenotes};
ghost use Rattle.rx_page.specs.Texts.{as_read};
ghost use Rattle.rx_page.specs.Written.{output_text, Denoted, graph_made};

use crate::forms::Form;
use crate::json_texts::text_of_graph;
use crate::shaped::Shaped;
use crate::texts::RIGHT;
use rx_graph::{Graph, copy_patterns_owned, relabel_owned};
use rx_names::Context;
use rx_nquads::WriteError;
use rx_ports::{Sink, put_all};
use rx_terms::{Iri, NoMemory, TripleList};
use std::alloc::Global;

/// What a page gives.
#[derive(Drop)]
pub enum Outcome {
    /// Its graph, which is written as N-Quads and has this name, or none.
    Quads { graph: Graph, name: Option<Iri> },
    /// Its graph, which is written as Turtle under the context's prefixes.
    Turtle { graph: Graph, context: Context },
    /// The same, with blank nodes and lists where they are used.
    Nested { shaped: Shaped, context: Context },
    /// A text of JSON: its items, or its graph as JSON-LD.
    Json(Vec<u8>),
    /// That it is a page, and none of its start tags is refused.
    Right,
}

impl Outcome {
    /// The graph of the triples, which is written in this form.
    pub fn of(alloc: Global, list: TripleList, form: Form) -> Result<Outcome, NoMemory>
        ensures spelled { IfOk result (λ outcome. IsFormText form (graph_made list) (output_text outcome)) }
        ensures denoted { IfOk result (λ outcome. Denoted outcome → FormDenotes form (output_text outcome) (as_read (graph_made list))) }
    {
        match graph_of(alloc, list) {
            Ok(graph) => Outcome::of_graph(alloc, graph, form),
            Err(NoMemory) => {
                drop(form);
                Err(NoMemory)
            }
        }
    }

    /// The graph, which is written in this form.
    fn of_graph(alloc: Global, graph: Graph, form: Form) -> Result<Outcome, NoMemory>
        ensures spelled { IfOk result (λ outcome. IsFormText form (triples_seen graph) (output_text outcome)) }
        ensures denoted { IfOk result (λ outcome. Denoted outcome → FormDenotes form (output_text outcome) (as_read (triples_seen graph))) }
    {
        match form {
            Form::Nquads(name) => Ok(Outcome::Quads { graph, name }),
            Form::Turtle(context) => Ok(Outcome::Turtle { graph, context }),
            Form::Nested(context) => nested_of(alloc, graph, context),
            Form::Jsonld => json_of(alloc, graph),
        }
    }

    /// Writes the text piece by piece. Memory is taken before the first byte is written.
    pub fn write<O: Sink>(&self, alloc: Global, out: &mut O) -> Result<(), WriteError>
        ensures ok { OnOk result (WhereKnown (GrowsBy (output_text self.now)) (O.held out.old) (O.held out.new)) }
        ensures denoted { OnOk result (Denoted self.now) }
        ensures partly { IsErrOf result WriteError.Failed → WhereKnown (GrowsByPart (output_text self.now)) (O.held out.old) (O.held out.new) }
        ensures cause { IsErrOf result WriteError.Failed → Rose (O.faults out.old) (O.faults out.new) }
        ensures steady { OnOk result (O.faults out.new ≡ O.faults out.old) }
        ensures untouched { IsErrOf result WriteError.NoMemory → out.new ≡ out.old }
    {
        match self {
            Outcome::Quads { graph, name } => rx_nquads::write(alloc, graph, name.as_ref(), out),
            Outcome::Turtle { graph, context } => rx_turtle::write(alloc, graph, context, out),
            Outcome::Nested { shaped, context } => shaped.write(alloc, context, out),
            Outcome::Json(text) => write_whole(out, text.as_slice()),
            Outcome::Right => write_whole(out, RIGHT),
        }
    }
}

/// The graph, which is written as nested Turtle.
fn nested_of(alloc: Global, graph: Graph, context: Context) -> Result<Outcome, NoMemory>
    ensures spelled { IfOk result (λ outcome. IsFormText (Form.Nested context) (triples_seen graph) (output_text outcome)) }
    ensures denoted { IfOk result (λ outcome. Denoted outcome → FormDenotes (Form.Nested context) (output_text outcome) (as_read (triples_seen graph))) }
{
    match Shaped::of(alloc, graph) {
        Ok(shaped) => Ok(Outcome::Nested { shaped, context }),
        Err(NoMemory) => {
            drop(context);
            Err(NoMemory)
        }
    }
}

/// The graph's text as JSON-LD.
fn json_of(alloc: Global, graph: Graph) -> Result<Outcome, NoMemory>
    ensures spelled { IfOk result (λ outcome. IsFormText Form.Jsonld (triples_seen graph) (output_text outcome)) }
    ensures denoted { IfOk result (λ outcome. FormDenotes Form.Jsonld (output_text outcome) (as_read (triples_seen graph))) }
{
    let text = text_of_graph(alloc, &graph);
    drop(graph);
    Ok(Outcome::Json(text?))
}

/// Writes a text that is whole.
fn write_whole<O: Sink>(out: &mut O, text: &[u8]) -> Result<(), WriteError>
    ensures ok { OnOk result (WhereKnown (GrowsBy text.now) (O.held out.old) (O.held out.new)) }
    ensures partly { IsErrOf result WriteError.Failed → WhereKnown (GrowsByPart text.now) (O.held out.old) (O.held out.new) }
    ensures cause { IsErrOf result WriteError.Failed → Rose (O.faults out.old) (O.faults out.new) }
    ensures steady { OnOk result (O.faults out.new ≡ O.faults out.old) }
    ensures memory { IsErrOf result WriteError.NoMemory → ⊥ }
{
    match put_all(out, text) {
        Ok(()) => Ok(()),
        Err(_failed) => Err(WriteError::Failed),
    }
}

/// The graph of the triples: property copying is done, and blank nodes are numbered in order of first occurrence.
pub fn graph_of(alloc: Global, list: TripleList) -> Result<Graph, NoMemory>
    ensures { IfOk result (λ graph. triples_seen graph ≡ graph_made list) }
{
    let copied = copy_patterns_owned(alloc, list)?;
    relabel_owned(alloc, copied)
}
