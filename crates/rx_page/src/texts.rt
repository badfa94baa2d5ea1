//! What a page gives, as a text in memory.
ghost use Rattle.std.specs.Prelude.{◌≡◌, IfOk};
ghost use Rattle.rx_model.specs.Seen.{triples_seen};
ghost use Rattle.rx_page.specs.Texts.{as_read, IsNestedText, ok_line};
ghost use Rattle.rx_page.specs.Forms.{IsFormText, FormDenotes};
ghost use Rattle.rx_page.specs.declared.forms.Form.TheVariants as forms;

use crate::forms::Form;
use crate::json_texts::text_of_graph;
use rx_graph::Graph;
use rx_names::Context;
use rx_shapes::Shapes;
use rx_terms::{Iri, NoMemory};
use std::alloc::Global;

/// What is written of a page that is right.
pub(crate) const RIGHT: &[u8] = b"ok\n";

/// The graph's text in this form.
pub fn text_of(alloc: Global, graph: Graph, form: Form) -> Result<Vec<u8>, NoMemory>
    ensures spelled { IfOk result (λ text. IsFormText form (triples_seen graph) text.items) }
    ensures denotes { IfOk result (λ text. FormDenotes form text.items (as_read (triples_seen graph))) }
{
    match form {
        Form::Nquads(name) => nquads_of(alloc, graph, name),
        Form::Turtle(context) => turtle_of(alloc, graph, context),
        Form::Nested(context) => nested_of(alloc, graph, context),
        Form::Jsonld => jsonld_of(alloc, graph),
    }
}

fn nquads_of(alloc: Global, graph: Graph, name: Option<Iri>) -> Result<Vec<u8>, NoMemory>
    ensures spelled { IfOk result (λ text. IsFormText (forms.Nquads name) (triples_seen graph) text.items) }
    ensures denotes { IfOk result (λ text. FormDenotes (forms.Nquads name) text.items (as_read (triples_seen graph))) }
{
    let text = rx_nquads::text(alloc, &graph, name.as_ref());
    drop(graph);
    drop(name);
    Ok(text?)
}

fn turtle_of(alloc: Global, graph: Graph, context: Context) -> Result<Vec<u8>, NoMemory>
    ensures spelled { IfOk result (λ text. IsFormText (forms.Turtle context) (triples_seen graph) text.items) }
    ensures denotes { IfOk result (λ text. FormDenotes (forms.Turtle context) text.items (as_read (triples_seen graph))) }
{
    let text = rx_turtle::text(alloc, &graph, &context);
    drop(graph);
    drop(context);
    Ok(text?)
}

fn nested_of(alloc: Global, graph: Graph, context: Context) -> Result<Vec<u8>, NoMemory>
    ensures spelled { IfOk result (λ text. IsFormText (forms.Nested context) (triples_seen graph) text.items) }
    ensures denotes { IfOk result (λ text. FormDenotes (forms.Nested context) text.items (as_read (triples_seen graph))) }
{
    let text = nested_text(alloc, &graph, &context);
    drop(graph);
    drop(context);
    Ok(text?)
}

fn nested_text(alloc: Global, graph: &Graph, context: &Context) -> Result<Vec<u8>, NoMemory>
    ensures spelled { IfOk result (λ text. IsNestedText context.now (triples_seen graph.now) text.items) }
    ensures denotes { IfOk result (λ text. FormDenotes (forms.Nested context.now) text.items (as_read (triples_seen graph.now))) }
{
    let shapes = Shapes::of(alloc, graph)?;
    let text = rx_turtle::nested(alloc, graph, &shapes, context);
    drop(shapes);
    Ok(text?)
}

fn jsonld_of(alloc: Global, graph: Graph) -> Result<Vec<u8>, NoMemory>
    ensures spelled { IfOk result (λ text. IsFormText forms.Jsonld (triples_seen graph) text.items) }
    ensures denotes { IfOk result (λ text. FormDenotes forms.Jsonld text.items (as_read (triples_seen graph))) }
{
    let text = text_of_graph(alloc, &graph);
    drop(graph);
    Ok(text?)
}

/// The text of a page that is right.
pub fn right_text(alloc: Global) -> Result<Vec<u8>, NoMemory>
    ensures { IfOk result (λ text. text.items ≡ ok_line) }
{
    let mut text = Vec::with_capacity(alloc, RIGHT.len())?;
    text.extend_from_slice(RIGHT)?;
    Ok(text)
}
