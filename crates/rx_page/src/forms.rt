//! How triples are written.
ghost use Rattle.std.specs.Prelude.{◌≡◌, IfOk};
ghost use Rattle.rx_nquads.specs.Graphs.{lent_name};
ghost use Rattle.rx_page.specs.Forms.{form_in};

use rx_job::Format;
use rx_names::Context;
use rx_terms::{Iri, NoMemory};
use std::alloc::Global;

/// How triples are written, with what a text of that format needs besides them.
#[derive(Drop)]
pub enum Form {
    /// As N-Quads, in the graph of this name.
    Nquads(Option<Iri>),
    /// As Turtle, under the prefixes of this context.
    Turtle(Context),
    /// The same, with blank nodes and lists where they are used.
    Nested(Context),
    /// As JSON-LD.
    Jsonld,
}

impl Form {
    /// The form that this format is, with the graph's name or the context, which are copied.
    pub fn of(
        alloc: Global,
        format: Format,
        graph: Option<&Iri>,
        context: &Context,
    ) -> Result<Form, NoMemory>
        ensures { IfOk result (λ form. form ≡ form_in format (lent_name graph.entry) context.now) }
    {
        match format {
            Format::Nquads => Ok(Form::Nquads(copied(graph)?)),
            Format::Turtle => Ok(Form::Turtle(context.try_clone(alloc)?)),
            Format::Nested => Ok(Form::Nested(context.try_clone(alloc)?)),
            Format::Jsonld => Ok(Form::Jsonld),
        }
    }
}

/// The name that is lent, as one of its own.
fn copied(name: Option<&Iri>) -> Result<Option<Iri>, NoMemory>
    ensures { IfOk result (λ copy. copy ≡ lent_name name.entry) }
{
    match name {
        Some(name) => Ok(Some(name.try_clone()?)),
        None => Ok(None),
    }
}
