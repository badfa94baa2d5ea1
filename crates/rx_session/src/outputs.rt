//! How triples are handed over.
ghost use Rattle.std.specs.Prelude.{◌≡◌, IfOk};
ghost use Rattle.rx_nquads.specs.Graphs.{lent_name};
ghost use Rattle.rx_session.specs.Wants.{is_singly, output_format, plan_for};

use rx_job::Format;
use rx_names::Context;
use rx_page::Form;
use rx_terms::{Iri, NoMemory};
use std::alloc::Global;

/// How triples are handed over.
#[derive(Clone, Copy, Debug)]
pub enum Output {
    /// As a text in this format.
    Text(Format),
    /// One quad at a time.
    Quads,
}

/// The same, with what it needs besides the triples.
#[derive(Drop)]
pub(crate) enum Plan {
    Text(Form),
    /// In the graph of this name.
    Quads(Option<Iri>),
}

impl Plan {
    /// With the graph's name, or the context, which is copied.
    pub(crate) fn of(
        alloc: Global,
        output: Output,
        graph: Option<Iri>,
        context: &Context,
    ) -> Result<Plan, NoMemory>
        ensures { IfOk result (λ plan. plan ≡ plan_for (is_singly output) (output_format output) graph context.now) }
    {
        match output {
            Output::Text(format) => {
                let form = Form::of(alloc, format, graph.as_ref(), context);
                drop(graph);
                Ok(Plan::Text(form?))
            }
            Output::Quads => Ok(Plan::Quads(graph)),
        }
    }
}
