//! Pages of a dataset, as they were judged.
use rx_grammar::Fault;
use rx_graph::Graph;
use rx_terms::Iri;

/// What comes of a page.
#[derive(Drop)]
pub(crate) enum Judgement {
    /// It is refused with its first fault.
    Refused(Fault),
    /// It gives this graph.
    Accepted(Graph),
}

/// A page, by its address.
#[derive(Drop)]
pub(crate) struct Page {
    pub(crate) address: Iri,
    pub(crate) judgement: Judgement,
}
