//! What a page that was read gives.
ghost use Rattle.std.specs.Prelude.{◌≡◌, IfOk, OnErr, length};
ghost use Rattle.rx_session.specs.Given.{text_given, nodes_given, quads_given, shown_given, lent_quad, KeepsGiven, ShowsGiven};

use rx_quads::{Quads, ShownQuad};
use rx_terms::NoMemory;
use std::alloc::Global;

/// What a page that was read gives, and how many blank nodes that has.
#[derive(Drop)]
pub(crate) enum Given {
    Text { text: Vec<u8>, nodes: u64 },
    Quads { quads: Quads, nodes: u64 },
}

impl Given {
    pub(crate) fn text(&self) -> &[u8]
        ensures { result.now ≡ text_given self.now }
    {
        match self {
            Given::Text { text, .. } => text.as_slice(),
            Given::Quads { .. } => &[],
        }
    }

    pub(crate) fn nodes(&self) -> u64
        ensures { result ≡ nodes_given self.now }
    {
        match self {
            Given::Text { nodes, .. } => *nodes,
            Given::Quads { nodes, .. } => *nodes,
        }
    }

    pub(crate) fn quad_count(&self) -> usize
        ensures { result ≡ length (quads_given self.now) }
    {
        match self {
            Given::Text { .. } => 0,
            Given::Quads { quads, .. } => quads.len(),
        }
    }

    /// Shows the quad of this number, and answers whether there is one.
    pub(crate) fn show(&mut self, alloc: Global, number: usize) -> Result<bool, NoMemory>
        ensures keeps { KeepsGiven self.old self.new }
        ensures shows { IfOk result (λ is_there. ShowsGiven self.old number is_there self.new) }
        ensures err { OnErr result (self.new ≡ self.old) }
    {
        match self {
            Given::Text { .. } => Ok(false),
            Given::Quads { quads, .. } => Ok(quads.show(alloc, number)?),
        }
    }

    /// The quad that was shown last.
    pub(crate) fn shown(&self) -> Option<&ShownQuad>
        ensures { lent_quad result ≡ shown_given self.now }
    {
        match self {
            Given::Text { .. } => None,
            Given::Quads { quads, .. } => Some(quads.shown()),
        }
    }
}
