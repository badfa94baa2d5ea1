//! The quads of a graph, of which one is shown at a time.
ghost use Rattle.std.specs.Prelude.{◌≡◌, IfOk, OnErr, length};
ghost use Rattle.rx_model.specs.Seen.{triples_seen};
ghost use Rattle.rx_nquads.specs.Quads.{quads};
ghost use Rattle.rx_quads.specs.Listed.{ShowsQuadAt, quads_of};

use crate::terms::ShownQuad;
use rx_graph::Graph;
use rx_terms::{Iri, NoMemory};
use std::alloc::Global;
use std::marker::Model;
use std::mem;

/// The quads of a graph that has a name or none, of which one is shown at a time. A contract sees their list, and what is
/// shown.
#[derive(Drop)]
pub struct Quads {
    graph: Graph,
    name: Option<Iri>,
    shown: ShownQuad,
    // where the next quad is put together, so that the one that is shown stays until then
    next: ShownQuad,
}

impl Model for Quads {
    ghost use Rattle.rx_quads.specs.Listed.{ListedGraph};

    ghost Value = { ListedGraph };

    ghost view = { λ q. record { triples = q.graph; name = q.name; shown = q.shown } };
}

impl Quads {
    /// The quads of this graph, in its order. None is shown.
    pub fn new(alloc: Global, graph: Graph, name: Option<Iri>) -> Quads
        ensures { quads_of result ≡ quads (triples_seen graph) name }
    {
        Quads {
            graph,
            name,
            shown: ShownQuad::none(alloc),
            next: ShownQuad::none(alloc),
        }
    }

    /// How many there are.
    pub fn len(&self) -> usize
        ensures { result ≡ length (quads_of self.now) }
    {
        self.graph.len()
    }

    /// Shows the quad of this number, from 0, and answers whether there is one. Where there is no memory, what was shown
    /// stays.
    pub fn show(&mut self, alloc: Global, number: usize) -> Result<bool, NoMemory>
        ensures stays { quads_of self.new ≡ quads_of self.old }
        ensures shows { IfOk result (λ is_there. ShowsQuadAt (quads_of self.old) number is_there self.new.shown) }
        ensures err { OnErr result (self.new ≡ self.old) }
    {
        if number >= self.graph.len() {
            return Ok(false);
        }
        self.next
            .put(alloc, self.graph.at(number), self.name.as_ref())?;
        mem::swap(&mut self.shown, &mut self.next);
        Ok(true)
    }

    /// The quad that was shown last.
    pub fn shown(&self) -> &ShownQuad
        ensures { result.now ≡ self.now.shown }
    {
        &self.shown
    }
}
