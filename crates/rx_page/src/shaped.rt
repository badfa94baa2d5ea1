//! A graph with the shapes of its blank nodes.
ghost use Rattle.std.specs.Prelude.{◌≡◌, IfOk, OnOk, IsErrOf, map};
ghost use Rattle.rx_model.specs.Common.{chars, triples_seen};
ghost use Rattle.rx_ports.specs.Counts.{Rose};
ghost use Rattle.rx_ports.specs.Shelves.{WhereKnown, GrowsBy, GrowsByPart};
ghost use Rattle.rx_shapes.specs.Table.{AreShapes};
ghost use Rattle.rx_nquads.specs.Quads.{proper_triple};
ghost use Rattle.rx_notation.specs.Meaning.{NestedTurtle};
ghost use Rattle.rx_page.specs.Written.{nested_text};

use rx_graph::Graph;
use rx_names::Context;
use rx_nquads::WriteError;
use rx_ports::Sink;
use rx_shapes::Shapes;
use rx_terms::NoMemory;
use std::alloc::Global;
use std::marker::Model;

/// A graph, and which of its blank nodes a text can write where they are used.
#[derive(Drop)]
pub struct Shaped {
    graph: Graph,
    shapes: Shapes,
}

impl Model for Shaped {
    ghost use Rattle.rx_model.specs.Seen.{triples_seen};
    ghost use Rattle.rx_shapes.specs.Table.{AreShapes};
    ghost use Rattle.rx_page.specs.Shaped.{Shaped};

    ghost Value = { Shaped };

    ghost view = { λ s. record { triples = triples_seen s.graph; table = s.shapes } };

    ghost invariant = { λ s. AreShapes (triples_seen s.graph) s.shapes };
}

impl Shaped {
    pub(crate) fn of(alloc: Global, graph: Graph) -> Result<Shaped, NoMemory>
        ensures triples { IfOk result (λ shaped. shaped.triples ≡ triples_seen graph) }
        ensures shapes { IfOk result (λ shaped. AreShapes (triples_seen graph) shaped.table) }
    {
        match Shapes::of(alloc, &graph) {
            Ok(shapes) => Ok(Shaped { graph, shapes }),
            Err(NoMemory) => {
                drop(graph);
                Err(NoMemory)
            }
        }
    }

    /// Writes the graph as nested Turtle, piece by piece. Memory is taken before the first byte is written.
    pub(crate) fn write<O: Sink>(
        &self,
        alloc: Global,
        context: &Context,
        out: &mut O,
    ) -> Result<(), WriteError>
        ensures ok { OnOk result (WhereKnown (GrowsBy (nested_text context.now self.now)) (O.held out.old) (O.held out.new)) }
        ensures denoted { OnOk result (NestedTurtle (chars (nested_text context.now self.now)) (map proper_triple self.now.triples)) }
        ensures partly { IsErrOf result WriteError.Failed → WhereKnown (GrowsByPart (nested_text context.now self.now)) (O.held out.old) (O.held out.new) }
        ensures cause { IsErrOf result WriteError.Failed → Rose (O.faults out.old) (O.faults out.new) }
        ensures steady { OnOk result (O.faults out.new ≡ O.faults out.old) }
        ensures untouched { IsErrOf result WriteError.NoMemory → out.new ≡ out.old }
    {
        rx_turtle::write_nested(alloc, &self.graph, &self.shapes, context, out)
    }
}
