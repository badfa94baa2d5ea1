//! The triples of a list (RDF Schema 1.1, section 5.2).
ghost use Rattle.std.specs.Prelude.{◌≡◌, ◌+◌, ◌<◌, ◌^◌, ◌∷◌, [], OnOk, IfOk, length};
ghost use Rattle.rx_rdfa.specs.Common.{node_seen, term_seen, spo, rdf_rest, list_of};
ghost use Rattle.rx_lists.specs.Cells.{cell_node, one_cell, terms_in};
ghost use Rattle.rx_lists.specs.Appends.{Appends};

use crate::cell_iris::CellIris;
use rx_terms::{Blank, Iri, NoMemory, Node, Term, Triple, TripleList};

/// Adds the triples of the list, whose cells are numbered from `first` on, and gives the next number.
pub(crate) fn push_list(
    iris: &CellIris,
    out: &mut TripleList,
    subject: &Node,
    predicate: &Iri,
    slots: &[Option<Term>],
    first: u64,
) -> Result<u64, NoMemory>
    requires { first + length slots.now < 2 ^ 64 }
    ensures triples { OnOk result (Appends out.old out.new (list_of (λ i. first + i) (node_seen subject.now) predicate.now (terms_in slots.now))) }
    ensures next { IfOk result (λ next. next ≡ first + length (terms_in slots.now)) }
{
    let mut cell = first;
    let mut end = End {
        node: subject.try_clone()?,
        by: predicate.try_clone()?,
    };
    for slot in slots {
        let Some(item) = slot else {
            continue;
        };
        end = end.push_cell(iris, out, cell, item)?;
        cell += 1;
    }
    let nil = iris.nil().try_clone()?;
    push(out, end.node, end.by, Term::Iri(nil))?;
    Ok(cell)
}

/// The node and the predicate by which the next cell is linked.
#[derive(Drop)]
struct End {
    node: Node,
    by: Iri,
}

impl End {
    /// Adds the cell of the item.
    fn push_cell(
        self,
        iris: &CellIris,
        out: &mut TripleList,
        cell: u64,
        item: &Term,
    ) -> Result<End, NoMemory>
        ensures triples { OnOk result (Appends out.old out.new (one_cell (node_seen self.node) self.by cell (term_seen item.now))) }
        ensures end { IfOk result (λ end. (node_seen end.node ≡ cell_node cell) × (end.by ≡ rdf_rest)) }
    {
        let End { node, by } = self;
        push(out, node, by, Term::Blank(Blank(cell)))?;
        let first = iris.first().try_clone()?;
        push(out, Node::Blank(Blank(cell)), first, item.try_clone()?)?;
        Ok(End {
            node: Node::Blank(Blank(cell)),
            by: iris.rest().try_clone()?,
        })
    }
}

fn push(out: &mut TripleList, subject: Node, predicate: Iri, object: Term) -> Result<(), NoMemory>
    ensures { OnOk result (Appends out.old out.new (spo (node_seen subject) predicate (term_seen object) ∷ [])) }
{
    out.push(Triple {
        subject,
        predicate,
        object,
    })
}
