//! Blank nodes that are numbered from a number on.
ghost use Rattle.std.specs.Prelude.{◌≡◌, ◌+◌, IfOk, map, nat_eq};
ghost use Rattle.rx_model.specs.Common.{distinct, same_triple, rename_node, rename_term, rename, node_seen, term_seen, triple_seen, triples_seen};
ghost use Rattle.rx_quads.specs.Raised.{raised};

use rx_graph::Graph;
use rx_terms::{Blank, NoMemory, Node, Term, Triple, TripleList};
use std::alloc::Global;

/// The graph with the number of each blank node raised by `first`. The triples keep their order.
pub fn raised(alloc: Global, graph: Graph, first: u64) -> Result<Graph, NoMemory>
    ensures { IfOk result (λ graph_raised. triples_seen graph_raised ≡ raised first (triples_seen graph)) }
{
    if first == 0 {
        return Ok(graph);
    }
    match raised_list(alloc, &graph, first) {
        Ok(list) => {
            drop(graph);
            Graph::of_owned(alloc, list)
        }
        Err(NoMemory) => {
            drop(graph);
            Err(NoMemory)
        }
    }
}

/// The triples of the graph, each raised.
fn raised_list(alloc: Global, graph: &Graph, first: u64) -> Result<TripleList, NoMemory>
    ensures { IfOk result (λ list. distinct (same_triple nat_eq) (triples_seen list) ≡ map (rename (λ b. first + b)) (triples_seen graph.now)) }
{
    let mut list = TripleList::new(alloc);
    for i in 0..graph.len() {
        list.push(raised_triple(graph.at(i), first)?)?;
    }
    Ok(list)
}

fn raised_triple(triple: &Triple, first: u64) -> Result<Triple, NoMemory>
    ensures { IfOk result (λ new. triple_seen new ≡ rename (λ b. first + b) (triple_seen triple.now)) }
{
    let subject = raised_node(&triple.subject, first)?;
    let object = raised_term(&triple.object, first)?;
    let predicate = triple.predicate.try_clone()?;
    Ok(Triple {
        subject,
        predicate,
        object,
    })
}

fn raised_node(node: &Node, first: u64) -> Result<Node, NoMemory>
    ensures { IfOk result (λ new. node_seen new ≡ rename_node (λ b. first + b) (node_seen node.now)) }
{
    match node {
        Node::Iri(iri) => Ok(Node::Iri(iri.try_clone()?)),
        Node::Blank(blank) => Ok(Node::Blank(raised_blank(*blank, first)?)),
    }
}

fn raised_term(term: &Term, first: u64) -> Result<Term, NoMemory>
    ensures { IfOk result (λ new. term_seen new ≡ rename_term (λ b. first + b) (term_seen term.now)) }
{
    match term {
        Term::Iri(iri) => Ok(Term::Iri(iri.try_clone()?)),
        Term::Blank(blank) => Ok(Term::Blank(raised_blank(*blank, first)?)),
        Term::Literal(literal) => Ok(Term::Literal(literal.try_clone()?)),
    }
}

/// A graph whose numbers pass 64 bits has no room in any memory.
fn raised_blank(blank: Blank, first: u64) -> Result<Blank, NoMemory>
    ensures { IfOk result (λ new. new.0 ≡ first + blank.0) }
{
    match first.checked_add(blank.0) {
        Some(number) => Ok(Blank(number)),
        None => Err(NoMemory),
    }
}
