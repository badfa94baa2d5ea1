//! How many blank nodes a graph has.
ghost use Rattle.rx_model.specs.Common.{blank_of_node, blank_of_term, blanks_of, node_seen, term_seen, triple_seen, triples_seen};
ghost use Rattle.rx_quads.specs.Raised.{Counts, past, past_one, past_all};

use rx_graph::Graph;
use rx_terms::{Blank, NoMemory, Node, Term, Triple};

/// How many blank nodes the graph has, where they are numbered from 0 on: one more than the largest number. It takes no
/// memory, and fails only where a number of 64 bits can't hold the count: such a graph has no room in any memory.
pub fn count_nodes(graph: &Graph) -> Result<u64, NoMemory>
    ensures { Counts result (past (triples_seen graph.now)) }
{
    let mut count = 0;
    for i in 0..graph.len() {
        count = past_triple(graph.at(i), count)?;
    }
    Ok(count)
}

fn past_triple(triple: &Triple, count: u64) -> Result<u64, NoMemory>
    ensures { Counts result (past_all count (blanks_of (triple_seen triple.now))) }
{
    let behind_subject = past_node(&triple.subject, count)?;
    past_term(&triple.object, behind_subject)
}

fn past_node(node: &Node, count: u64) -> Result<u64, NoMemory>
    ensures { Counts result (past_all count (blank_of_node (node_seen node.now))) }
{
    match node {
        Node::Iri(_iri) => Ok(count),
        Node::Blank(blank) => past_blank(*blank, count),
    }
}

fn past_term(term: &Term, count: u64) -> Result<u64, NoMemory>
    ensures { Counts result (past_all count (blank_of_term (term_seen term.now))) }
{
    match term {
        Term::Iri(_iri) => Ok(count),
        Term::Blank(blank) => past_blank(*blank, count),
        Term::Literal(_literal) => Ok(count),
    }
}

fn past_blank(blank: Blank, count: u64) -> Result<u64, NoMemory>
    ensures { Counts result (past_one count blank.0) }
{
    if blank.0 < count {
        return Ok(count);
    }
    match blank.0.checked_add(1) {
        Some(new) => Ok(new),
        None => Err(NoMemory),
    }
}
