//! The numbering of blank nodes.
ghost use Rattle.std.specs.Prelude.{◌≡◌, [], true, IfOk, IfSome, MatchOption, OnOk, nat_eq};
ghost use Rattle.rx_model.specs.Common.{with_one, with_all, set_of, blank_of_node, blank_of_term, blanks_of, place_in, rename_node, rename_term, rename, numbered, Renamed, node_seen, term_seen, triple_seen, triples_seen};
ghost use Rattle.rx_graph.specs.Graph.{IsNumbered};
ghost use Rattle.rx_graph.specs.Numbering.{numbers_to};

use crate::graphs::Graph;
use crate::sets::TripleSet;
use rx_terms::{Blank, NoMemory, Node, Term, Triple};
use rx_unique::Unique;
use std::alloc::Global;
use std::marker::Model;

/// The graph with its blank nodes numbered 0, 1, 2 in order of first occurrence, the subject of a triple before its
/// object. The triples keep their order.
pub fn relabel(alloc: Global, graph: &Graph) -> Result<Graph, NoMemory>
    ensures numbered { IfOk result (λ relabelled. triples_seen relabelled ≡ numbered nat_eq (triples_seen graph.now)) }
    ensures renamed { IfOk result (λ relabelled. Renamed (set_of (triples_seen graph.now)) (set_of (triples_seen relabelled))) }
{
    relabel_owned(alloc, graph.try_clone(alloc)?)
}

/// The same of a graph that is handed over, so that no triple is copied.
pub fn relabel_owned(alloc: Global, graph: Graph) -> Result<Graph, NoMemory>
    ensures numbered { IfOk result (λ relabelled. triples_seen relabelled ≡ numbered nat_eq (triples_seen graph)) }
{
    if is_numbered(&graph) {
        return Ok(graph);
    }
    let set = graph.into_set();
    let keyed = set.keyed();
    let mut triples = set.into_vec(alloc)?;
    let mut numbers = Numbers::new(alloc);
    for i in 0..triples.len() {
        numbers.give(&mut triples[i])?;
    }
    let numbered = TripleSet::of(alloc, triples, keyed)?;
    Ok(Graph::of_set(numbered))
}

/// Whether the blank nodes are 0, 1, 2 in order of first occurrence.
fn is_numbered(graph: &Graph) -> bool
    ensures { result ≡ true → IsNumbered (triples_seen graph.now) }
{
    if graph.is_known_numbered() {
        return true;
    }
    let mut next = 0;
    for i in 0..graph.len() {
        match next_after(graph.at(i), next) {
            Some(after) => next = after,
            None => return false,
        }
    }
    true
}

/// The same where there may be no such number before the triple. Then there is none behind it.
pub(crate) fn next_behind(triple: &Triple, next: Option<u64>) -> Option<u64>
    ensures { IfSome result (λ after. MatchOption next ⊥ (λ before. with_all nat_eq (numbers_to before) (blanks_of (triple_seen triple.now)) ≡ numbers_to after)) }
{
    match next {
        Some(next) => next_after(triple, next),
        None => None,
    }
}

/// The number that a new blank node has behind the triple, where `next` is that before it; none where one of its blank nodes
/// is new and has another number.
fn next_after(triple: &Triple, next: u64) -> Option<u64>
    ensures { IfSome result (λ after. with_all nat_eq (numbers_to next) (blanks_of (triple_seen triple.now)) ≡ numbers_to after) }
{
    match next_after_node(&triple.subject, next) {
        Some(after) => next_after_term(&triple.object, after),
        None => None,
    }
}

fn next_after_node(node: &Node, next: u64) -> Option<u64>
    ensures { IfSome result (λ after. with_all nat_eq (numbers_to next) (blank_of_node (node_seen node.now)) ≡ numbers_to after) }
{
    match node {
        Node::Iri(_iri) => Some(next),
        Node::Blank(blank) => next_after_blank(*blank, next),
    }
}

fn next_after_term(term: &Term, next: u64) -> Option<u64>
    ensures { IfSome result (λ after. with_all nat_eq (numbers_to next) (blank_of_term (term_seen term.now)) ≡ numbers_to after) }
{
    match term {
        Term::Iri(_iri) => Some(next),
        Term::Blank(blank) => next_after_blank(*blank, next),
        Term::Literal(_literal) => Some(next),
    }
}

fn next_after_blank(blank: Blank, next: u64) -> Option<u64>
    ensures { IfSome result (λ after. with_one nat_eq (numbers_to next) blank.0 ≡ numbers_to after) }
{
    if blank.0 < next {
        return Some(next);
    }
    if blank.0 > next || next == u64::MAX {
        return None;
    }
    Some(next + 1)
}

/// Blank nodes in order of first occurrence. The number of each is its place.
#[derive(Drop)]
struct Numbers {
    blanks: Unique<Blank>,
}

impl Model for Numbers {
    ghost use Rattle.std.specs.Prelude.{ℕ, List, map};

    ghost Value = { List ℕ };

    ghost view = { λ numbers. map (λ b. b.0) numbers.blanks };
}

impl Numbers {
    fn new(alloc: Global) -> Numbers
        ensures { result ≡ [] }
    {
        Numbers {
            blanks: Unique::new(alloc),
        }
    }

    fn blank(&mut self, blank: Blank) -> Result<Blank, NoMemory>
        ensures known { OnOk result (self.new ≡ with_one nat_eq self.old blank.0) }
        ensures place { IfOk result (λ number. number.0 ≡ place_in nat_eq self.new blank.0) }
    {
        let (place, _is_new) = self.blanks.insert_full(blank)?;
        Ok(Blank(place as u64))
    }

    /// Puts its number in place of the blank node that the node may be.
    fn give_node(&mut self, node: &mut Node) -> Result<(), NoMemory>
        ensures known { OnOk result (self.new ≡ with_all nat_eq self.old (blank_of_node (node_seen node.old))) }
        ensures renamed { OnOk result (node_seen node.new ≡ rename_node (place_in nat_eq self.new) (node_seen node.old)) }
    {
        if let Node::Blank(blank) = node {
            *blank = self.blank(*blank)?;
        }
        Ok(())
    }

    /// Puts its number in place of the blank node that the term may be.
    fn give_term(&mut self, term: &mut Term) -> Result<(), NoMemory>
        ensures known { OnOk result (self.new ≡ with_all nat_eq self.old (blank_of_term (term_seen term.old))) }
        ensures renamed { OnOk result (term_seen term.new ≡ rename_term (place_in nat_eq self.new) (term_seen term.old)) }
    {
        if let Term::Blank(blank) = term {
            *blank = self.blank(*blank)?;
        }
        Ok(())
    }

    /// Puts their numbers in place of the triple's blank nodes. Those that are new come after those that were seen.
    fn give(&mut self, triple: &mut Triple) -> Result<(), NoMemory>
        ensures known { OnOk result (self.new ≡ with_all nat_eq self.old (blanks_of (triple_seen triple.old))) }
        ensures renamed { OnOk result (triple_seen triple.new ≡ rename (place_in nat_eq self.new) (triple_seen triple.old)) }
    {
        self.give_node(&mut triple.subject)?;
        self.give_term(&mut triple.object)?;
        Ok(())
    }
}
