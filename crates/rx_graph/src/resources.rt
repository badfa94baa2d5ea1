//! Nodes that are borrowed from triples.
ghost use Rattle.std.specs.Prelude.{◌≡◌, ◌<◌, [], length, OnErr, OnOk, Some, slice_get, option_map, nat_eq};
ghost use Rattle.rx_model.specs.Common.{contains, with_one, same_node, node_seen, term_seen, triple_seen};
ghost use Rattle.rx_graph.specs.Resources.{resource_seen, resource_of, number_in, live_by, AreDistinct};

use crate::vocabulary::copies;
use rx_terms::{Blank, Iri, NoMemory, Node, Term, Triple};
use rx_unique::Unique;
use std::alloc::Global;
use std::marker::Model;

/// A node, borrowed from a triple's subject or object.
#[derive(Clone, Copy, PartialEq, Eq, Hash)]
pub enum Resource<'a> {
    Iri(&'a Iri),
    Blank(Blank),
}

impl<'a> Resource<'a> {
    /// The node itself, borrowed.
    pub fn of_node(node: &'a Node) -> Resource<'a>
        ensures { resource_seen result ≡ node_seen node.now }
    {
        match node {
            Node::Iri(iri) => Resource::Iri(iri),
            Node::Blank(blank) => Resource::Blank(*blank),
        }
    }

    /// The node that the term is, if it is no literal.
    pub fn of_term(term: &'a Term) -> Option<Resource<'a>>
        ensures { option_map resource_seen result ≡ resource_of (term_seen term.now) }
    {
        match term {
            Term::Iri(iri) => Some(Resource::Iri(iri)),
            Term::Blank(blank) => Some(Resource::Blank(*blank)),
            Term::Literal(_literal) => None,
        }
    }
}

/// Borrowed nodes in order of first appearance, each once. The number of each is its place. A contract sees the list.
#[derive(Drop)]
pub struct Nodes<'a> {
    nodes: Unique<Resource<'a>>,
}

impl<'a> Model for Nodes<'a> {
    ghost use Rattle.std.specs.Prelude.{ℕ, List, map};
    ghost use Rattle.rx_model.specs.Terms.{Node};
    ghost use Rattle.rx_graph.specs.Resources.{resource_seen};

    ghost Value = { List (Node ℕ) };

    ghost view = { λ nodes. map resource_seen nodes.nodes };
}

impl<'a> Nodes<'a> {
    /// No node.
    pub fn new(alloc: Global) -> Nodes<'a>
        ensures { result ≡ [] }
    {
        Nodes {
            nodes: Unique::new(alloc),
        }
    }

    /// Adds the node at the end, where it isn't there yet. Without memory nothing changes.
    pub fn add(&mut self, node: Resource<'a>) -> Result<(), NoMemory>
        ensures ok { OnOk result (self.new ≡ with_one (same_node nat_eq) self.old (resource_seen node.entry)) }
        ensures err { OnErr result (self.new ≡ self.old) }
    {
        self.nodes.insert(node)?;
        Ok(())
    }

    /// How many nodes there are.
    pub fn len(&self) -> usize
        ensures len { result ≡ length self.now }
        ensures each_once { AreDistinct self.now }
    {
        self.nodes.len()
    }

    /// The node of this number.
    pub fn at(&self, number: usize) -> Resource<'a>
        requires { number < length self.now }
        ensures { slice_get self.now number ≡ Some (resource_seen result) }
    {
        *self.nodes.at(number)
    }

    /// The number of the node, if it is there.
    pub fn number(&self, node: Resource<'a>) -> Option<usize>
        ensures { result ≡ number_in self.now (resource_seen node.entry) }
    {
        self.nodes.get_index_of(&node)
    }

    /// Whether the node is there.
    pub fn contains(&self, node: Resource<'a>) -> bool
        ensures { result ≡ contains (same_node nat_eq) self.now (resource_seen node.entry) }
    {
        self.nodes.contains(&node)
    }

    /// Where these are patterns: the pattern that the triple copies, where it is a live copy triple.
    pub(crate) fn live(&self, triple: &'a Triple) -> Option<Resource<'a>>
        ensures { option_map resource_seen result ≡ live_by self.now (triple_seen triple.now) }
    {
        if !copies(triple) {
            return None;
        }
        let object = Resource::of_term(&triple.object)?;
        if self.contains(object) {
            Some(object)
        } else {
            None
        }
    }
}
