//! Nodes by number.
ghost use Rattle.std.specs.Prelude.{◌≡◌, [], length, IfOk, OnOk, nat_eq};
ghost use Rattle.rx_model.specs.Common.{same_node, with_one, node_seen, term_seen, triple_seen, triples_seen};
ghost use Rattle.rx_graph.specs.Resources.{number_in};
ghost use Rattle.rx_shapes.specs.Links.{object_number, triple_added, IsTripleIndex};

use rx_graph::Graph;
use rx_terms::{NoMemory, Node, Term, Triple};
use rx_unique::Unique;
use std::alloc::Global;
use std::marker::Model;

/// Nodes in order of first appearance, each once. The number of each is its place. A contract sees the list.
#[derive(Drop)]
pub(crate) struct Index {
    nodes: Unique<Node>,
}

impl Model for Index {
    ghost use Rattle.std.specs.Prelude.{ℕ, List, map};
    ghost use Rattle.rx_model.specs.Common.{Node, node_seen};

    ghost Value = { List (Node ℕ) };

    ghost view = { λ index. map node_seen index.nodes };
}

impl Index {
    fn new(alloc: Global) -> Index
        ensures { result ≡ [] }
    {
        Index {
            nodes: Unique::new(alloc),
        }
    }

    /// The subjects of the graph, and its blank nodes.
    pub(crate) fn of(alloc: Global, graph: &Graph) -> Result<Index, NoMemory>
        ensures { IfOk result (λ nodes. IsTripleIndex (triples_seen graph.now) nodes) }
    {
        let mut index = Index::new(alloc);
        index.add_all(graph)?;
        Ok(index)
    }

    fn add_all(&mut self, graph: &Graph) -> Result<(), NoMemory>
        ensures { OnOk result (IsTripleIndex (triples_seen graph.now) self.new) }
    {
        for i in 0..graph.len() {
            self.add_triple(graph.at(i))?;
        }
        Ok(())
    }

    fn add_triple(&mut self, triple: &Triple) -> Result<(), NoMemory>
        ensures { OnOk result (self.new ≡ triple_added self.old (triple_seen triple.now)) }
    {
        self.add(triple.subject.try_clone()?)?;
        if let Term::Blank(blank) = &triple.object {
            self.add(Node::Blank(*blank))?;
        }
        Ok(())
    }

    /// Adds the node at the end, where it isn't there yet.
    fn add(&mut self, node: Node) -> Result<(), NoMemory>
        ensures { OnOk result (self.new ≡ with_one (same_node nat_eq) self.old (node_seen node)) }
    {
        self.nodes.insert(node)?;
        Ok(())
    }

    pub(crate) fn len(&self) -> usize
        ensures { result ≡ length self.now }
    {
        self.nodes.len()
    }

    /// The number of the node, if it is there.
    pub(crate) fn number(&self, node: &Node) -> Option<usize>
        ensures { result ≡ number_in self.now (node_seen node.now) }
    {
        self.nodes.get_index_of(node)
    }

    /// The number of the term, where it is a blank node and is there.
    pub(crate) fn object_number(&self, term: &Term) -> Option<usize>
        ensures { result ≡ object_number self.now (term_seen term.now) }
    {
        match term {
            Term::Iri(_iri) => None,
            Term::Blank(blank) => self.number(&Node::Blank(*blank)),
            Term::Literal(_literal) => None,
        }
    }
}
