//! A list of types.
ghost use Rattle.std.specs.Prelude.{◌≡◌, ◌<◌, [], ◌∷◌, ◌++◌, length, OnOk, OnErr, Some, slice_get, ◌==◌, true};
ghost use Rattle.rx_curie.specs.Nodes.{is_node, are_nodes};

use crate::refs::Ref;
use rx_terms::NoMemory;
use std::alloc::Global;
use std::marker::Model;

/// A list of IRIs and authors' blank nodes that only grows, in the order of its pushes. Most lists have one node, which takes
/// no memory. A contract sees the list.
#[derive(Debug, Drop)]
pub struct TypeList {
    first: Option<Ref>,
    others: Vec<Ref>,
}

impl Model for TypeList {
    ghost use Rattle.std.specs.Prelude.{List};
    ghost use Rattle.rx_curie.specs.declared.refs.Ref.{Ref};
    ghost use Rattle.rx_curie.specs.Nodes.{HoldsNodes, nodes_with_first};

    ghost Value = { List Ref };

    ghost view = { λ list. nodes_with_first list.first list.others.items };

    ghost invariant = { λ list. HoldsNodes list.first list.others.items };
}

impl TypeList {
    /// An empty list.
    pub fn new(alloc: Global) -> TypeList
        ensures empty { result ≡ [] }
    {
        TypeList {
            first: None,
            others: Vec::new(alloc),
        }
    }

    /// Adds the node at the end. It is no reference that is still to be resolved.
    pub fn push(&mut self, node: Ref) -> Result<(), NoMemory>
        requires { is_node node ≡ true }
        ensures ok { OnOk result (self.new ≡ self.old ++ node ∷ []) }
        ensures err { OnErr result (self.new ≡ self.old) }
    {
        if self.first.is_none() {
            self.first = Some(node);
            return Ok(());
        }
        self.others.push(node)?;
        Ok(())
    }

    /// How many nodes there are.
    pub fn len(&self) -> usize
        ensures length { result ≡ length self.now }
    {
        match self.first {
            Some(_) => 1 + self.others.len(),
            None => 0,
        }
    }

    /// Whether there is none.
    pub fn is_empty(&self) -> bool
        ensures none { result ≡ (length self.now == 0) }
    {
        self.first.is_none()
    }

    /// The node at a place below `len`, from 0.
    pub fn at(&self, i: usize) -> &Ref
        requires { i < length self.now }
        ensures node { slice_get self.now i ≡ Some result.now }
        ensures kind { are_nodes self.now ≡ true }
    {
        match &self.first {
            Some(node) if i == 0 => node,
            _ => &self.others[i - 1],
        }
    }
}
