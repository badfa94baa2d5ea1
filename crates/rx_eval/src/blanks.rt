//! Blank nodes by their numbers.
ghost use Rattle.std.specs.Prelude.{◌≡◌, ◌<◌, ◌^◌, ◌+◌, option_map};
ghost use Rattle.rx_model.specs.Seen.{node_seen};
ghost use Rattle.rx_eval.specs.Blanks.{is_blank, is_that_blank, number_after};
ghost use Rattle.rx_eval.specs.ElementResources.{found_seen};

use crate::resources::ElementResources;
use rx_terms::Node;

/// Whether the node is the blank node of the number.
pub fn is_blank(node: &Node, number: u64) -> bool
    ensures { result ≡ is_blank (node_seen node.now) number }
{
    match node {
        Node::Blank(blank) => blank.0 == number,
        Node::Iri(_iri) => false,
    }
}

/// The number after that of a new node, if there is one among the resources.
pub(crate) fn number_after(found: &ElementResources, fresh: u64) -> u64
    requires { fresh + 1 < 2 ^ 64 }
    ensures { result ≡ number_after (found_seen found.now) fresh }
{
    if is_blank(&found.subject, fresh)
        || has_blank(&found.typed, fresh)
        || has_blank(&found.object, fresh)
    {
        return fresh + 1;
    }
    fresh
}

fn has_blank(node: &Option<Node>, number: u64) -> bool
    ensures { result ≡ is_that_blank (option_map node_seen node.now) number }
{
    match node {
        Some(node) => is_blank(node, number),
        None => false,
    }
}
