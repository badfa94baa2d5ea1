//! What triples of a group have in common.
ghost use Rattle.std.specs.Prelude.{◌≡◌, nat_eq};
ghost use Rattle.rx_model.specs.Common.{same_node, triple_seen};
ghost use Rattle.rx_graph.specs.Resources.{resource_seen};
ghost use Rattle.rx_turtle.specs.Groups.{group_key, has_key};

use rx_graph::Resource;
use rx_terms::Triple;

/// What the triples of a group have in common.
#[derive(Clone, Copy)]
pub enum By {
    /// They have one subject.
    Subject,
    /// They have one predicate.
    Predicate,
}

/// The triple's subject or its predicate.
pub(crate) fn key_of<'a>(triple: &'a Triple, by: By) -> Resource<'a>
    ensures { resource_seen result ≡ group_key by (triple_seen triple.now) }
{
    match by {
        By::Subject => Resource::of_node(&triple.subject),
        By::Predicate => Resource::Iri(&triple.predicate),
    }
}

/// Whether the triple has this key.
pub(crate) fn has_key(triple: &Triple, by: By, key: Resource) -> bool
    ensures { result ≡ has_key by (resource_seen key.entry) (triple_seen triple.now) }
{
    are_same(key_of(triple, by), key)
}

pub(crate) fn are_same(one: Resource, other: Resource) -> bool
    ensures { result ≡ same_node nat_eq (resource_seen one.entry) (resource_seen other.entry) }
{
    one == other
}
