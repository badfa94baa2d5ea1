//! What a child of the innermost open element would inherit.
ghost use Rattle.std.specs.Prelude.{◌≡◌, ◌<◌, length, Some, slice_get};
ghost use Rattle.rx_eval.specs.Waits.{waits, wait_seen, hanging_seen};

use crate::contexts::IncompleteTriple;
use rx_terms::{Iri, Node};

/// How a triple waits.
#[derive(Clone, Copy, Debug, PartialEq, Eq)]
pub enum Direction {
    /// From the parent subject to the subject that is to come.
    Forward,
    /// From the subject that is to come to the parent subject.
    Reverse,
    /// The subject that is to come is an item of a list.
    InList,
}

/// A triple that waits for a subject (RDFa Core 1.1, section 7.5, step 10).
#[derive(Clone, Copy)]
pub struct Hanging<'a> {
    pub predicate: &'a Iri,
    pub direction: Direction,
}

/// The context in which a child of the innermost open element would stand (RDFa Core 1.1, section 7.5): parent subject,
/// parent object, and the triples that wait.
#[derive(Clone, Copy)]
pub struct Inherited<'a> {
    pub subject: &'a Node,
    pub object: &'a Node,
    pub(crate) waiting: &'a [IncompleteTriple],
}

impl<'a> Inherited<'a> {
    /// How many triples wait.
    pub fn hanging_count(&self) -> usize
        ensures { result ≡ length (waits self.now) }
    {
        self.waiting.len()
    }

    /// The triple that waits at a place below `hanging_count`, from 0.
    pub fn hanging_at(&self, i: usize) -> Hanging<'a>
        requires { i < length (waits self.now) }
        ensures { slice_get (waits self.now) i ≡ Some (hanging_seen result) }
    {
        hanging_of(&self.waiting[i])
    }
}

fn hanging_of(waiting: &IncompleteTriple) -> Hanging<'_>
    ensures { hanging_seen result ≡ wait_seen waiting.now }
{
    match waiting {
        IncompleteTriple::Forward(predicate) => Hanging {
            predicate,
            direction: Direction::Forward,
        },
        IncompleteTriple::Reverse(predicate) => Hanging {
            predicate,
            direction: Direction::Reverse,
        },
        IncompleteTriple::InList(_owner, predicate) => Hanging {
            predicate,
            direction: Direction::InList,
        },
    }
}
