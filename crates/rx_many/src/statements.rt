//! The statements of a document.
ghost use Rattle.std.specs.Prelude.{◌≡◌, ◌<◌, ◌&&◌, [], IfOk, OnOk, Some, length, not, slice_get};
ghost use Rattle.rx_model.specs.Common.{with_one, node_seen, term_seen, triple_seen};
ghost use Rattle.rx_many.specs.Blank.{has_blank, is_blank_node, is_blank_term};
ghost use Rattle.rx_many.specs.Lines.{same_line};
ghost use Rattle.rx_many.specs.Seen.{statement_seen};
ghost use Rattle.rx_many.specs.Standing.{AddsWhereNew};

use rx_terms::{Iri, NoMemory, Node, Term, Triple};
use rx_unique::Unique;
use std::alloc::Global;
use std::marker::Model;

/// A triple in the graph of a name.
#[derive(Drop, PartialEq, Eq, Hash)]
pub(crate) struct Statement {
    pub(crate) name: Iri,
    pub(crate) triple: Triple,
}

/// Statements, each once. A contract sees the list.
#[derive(Drop)]
pub(crate) struct Statements {
    statements: Unique<Statement>,
}

impl Model for Statements {
    ghost use Rattle.std.specs.Prelude.{ℕ, List, map};
    ghost use Rattle.rx_many.specs.Lines.{QuadLine};
    ghost use Rattle.rx_many.specs.Seen.{statement_seen};

    ghost Value = { List (QuadLine ℕ) };

    ghost view = { λ statements. map statement_seen statements.statements };
}

impl Statements {
    pub(crate) fn new(alloc: Global) -> Statements
        ensures { result ≡ [] }
    {
        Statements {
            statements: Unique::new(alloc),
        }
    }

    /// Adds the statement at the end, where it isn't there yet, and gives its place then.
    pub(crate) fn add(&mut self, statement: Statement) -> Result<Option<usize>, NoMemory>
        ensures list { OnOk result (self.new ≡ with_one same_line self.old (statement_seen statement)) }
        ensures place { IfOk result (AddsWhereNew self.old (statement_seen statement) self.new) }
    {
        let (place, is_new) = self.statements.insert_full(statement)?;
        if is_new {
            return Ok(Some(place));
        }
        Ok(None)
    }

    /// The statement at this place.
    pub(crate) fn at(&self, place: usize) -> &Statement
        requires { place < length self.now }
        ensures { slice_get self.now place ≡ Some (statement_seen result.now) }
    {
        self.statements.at(place)
    }
}

/// Whether another page may state the triple too, where its graph's name may be of several pages. No other page has its blank
/// nodes.
pub(crate) fn may_repeat(is_shared: bool, triple: &Triple) -> bool
    ensures { result ≡ (is_shared && not (has_blank (triple_seen triple.now))) }
{
    is_shared && !has_blank(triple)
}

/// Whether the triple has a blank node.
fn has_blank(triple: &Triple) -> bool
    ensures { result ≡ has_blank (triple_seen triple.now) }
{
    is_blank_node(&triple.subject) || is_blank_term(&triple.object)
}

fn is_blank_node(node: &Node) -> bool
    ensures { result ≡ is_blank_node (node_seen node.now) }
{
    match node {
        Node::Iri(_iri) => false,
        Node::Blank(_blank) => true,
    }
}

fn is_blank_term(term: &Term) -> bool
    ensures { result ≡ is_blank_term (term_seen term.now) }
{
    match term {
        Term::Iri(_iri) => false,
        Term::Blank(_blank) => true,
        Term::Literal(_literal) => false,
    }
}
