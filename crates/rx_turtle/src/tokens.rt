//! The tokens of a nested text, as small values that borrow from the graph. IRIs are shortened only when they are written,
//! since a text's prefixes are known once all its tokens are.
use rx_graph::Resource;
use rx_terms::Literal;

/// Words that are always the same.
#[derive(Clone, Copy)]
pub enum Words {
    /// Between the parts of a statement, and the items of a list.
    Space,
    /// Between objects.
    Comma,
    /// Between the predicates of a subject.
    LineGap,
    /// Between the predicates of a node in brackets.
    InsideGap,
    /// Before a node in brackets, and behind it.
    Open,
    Close,
    /// Before a list, and behind it.
    OpenList,
    CloseList,
    /// A node of which nothing is said.
    Empty,
    /// The list of nothing.
    Nil,
    /// Behind a statement.
    End,
}

/// A token of a text.
#[derive(Clone, Copy)]
pub enum Token<'a> {
    /// Words that are always the same.
    Fixed(Words),
    /// A subject, or an object that is a node.
    IriOrLabel(Resource<'a>),
    /// A predicate.
    Verb(Resource<'a>),
    /// A literal.
    Quoted(&'a Literal),
}
