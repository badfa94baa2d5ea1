//! What is kept of a page's elements once the page has ended.
use crate::rows::{Row, RowValue};
use crate::spans::Span;
use rx_refs::Base;
use rx_terms::Text;
use rx_values::TextStore;

/// Some of the members, from one place of their list to another.
#[derive(Clone, Copy)]
pub struct Run {
    pub from: usize,
    pub to: usize,
}

/// The members that an item reaches, of which its properties are those other than itself. No two of the
/// runs that `reach_of` makes share one.
#[derive(Drop)]
pub struct Reach {
    /// Those of which the item is the nearest one around, where it refers to no element; else none.
    pub own: Run,
    /// All of them, where it refers to some.
    pub others: Vec<Run>,
}

/// What takes memory of its own, which most elements don't have.
#[derive(Drop)]
pub struct ListsAndReach {
    /// The property names, each once, where they aren't one token.
    pub names: Option<Vec<Text>>,
    /// The types, each once, where they aren't one token.
    pub types: Option<Vec<Text>>,
    pub reach: Reach,
}

/// What an element has beside its row. There is one for each row, so it is small.
#[derive(Drop)]
pub enum BesideRow {
    /// Nothing but, of an item, the run of the members that it reaches.
    Plain(Run),
    ListsAndReach(Box<ListsAndReach>),
}

/// The tokens of an attribute, each once.
#[derive(Clone, Copy)]
pub enum Tokens<'a> {
    /// The only one, where it stands in what is kept of tags.
    One(Span),
    /// None, or several.
    Many(&'a [Text]),
}

/// An element that matters, by its row and what it has beside it.
#[derive(Clone, Copy)]
pub struct Element<'a> {
    pub token: u64,
    pub at: u64,
    pub is_item: bool,
    pub is_top: bool,
    pub names: Tokens<'a>,
    pub types: Tokens<'a>,
    pub item_id: Option<Span>,
    pub value: RowValue,
    /// Of an item, the members that it reaches: a run where it refers to no element, else the others.
    pub own: Run,
    pub others: &'a [Run],
}

/// What is kept of a page: the rows of its elements, what these have beside them, the places of those with a name by the
/// items around them, the texts, and the base.
#[derive(Drop)]
pub struct Kept {
    pub rows: Vec<Row>,
    pub extras: Vec<BesideRow>,
    pub members: Vec<usize>,
    pub words: TextStore,
    pub text: TextStore,
    pub times: Vec<TextStore>,
    pub base: Base,
}
