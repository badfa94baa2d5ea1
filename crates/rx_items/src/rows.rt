//! What is kept of a page's elements.
ghost use Rattle.std.specs.Prelude.{◌≡◌};
ghost use Rattle.rx_items.specs.Words.{id_in, item_id_in, names_in, references_in, span_if, types_in};

use crate::spans::Span;
use rx_values::TextStore;

/// Where the values of a tag's attributes stand in what is kept of tags, one behind another, and which of them are there.
/// There is one for each row, so it tells a place once where one value ends and the next begins.
#[derive(Clone, Copy)]
pub struct Words {
    pub from: usize,
    pub names_end: usize,
    pub id_end: usize,
    pub types_end: usize,
    pub item_id_end: usize,
    pub references_end: usize,
    pub has_names: bool,
    pub has_id: bool,
    pub has_types: bool,
    pub has_item_id: bool,
    pub has_references: bool,
}

impl Words {
    /// The property names.
    pub fn names(&self) -> Option<Span>
        ensures { result ≡ names_in self.now }
    {
        span_if(self.has_names, self.from, self.names_end)
    }

    /// The id.
    pub fn id(&self) -> Option<Span>
        ensures { result ≡ id_in self.now }
    {
        span_if(self.has_id, self.names_end, self.id_end)
    }

    /// The types of an item.
    pub fn types(&self) -> Option<Span>
        ensures { result ≡ types_in self.now }
    {
        span_if(self.has_types, self.id_end, self.types_end)
    }

    /// The id of an item.
    pub fn item_id(&self) -> Option<Span>
        ensures { result ≡ item_id_in self.now }
    {
        span_if(self.has_item_id, self.types_end, self.item_id_end)
    }

    /// The ids to which an item refers.
    pub fn references(&self) -> Option<Span>
        ensures { result ≡ references_in self.now }
    {
        span_if(self.has_references, self.item_id_end, self.references_end)
    }
}

/// A run, where it is there.
fn span_if(is_there: bool, from: usize, to: usize) -> Option<Span>
    ensures { result ≡ span_if is_there from to }
{
    if is_there {
        Some(Span { from, to })
    } else {
        None
    }
}

/// The value of an element.
#[derive(Clone, Copy)]
pub enum RowValue {
    /// No value is asked for, or the attribute is absent.
    Empty,
    /// An attribute's value.
    Written(Span),
    /// An attribute's value, which is a reference.
    Reference(Span),
    /// The page's text from this byte on, as long as the element is open.
    Running(usize),
    /// A run of the page's text.
    Run(Span),
    /// The child text content of a `time`, by its number.
    ChildText(usize),
}

/// What a tag says of its row, but for the value.
#[derive(Clone, Copy)]
pub struct Head {
    pub token: u64,
    pub at: u64,
    pub is_item: bool,
    /// Whether it has a property name.
    pub named: bool,
    pub words: Words,
}

/// An element that matters. Its place is that of its row.
#[derive(Clone, Copy)]
pub struct Row {
    pub head: Head,
    /// The place behind all that is in it, once it has ended.
    pub past: usize,
    /// The nearest item around it.
    pub scope: Option<usize>,
    pub value: RowValue,
}

/// The elements of a whole page that matter, and the texts in which their words and values stand.
#[derive(Drop)]
pub struct PageRows {
    /// In document order.
    pub rows: Vec<Row>,
    /// What is kept of tags.
    pub words: TextStore,
    /// The text that is the value of some row.
    pub text: TextStore,
    /// The own texts of elements `time`.
    pub times: Vec<TextStore>,
}

/// An open element.
#[derive(Clone, Copy)]
pub(crate) struct Open {
    pub(crate) row: Option<usize>,
    /// The nearest item around what is in it.
    pub(crate) scope: Option<usize>,
    /// Whether its text, or that of an element around it, is a value.
    pub(crate) gathers: bool,
    /// The number of the `time` whose own text is read.
    pub(crate) own: Option<usize>,
}
