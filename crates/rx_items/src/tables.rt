//! The table of a page's items, as the page is read.
ghost use Rattle.std.specs.Prelude.{◌≡◌, IfOk, OnOk};
ghost use Rattle.rx_tags.specs.Seen.{tag_seen};
ghost use Rattle.rx_items.specs.Words.{AreMarks, text_of_words};
ghost use Rattle.std.specs.Str.{chars};
ghost use Rattle.rx_items.specs.Growing as growing;

use crate::rows::{Head, Open, PageRows, Row, RowValue};
use crate::spans::Span;
use crate::values::{Taken, is_named, take_value};
use crate::words::{Marks, is_marked_by, keep_words, marks_of};
use rx_tags::Tag;
use rx_terms::NoMemory;
use rx_values::TextStore;
use std::alloc::Global;
use std::marker::Model;

/// The elements of a page that matter: items, those with property names, and those with an id.
///
/// A call that finds no memory leaves it spent. The walk that holds it has then failed for good: it tells the table nothing
/// more, and gives no items of it.
#[derive(Drop)]
pub(crate) struct Table {
    rows: Vec<Row>,
    // the innermost one last
    line: Vec<Open>,
    words: TextStore,
    text: TextStore,
    times: Vec<TextStore>,
}

impl Model for Table {
    ghost use Rattle.rx_items.specs.Growing.{Growing};

    ghost Value = { Growing };

    ghost view = { λ t. record { rows = t.rows.items; line = t.line.items; words = t.words; text = t.text; times = t.times.items } };
}

impl Table {
    ghost use Rattle.std.specs.Prelude.{[]};
    ghost use Rattle.rx_items.specs.Growing.{innermost, element_passed, added, element_begun};

    /// The table of a page of which nothing was read.
    pub(crate) fn new(alloc: Global) -> Table
        ensures { result ≡ record { rows = []; line = []; words = []; text = []; times = [] } }
    {
        Table {
            rows: Vec::new(alloc),
            line: Vec::new(alloc),
            words: TextStore::new(alloc),
            text: TextStore::new(alloc),
            times: Vec::new(alloc),
        }
    }

    fn innermost(&self) -> Open
        ensures { result ≡ innermost self.now.line }
    {
        match self.line.last() {
            Some(last) => *last,
            None => Open {
                row: None,
                scope: None,
                gathers: false,
                own: None,
            },
        }
    }

    /// An element begins. Without memory the table is spent.
    pub(crate) fn begin(&mut self, alloc: Global, tag: &Tag<'_>) -> Result<(), NoMemory>
        ensures { OnOk result (self.new ≡ element_begun self.old (tag_seen tag.now) tag.now.token tag.now.at) }
    {
        let marks = marks_of(tag);
        if !is_marked_by(&marks) {
            return self.pass();
        }
        let head = head_of(&mut self.words, tag, &marks)?;
        let taken = take_value(&mut self.words, tag, is_asked(head))?;
        self.add(alloc, head, taken)
    }

    // An element that is no row.
    fn pass(&mut self) -> Result<(), NoMemory>
        ensures { OnOk result (self.new ≡ element_passed self.old) }
    {
        let around = self.innermost();
        self.line.push(Open {
            row: None,
            scope: around.scope,
            gathers: around.gathers,
            own: None,
        })?;
        Ok(())
    }

    // An element that is one.
    fn add(&mut self, alloc: Global, head: Head, taken: Taken) -> Result<(), NoMemory>
        ensures { OnOk result (self.new ≡ added self.old head taken) }
    {
        let around = self.innermost();
        let place = self.rows.len();
        let times = self.times.len();
        let row = Row {
            head,
            past: 0,
            scope: around.scope,
            value: row_value(taken, self.text.mark(), times),
        };
        let newest = Open {
            row: Some(place),
            scope: inner_scope(head.is_item, place, around.scope),
            gathers: around.gathers || is_text(taken),
            own: own_of(taken, times),
        };
        self.add_own(alloc, taken)?;
        self.rows.push(row)?;
        self.line.push(newest)?;
        Ok(())
    }
}

impl Table {
    ghost use Rattle.std.specs.Prelude.{Some, length, IsOk};
    ghost use Rattle.rx_items.specs.Growing.{GathersNoText, text_gathered, element_ended, with_own, with_said, with_end};
    ghost use Rattle.rx_items.specs.Spans.{byte_count};

    // A `time` begins whose own text is read.
    fn add_own(&mut self, alloc: Global, taken: Taken) -> Result<(), NoMemory>
        ensures { OnOk result (self.new ≡ record self.old { times = with_own taken self.old.times }) }
    {
        if !matches!(taken, Taken::ChildText) {
            return Ok(());
        }
        match self.times.push(TextStore::new(alloc)) {
            Ok(()) => Ok(()),
            Err(refused) => {
                drop(refused);
                Err(NoMemory)
            }
        }
    }

    /// How many elements are open.
    pub(crate) fn depth(&self) -> usize
        ensures { result ≡ length self.now.line }
    {
        self.line.len()
    }

    /// Text. It takes no memory where no value gathers it. Without memory the table is spent.
    pub(crate) fn text(&mut self, text: &str) -> Result<(), NoMemory>
        ensures says { OnOk result (self.new ≡ text_gathered self.old (chars text.now)) }
        ensures quiet { GathersNoText self.old → IsOk result }
    {
        let around = self.innermost();
        if around.gathers {
            self.text.push(text)?;
        }
        let Some(own) = around.own else {
            return Ok(());
        };
        self.say_own(own, text)
    }

    // Text that stands in a `time` itself.
    fn say_own(&mut self, own: usize, text: &str) -> Result<(), NoMemory>
        ensures { OnOk result (self.new ≡ record self.old { times = with_said (Some own) (chars text.now) self.old.times }) }
    {
        if own < self.times.len() {
            self.times[own].push(text)?;
        }
        Ok(())
    }

    /// The innermost element ends.
    pub(crate) fn finish(&mut self)
        ensures { self.new ≡ element_ended self.old }
    {
        let Some(last) = self.line.pop() else {
            return;
        };
        let Some(place) = last.row else {
            return;
        };
        self.end(place);
    }

    // The element of this row ends.
    fn end(&mut self, place: usize)
        ensures { self.new ≡ record self.old { rows = with_end (Some place) (byte_count self.old.text) self.old.rows } }
    {
        let past = self.rows.len();
        let mark = self.text.mark();
        if place < past {
            let row = &mut self.rows[place];
            row.past = past;
            row.value = ended_value(row.value, mark);
        }
    }
}

impl Table {
    /// The page has ended: its rows.
    pub(crate) fn into_rows(self) -> PageRows
        ensures rows { result.rows.items ≡ self.rows }
        ensures words { result.words ≡ self.words }
        ensures text { result.text ≡ self.text }
        ensures times { result.times.items ≡ self.times }
    {
        let Table {
            rows,
            line,
            words,
            text,
            times,
        } = self;
        drop(line);
        PageRows {
            rows,
            words,
            text,
            times,
        }
    }
}

/// Keeps what a tag says of its row, but for the value.
fn head_of(words: &mut TextStore, tag: &Tag<'_>, marks: &Marks<'_>) -> Result<Head, NoMemory>
    requires { AreMarks (tag_seen tag.now).attributes marks.now }
    ensures text { OnOk result (words.new ≡ text_of_words words.old (tag_seen tag.now).attributes) }
    ensures head { IfOk result (λ head. head ≡ growing.head_of words.old (tag_seen tag.now) tag.now.token tag.now.at) }
{
    let words = keep_words(words, tag, marks)?;
    Ok(Head {
        token: tag.token,
        at: tag.at,
        is_item: marks.is_item,
        named: is_named(marks.names),
        words,
    })
}

/// Whether the value of a row is asked for, which is a property and no item.
fn is_asked(head: Head) -> bool
    ensures { result ≡ growing.is_asked_of head }
{
    !head.is_item && head.named
}

fn row_value(taken: Taken, mark: usize, times: usize) -> RowValue
    ensures { result ≡ growing.row_value taken mark times }
{
    match taken {
        Taken::Empty => RowValue::Empty,
        Taken::Written(span) => RowValue::Written(span),
        Taken::Reference(span) => RowValue::Reference(span),
        Taken::Text => RowValue::Running(mark),
        Taken::ChildText => RowValue::ChildText(times),
    }
}

fn ended_value(value: RowValue, mark: usize) -> RowValue
    ensures { result ≡ growing.ended_value value mark }
{
    match value {
        RowValue::Running(from) => RowValue::Run(Span { from, to: mark }),
        other => other,
    }
}

fn inner_scope(is_item: bool, place: usize, scope: Option<usize>) -> Option<usize>
    ensures { result ≡ growing.inner_scope is_item place scope }
{
    if is_item { Some(place) } else { scope }
}

fn is_text(taken: Taken) -> bool
    ensures { result ≡ growing.takes_text taken }
{
    matches!(taken, Taken::Text)
}

fn own_of(taken: Taken, times: usize) -> Option<usize>
    ensures { result ≡ growing.own_of taken times }
{
    match taken {
        Taken::ChildText => Some(times),
        _ => None,
    }
}
