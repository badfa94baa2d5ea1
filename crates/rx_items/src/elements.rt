//! The elements of a page, each by its row and what it has beside it.
ghost use Rattle.std.specs.Prelude.{◌≡◌, [], List, None, slice_get};
ghost use Rattle.rx_terms.specs.Text.{Chars};
ghost use Rattle.rx_microdata.specs.Elements.{Placed, is_item, is_top_level};
ghost use Rattle.rx_items.specs.Showing.{ShowsRow};
ghost use Rattle.rx_items.specs.Words.{names_in};
ghost use Rattle.rx_items.specs.Held.{AreTokens, AtPlace, NamesAt, OfRows, ShowsTheSame, ShowsTokens, ValueAt, is_there, names_beside, others_beside, own_beside, texts_in, texts_seen, types_beside};

use crate::kept::{BesideRow, Element, Kept, Run, Tokens};
use crate::rows::{Row, RowValue};
use crate::spans::Span;
use rx_terms::Text;

/// The element at a place.
#[inline(always)]
pub fn element_at(kept: &Kept, place: usize) -> Option<Element<'_>>
    ensures { OfRows kept.now (λ rows base. AtPlace kept.now rows place result) }
{
    let Some(row) = kept.rows.get(place) else {
        return None;
    };
    let Some(extra) = kept.extras.get(place) else {
        return None;
    };
    Some(element_of(row, extra))
}

/// The names of the element at a place, where no more of it is asked for: it is cheaper than an element. None where no row
/// is there.
#[inline(always)]
pub fn names_at(kept: &Kept, place: usize) -> Option<Tokens<'_>>
    ensures { OfRows kept.now (λ rows base. NamesAt kept.now rows place result) }
{
    let Some(row) = kept.rows.get(place) else {
        return None;
    };
    let Some(extra) = kept.extras.get(place) else {
        return None;
    };
    Some(names_of(row, extra))
}

/// The value of the element at a place, where no more of it is asked for. None where no row is there.
#[inline(always)]
pub fn value_at(kept: &Kept, place: usize) -> Option<RowValue>
    ensures { OfRows kept.now (λ rows base. ValueAt kept.now rows place result) }
{
    match kept.rows.get(place) {
        Some(row) => Some(value_of(row)),
        None => None,
    }
}

fn value_of(row: &Row) -> RowValue
    ensures { result ≡ row.now.value }
{
    row.value
}

/// Whether there is a row at a place that is that of a top-level item. It is asked of each row, and is cheaper than an
/// element.
pub fn is_top_at(kept: &Kept, place: usize) -> bool
    ensures { OfRows kept.now (λ rows base. result ≡ is_there is_top_level (slice_get rows place)) }
{
    match kept.rows.get(place) {
        Some(row) => is_top(row),
        None => false,
    }
}

fn is_top(row: &Row) -> bool
    ensures { (words gathered : Chars) (times : List Chars) (p : Placed) → ShowsRow words gathered times row.now p → result ≡ is_top_level p }
{
    row.head.is_item && row.head.words.names().is_none()
}

/// Whether there is a row at a place that is that of an item.
pub fn is_item_at(kept: &Kept, place: usize) -> bool
    ensures { OfRows kept.now (λ rows base. result ≡ is_there is_item (slice_get rows place)) }
{
    match kept.rows.get(place) {
        Some(row) => row.head.is_item,
        None => false,
    }
}

/// The element of a row that has this beside it.
fn element_of<'a>(row: &Row, extra: &'a BesideRow) -> Element<'a>
    ensures shown { ShowsTheSame row.now extra.now result }
    ensures own { result.own ≡ own_beside extra.now }
    ensures others { result.others.now ≡ others_beside extra.now }
{
    let names = row.head.words.names();
    Element {
        token: row.head.token,
        at: row.head.at,
        is_item: row.head.is_item,
        is_top: row.head.is_item && names.is_none(),
        names: tokens(names, names_beside(extra)),
        types: tokens(row.head.words.types(), types_beside(extra)),
        item_id: row.head.words.item_id(),
        value: row.value,
        own: own_beside(extra),
        others: others_beside(extra),
    }
}

/// The names of a row that has this beside it.
fn names_of<'a>(row: &Row, extra: &'a BesideRow) -> Tokens<'a>
    ensures { (words : Chars) (texts : List Chars) → AreTokens words (names_in row.now.head.words) (names_beside extra.now) texts → ShowsTokens words result texts }
{
    tokens(row.head.words.names(), names_beside(extra))
}

/// The tokens of an attribute that stands there, where they take no memory of their own, or else these.
fn tokens<'a>(span: Option<Span>, list: Option<&'a [Text]>) -> Tokens<'a>
    ensures { (words : Chars) (texts : List Chars) → AreTokens words span (texts_seen list.entry) texts → ShowsTokens words result texts }
{
    match list {
        Some(list) => Tokens::Many(list),
        None => token(span),
    }
}

fn token<'a>(span: Option<Span>) -> Tokens<'a>
    ensures { (words : Chars) (texts : List Chars) → AreTokens words span None texts → ShowsTokens words result texts }
{
    match span {
        Some(span) => Tokens::One(span),
        None => Tokens::Many(&[]),
    }
}

fn names_beside(extra: &BesideRow) -> Option<&[Text]>
    ensures { texts_seen result ≡ names_beside extra.now }
{
    match extra {
        BesideRow::Plain(_run) => None,
        BesideRow::ListsAndReach(rare) => listed(&rare.as_ref().names),
    }
}

fn types_beside(extra: &BesideRow) -> Option<&[Text]>
    ensures { texts_seen result ≡ types_beside extra.now }
{
    match extra {
        BesideRow::Plain(_run) => None,
        BesideRow::ListsAndReach(rare) => listed(&rare.as_ref().types),
    }
}

fn listed(list: &Option<Vec<Text>>) -> Option<&[Text]>
    ensures { texts_seen result ≡ texts_in list.now }
{
    match list {
        Some(list) => Some(list.as_slice()),
        None => None,
    }
}

fn own_beside(extra: &BesideRow) -> Run
    ensures { result ≡ own_beside extra.now }
{
    match extra {
        BesideRow::Plain(run) => *run,
        BesideRow::ListsAndReach(rare) => rare.as_ref().reach.own,
    }
}

fn others_beside(extra: &BesideRow) -> &[Run]
    ensures { result.now ≡ others_beside extra.now }
{
    match extra {
        BesideRow::Plain(_run) => &[],
        BesideRow::ListsAndReach(rare) => rare.as_ref().reach.others.as_slice(),
    }
}
