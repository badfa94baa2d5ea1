//! What elements have beside their rows.
ghost use Rattle.std.specs.Prelude.{◌≡◌, ◌<◌, ◌++◌, ◌∷◌, [], None, Some, true, length, IfOk, OnOk};
ghost use Rattle.rx_items.specs.Words.{names_in, references_in, types_in};
ghost use Rattle.rx_items.specs.Built.{Builds, HoldsOfRows};
ghost use Rattle.rx_items.specs.Held.{EachFits, MakesTokens, NeedsNoList, names_beside, runs_beside, texts_in, types_beside};
ghost use Rattle.rx_items.specs.Members.{Rises, RunOf};

use crate::distinct::{is_single_at, several_at};
use crate::kept::{BesideRow, ListsAndReach, Reach, Run};
use crate::reaches::{no_reach, reach_of};
use crate::references::starts_of;
use crate::rows::Row;
use crate::spans::Span;
use crate::starts::own_run_from;
use rx_terms::{NoMemory, Text};
use rx_values::TextStore;
use std::alloc::Global;
use std::collections::BTreeMap;

/// What the element of each row has beside it, in order.
pub(crate) fn extras_of(
    alloc: Global,
    words: &TextStore,
    rows: &[Row],
    members: &[usize],
    ids: &BTreeMap<&str, usize>,
) -> Result<Vec<BesideRow>, NoMemory>
    ensures { HoldsOfRows words.now rows.now members.now ids.now (λ ps. IfOk result (λ extras. EachFits words.now ps members.now rows.now extras.items)) }
{
    let mut extras = Vec::with_capacity(alloc, rows.len())?;
    // The members of items stand in the order of the items, so those of one mostly begin where those of the last one end.
    let mut hint = 0;
    for place in 0..rows.len() {
        let extra = extra_of(alloc, words, rows, members, ids, place, hint)?;
        hint = end_of(&extra).max(hint);
        add_extra(&mut extras, extra)?;
    }
    Ok(extras)
}

/// Where the members end that are kept as a run.
fn end_of(extra: &BesideRow) -> usize {
    match extra {
        BesideRow::Plain(run) => run.to,
        BesideRow::ListsAndReach(_rare) => 0,
    }
}

fn add_extra(extras: &mut Vec<BesideRow>, extra: BesideRow) -> Result<(), NoMemory>
    ensures { OnOk result (extras.new.items ≡ extras.old.items ++ extra ∷ []) }
{
    match extras.push(extra) {
        Ok(()) => Ok(()),
        Err(refused) => {
            drop(refused);
            Err(NoMemory)
        }
    }
}

/// What the element of the row at this place has beside it. Where its members begin is known at once if it is at the hint.
fn extra_of(
    alloc: Global,
    words: &TextStore,
    rows: &[Row],
    members: &[usize],
    ids: &BTreeMap<&str, usize>,
    place: usize,
    hint: usize,
) -> Result<BesideRow, NoMemory>
    requires { place < length rows.now }
    ensures { HoldsOfRows words.now rows.now members.now ids.now (λ ps. IfOk result (λ extra. Builds words.now ps members.now rows.now place extra)) }
{
    let row = &rows[place];
    if is_plain(words, row) {
        let own = plain_run(rows, members, row, place, hint);
        return Ok(BesideRow::Plain(own));
    }
    rare_extra(alloc, words, rows, members, ids, place)
}

/// Whether a row has no list of names or types of its own, and refers to nothing. Most rows are such.
fn is_plain(words: &TextStore, row: &Row) -> bool
    ensures references { result ≡ true → references_in row.now.head.words ≡ None }
    ensures names { result ≡ true → NeedsNoList words.now (names_in row.now.head.words) }
    ensures types { result ≡ true → NeedsNoList words.now (types_in row.now.head.words) }
{
    row.head.words.references().is_none()
        && is_single(words, row.head.words.names())
        && is_single(words, row.head.words.types())
}

/// The members that a row at this place reaches that refers to nothing: none where it is no item.
fn plain_run(rows: &[Row], members: &[usize], row: &Row, place: usize, hint: usize) -> Run
    ensures { row.now.head.is_item ≡ true → Rises rows.now members.now → RunOf rows.now members.now (Some place) 0 (length rows.now) result }
{
    if row.head.is_item {
        return own_run_from(rows, members, place, hint);
    }
    Run { from: 0, to: 0 }
}

/// The same of a row that isn't plain; apart from the way of most rows.
#[inline(never)]
fn rare_extra(
    alloc: Global,
    words: &TextStore,
    rows: &[Row],
    members: &[usize],
    ids: &BTreeMap<&str, usize>,
    place: usize,
) -> Result<BesideRow, NoMemory>
    requires { place < length rows.now }
    ensures { HoldsOfRows words.now rows.now members.now ids.now (λ ps. IfOk result (λ extra. Builds words.now ps members.now rows.now place extra)) }
{
    let row = &rows[place];
    if !row.head.is_item {
        let plain = texts_beside(alloc, words, row, no_reach(alloc))?;
        return Ok(plain);
    }
    let starts = starts_of(alloc, words, ids, row.head.words.references())?;
    let reach = reach_of(alloc, rows, members, starts.as_slice(), place)?;
    let extra = texts_beside(alloc, words, row, reach)?;
    Ok(extra)
}

/// What stands beside a row that reaches these members.
fn texts_beside(
    alloc: Global,
    words: &TextStore,
    row: &Row,
    reach: Reach,
) -> Result<BesideRow, NoMemory>
    ensures names { MakesTokens words.now (names_in row.now.head.words) names_beside result }
    ensures types { MakesTokens words.now (types_in row.now.head.words) types_beside result }
    ensures reach { IfOk result (λ extra. runs_beside extra ≡ reach.own ∷ reach.others.items) }
{
    let Ok(names) = several(alloc, words, row.head.words.names()) else {
        drop(reach);
        return Err(NoMemory);
    };
    let Ok(types) = several(alloc, words, row.head.words.types()) else {
        drop(reach);
        drop(names);
        return Err(NoMemory);
    };
    let rare = ListsAndReach {
        names,
        types,
        reach,
    };
    keep_rare(alloc, rare)
}

fn keep_rare(alloc: Global, rare: ListsAndReach) -> Result<BesideRow, NoMemory>
    ensures names { IfOk result (λ extra. names_beside extra ≡ texts_in rare.names) }
    ensures types { IfOk result (λ extra. types_beside extra ≡ texts_in rare.types) }
    ensures reach { IfOk result (λ extra. runs_beside extra ≡ rare.reach.own ∷ rare.reach.others.items) }
{
    match Box::new(alloc, rare) {
        Ok(rare) => Ok(BesideRow::ListsAndReach(rare)),
        Err(refused) => {
            drop(refused);
            Err(NoMemory)
        }
    }
}

/// The tokens of an attribute's value, each once, where they aren't the value itself.
fn several(
    alloc: Global,
    words: &TextStore,
    span: Option<Span>,
) -> Result<Option<Vec<Text>>, NoMemory>
    ensures { MakesTokens words.now span texts_in result }
{
    match span {
        Some(span) => several_at(alloc, words, span),
        None => Ok(None),
    }
}

/// Whether an attribute is absent, or its value is one token, so that there is no list of its tokens.
fn is_single(words: &TextStore, span: Option<Span>) -> bool
    ensures { result ≡ true → NeedsNoList words.now span }
{
    match span {
        Some(span) => is_single_at(words, span),
        None => true,
    }
}
