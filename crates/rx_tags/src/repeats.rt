//! Names that stand twice among the attributes of a tag.
ghost use Rattle.std.specs.Prelude.{◌≡◌, ◌<◌, ℕ, List, ◌||◌, not, true, false, length, IfOk, MatchOption, OnOk};
ghost use Rattle.rx_grammar.specs.Common.{same, firsts, has_repeat};
ghost use Rattle.rx_tags.specs.Reading.{rows_read, RowsFit};
ghost use Rattle.rx_tags.specs.Repeats.{has_text, row_has_name, mark_of, KeepsFirsts};

use crate::attributes::AttributeSpan;
use crate::texts::text_between;
use rx_terms::NoMemory;
use std::alloc::Global;
use std::collections::BTreeSet;

/// The rows whose names stand in no row before them, or `None` where that is each of them.
#[inline(always)]
pub(crate) fn unrepeated(
    alloc: Global,
    text: &[u8],
    rows: &[AttributeSpan],
) -> Result<Option<Vec<AttributeSpan>>, NoMemory>
    requires { RowsFit text.now (length text.now) rows.now }
    ensures { IfOk result (λ kept. MatchOption kept (has_repeat (rows_read text.now rows.now) ≡ false) (λ some. KeepsFirsts text.now rows.now some.items)) }
{
    if rows.len() < 2 {
        return Ok(None);
    }
    if are_few_and_apart(text, rows) {
        return Ok(None);
    }
    unrepeated_of_many(alloc, text, rows)
}

#[cold]
#[inline(never)]
fn unrepeated_of_many(
    alloc: Global,
    text: &[u8],
    rows: &[AttributeSpan],
) -> Result<Option<Vec<AttributeSpan>>, NoMemory>
    requires { RowsFit text.now (length text.now) rows.now }
    ensures { IfOk result (λ kept. MatchOption kept (has_repeat (rows_read text.now rows.now) ≡ false) (λ some. KeepsFirsts text.now rows.now some.items)) }
{
    let kept = first_rows(alloc, text, rows)?;
    if kept.len() == rows.len() {
        return Ok(None);
    }
    Ok(Some(kept))
}

// How many marks there are of names.
const MARKS: usize = 64;

// A name's mark, which most names of a tag don't share.
#[inline(always)]
fn mark_of(name: &str) -> usize
    ensures mark { result ≡ mark_of name.now }
    ensures fits { result < MARKS }
{
    match name.as_bytes() {
        [first, .., last] => {
            (usize::from(*first) * 42 + usize::from(*last) * 39 + name.len() % MARKS) % MARKS
        }
        _ => 0,
    }
}

// Whether each name has another mark, so that none stands twice.
#[inline(never)]
fn are_marked_apart(text: &[u8], rows: &[AttributeSpan]) -> bool
    requires { RowsFit text.now (length text.now) rows.now }
    ensures { result ≡ true → has_repeat (rows_read text.now rows.now) ≡ false }
{
    let mut marks = [false; MARKS];
    for row in rows {
        let mark = mark_of(text_between(text, row.start, row.middle));
        if marks[mark] {
            return false;
        }
        marks[mark] = true;
    }
    true
}

/// Whether surely no name stands twice, which is told by marks where there are more than two.
#[inline(always)]
pub(crate) fn are_apart(text: &[u8], rows: &[AttributeSpan]) -> bool
    requires { RowsFit text.now (length text.now) rows.now }
    ensures { result ≡ true → has_repeat (rows_read text.now rows.now) ≡ false }
{
    if rows.len() < 2 {
        return true;
    }
    if rows.len() > 2 {
        return are_marked_apart(text, rows);
    }
    let name = text_between(text, rows[0].start, rows[0].middle);
    let other = text_between(text, rows[1].start, rows[1].middle);
    !is_same(other, name)
}

// As many rows as are compared each with each, which takes no memory. Tags have rarely more.
const FEW: usize = 8;

fn are_few_and_apart(text: &[u8], rows: &[AttributeSpan]) -> bool
    requires { RowsFit text.now (length text.now) rows.now }
    ensures { result ≡ true → has_repeat (rows_read text.now rows.now) ≡ false }
{
    if rows.len() > FEW {
        return false;
    }
    !has_pair(text, rows)
}

// Whether a name stands in two rows.
fn has_pair(text: &[u8], rows: &[AttributeSpan]) -> bool
    requires { RowsFit text.now (length text.now) rows.now }
    ensures { result ≡ has_repeat (rows_read text.now rows.now) }
{
    for i in 0..rows.len() {
        let name = text_between(text, rows[i].start, rows[i].middle);
        if is_name_of(text, &rows[i + 1..], name) {
            return true;
        }
    }
    false
}

// Whether one of the rows has the name.
fn is_name_of(text: &[u8], rows: &[AttributeSpan], name: &str) -> bool
    requires { RowsFit text.now (length text.now) rows.now }
    ensures { result ≡ row_has_name text.now rows.now name.now }
{
    for row in rows {
        if is_same(text_between(text, row.start, row.middle), name) {
            return true;
        }
    }
    false
}

fn is_same(a: &str, b: &str) -> bool
    ensures { result ≡ same a.now b.now }
{
    a == b
}

// The rows whose names stand in no row before them.
fn first_rows(
    alloc: Global,
    text: &[u8],
    rows: &[AttributeSpan],
) -> Result<Vec<AttributeSpan>, NoMemory>
    requires { RowsFit text.now (length text.now) rows.now }
    ensures read { IfOk result (λ kept. rows_read text.now kept.items ≡ firsts (rows_read text.now rows.now)) }
    ensures fit { IfOk result (λ kept. (limit : ℕ) → RowsFit text.now limit rows.now → RowsFit text.now limit kept.items) }
{
    let mut names = BTreeSet::new(alloc);
    let mut kept = Vec::new(alloc);
    for row in rows {
        if !add_name(&mut names, text_between(text, row.start, row.middle))? {
            continue;
        }
        if kept.push(*row).is_err() {
            return Err(NoMemory);
        }
    }
    Ok(kept)
}

// Adds a name, and tells whether it is new.
fn add_name<'a>(names: &mut BTreeSet<&'a str>, name: &'a str) -> Result<bool, NoMemory>
    ensures is_new { IfOk result (λ is_new. is_new ≡ not (has_text names.old name.now)) }
    ensures added { OnOk result ((text : List ℕ) → has_text names.new text ≡ (same name.now text || has_text names.old text)) }
{
    Ok(names.insert(name)?)
}
