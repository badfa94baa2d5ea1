//! The first row of each id.
ghost use Rattle.std.specs.Prelude.{◌≡◌, ℕ, List, Some, IfOk, OnOk, option_copied, if◌then◌else◌};
ghost use Rattle.rx_grammar.specs.Common.{list_any, same};
ghost use Rattle.rx_items.specs.Built.{OfNumbered};
ghost use Rattle.rx_items.specs.Held.{OfWord};
ghost use Rattle.rx_items.specs.Ids.{IsNoted, Looks, LooksFor, has_itemref, id_place, look_in};

use crate::rows::Row;
use crate::spans::{Span, text_of};
use rx_terms::NoMemory;
use rx_values::TextStore;
use std::alloc::Global;
use std::collections::BTreeMap;

/// The place of the first row with each id, where some row refers to ids; else they aren't looked at.
pub(crate) fn ids_of<'a>(
    alloc: Global,
    words: &'a TextStore,
    rows: &[Row],
) -> Result<BTreeMap<&'a str, usize>, NoMemory>
    ensures { OfNumbered words.now rows.now (λ ps. IfOk result (λ ids. LooksFor rows.now ids (look_in ps))) }
{
    if !refer(rows) {
        return Ok(BTreeMap::new(alloc));
    }
    first_ids(alloc, words, rows)
}

/// Whether some row has references.
fn refer(rows: &[Row]) -> bool
    ensures { result ≡ list_any has_itemref rows.now }
{
    for row in rows {
        if row.head.words.has_references {
            return true;
        }
    }
    false
}

/// The place of the first row with each id.
fn first_ids<'a>(
    alloc: Global,
    words: &'a TextStore,
    rows: &[Row],
) -> Result<BTreeMap<&'a str, usize>, NoMemory>
    ensures { OfNumbered words.now rows.now (λ ps. IfOk result (λ ids. Looks ids (look_in ps))) }
{
    let mut ids = BTreeMap::new(alloc);
    for place in (0..rows.len()).rev() {
        note_id(&mut ids, words, rows[place].head.words.id(), place)?;
    }
    Ok(ids)
}

/// Puts a row in the place of a later one with its id.
fn note_id<'a>(
    ids: &mut BTreeMap<&'a str, usize>,
    words: &'a TextStore,
    id: Option<Span>,
    place: usize,
) -> Result<(), NoMemory>
    ensures { OfWord words.now id (λ word. OnOk result (IsNoted ids.old word place ids.new)) }
{
    match id {
        Some(span) => put_id(ids, text_of(words, span), place),
        None => Ok(()),
    }
}

fn put_id<'a>(ids: &mut BTreeMap<&'a str, usize>, id: &'a str, place: usize) -> Result<(), NoMemory>
    ensures { OnOk result ((text : List ℕ) → id_place ids.new text ≡ (if same id.now text then Some place else id_place ids.old text)) }
{
    let _ = ids.insert(id, place)?;
    Ok(())
}

/// The place under a token.
pub(crate) fn place_under(ids: &BTreeMap<&str, usize>, token: &str) -> Option<usize>
    ensures { result ≡ id_place ids.now token.now }
{
    ids.get(token).copied()
}
