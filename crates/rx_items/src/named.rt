//! The properties of an item under each of their names, by name.
ghost use Rattle.rx_terms.specs.Common.{encode_utf8_all, IsSortedBy, IsStableBy, Chars};
ghost use Rattle.std.specs.Prelude.{◌≡◌, ◌∷◌, ◌++◌, [], map, flat_map, IfOk, OnOk};
ghost use Rattle.rx_items.specs.Rows.{properties_in};
ghost use Rattle.rx_items.specs.Showing.{ShowsPart};
ghost use Rattle.rx_items.specs.Held.{OfRows};
ghost use Rattle.rx_items.specs.Named.{ByName, OfItem, is_name_before, keyed, keys_at, keys_seen, name_key, name_keys};

use crate::elements::names_at;
use crate::gathering::{listed, properties};
use crate::kept::{Element, Kept, Tokens};
use crate::spans::{Span, text_of};
use rx_terms::{NoMemory, Text};
use rx_values::TextStore;
use std::alloc::Global;

/// A property under one of its names.
#[derive(Clone, Copy)]
pub(crate) struct Named<'a> {
    pub(crate) name: &'a str,
    pub(crate) place: usize,
}

/// The properties of an item under each of their names, in byte order of the names, and those of one name in tree order.
pub(crate) fn by_name<'a>(
    alloc: Global,
    kept: &'a Kept,
    element: &Element<'_>,
    place: usize,
) -> Result<Vec<Named<'a>>, NoMemory>
    ensures { OfItem kept.now place element.now (λ rows base root. IfOk result (λ list. ByName (name_keys (properties_in rows root)) list.items)) }
{
    let mut list = in_tree_order(alloc, kept, element, place)?;
    sort(&mut list)?;
    Ok(list)
}

fn sort(list: &mut Vec<Named<'_>>) -> Result<(), NoMemory>
    ensures rise { OnOk result (IsSortedBy is_name_before list.new.items) }
    ensures keep { OnOk result (IsStableBy is_name_before list.old.items list.new.items) }
{
    list.sort_by(|a, b| a.name.cmp(b.name))?;
    Ok(())
}

/// The same in tree order.
fn in_tree_order<'a>(
    alloc: Global,
    kept: &'a Kept,
    element: &Element<'_>,
    place: usize,
) -> Result<Vec<Named<'a>>, NoMemory>
    ensures { OfItem kept.now place element.now (λ rows base root. IfOk result (λ list. keys_seen list.items ≡ name_keys (properties_in rows root))) }
{
    // most items refer to no element, and then the places stand in a row already
    match listed(kept.members.as_slice(), element.own, element.others, place) {
        Some(list) => named_at(alloc, kept, list),
        None => named_sorted(alloc, kept, element, place),
    }
}

/// The same, where the places have to be sorted first.
fn named_sorted<'a>(
    alloc: Global,
    kept: &'a Kept,
    element: &Element<'_>,
    place: usize,
) -> Result<Vec<Named<'a>>, NoMemory>
    ensures { OfItem kept.now place element.now (λ rows base root. IfOk result (λ list. keys_seen list.items ≡ name_keys (properties_in rows root))) }
{
    let list = properties(
        alloc,
        kept.members.as_slice(),
        element.own,
        element.others,
        place,
    )?;
    named_at(alloc, kept, list.as_slice())
}

/// The elements at these places under each of their names.
fn named_at<'a>(alloc: Global, kept: &'a Kept, places: &[usize]) -> Result<Vec<Named<'a>>, NoMemory>
    ensures { OfRows kept.now (λ rows base. IfOk result (λ list. keys_seen list.items ≡ flat_map (keys_at rows) places.now)) }
{
    let mut list = Vec::with_capacity(alloc, places.len())?;
    for place in places {
        add_names(&mut list, kept, *place)?;
    }
    Ok(list)
}

/// Adds the element at a place under each of its names.
fn add_names<'a>(list: &mut Vec<Named<'a>>, kept: &'a Kept, place: usize) -> Result<(), NoMemory>
    ensures { OfRows kept.now (λ rows base. OnOk result (keys_seen list.new.items ≡ keys_seen list.old.items ++ keys_at rows place)) }
{
    let Some(names) = names_at(kept, place) else {
        return Ok(());
    };
    match names {
        Tokens::One(span) => add_name(list, token_at(&kept.words, span), place),
        Tokens::Many(names) => add_each(list, names, place),
    }
}

fn add_each<'a>(list: &mut Vec<Named<'a>>, names: &'a [Text], place: usize) -> Result<(), NoMemory>
    ensures { OnOk result (keys_seen list.new.items ≡ keys_seen list.old.items ++ map (name_key place) names.now) }
{
    for name in names {
        add_name(list, name.as_str(), place)?;
    }
    Ok(())
}

fn add_name<'a>(list: &mut Vec<Named<'a>>, name: &'a str, place: usize) -> Result<(), NoMemory>
    ensures { OnOk result (keys_seen list.new.items ≡ keys_seen list.old.items ++ keyed name.now place ∷ []) }
{
    list.push(Named { name, place })?;
    Ok(())
}

/// The token that stands there in what is kept of tags.
fn token_at(words: &TextStore, span: Span) -> &str
    ensures { (token : Chars) → ShowsPart words.now span token → result.now ≡ encode_utf8_all token }
{
    text_of(words, span)
}
