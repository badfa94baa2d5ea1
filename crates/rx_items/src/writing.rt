//! The JSON of a page's items, as serde writes it: one description, of which the text and the value are made.
ghost use Rattle.std.specs.Prelude.{◌≡◌, ◌++◌, None, Some, IfOk, OnOk};
ghost use Rattle.serde_json.specs.View.{view};
ghost use Rattle.serde_json.specs.Written.{compact_text};
ghost use Rattle.rx_json.specs.Events.{Grows, data_events, each_events};
ghost use Rattle.rx_items.specs.Held.{OfRows};
ghost use Rattle.rx_items.specs.Named.{OfItem, OfPlain, OfRow, ending_events, events_behind, item_data, key_seen, keys_seen, name_seen, opening, properties_data, value_at, value_behind};
ghost use Rattle.rx_items.specs.Pages.{page_data, top_data, tops_data};

use crate::elements::{element_at, is_item_at, is_top_at, value_at};
use crate::kept::{Element, Kept};
use crate::named::{Named, by_name};
use crate::parts::{write_id, write_plain, write_types};
use crate::visits::NESTED;
use rx_json::{OUT_OF_MEMORY, text_of, value_of};
use rx_terms::NoMemory;
use serde::{Described, Serialize, Serializer};
use serde_json::Value;
use std::alloc::Global;

/// The items of a page, as they are written.
#[derive(Drop)]
struct PageItems<'a> {
    alloc: Global,
    kept: &'a Kept,
}

impl Described for PageItems<'_> {
    ghost writes = { λ page old new. OfRows page.kept.now (λ rows base. Grows old new (data_events (page_data rows base))) };
}

impl Serialize for PageItems<'_> {
    fn serialize<S: Serializer>(&self, out: &mut S) -> Result<(), S::Error> {
        write_page(self.alloc, self.kept, out)
    }
}

/// The text of a page's top-level items, in which an item that is too deep stands as `null`.
pub(crate) fn written(alloc: Global, kept: &Kept) -> Result<Vec<u8>, NoMemory>
    ensures { OfRows kept.now (λ rows base. IfOk result (λ text. text.items ≡ compact_text (page_data rows base))) }
{
    text_of(alloc, &PageItems { alloc, kept })
}

/// The value of which that is the text.
pub(crate) fn value(alloc: Global, kept: &Kept) -> Result<Value, NoMemory>
    ensures { OfRows kept.now (λ rows base. IfOk result (λ value. view value ≡ page_data rows base)) }
{
    value_of(alloc, &PageItems { alloc, kept })
}

/// Writes the object of the page.
fn write_page<S: Serializer>(alloc: Global, kept: &Kept, out: &mut S) -> Result<(), S::Error>
    ensures { OfRows kept.now (λ rows base. OnOk result (Grows (S.written out.old) (S.written out.new) (data_events (page_data rows base)))) }
{
    out.begin_map(None)?;
    out.key("items")?;
    out.begin_seq(None)?;
    write_tops(alloc, kept, out)?;
    out.end_seq()?;
    out.end_map()
}

/// Writes each top-level item.
fn write_tops<S: Serializer>(alloc: Global, kept: &Kept, out: &mut S) -> Result<(), S::Error>
    ensures { OfRows kept.now (λ rows base. OnOk result (Grows (S.written out.old) (S.written out.new) (each_events (tops_data rows base)))) }
{
    for place in 0..kept.rows.as_slice().len() {
        write_top(alloc, kept, place, out)?;
    }
    Ok(())
}

/// Writes an element where it is a top-level item.
fn write_top<S: Serializer>(
    alloc: Global,
    kept: &Kept,
    place: usize,
    out: &mut S,
) -> Result<(), S::Error>
    ensures { OfRow kept.now place (λ rows base e. OnOk result (Grows (S.written out.old) (S.written out.new) (each_events (top_data rows base e)))) }
{
    if !is_top_at(kept, place) {
        return Ok(());
    }
    let Some(element) = element_at(kept, place) else {
        return Ok(());
    };
    write_item(alloc, kept, NESTED, &element, place, out)
}

/// Writes the object of an item, in which so many items may nest, itself included.
#[cycle(write_item)]
fn write_item<S: Serializer>(
    alloc: Global,
    kept: &Kept,
    left: usize,
    element: &Element<'_>,
    place: usize,
    out: &mut S,
) -> Result<(), S::Error>
    ensures { OfItem kept.now place element.now (λ rows base root. OnOk result (Grows (S.written out.old) (S.written out.new) (data_events (item_data rows base left root)))) }
{
    if left == 0 {
        return out.unit();
    }
    out.begin_map(None)?;
    write_id(alloc, kept, element.item_id, out)?;
    out.key("properties")?;
    write_properties(alloc, kept, left - 1, element, place, out)?;
    write_types(&kept.words, &element.types, out)?;
    out.end_map()
}

/// Writes the object that has the properties of an item under their names.
#[cycle(write_item)]
fn write_properties<S: Serializer>(
    alloc: Global,
    kept: &Kept,
    left: usize,
    element: &Element<'_>,
    place: usize,
    out: &mut S,
) -> Result<(), S::Error>
    ensures { OfItem kept.now place element.now (λ rows base root. OnOk result (Grows (S.written out.old) (S.written out.new) (data_events (properties_data rows base left root)))) }
{
    let Ok(list) = by_name(alloc, kept, element, place) else {
        return Err(out.custom(OUT_OF_MEMORY));
    };
    out.begin_map(None)?;
    write_members(alloc, kept, left, list.as_slice(), out)?;
    out.end_map()
}

/// Writes each name once, with the list of its values.
#[cycle(write_item)]
fn write_members<S: Serializer>(
    alloc: Global,
    kept: &Kept,
    left: usize,
    list: &[Named<'_>],
    out: &mut S,
) -> Result<(), S::Error>
    ensures { OfRows kept.now (λ rows base. OnOk result (Grows (S.written out.old) (S.written out.new) (events_behind rows base left None (keys_seen list.now)))) }
{
    let mut before = None;
    for named in list {
        write_named(alloc, kept, left, before, named, out)?;
        before = Some(named.name);
    }
    end_values(before, out)
}

/// Writes a value, behind the values of the name before.
#[cycle(write_item)]
fn write_named<S: Serializer>(
    alloc: Global,
    kept: &Kept,
    left: usize,
    before: Option<&str>,
    named: &Named<'_>,
    out: &mut S,
) -> Result<(), S::Error>
    ensures { OfRows kept.now (λ rows base. OnOk result (Grows (S.written out.old) (S.written out.new) (value_behind rows base left (name_seen before.entry) (key_seen named.now)))) }
{
    open_values(before, named.name, out)?;
    write_value(alloc, kept, left, named.place, out)
}

/// Writes the value of the property at a place: an item, or a text.
#[cycle(write_item)]
fn write_value<S: Serializer>(
    alloc: Global,
    kept: &Kept,
    left: usize,
    place: usize,
    out: &mut S,
) -> Result<(), S::Error>
    ensures { OfRows kept.now (λ rows base. OnOk result (Grows (S.written out.old) (S.written out.new) (data_events (value_at rows base left place)))) }
{
    if !is_item_at(kept, place) {
        return write_plain_at(alloc, kept, place, out);
    }
    let Some(element) = element_at(kept, place) else {
        return out.unit();
    };
    write_item(alloc, kept, left, &element, place, out)
}

/// Writes the value of the property at a place that is no item, of which no element is made.
fn write_plain_at<S: Serializer>(
    alloc: Global,
    kept: &Kept,
    place: usize,
    out: &mut S,
) -> Result<(), S::Error>
    ensures { OfPlain kept.now place (λ rows base left. OnOk result (Grows (S.written out.old) (S.written out.new) (data_events (value_at rows base left place)))) }
{
    let Some(value) = value_at(kept, place) else {
        return out.unit();
    };
    write_plain(alloc, kept, value, out)
}

/// Before a value of this name, behind the values of the name before.
fn open_values<S: Serializer>(before: Option<&str>, name: &str, out: &mut S) -> Result<(), S::Error>
    ensures { OnOk result (Grows (S.written out.old) (S.written out.new) (opening (name_seen before.entry) name.now)) }
{
    match before {
        None => begin_values(name, out),
        Some(before) => next_values(before, name, out),
    }
}

fn begin_values<S: Serializer>(name: &str, out: &mut S) -> Result<(), S::Error>
    ensures { OnOk result (Grows (S.written out.old) (S.written out.new) (opening None name.now)) }
{
    out.key(name)?;
    out.begin_seq(None)
}

fn next_values<S: Serializer>(before: &str, name: &str, out: &mut S) -> Result<(), S::Error>
    ensures { OnOk result (Grows (S.written out.old) (S.written out.new) (opening (Some before.now) name.now)) }
{
    if before == name {
        return Ok(());
    }
    out.end_seq()?;
    begin_values(name, out)
}

/// Behind all values.
fn end_values<S: Serializer>(before: Option<&str>, out: &mut S) -> Result<(), S::Error>
    ensures { OnOk result (Grows (S.written out.old) (S.written out.new) (ending_events (name_seen before.entry))) }
{
    match before {
        None => Ok(()),
        Some(_before) => out.end_seq(),
    }
}
