//! What stands beside an item's properties, and values that are no items, as serde writes them.
ghost use Rattle.std.specs.Prelude.{◌∷◌, [], slice_get, unwrap_or, map, OnOk};
ghost use Rattle.rx_rdfa.specs.Common.{chars, resolved};
ghost use Rattle.serde_json.specs.Data.{no_members};
ghost use Rattle.rx_json.specs.Events.{Grows, data_events, each_events, members_events};
ghost use Rattle.rx_microdata.specs.Facts.{said};
ghost use Rattle.rx_microdata.specs.Json.{with_id, with_types};
ghost use Rattle.rx_items.specs.Held.{OfWord};
ghost use Rattle.rx_items.specs.Objects.{OfTokens, OfValue};
ghost use Rattle.rx_json.specs.Plain.{string_of};

use crate::kept::{Kept, Tokens};
use crate::rows::RowValue;
use crate::spans::{Span, text_of};
use rx_json::OUT_OF_MEMORY;
use rx_refs::Base;
use rx_terms::Text;
use rx_values::TextStore;
use serde::Serializer;
use std::alloc::Global;

/// Writes the member of an item's id, where it has one.
pub(crate) fn write_id<S: Serializer>(
    alloc: Global,
    kept: &Kept,
    item_id: Option<Span>,
    out: &mut S,
) -> Result<(), S::Error>
    ensures { OfWord kept.now.words item_id (λ id. OnOk result (Grows (S.written out.old) (S.written out.new) (members_events (with_id kept.now.base id no_members)))) }
{
    let Some(span) = item_id else {
        return Ok(());
    };
    out.key("id")?;
    let reference = text_of(&kept.words, span);
    write_reference(alloc, &kept.base, reference, out)
}

/// Writes the member of an item's types, where it has any.
pub(crate) fn write_types<S: Serializer>(
    words: &TextStore,
    types: &Tokens<'_>,
    out: &mut S,
) -> Result<(), S::Error>
    ensures { OfTokens words.now types.now (λ texts. OnOk result (Grows (S.written out.old) (S.written out.new) (members_events (with_types texts no_members)))) }
{
    match types {
        Tokens::One(span) => write_type(text_of(words, *span), out),
        Tokens::Many(list) => write_several(list, out),
    }
}

fn write_type<S: Serializer>(text: &str, out: &mut S) -> Result<(), S::Error>
    ensures { OnOk result (Grows (S.written out.old) (S.written out.new) (members_events (with_types (chars text.now ∷ []) no_members))) }
{
    out.key("type")?;
    out.begin_seq(None)?;
    write_text(text, out)?;
    out.end_seq()
}

fn write_several<S: Serializer>(texts: &[Text], out: &mut S) -> Result<(), S::Error>
    ensures { OnOk result (Grows (S.written out.old) (S.written out.new) (members_events (with_types texts.now no_members))) }
{
    if texts.is_empty() {
        return Ok(());
    }
    out.key("type")?;
    out.begin_seq(None)?;
    write_texts(texts, out)?;
    out.end_seq()
}

/// Writes each text as a string.
fn write_texts<S: Serializer>(texts: &[Text], out: &mut S) -> Result<(), S::Error>
    ensures { OnOk result (Grows (S.written out.old) (S.written out.new) (each_events (map string_of texts.now))) }
{
    for text in texts {
        write_text(text.as_str(), out)?;
    }
    Ok(())
}

/// Writes the value of an element that is no item.
pub(crate) fn write_plain<S: Serializer>(
    alloc: Global,
    kept: &Kept,
    value: RowValue,
    out: &mut S,
) -> Result<(), S::Error>
    ensures { OfValue kept.now value (λ v. OnOk result (Grows (S.written out.old) (S.written out.new) (data_events (string_of (said kept.now.base v))))) }
{
    match value {
        RowValue::Empty => write_text("", out),
        RowValue::Written(span) => write_text(text_of(&kept.words, span), out),
        RowValue::Reference(span) => {
            write_reference(alloc, &kept.base, text_of(&kept.words, span), out)
        }
        RowValue::Running(_from) => write_text("", out),
        RowValue::Run(span) => write_text(text_of(&kept.text, span), out),
        RowValue::ChildText(number) => write_own(kept.times.as_slice(), number, out),
    }
}

/// Writes the child text content of a `time`, by its number.
fn write_own<S: Serializer>(times: &[TextStore], number: usize, out: &mut S) -> Result<(), S::Error>
    ensures { OnOk result (Grows (S.written out.old) (S.written out.new) (data_events (string_of (unwrap_or (slice_get times.now number) [])))) }
{
    match times.get(number) {
        Some(time) => write_text(time.since(0), out),
        None => write_text("", out),
    }
}

/// Writes what a reference is resolved to.
fn write_reference<S: Serializer>(
    alloc: Global,
    base: &Base,
    reference: &str,
    out: &mut S,
) -> Result<(), S::Error>
    ensures { OnOk result (Grows (S.written out.old) (S.written out.new) (data_events (string_of (resolved base.now (chars reference.now))))) }
{
    let Ok(iri) = base.resolve(alloc, reference) else {
        return Err(out.custom(OUT_OF_MEMORY));
    };
    write_text(iri.as_str(), out)
}

/// Writes the text as a string.
fn write_text<S: Serializer>(text: &str, out: &mut S) -> Result<(), S::Error>
    ensures { OnOk result (Grows (S.written out.old) (S.written out.new) (data_events (string_of (chars text.now)))) }
{
    out.str(text)
}
