//! The contents of files, as rows tell them: a text; or a list whose items are texts, bytes as numbers, pairs of a text and
//! how often it comes, and triples of a text, a number and how often it comes with that number and those behind it: `%` stands
//! for the number, and `$` for the next one.
use crate::rows::RowError;
use serde_json::Value;
use std::alloc::{AllocError, Global};

/// The bytes that the value tells.
pub(crate) fn content_of(alloc: Global, value: &Value) -> Result<Vec<u8>, RowError> {
    let mut bytes = Vec::new(alloc);
    let pushed = match value.as_array() {
        Some(items) => push_items(alloc, &mut bytes, items.as_slice()),
        None => push_item(alloc, &mut bytes, value),
    };
    match pushed {
        Ok(()) => Ok(bytes),
        Err(error) => Err(error),
    }
}

fn push_items(alloc: Global, bytes: &mut Vec<u8>, items: &[Value]) -> Result<(), RowError> {
    for item in items {
        push_item(alloc, bytes, item)?;
    }
    Ok(())
}

fn push_item(alloc: Global, bytes: &mut Vec<u8>, item: &Value) -> Result<(), RowError> {
    if let Some(text) = item.as_str() {
        return push_text(bytes, text);
    }
    if let Some(number) = item.as_u64() {
        return push_byte(bytes, number);
    }
    match item.as_array() {
        Some(repeated) => push_repeated(alloc, bytes, repeated.as_slice()),
        None => Err(RowError::Form),
    }
}

fn push_text(bytes: &mut Vec<u8>, text: &str) -> Result<(), RowError> {
    match bytes.extend_from_slice(text.as_bytes()) {
        Ok(()) => Ok(()),
        Err(_refused) => Err(RowError::NoMemory),
    }
}

fn push_byte(bytes: &mut Vec<u8>, number: u64) -> Result<(), RowError> {
    let Ok(byte) = u8::try_from(number) else {
        return Err(RowError::Form);
    };
    match bytes.push(byte) {
        Ok(()) => Ok(()),
        Err(_refused) => Err(RowError::NoMemory),
    }
}

/// A text, so many times, or with so many numbers.
fn push_repeated(alloc: Global, bytes: &mut Vec<u8>, list: &[Value]) -> Result<(), RowError> {
    match list {
        [text, count] => push_pair(bytes, text, count),
        [text, first, count] => push_triple(alloc, bytes, text, first, count),
        _ => Err(RowError::Form),
    }
}

fn push_pair(bytes: &mut Vec<u8>, text: &Value, count: &Value) -> Result<(), RowError> {
    let (Some(text), Some(count)) = (text.as_str(), count.as_u64()) else {
        return Err(RowError::Form);
    };
    for _ in 0..count {
        push_text(bytes, text)?;
    }
    Ok(())
}

fn push_triple(
    alloc: Global,
    bytes: &mut Vec<u8>,
    text: &Value,
    first: &Value,
    count: &Value,
) -> Result<(), RowError> {
    let (Some(text), Some(first), Some(count)) = (text.as_str(), first.as_u64(), count.as_u64())
    else {
        return Err(RowError::Form);
    };
    for number in first..first.saturating_add(count) {
        push_numbered(alloc, bytes, text, number)?;
    }
    Ok(())
}

/// The text with a number in place of each `%`, and the next one in place of each `$`.
fn push_numbered(
    alloc: Global,
    bytes: &mut Vec<u8>,
    text: &str,
    number: u64,
) -> Result<(), RowError> {
    let Ok(this) = digits(alloc, number) else {
        return Err(RowError::NoMemory);
    };
    let Ok(next) = digits(alloc, number.saturating_add(1)) else {
        drop(this);
        return Err(RowError::NoMemory);
    };
    let pushed = push_filled(bytes, text, this.as_str(), next.as_str());
    drop(this);
    drop(next);
    pushed
}

fn digits(alloc: Global, number: u64) -> Result<String, AllocError> {
    format!(in alloc; "{number}")
}

fn push_filled(bytes: &mut Vec<u8>, text: &str, this: &str, next: &str) -> Result<(), RowError> {
    for byte in text.as_bytes() {
        match byte {
            b'%' => push_text(bytes, this)?,
            b'$' => push_text(bytes, next)?,
            _ => push_byte(bytes, u64::from(*byte))?,
        }
    }
    Ok(())
}
