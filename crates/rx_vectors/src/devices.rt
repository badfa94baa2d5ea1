//! The words of a row, its files, and the devices over which it is tried.
ghost use Rattle.std.specs.Prelude.{◌≤◌};

use crate::contents::content_of;
use crate::rows::RowError;
use crate::turns::{Device, Turn};
use rx_ports::{FileList, MemShelf, MemSink};
use rx_terms::Text;
use serde_json::Value;
use std::alloc::Global;

/// More bytes than any row writes.
const ROOM: usize = 2_000_000;

/// The words of a list of texts, in which two words that come many times stand as a list of both and their count.
pub(crate) fn words_of(alloc: Global, value: Option<&Value>) -> Result<Vec<Text>, RowError> {
    let Some(list) = value.and_then(Value::as_array) else {
        return Err(RowError::Form);
    };
    let mut words = Vec::new(alloc);
    match push_words(alloc, &mut words, list.as_slice()) {
        Ok(()) => Ok(words),
        Err(error) => {
            drop(words);
            Err(error)
        }
    }
}

fn push_words(alloc: Global, words: &mut Vec<Text>, list: &[Value]) -> Result<(), RowError> {
    for value in list {
        match value.as_array() {
            Some(repeated) => push_repeated(alloc, words, repeated.as_slice())?,
            None => push_word(alloc, words, value)?,
        }
    }
    Ok(())
}

/// Two words, so many times.
fn push_repeated(alloc: Global, words: &mut Vec<Text>, list: &[Value]) -> Result<(), RowError> {
    let [first, second, count] = list else {
        return Err(RowError::Form);
    };
    let Some(count) = count.as_u64() else {
        return Err(RowError::Form);
    };
    for _ in 0..count {
        push_word(alloc, words, first)?;
        push_word(alloc, words, second)?;
    }
    Ok(())
}

fn push_word(alloc: Global, words: &mut Vec<Text>, value: &Value) -> Result<(), RowError> {
    let Some(text) = value.as_str() else {
        return Err(RowError::Form);
    };
    let Ok(word) = Text::of(alloc, text) else {
        return Err(RowError::NoMemory);
    };
    match words.push(word) {
        Ok(()) => Ok(()),
        Err(refused) => {
            drop(refused);
            Err(RowError::NoMemory)
        }
    }
}

/// The shelf of the row's files. Its `reads` says how many bytes a read gives at most, where not the piece's, and which
/// call fails.
pub(crate) fn shelf_of(
    alloc: Global,
    row: &Value,
    piece: usize,
    turn: Turn,
) -> Result<MemShelf, RowError> {
    let reads = row.get(Device::Reads.behavior());
    let failing = failing(alloc, reads, turn.failing_call(Device::Reads))?;
    match files_of(alloc, row.get("files"), turn.length()) {
        Ok(files) => Ok(MemShelf::new(files, chunk(reads, piece), failing)),
        Err(error) => {
            drop(failing);
            Err(error)
        }
    }
}

/// A sink with room for all that a row writes or says. Where the row tells how it behaves, that says how many bytes a
/// write takes at most, and which call fails.
pub(crate) fn sink_of(
    alloc: Global,
    row: &Value,
    device: Device,
    turn: Turn,
) -> Result<MemSink, RowError> {
    let writes = row.get(device.behavior());
    let failing = failing(alloc, writes, turn.failing_call(device))?;
    match MemSink::with_room(alloc, ROOM, chunk(writes, ROOM), failing) {
        Ok(sink) => Ok(sink),
        Err(_no_memory) => Err(RowError::NoMemory),
    }
}

/// The most bytes that the row's sink has taken after so many writes.
pub(crate) fn taken_by(row: &Value, device: Device, writes: u64) -> usize {
    let chunk = chunk(row.get(device.behavior()), ROOM);
    usize::try_from(writes)
        .unwrap_or(ROOM)
        .saturating_mul(chunk)
}

/// The files of the row, of which only so many bytes are there where a length is given.
fn files_of(
    alloc: Global,
    value: Option<&Value>,
    length: Option<usize>,
) -> Result<FileList, RowError> {
    let Some(members) = value.and_then(Value::as_object) else {
        return Err(RowError::Form);
    };
    let mut files = FileList::new(alloc);
    for (name, value) in members.iter() {
        if let Err(error) = push_file(alloc, &mut files, name.as_str(), value, length) {
            drop(files);
            return Err(error);
        }
    }
    Ok(files)
}

fn push_file(
    alloc: Global,
    files: &mut FileList,
    name: &str,
    value: &Value,
    length: Option<usize>,
) -> Result<(), RowError> {
    let mut content = content_of(alloc, value)?;
    if let Some(length) = length {
        content.truncate(length);
    }
    match files.push(name, content.as_slice()) {
        Ok(()) => Ok(()),
        Err(_no_memory) => Err(RowError::NoMemory),
    }
}

/// How many bytes a call of a device takes at most.
fn chunk(device: Option<&Value>, standard: usize) -> usize
    ensures { 1 ≤ result }
{
    match number_at(device, "chunk") {
        Some(number) => usize::try_from(number).unwrap_or(standard).max(1),
        None => standard.max(1),
    }
}

/// The numbers of the calls of a device that fail: of the turn's, where there is one, else of the row's own.
fn failing(alloc: Global, device: Option<&Value>, call: Option<u64>) -> Result<Vec<u64>, RowError> {
    let mut numbers = Vec::new(alloc);
    if let Some(number) = call.or(number_at(device, "fails")) {
        if numbers.push(number).is_err() {
            return Err(RowError::NoMemory);
        }
    }
    Ok(numbers)
}

fn number_at(device: Option<&Value>, name: &str) -> Option<u64> {
    device?.get(name)?.as_u64()
}
