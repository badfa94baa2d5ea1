//! The worked rows of the command, as data: each row of a file of data/ has the words of a command line, the files that
//! they name, and what must come of them, which is the exit status, what is written and what is said. A row goes through
//! the top call over a shelf and sinks in memory, its files in pieces of several sizes. What comes otherwise is printed,
//! and the last line counts the rows that hold.
#![tactic(auto)]

mod answers;
mod contents;
mod devices;
mod fronts;
mod rows;
mod turns;

use crate::rows::{Row, RowError};
use serde_json::Value;
use std::alloc::Global;
use std::process::ExitCode;
use std::{fs, io};

/// The files of rows, each about one topic.
const TOPICS: &[&str] = &[
    "characters",
    "checked",
    "context_files",
    "contexts",
    "copying",
    "devices",
    "failing",
    "faults",
    "fronts",
    "hanging",
    "items",
    "jsonld",
    "large",
    "lists",
    "literals",
    "many",
    "names",
    "nested",
    "omitted_ends",
    "references",
    "samples",
    "sizes",
    "turtle",
    "values",
    "words",
    "xhtml",
];

/// How many rows hold, and how many don't.
#[derive(Clone, Copy)]
struct Tally {
    held: u64,
    failed: u64,
}

impl Tally {
    fn count(self, holds: bool) -> Tally {
        let (held, failed) = if holds { (1, 0) } else { (0, 1) };
        Tally {
            held: self.held.saturating_add(held),
            failed: self.failed.saturating_add(failed),
        }
    }
}

/// The rows of the file of this topic.
fn read_topic(rt: &HostRuntime, topic: &str) -> Option<Value> {
    let name = format!(in rt.alloc(); "{topic}.json").ok()?;
    let bytes = fs::read(rt, name.as_str()).ok()?;
    Value::from_slice(rt.alloc(), bytes.as_slice()).ok()
}

/// What came of a row, in words.
fn verdict(tried: Result<bool, RowError>) -> &'static str {
    match tried {
        Ok(true) => "holds",
        Ok(false) => "gives something else",
        Err(RowError::Form) => "isn't a row",
        Err(RowError::NoMemory) => "wants more memory",
    }
}

/// Tries a row with its files in pieces of this size, and says so where it doesn't hold.
fn try_in_pieces(rt: &HostRuntime, topic: &str, row: &Row<'_>, piece: usize) -> io::Result<bool> {
    let tried = row.try_in_pieces(rt.alloc(), piece);
    let holds = matches!(tried, Ok(true));
    if !holds {
        let name = row.name();
        let verdict = verdict(tried);
        println!(rt; "{topic}: {name}, in pieces of {piece}: {verdict}")?;
    }
    Ok(holds)
}

/// Tries a row with its files in pieces of each of its sizes.
fn try_row(rt: &HostRuntime, topic: &str, row: &Row<'_>) -> io::Result<bool> {
    let mut holds = true;
    for piece in row.pieces() {
        holds = try_in_pieces(rt, topic, row, *piece)? && holds;
    }
    Ok(holds)
}

/// Tries the rows of a topic.
fn try_rows(rt: &HostRuntime, topic: &str, rows: &[Value], tally: Tally) -> io::Result<Tally> {
    let mut tally = tally;
    for value in rows {
        let holds = try_row(rt, topic, &Row { value })?;
        tally = tally.count(holds);
    }
    Ok(tally)
}

fn try_topic(rt: &HostRuntime, topic: &str, tally: Tally) -> io::Result<Tally> {
    let Some(value) = read_topic(rt, topic) else {
        println!(rt; "{topic}: no rows")?;
        return Ok(tally.count(false));
    };
    match value.as_array() {
        Some(rows) => try_rows(rt, topic, rows.as_slice(), tally),
        None => Ok(tally.count(false)),
    }
}

fn try_all(rt: &HostRuntime) -> io::Result<Tally> {
    let mut tally = Tally { held: 0, failed: 0 };
    for topic in TOPICS {
        tally = try_topic(rt, topic, tally)?;
    }
    let Tally { held, failed } = tally;
    println!(rt; "{held} rows hold, {failed} don't")?;
    Ok(tally)
}

fn main(rt: HostRuntime) -> ExitCode {
    match try_all(&rt) {
        Ok(tally) if tally.failed == 0 => ExitCode::from(0),
        _ => ExitCode::from(1),
    }
}
