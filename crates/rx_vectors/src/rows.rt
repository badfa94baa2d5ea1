//! A row, and what comes of it.
use crate::answers::Answer;
use crate::contents::content_of;
use crate::devices::{shelf_of, sink_of, words_of};
use crate::fronts::tokens_of;
use crate::turns::{DEVICES, Device, Turn};
use rx_command::run;
use rx_ports::{MemShelf, MemSink};
use rx_terms::Text;
use serde_json::Value;
use std::alloc::Global;

/// Why a row can't be tried.
#[derive(Clone, Copy)]
pub(crate) enum RowError {
    /// It hasn't the members that a row has.
    Form,
    /// There was no memory.
    NoMemory,
}

/// A row: `name`, `words`, `files`, `status`, `written` and `said`; `whole` where its files come in pieces of one size
/// alone; `reads`, `writes` and `says` where a device behaves in its own way. `each_read`, `each_write` and `each_say`
/// tell how many calls of a device there are, each of which then fails in turn. Where the row has `fronts` its page,
/// `page.html`, is its only file, and ends too early in turn after each number of its bytes.
#[derive(Clone, Copy)]
pub(crate) struct Row<'a> {
    pub(crate) value: &'a Value,
}

/// What a row is called that tells no name.
const UNNAMED: &str = "a row without a name";

/// The sizes of the pieces, in bytes, in which a shelf gives files.
const PIECES: &[usize] = &[10_000, 1, 2, 3, 7];

impl Row<'_> {
    pub(crate) fn name(&self) -> &str {
        let Some(value) = self.value.get("name") else {
            return UNNAMED;
        };
        match value.as_str() {
            Some(name) => name,
            None => UNNAMED,
        }
    }

    /// The sizes of pieces that the row is tried with.
    pub(crate) fn pieces(&self) -> &'static [usize] {
        if self.value.get("whole").is_some() {
            return &PIECES[..1];
        }
        PIECES
    }

    /// Whether what comes of the row's words and files is what it says, in each of its turns.
    pub(crate) fn try_in_pieces(&self, alloc: Global, piece: usize) -> Result<bool, RowError> {
        if !self.try_turn(alloc, piece, Turn::Plain)? {
            return Ok(false);
        }
        for device in DEVICES {
            if !self.try_failures(alloc, piece, *device)? {
                return Ok(false);
            }
        }
        match self.value.get("fronts") {
            Some(fronts) => self.try_fronts(alloc, piece, fronts),
            None => Ok(true),
        }
    }

    /// Where the row says how many calls of the device there are: each of them fails in turn, and then the one behind
    /// them, which doesn't come.
    fn try_failures(&self, alloc: Global, piece: usize, device: Device) -> Result<bool, RowError> {
        if self.value.get(device.failures()).is_none() {
            return Ok(true);
        }
        let Some(calls) = device.calls(self.value) else {
            return Err(RowError::Form);
        };
        for done in 0..calls.saturating_add(1) {
            if !self.try_turn(alloc, piece, Turn::Failing(device, done))? {
                return Ok(false);
            }
        }
        Ok(true)
    }

    /// The page ends after each number of its bytes.
    fn try_fronts(&self, alloc: Global, piece: usize, fronts: &Value) -> Result<bool, RowError> {
        let tokens = tokens_of(alloc, fronts)?;
        let tried = self.try_cuts(alloc, piece, tokens.as_slice());
        drop(tokens);
        tried
    }

    fn try_cuts(&self, alloc: Global, piece: usize, tokens: &[u64]) -> Result<bool, RowError> {
        for (length, token) in tokens.iter().enumerate() {
            let token = *token;
            if !self.try_turn(alloc, piece, Turn::Cut { length, token })? {
                return Ok(false);
            }
        }
        Ok(tokens.len() == self.page_length(alloc)?)
    }

    /// How many bytes the page has of a row of fronts.
    fn page_length(&self, alloc: Global) -> Result<usize, RowError> {
        let page = self
            .value
            .get("files")
            .and_then(|files| files.get("page.html"));
        match page {
            Some(page) => Ok(content_of(alloc, page)?.len()),
            None => Err(RowError::Form),
        }
    }

    fn try_turn(&self, alloc: Global, piece: usize, turn: Turn) -> Result<bool, RowError> {
        let answer = Answer::of(alloc, self.value, turn)?;
        let found = match self.found(alloc, piece, turn) {
            Ok(found) => found,
            Err(error) => {
                drop(answer);
                return Err(error);
            }
        };
        let holds = answer.is(found.status, found.out.held(), found.err.held());
        drop(found);
        drop(answer);
        Ok(holds)
    }

    /// What comes of the words and files.
    fn found(&self, alloc: Global, piece: usize, turn: Turn) -> Result<Found, RowError> {
        let mut found = Found {
            status: 255,
            out: sink_of(alloc, self.value, Device::Writes, turn)?,
            err: sink_of(alloc, self.value, Device::Says, turn)?,
        };
        match self.run(alloc, piece, turn, &mut found) {
            Ok(()) => Ok(found),
            Err(error) => {
                drop(found);
                Err(error)
            }
        }
    }

    fn run(
        &self,
        alloc: Global,
        piece: usize,
        turn: Turn,
        found: &mut Found,
    ) -> Result<(), RowError> {
        let words = words_of(alloc, self.value.get("words"))?;
        let Ok(mut shelf) = shelf_of(alloc, self.value, piece, turn) else {
            drop(words);
            return Err(RowError::Form);
        };
        found.run(alloc, words.as_slice(), &mut shelf);
        drop(shelf);
        drop(words);
        Ok(())
    }
}

/// What comes of a row.
#[derive(Drop)]
struct Found {
    status: u8,
    out: MemSink,
    err: MemSink,
}

impl Found {
    fn run(&mut self, alloc: Global, words: &[Text], shelf: &mut MemShelf) {
        let status = run(alloc, words, shelf, &mut self.out, &mut self.err);
        self.status = status.code();
    }
}
