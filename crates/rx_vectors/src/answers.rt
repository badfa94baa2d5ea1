//! What has to come of a row.
use crate::contents::content_of;
use crate::devices::taken_by;
use crate::rows::RowError;
use crate::turns::{Device, Turn};
use serde_json::Value;
use std::alloc::Global;

/// The exit status, what is written, and what is said.
#[derive(Drop)]
pub(crate) struct Answer {
    status: u64,
    written: Vec<u8>,
    said: Vec<u8>,
}

impl Answer {
    /// What has to come of the row in this turn.
    pub(crate) fn of(alloc: Global, row: &Value, turn: Turn) -> Result<Answer, RowError> {
        match turn {
            Turn::Plain => Answer::told_by(alloc, row),
            Turn::Failing(device, done) => {
                let mut answer = Answer::told_by(alloc, row)?;
                answer.fail(row, device, done);
                Ok(answer)
            }
            Turn::Cut { length, token } => Answer::unended(alloc, length, token),
        }
    }

    /// What the row itself says.
    fn told_by(alloc: Global, row: &Value) -> Result<Answer, RowError> {
        let Some(status) = row.get("status").and_then(Value::as_u64) else {
            return Err(RowError::Form);
        };
        let written = member(alloc, row, "written")?;
        match member(alloc, row, "said") {
            Ok(said) => Ok(Answer {
                status,
                written,
                said,
            }),
            Err(error) => {
                drop(written);
                Err(error)
            }
        }
    }

    /// What comes in its place where the device fails after so many of its calls. Where these are all there are, nothing
    /// fails.
    fn fail(&mut self, row: &Value, device: Device, done: u64) {
        if done >= device.calls(row).unwrap_or(0) {
            return;
        }
        match device {
            Device::Reads => {
                self.status = 3;
                self.written.clear();
                self.said.clear();
            }
            Device::Writes => {
                self.status = 4;
                self.written.truncate(taken_by(row, device, done));
                self.said.clear();
            }
            Device::Says => self.said.truncate(taken_by(row, device, done)),
        }
    }

    /// What comes of a page that ends too early.
    fn unended(alloc: Global, length: usize, token: u64) -> Result<Answer, RowError> {
        match format!(in alloc; "refused: Unended at byte {length} in token {token}\n") {
            Ok(line) => Ok(Answer {
                status: 1,
                written: Vec::new(alloc),
                said: line.into_bytes(),
            }),
            Err(_refused) => Err(RowError::NoMemory),
        }
    }

    /// Whether it is this that came.
    pub(crate) fn is(&self, status: u8, written: &[u8], said: &[u8]) -> bool {
        self.status == u64::from(status)
            && self.written.as_slice() == written
            && self.said.as_slice() == said
    }
}

/// The bytes that the row's member of this name tells.
fn member(alloc: Global, row: &Value, name: &str) -> Result<Vec<u8>, RowError> {
    match row.get(name) {
        Some(value) => content_of(alloc, value),
        None => Err(RowError::Form),
    }
}
