//! A writer of the system as a sink.
ghost use Rattle.std.specs.Prelude.{◌≡◌, None};

use crate::counter::raise;
use crate::shelf::Failed;
use crate::sink::Sink;
use std::io::Write;
use std::marker::Model;

/// A writer such as standard output, which is flushed after each write. It tells nothing of what it holds. A contract
/// sees its count of faults, which is raised at each error of the system.
#[derive(Drop)]
pub struct StdSink<W: Write + Drop> {
    writer: W,
    faults: u64,
}

impl<W: Write + Drop> Model for StdSink<W> {
    ghost use Rattle.std.specs.Prelude.{ℕ};

    ghost Value = { ℕ };

    ghost view = { λ sink. sink.faults };
}

impl<W: Write + Drop> StdSink<W> {
    /// The writer as a sink, without a fault so far.
    pub fn new(writer: W) -> StdSink<W>
        ensures { result ≡ 0 }
    {
        StdSink { writer, faults: 0 }
    }
}

impl<W: Write + Drop> Sink for StdSink<W> {
    ghost held = { λ sink. None };

    ghost faults = { λ sink. sink };

    fn write(&mut self, piece: &[u8]) -> Result<usize, Failed> {
        match self.writer.write(piece) {
            Ok(count) if count > 0 || piece.is_empty() => match self.writer.flush() {
                Ok(()) => Ok(count),
                Err(_error) => {
                    self.faults = raise(self.faults);
                    Err(Failed)
                }
            },
            _ => {
                self.faults = raise(self.faults);
                Err(Failed)
            }
        }
    }
}
