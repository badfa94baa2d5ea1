//! A text that is kept whole.
ghost use Rattle.std.specs.Prelude.{◌≡◌, [], IfOk, Some};

use rx_ports::{Failed, Sink};
use rx_terms::NoMemory;
use std::alloc::Global;
use std::marker::Model;

/// A sink that keeps all bytes, and fails where there is no memory for more.
#[derive(Drop)]
pub struct Whole {
    bytes: Vec<u8>,
    faults: u64,
}

impl Model for Whole {
    ghost use Rattle.rx_pieces.specs.Kept.{KeptText};

    ghost Value = { KeptText };

    ghost view = { λ whole. record { held = whole.bytes.items; faults = whole.faults } };
}

impl Whole {
    /// A sink that holds nothing, with room for so many bytes at first.
    pub fn with_room(alloc: Global, room: usize) -> Result<Whole, NoMemory>
        ensures { IfOk result (λ whole. whole.held ≡ []) }
    {
        let bytes = Vec::with_capacity(alloc, room)?;
        Ok(Whole { bytes, faults: 0 })
    }

    /// The bytes that it holds.
    pub fn into_bytes(self) -> Vec<u8>
        ensures { result.items ≡ self.held }
    {
        self.bytes
    }
}

impl Sink for Whole {
    ghost held = { λ whole. Some whole.held };

    ghost faults = { λ whole. whole.faults };

    fn write(&mut self, piece: &[u8]) -> Result<usize, Failed> {
        match self.bytes.extend_from_slice(piece) {
            Ok(()) => Ok(piece.len()),
            Err(_error) => {
                self.faults = self.faults.saturating_add(1);
                Err(Failed)
            }
        }
    }
}
