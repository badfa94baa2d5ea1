//! A sink in memory.
ghost use Rattle.std.specs.Prelude.{◌≡◌, ◌<◌, ◌≤◌, IfOk, OnOk, OnErr, Some};
ghost use Rattle.rx_ports.specs.Counts.{Rose, count_raised};
ghost use Rattle.rx_ports.specs.Shelves.{WhereKnown, SinkTakes, IsProgress};
ghost use Rattle.rx_ports.specs.MemSink.{MemorySink, new_sink, after_write, write_gives};

use crate::counter::raise;
use crate::shelf::Failed;
use crate::sink::Sink;
use rx_terms::NoMemory;
use std::alloc::Global;
use std::marker::Model;

/// A sink in memory of so much room, which fails when it is told to. A contract sees all of it.
///
/// Writes are numbered from 1, and the number stays at 2^64 - 1 once it is reached. A write of a non-empty piece for
/// which no room is left fails too. No write takes memory.
#[derive(Drop)]
pub struct MemSink {
    bytes: Vec<u8>,
    room: usize,
    chunk: usize,
    failing: Vec<u64>,
    calls: u64,
    faults: u64,
}

impl Model for MemSink {
    ghost use Rattle.std.specs.Prelude.{◌≤◌, ◌<◌, ◌^◌, ◌+◌, vec_len, vec_capacity};
    ghost use Rattle.rx_ports.specs.MemSink.{MemorySink};

    ghost Value = { MemorySink };

    ghost view = { λ s. record {
      held = s.bytes.items;
      room = s.room;
      chunk = s.chunk;
      failing = s.failing.items;
      calls = s.calls;
      faults = s.faults;
    } };

    ghost invariant = { λ s. (vec_len s.bytes + s.room ≤ vec_capacity s.bytes) × (0 < s.chunk) };
}

impl MemSink {
    /// An empty sink with room for so many bytes, which takes at most `chunk` bytes a write, and whose writes of these
    /// numbers fail.
    pub fn with_room(
        alloc: Global,
        room: usize,
        chunk: usize,
        failing: Vec<u64>,
    ) -> Result<MemSink, NoMemory>
        requires { 0 < chunk }
        ensures { IfOk result (λ sink. sink ≡ new_sink room chunk failing.items) }
    {
        let bytes = Vec::with_capacity(alloc, room)?;
        Ok(MemSink {
            bytes,
            room,
            chunk,
            failing,
            calls: 0,
            faults: 0,
        })
    }

    /// The bytes that were taken so far.
    pub fn held(&self) -> &[u8]
        ensures { result.now ≡ self.now.held }
    {
        self.bytes.as_slice()
    }
}

impl Sink for MemSink {
    ghost held = { λ s. Some s.held };

    ghost faults = { λ s. s.faults };

    fn write(&mut self, piece: &[u8]) -> Result<usize, Failed>
        ensures result { result ≡ write_gives self.old piece.now }
        ensures state { self.new ≡ after_write self.old piece.now }
        ensures bound { IfOk result (IsProgress piece.now) }
        ensures held { WhereKnown (SinkTakes piece.now result) (Some self.old.held) (Some self.new.held) }
        ensures later { self.old.faults ≤ self.new.faults }
        ensures steady { OnOk result (self.new.faults ≡ self.old.faults) }
        ensures cause { OnErr result (Rose self.old.faults self.new.faults) }
    {
        self.calls = raise(self.calls);
        let listed = self.failing.contains(&self.calls);
        if listed || (self.room == 0 && !piece.is_empty()) {
            self.faults = raise(self.faults);
            return Err(Failed);
        }
        let count = piece.len().min(self.chunk).min(self.room);
        match self.bytes.extend_from_slice(&piece[..count]) {
            Ok(()) => {
                self.room -= count;
                Ok(count)
            }
            Err(_error) => unreachable!(),
        }
    }
}
