//! A sink of bytes.
ghost use Rattle.std.specs.Prelude.{◌≡◌, ◌≤◌, ℕ, List, IfOk, OnOk, OnErr, Option};
ghost use Rattle.rx_ports.specs.Counts.{Rose};
ghost use Rattle.rx_ports.specs.Shelves.{WhereKnown, SinkTakes, IsProgress};

use crate::shelf::Failed;

/// Where bytes are written.
///
/// A contract sees the bytes that the sink holds, where it tells them, and a count of faults, which never falls, and
/// rises only in a call that fails.
/// Whether it tells what it holds never changes.
pub trait Sink {
    ghost held: { Self → Option (List ℕ) };

    ghost faults: { Self → ℕ };

    /// Takes a front of the piece, and answers how many bytes: one at least, where the piece has any. It fails only
    /// where the count of faults rose; then nothing was taken. A device that takes nothing is a fault.
    fn write(&mut self, piece: &[u8]) -> Result<usize, Failed>
        ensures bound { IfOk result (IsProgress piece.now) }
        ensures held { WhereKnown (SinkTakes piece.now result) (held self.old) (held self.new) }
        ensures later { faults self.old ≤ faults self.new }
        ensures steady { OnOk result (faults self.new ≡ faults self.old) }
        ensures cause { OnErr result (Rose (faults self.old) (faults self.new)) };
}
