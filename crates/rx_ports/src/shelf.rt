//! A shelf of files.
ghost use Rattle.std.specs.Prelude.{◌≡◌, ◌≤◌, ◌⊎◌, ℕ, IfOk, OnOk, OnErr, Option, length};
ghost use Rattle.rx_ports.specs.Counts.{Rose};
ghost use Rattle.rx_ports.specs.Shelves.{ShelfContent, WhereKnown, Starts, ShelfReads, Lacks};

/// A call to a shelf or a sink failed.
#[derive(Clone, Copy, Debug, PartialEq, Eq)]
pub struct Failed;

/// Files that are read one after another, each from its start.
///
/// A contract sees what the shelf tells of itself: its files, the bytes of the started file that are left, how many
/// bytes all reads have given, and how many files were started. A shelf tells all of these or none, always. It sees
/// besides a count of faults, which never falls, and rises only in a call that fails.
pub trait Shelf {
    ghost told: { Self → Option ShelfContent };

    ghost faults: { Self → ℕ };

    /// Goes to the start of the file of this name, which counts as one start. It fails only where the count of faults rose, or where the shelf
    /// tells its files and this is none of them; then what is left stays as it was.
    fn start_file(&mut self, name: &str) -> Result<(), Failed>
        ensures told { WhereKnown (Starts name.now result) (told self.old) (told self.new) }
        ensures later { faults self.old ≤ faults self.new }
        ensures steady { OnOk result (faults self.new ≡ faults self.old) }
        ensures cause { OnErr result (Rose (faults self.old) (faults self.new) ⊎ Lacks (told self.old) name.now) };

    /// Reads the next bytes into the front of the buffer, and answers how many. For a buffer that isn't empty, 0 is
    /// the end of the file. It fails only where the count of faults rose; then nothing was read.
    fn read(&mut self, buf: &mut [u8]) -> Result<usize, Failed>
        ensures bound { IfOk result (λ n. n ≤ length buf.new) }
        ensures told { WhereKnown (ShelfReads buf.new result) (told self.old) (told self.new) }
        ensures later { faults self.old ≤ faults self.new }
        ensures steady { OnOk result (faults self.new ≡ faults self.old) }
        ensures cause { OnErr result (Rose (faults self.old) (faults self.new)) };
}
