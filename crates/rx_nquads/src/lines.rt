//! Lines of N-Quads in memory.
ghost use Rattle.std.specs.Prelude.{◌≡◌, ◌++◌, [], option_map, true, IfOk, IsErr, OnErr, OnOk, encode_utf8_all};
ghost use Rattle.rx_model.specs.Seen.{triple_seen};
ghost use Rattle.rx_nquads.specs.Graphs.{lent_name, line_bytes};
ghost use Rattle.rx_nquads.specs.Lines.{written_lines};
ghost use Rattle.rx_pieces.specs.Writable.{WritableTriple};

use crate::writing::push_line;
use rx_pieces::{Pieces, Whole};
use rx_terms::{Iri, NoMemory, Triple};
use std::alloc::Global;
use std::marker::Model;

/// Lines of N-Quads, one after another, which are made without memory for each. A contract sees their bytes, which are
/// UTF-8, and whether memory ran out. Once there was no memory, no line is taken any more: each later call fails, and
/// changes nothing.
#[derive(Drop)]
pub struct Lines {
    pieces: Pieces,
    whole: Whole,
}

impl Model for Lines {
    ghost use Rattle.std.specs.Prelude.{◌++◌};
    ghost use Rattle.rx_nquads.specs.Lines.{WrittenLines};

    ghost Value = { WrittenLines };

    ghost view = { λ lines. record { bytes = lines.whole.held ++ lines.pieces.waiting; out_of_memory = lines.pieces.failed } };
}

impl Lines {
    /// No line.
    pub fn new(alloc: Global) -> Result<Lines, NoMemory>
        ensures { IfOk result (λ lines. lines ≡ written_lines []) }
    {
        let whole = Whole::with_room(alloc, 0)?;
        let Ok(pieces) = Pieces::new(alloc) else {
            drop(whole);
            return Err(NoMemory);
        };
        Ok(Lines { pieces, whole })
    }

    /// Adds the line of a triple, its quad in the graph of this name where one is given.
    pub fn put(&mut self, triple: &Triple, name: Option<&Iri>) -> Result<(), NoMemory>
        ensures line { OnOk result (self.new ≡ written_lines (self.old.bytes ++ line_bytes name.entry triple.now)) }
        ensures writable { OnOk result (WritableTriple (lent_name name.entry) (triple_seen triple.now)) }
        ensures out_of_memory { OnErr result (self.new.out_of_memory ≡ true) }
        ensures spent { self.old.out_of_memory ≡ true → IsErr result × (self.new ≡ self.old) }
    {
        if self.pieces.has_failed() {
            // without memory once, nothing more is written
            return Err(NoMemory);
        }
        push_line(&mut self.pieces, &mut self.whole, triple, name);
        if self.pieces.has_failed() {
            return Err(NoMemory);
        }
        Ok(())
    }

    /// Adds bytes, as those of a comment.
    pub fn put_bytes(&mut self, bytes: &[u8]) -> Result<(), NoMemory>
        ensures bytes { OnOk result (self.new ≡ written_lines (self.old.bytes ++ bytes.now)) }
        ensures out_of_memory { OnErr result (self.new.out_of_memory ≡ true) }
        ensures spent { self.old.out_of_memory ≡ true → IsErr result × (self.new ≡ self.old) }
    {
        if self.pieces.has_failed() {
            return Err(NoMemory);
        }
        self.pieces.add(&mut self.whole, bytes);
        if self.pieces.has_failed() {
            return Err(NoMemory);
        }
        Ok(())
    }

    /// The bytes of all lines, where there was memory for them.
    pub fn into_bytes(self) -> Result<Vec<u8>, NoMemory>
        ensures bytes { IfOk result (λ bytes. bytes.items ≡ self.bytes) }
        ensures spent { self.out_of_memory ≡ true → IsErr result }
    {
        let Lines { pieces, mut whole } = self;
        match pieces.send(&mut whole) {
            Ok(()) => {
                drop(pieces);
                Ok(whole.into_bytes())
            }
            Err(_failed) => {
                drop(pieces);
                drop(whole);
                Err(NoMemory)
            }
        }
    }
}
