//! Reading a whole file.
ghost use Rattle.std.specs.Prelude.{◌≡◌, ◌+◌, ◌≤◌, ◌<◌, ◌^◌, ◌⊎◌, IfOk, IsErrOf, length, vec_len};
ghost use Rattle.rx_ports.specs.Counts.{Rose};
ghost use Rattle.rx_ports.specs.Shelves.{WhereKnown, Lacks};
ghost use Rattle.rx_command.specs.Files.{ReadsFile, ReadsMore, SteadyFile, TakesWithin, TakesOf};

use rx_ports::{PIECE, Shelf};
use std::alloc::Global;

/// Why a file wasn't read.
#[derive(Clone, Copy, Debug, PartialEq, Eq)]
pub enum ReadError {
    Failed,
    NoMemory,
}

/// Reads a file to its end, or to one byte past the limit, which is in bytes.
pub fn read_file<F: Shelf>(
    alloc: Global,
    shelf: &mut F,
    name: &str,
    limit: usize,
) -> Result<Vec<u8>, ReadError>
    requires { limit < 2 ^ 60 }
    ensures ok { IfOk result (λ bytes. WhereKnown (ReadsFile name.now limit bytes.items) (F.told shelf.old) (F.told shelf.new)) }
    ensures takes { WhereKnown (TakesOf name.now (limit + 1)) (F.told shelf.old) (F.told shelf.new) }
    ensures later { F.faults shelf.old ≤ F.faults shelf.new }
    ensures steady { SteadyFile result (F.faults shelf.old) (F.faults shelf.new) }
    ensures failed { IsErrOf result ReadError.Failed → Rose (F.faults shelf.old) (F.faults shelf.new) ⊎ Lacks (F.told shelf.old) name.now }
{
    let Ok(mut piece) = vec![in alloc; 0u8; PIECE] else {
        return Err(ReadError::NoMemory);
    };
    let Ok(()) = shelf.start_file(name) else {
        return Err(ReadError::Failed);
    };
    let mut bytes = Vec::new(alloc);
    while bytes.len() <= limit {
        let room = (limit + 1 - bytes.len()).min(PIECE);
        match read_on(shelf, &mut piece[..room], &mut bytes) {
            Ok(0) => return Ok(bytes),
            Ok(_) => {}
            Err(error) => return Err(error),
        }
    }
    Ok(bytes)
}

/// Reads on once, and keeps what was read.
fn read_on<F: Shelf>(
    shelf: &mut F,
    part: &mut [u8],
    bytes: &mut Vec<u8>,
) -> Result<usize, ReadError>
    requires { 0 < length part.old }
    ensures bound { IfOk result (λ n. n ≤ length part.new) }
    ensures count { IfOk result (λ n. vec_len bytes.new ≡ vec_len bytes.old + n) }
    ensures told { IfOk result (λ n. WhereKnown (ReadsMore bytes.old.items bytes.new.items n) (F.told shelf.old) (F.told shelf.new)) }
    ensures takes { WhereKnown (TakesWithin (length part.old)) (F.told shelf.old) (F.told shelf.new) }
    ensures later { F.faults shelf.old ≤ F.faults shelf.new }
    ensures steady { SteadyFile result (F.faults shelf.old) (F.faults shelf.new) }
    ensures failed { IsErrOf result ReadError.Failed → Rose (F.faults shelf.old) (F.faults shelf.new) }
{
    let Ok(count) = shelf.read(part) else {
        return Err(ReadError::Failed);
    };
    let Ok(()) = bytes.extend_from_slice(&part[..count]) else {
        return Err(ReadError::NoMemory);
    };
    Ok(count)
}
