//! Reading a page as its bytes come.
ghost use Rattle.std.specs.Prelude.{◌<◌, ◌≤◌, IfOk, IsErrOf, length, vec_len};
ghost use Rattle.rx_ports.specs.Counts.{Rose};
ghost use Rattle.rx_ports.specs.Shelves.{WhereKnown};
ghost use Rattle.rx_page.specs.Settings.{GivesRight, PageHasItems, item_way, rdfa_way};
ghost use Rattle.rx_command.specs.Reading.{IsPiece, page_limit, StartsPage, ReadsNext, FedFileGives, PageGives, TakesToFirst, HoldsAtStart, ReadingEnds};
ghost use Rattle.rx_command.specs.Files.{TakesWithin, TakesOf};
ghost use Rattle.rx_command.specs.Ways.{approach_way, GivesListOf};
ghost use Rattle.rx_command.specs.Calls.{FailedOrLacks, Steady};

use crate::errors::InputError;
use rx_items::{ItemWalk, Items};
use rx_names::Context;
use rx_page::PageReader;
use rx_ports::{PIECE, Shelf};
use rx_terms::{Iri, NoMemory, TripleList};
use rx_walk::{Check, Limits, Stop, Syntax, Walk};
use std::alloc::Global;
use std::mem;

/// How a page is read whose triples are wanted: its syntax, the names that hold in it, and its address.
#[derive(Drop)]
pub(crate) struct Approach {
    pub(crate) syntax: Syntax,
    pub(crate) context: Context,
    pub(crate) address: Iri,
}

/// The room of the first reads, which many pages fit into.
const FIRST_PIECE: usize = 4_096;

/// The most bytes that a page has.
const LARGEST_PAGE: usize = 1_073_741_824;

/// Reads a page once, in order and in pieces, into the list of its triples. Nothing is read past the piece in which its
/// first fault stands.
pub(crate) fn read_page<F: Shelf>(
    alloc: Global,
    shelf: &mut F,
    name: &str,
    approach: Approach,
) -> Result<TripleList, InputError>
    ensures gives { PageGives (approach_way approach) (GivesListOf approach) name.now result (F.told shelf.old) (F.told shelf.new) }
    ensures takes { WhereKnown (TakesOf name.now page_limit) (F.told shelf.old) (F.told shelf.new) }
    ensures to_first { WhereKnown (TakesToFirst (approach_way approach) name.now) (F.told shelf.old) (F.told shelf.new) }
    ensures later { F.faults shelf.old ≤ F.faults shelf.new }
    ensures steady { Steady result (F.faults shelf.old) (F.faults shelf.new) }
    ensures failed { IsErrOf result InputError.Failed → FailedOrLacks F.told F.faults shelf.old shelf.new name.now }
{
    let Ok(mut piece) = new_piece(alloc) else {
        drop(approach);
        return Err(InputError::NoMemory);
    };
    read_page_by(alloc, shelf, name, approach, &mut piece)
}

/// Reads a page as [`read_page`] does, by a piece that is lent: who reads many pages makes it once.
pub(crate) fn read_page_by<F: Shelf>(
    alloc: Global,
    shelf: &mut F,
    name: &str,
    approach: Approach,
    piece: &mut Vec<u8>,
) -> Result<TripleList, InputError>
    requires { IsPiece (vec_len piece.old) }
    ensures gives { PageGives (approach_way approach) (GivesListOf approach) name.now result (F.told shelf.old) (F.told shelf.new) }
    ensures takes { WhereKnown (TakesOf name.now page_limit) (F.told shelf.old) (F.told shelf.new) }
    ensures to_first { WhereKnown (TakesToFirst (approach_way approach) name.now) (F.told shelf.old) (F.told shelf.new) }
    ensures later { F.faults shelf.old ≤ F.faults shelf.new }
    ensures steady { Steady result (F.faults shelf.old) (F.faults shelf.new) }
    ensures failed { IsErrOf result InputError.Failed → FailedOrLacks F.told F.faults shelf.old shelf.new name.now }
    ensures room { IsPiece (vec_len piece.new) }
{
    let Approach {
        syntax,
        context,
        address,
    } = approach;
    let walk = Walk::new(alloc, syntax, context, address, Limits::standard())?;
    read_by(alloc, shelf, name, walk, piece)
}

/// Reads a page as [`read_page`] does, but for its items. No start tag is refused for what it means.
pub(crate) fn read_items<F: Shelf>(
    alloc: Global,
    shelf: &mut F,
    name: &str,
    syntax: Syntax,
    address: Iri,
) -> Result<Items, InputError>
    ensures gives { PageGives (item_way syntax) (PageHasItems syntax address) name.now result (F.told shelf.old) (F.told shelf.new) }
    ensures takes { WhereKnown (TakesOf name.now page_limit) (F.told shelf.old) (F.told shelf.new) }
    ensures later { F.faults shelf.old ≤ F.faults shelf.new }
    ensures steady { Steady result (F.faults shelf.old) (F.faults shelf.new) }
    ensures failed { IsErrOf result InputError.Failed → FailedOrLacks F.told F.faults shelf.old shelf.new name.now }
{
    let walk = ItemWalk::new(alloc, syntax, address, Limits::standard())?;
    read(alloc, shelf, name, walk)
}

/// Reads a page as [`read_page`] does, but only for its faults: no triples are made, and so no address is needed.
pub(crate) fn check_page<F: Shelf>(
    alloc: Global,
    shelf: &mut F,
    name: &str,
    syntax: Syntax,
    context: Context,
) -> Result<(), InputError>
    ensures gives { PageGives (rdfa_way syntax context) (GivesRight syntax context) name.now result (F.told shelf.old) (F.told shelf.new) }
    ensures takes { WhereKnown (TakesOf name.now page_limit) (F.told shelf.old) (F.told shelf.new) }
    ensures later { F.faults shelf.old ≤ F.faults shelf.new }
    ensures steady { Steady result (F.faults shelf.old) (F.faults shelf.new) }
    ensures failed { IsErrOf result InputError.Failed → FailedOrLacks F.told F.faults shelf.old shelf.new name.now }
{
    let check = Check::new(alloc, syntax, context, Limits::standard())?;
    read(alloc, shelf, name, check)
}

/// Room for the first read.
pub(crate) fn new_piece(alloc: Global) -> Result<Vec<u8>, NoMemory>
    ensures { IfOk result (λ piece. IsPiece (vec_len piece)) }
{
    let piece = vec![in alloc; 0u8; FIRST_PIECE]?;
    Ok(piece)
}

/// Makes the room as large as it may be once a read filled it. Where there is no memory for that, it stays.
fn widen(alloc: Global, piece: &mut Vec<u8>, count: usize)
    requires { IsPiece (vec_len piece.old) }
    ensures { IsPiece (vec_len piece.new) }
{
    if count < piece.len() || piece.len() == PIECE {
        return;
    }
    let Ok(large) = vec![in alloc; 0u8; PIECE] else {
        return;
    };
    drop(mem::replace(piece, large));
}

/// Reads a page by this reader, for what it gives.
fn read<F: Shelf, R: PageReader + Drop>(
    alloc: Global,
    shelf: &mut F,
    name: &str,
    reader: R,
) -> Result<R::Given, InputError>
    requires { StartsPage R.way R.stands reader }
    ensures gives { HoldsAtStart R.stands reader (λ setting. PageGives (R.way setting) (R.gives setting) name.now result (F.told shelf.old) (F.told shelf.new)) }
    ensures takes { WhereKnown (TakesOf name.now page_limit) (F.told shelf.old) (F.told shelf.new) }
    ensures later { F.faults shelf.old ≤ F.faults shelf.new }
    ensures steady { Steady result (F.faults shelf.old) (F.faults shelf.new) }
    ensures failed { IsErrOf result InputError.Failed → FailedOrLacks F.told F.faults shelf.old shelf.new name.now }
{
    let Ok(mut piece) = new_piece(alloc) else {
        drop(reader);
        return Err(InputError::NoMemory);
    };
    read_by(alloc, shelf, name, reader, &mut piece)
}

/// Reads a page as [`read`] does, by a piece that is lent.
fn read_by<F: Shelf, R: PageReader + Drop>(
    alloc: Global,
    shelf: &mut F,
    name: &str,
    reader: R,
    piece: &mut Vec<u8>,
) -> Result<R::Given, InputError>
    requires starts { StartsPage R.way R.stands reader }
    requires room { IsPiece (vec_len piece.old) }
    ensures gives { HoldsAtStart R.stands reader (λ setting. PageGives (R.way setting) (R.gives setting) name.now result (F.told shelf.old) (F.told shelf.new)) }
    ensures takes { WhereKnown (TakesOf name.now page_limit) (F.told shelf.old) (F.told shelf.new) }
    ensures to_first { HoldsAtStart R.stands reader (λ setting. WhereKnown (TakesToFirst (R.way setting) name.now) (F.told shelf.old) (F.told shelf.new)) }
    ensures later { F.faults shelf.old ≤ F.faults shelf.new }
    ensures steady { Steady result (F.faults shelf.old) (F.faults shelf.new) }
    ensures failed { IsErrOf result InputError.Failed → FailedOrLacks F.told F.faults shelf.old shelf.new name.now }
    ensures room { IsPiece (vec_len piece.new) }
{
    let mut reader = reader;
    match feed_file(alloc, shelf, name, &mut reader, piece) {
        Ok(()) => end_of(reader),
        Err(error) => {
            drop(reader);
            Err(error)
        }
    }
}

/// Feeds the reader the whole file.
fn feed_file<F: Shelf, R: PageReader>(
    alloc: Global,
    shelf: &mut F,
    name: &str,
    reader: &mut R,
    piece: &mut Vec<u8>,
) -> Result<(), InputError>
    requires starts { StartsPage R.way R.stands reader.old }
    requires room { IsPiece (vec_len piece.old) }
    ensures gives { HoldsAtStart R.stands reader.old (λ setting. FedFileGives (R.way setting) (R.stands setting) name.now result reader.new (F.told shelf.old) (F.told shelf.new)) }
    ensures takes { WhereKnown (TakesOf name.now page_limit) (F.told shelf.old) (F.told shelf.new) }
    ensures to_first { HoldsAtStart R.stands reader.old (λ setting. WhereKnown (TakesToFirst (R.way setting) name.now) (F.told shelf.old) (F.told shelf.new)) }
    ensures later { F.faults shelf.old ≤ F.faults shelf.new }
    ensures steady { Steady result (F.faults shelf.old) (F.faults shelf.new) }
    ensures failed { IsErrOf result InputError.Failed → FailedOrLacks F.told F.faults shelf.old shelf.new name.now }
    ensures room { IsPiece (vec_len piece.new) }
{
    let Ok(()) = shelf.start_file(name) else {
        return Err(InputError::Failed);
    };
    let mut taken = 0;
    while taken <= LARGEST_PAGE {
        match feed_next(shelf, reader, &mut piece[..]) {
            Ok(0) => return Ok(()),
            Ok(count) => {
                taken += count;
                widen(alloc, piece, count);
            }
            Err(error) => return Err(error),
        }
    }
    unreachable!()
}

/// Reads on once, and takes what was read.
fn feed_next<F: Shelf, R: PageReader>(
    shelf: &mut F,
    reader: &mut R,
    piece: &mut [u8],
) -> Result<usize, InputError>
    requires { 0 < length piece.old }
    ensures bound { IfOk result (λ n. n ≤ length piece.new) }
    ensures gives { ReadsNext R.way R.stands reader.old (length piece.old) result reader.new (F.told shelf.old) (F.told shelf.new) }
    ensures takes { WhereKnown (TakesWithin (length piece.old)) (F.told shelf.old) (F.told shelf.new) }
    ensures later { F.faults shelf.old ≤ F.faults shelf.new }
    ensures steady { Steady result (F.faults shelf.old) (F.faults shelf.new) }
    ensures failed { IsErrOf result InputError.Failed → Rose (F.faults shelf.old) (F.faults shelf.new) }
{
    let Ok(count) = shelf.read(piece) else {
        return Err(InputError::Failed);
    };
    match reader.feed(&piece[..count]) {
        Ok(()) => Ok(count),
        Err(Stop::Fault(fault)) => Err(InputError::Refused(fault)),
        Err(Stop::NoMemory) => Err(InputError::NoMemory),
    }
}

/// The page's end, and what it gives.
fn end_of<R: PageReader>(reader: R) -> Result<R::Given, InputError>
    ensures gives { ReadingEnds R.way R.stands R.gives reader result }
    ensures reads_none { IsErrOf result InputError.Failed → ⊥ }
{
    match reader.finish() {
        Ok(given) => Ok(given),
        Err(Stop::Fault(fault)) => Err(InputError::Refused(fault)),
        Err(Stop::NoMemory) => Err(InputError::NoMemory),
    }
}
