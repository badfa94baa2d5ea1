//! What is kept of a table's rows.
ghost use Rattle.std.specs.Prelude.{IfOk};
ghost use Rattle.rx_items.specs.Built.{OfShown};
ghost use Rattle.rx_items.specs.Held.{EachFits, KeepsPage};

use crate::extras::extras_of;
use crate::ids::ids_of;
use crate::kept::{BesideRow, Kept};
use crate::members::members_of;
use crate::rows::{PageRows, Row};
use rx_refs::Base;
use rx_terms::{Iri, NoMemory};
use rx_values::TextStore;
use std::alloc::Global;

/// What stands beside the rows, and the places of those with a name.
#[derive(Drop)]
struct Parts {
    extras: Vec<BesideRow>,
    members: Vec<usize>,
}

/// What is kept of a page with these rows, whose references are resolved against this base.
pub fn kept_of(alloc: Global, page: PageRows, base: Iri) -> Result<Kept, NoMemory>
    ensures { KeepsPage page base result }
{
    let PageRows {
        rows,
        words,
        text,
        times,
    } = page;
    let parts = parts_of(alloc, &words, rows.as_slice())?;
    let Parts { extras, members } = parts;
    Ok(Kept {
        rows,
        extras,
        members,
        words,
        text,
        times,
        base: Base::of(base),
    })
}

fn parts_of(alloc: Global, words: &TextStore, rows: &[Row]) -> Result<Parts, NoMemory>
    ensures { OfShown words.now rows.now (λ ps. IfOk result (λ parts. EachFits words.now ps parts.members.items rows.now parts.extras.items)) }
{
    let ids = ids_of(alloc, words, rows)?;
    let members = members_of(alloc, rows)?;
    let extras = extras_of(alloc, words, rows, members.as_slice(), &ids)?;
    Ok(Parts { extras, members })
}
