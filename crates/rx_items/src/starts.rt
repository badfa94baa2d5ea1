//! The runs of members that a start reaches, and those of which an item is the nearest one around.
ghost use Rattle.std.specs.Prelude.{◌≡◌, ◌<◌, ◌≤◌, ◌+◌, if◌then◌else◌, Some, None, length, slice_get};
ghost use Rattle.rx_items.specs.Members.{Rises, RunOf};
ghost use Rattle.rx_items.specs.Starts.{reach_end};
ghost use Rattle.rx_items.specs.declared.rows.Row.{Row};

use crate::kept::Run;
use crate::members::{between, inside_from};
use crate::rows::Row;

/// The members of which the item at this place is the nearest one around.
pub(crate) fn own_run(rows: &[Row], members: &[usize], place: usize) -> Run
    ensures { Rises rows.now members.now → RunOf rows.now members.now (Some place) 0 (length rows.now) result }
{
    between(rows, members, Some(place), 0, rows.len())
}

/// The same, told in few steps where they begin at the hint, or a little behind it.
pub(crate) fn own_run_from(rows: &[Row], members: &[usize], place: usize, hint: usize) -> Run
    ensures { Rises rows.now members.now → RunOf rows.now members.now (Some place) 0 (length rows.now) result }
{
    inside_from(rows, members, place, hint)
}

/// The members that a start reaches: itself where it is an item, else also what is below it and in no item below it.
pub(crate) fn start_run(rows: &[Row], members: &[usize], place: usize) -> Run
    ensures run { (row : Row) → Rises rows.now members.now → slice_get rows.now place ≡ Some row → RunOf rows.now members.now row.scope place (reach_end row place) result }
    ensures none { slice_get rows.now place ≡ None → result ≡ record { from = 0; to = 0 } }
{
    match rows.get(place) {
        Some(row) => run_from(rows, members, row, place),
        None => Run { from: 0, to: 0 },
    }
}

fn run_from(rows: &[Row], members: &[usize], row: &Row, place: usize) -> Run
    requires { place < 18446744073709551615 }
    ensures { Rises rows.now members.now → RunOf rows.now members.now row.now.scope place (reach_end row.now place) result }
{
    let end = end_of(row.head.is_item, place, row.past);
    between(rows, members, row.scope, place, end)
}

fn end_of(is_item: bool, place: usize, past: usize) -> usize
    requires { place < 18446744073709551615 }
    ensures exact { result ≡ (if is_item then place + 1 else past) }
    ensures bound { result ≤ 18446744073709551615 }
{
    if is_item { place + 1 } else { past }
}
