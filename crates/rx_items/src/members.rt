//! The places of the rows with a name, by the item around and then in tree order.
ghost use Rattle.std.specs.Prelude.{◌≡◌, ◌<◌, ◌≤◌, ◌==◌, ◌&&◌, [], ◌∷◌, ◌++◌, Some, true, length, nat_lt, IfOk, OnOk, if◌then◌else◌};
ghost use Rattle.rx_items.specs.Lying.{Lies};
ghost use Rattle.rx_items.specs.Members.{AddsItem, AddsMembers, AreBelow, AreMembers, FirstBelow, Rises, member_key, next_place, row_key, scope_number};

use crate::kept::Run;
use crate::rows::Row;
use rx_terms::NoMemory;
use std::alloc::Global;

/// The places of rows are below.
const PLACES: u128 = 0xFFFF_FFFF_FFFF_FFFF;

/// The number by which members stand in order.
fn key_of(scope: Option<usize>, place: usize) -> u128
    ensures { result ≡ member_key scope place }
{
    scope_number(scope) * PLACES + place as u128
}

fn scope_number(scope: Option<usize>) -> u128
    ensures exact { result ≡ scope_number scope }
    ensures bound { result ≤ 18446744073709551616 }
{
    match scope {
        Some(place) => place as u128 + 1,
        None => 0,
    }
}

/// The number of the row at a place.
fn key_at(rows: &[Row], place: usize) -> u128
    ensures { result ≡ row_key rows.now place }
{
    match rows.get(place) {
        Some(row) => key_of(row.scope, place),
        None => key_of(None, place),
    }
}

/// The places of the rows with a name, in order: of what is in no item, and then of each item those of which it is the
/// nearest one around. What is inside an item is passed by in one step, so no row is looked at more than twice.
pub(crate) fn members_of(alloc: Global, rows: &[Row]) -> Result<Vec<usize>, NoMemory>
    ensures same { Lies rows.now → IfOk result (λ members. AreMembers rows.now members.items) }
    ensures rises { IfOk result (λ members. Rises rows.now members.items) }
    ensures small { length rows.now ≤ 18446744073709551615 }
{
    let mut members = Vec::with_capacity(alloc, rows.len())?;
    add_members(&mut members, rows, None, 0, rows.len())?;
    for place in 0..rows.len() {
        add_inside(&mut members, rows, place)?;
    }
    Ok(members)
}

/// Adds the members inside a row, where it is an item.
fn add_inside(members: &mut Vec<usize>, rows: &[Row], place: usize) -> Result<(), NoMemory>
    requires { place < length rows.now }
    ensures { OnOk result (AddsItem rows.now place members.old.items members.new.items) }
{
    let row = &rows[place];
    if !row.head.is_item {
        return Ok(());
    }
    add_members(members, rows, Some(place), place + 1, row.past)
}

/// Adds the members from one place to another of which this is the nearest item around.
fn add_members(
    members: &mut Vec<usize>,
    rows: &[Row],
    scope: Option<usize>,
    from: usize,
    to: usize,
) -> Result<(), NoMemory>
    ensures { OnOk result (AddsMembers rows.now scope from to 18446744073709551615 members.old.items members.new.items) }
{
    let end = to.min(rows.len());
    let mut place = from;
    while place < end {
        add_member(members, &rows[place], scope, place)?;
        place = next_place(&rows[place], place);
    }
    Ok(())
}

/// Adds the place of a row that has a name, where this is the nearest item around.
fn add_member(
    members: &mut Vec<usize>,
    row: &Row,
    scope: Option<usize>,
    place: usize,
) -> Result<(), NoMemory>
    ensures { OnOk result (members.new.items ≡ members.old.items ++ (if row.now.head.named && (scope_number row.now.scope == scope_number scope) then place ∷ [] else [])) }
{
    if !row.head.named || scope_number(row.scope) != scope_number(scope) {
        return Ok(());
    }
    members.push(place)?;
    Ok(())
}

/// The place behind a row and, where it is an item, behind all that is inside it.
fn next_place(row: &Row, place: usize) -> usize
    requires { place < 18446744073709551615 }
    ensures exact { result ≡ next_place row.now place }
    ensures behind { place < result }
    ensures bound { result ≤ 18446744073709551615 }
{
    if row.head.is_item && place < row.past {
        row.past
    } else {
        place + 1
    }
}

/// How many of the members are below the bound.
fn before(rows: &[Row], members: &[usize], bound: u128) -> usize
    ensures { Rises rows.now members.now → AreBelow rows.now members.now bound result }
{
    members.partition_point(|place| key_at(rows, *place) < bound)
}

/// The same, where the number is often this one.
fn before_from(rows: &[Row], members: &[usize], bound: u128, hint: usize) -> usize
    ensures { Rises rows.now members.now → AreBelow rows.now members.now bound result }
{
    if !is_behind(rows, members, bound, hint) {
        return before(rows, members, bound);
    }
    let mut at = hint;
    while at < members.len() {
        if key_at(rows, members[at]) >= bound {
            return at;
        }
        at += 1;
    }
    at
}

/// Whether the first members, so many, are known to be below the bound by the last of them.
fn is_behind(rows: &[Row], members: &[usize], bound: u128, count: usize) -> bool
    ensures { result ≡ true → Rises rows.now members.now → FirstBelow rows.now members.now bound count }
{
    if count == 0 {
        return true;
    }
    count <= members.len() && key_at(rows, members[count - 1]) < bound
}

/// The members with this item around, from one place to another.
pub(crate) fn between(
    rows: &[Row],
    members: &[usize],
    scope: Option<usize>,
    from: usize,
    to: usize,
) -> Run
    ensures from { Rises rows.now members.now → AreBelow rows.now members.now (member_key scope from) result.from }
    ensures to { Rises rows.now members.now → AreBelow rows.now members.now (member_key scope to) result.to }
{
    Run {
        from: before(rows, members, key_of(scope, from)),
        to: before(rows, members, key_of(scope, to)),
    }
}

/// All members with this item around, where they begin about there.
pub(crate) fn inside_from(rows: &[Row], members: &[usize], place: usize, hint: usize) -> Run
    ensures from { Rises rows.now members.now → AreBelow rows.now members.now (member_key (Some place) 0) result.from }
    ensures to { Rises rows.now members.now → AreBelow rows.now members.now (member_key (Some place) (length rows.now)) result.to }
{
    let from = before_from(rows, members, key_of(Some(place), 0), hint);
    let end = key_of(Some(place), rows.len());
    Run {
        from,
        to: before_from(rows, members, end, from),
    }
}
