//! The properties of an item.
ghost use Rattle.std.specs.Prelude.{◌≡◌, ◌++◌, ℕ, Contains, ◌↔◌, ◌∷◌, IfOk, IfSome, OnOk, filter, take, drop};
ghost use Rattle.rx_terms.specs.Common.{nat_cmp, IsStrictlySortedBy};
ghost use Rattle.rx_items.specs.Properties.{members_in, gathered, is_other, are_listed, rise_behind, follows_place};

use crate::kept::Run;
use rx_terms::NoMemory;
use std::alloc::Global;

/// The places of the properties of an item that reaches these runs, which rise, where they stand so among the members.
pub fn listed<'a>(
    members: &'a [usize],
    own: Run,
    others: &[Run],
    place: usize,
) -> Option<&'a [usize]>
    ensures rise { IfSome result (λ list. IsStrictlySortedBy nat_cmp list.now) }
    ensures same { IfSome result (λ list. (x : ℕ) → Contains list.now x ↔ Contains (gathered members.now (own ∷ others.now) place) x) }
{
    if !others.is_empty() {
        return None;
    }
    let list = part(members, own);
    if are_listed(list, place) {
        Some(list)
    } else {
        None
    }
}

/// Whether the places rise and none of them is this one.
fn are_listed(list: &[usize], place: usize) -> bool
    ensures { result ≡ are_listed place list.now }
{
    match list.split_first() {
        Some((first, rest)) => *first != place && rise_behind(*first, rest, place),
        None => true,
    }
}

fn rise_behind(first: usize, list: &[usize], place: usize) -> bool
    ensures { result ≡ rise_behind place first list.now }
{
    let mut before = first;
    for member in list {
        if !is_next(before, *member, place) {
            return false;
        }
        before = *member;
    }
    true
}

fn is_next(before: usize, member: usize, place: usize) -> bool
    ensures { result ≡ follows_place place before member }
{
    before < member && member != place
}

/// The places of the properties of an item that reaches these runs, which rise: those of the members in them, but for its own.
pub fn properties(
    alloc: Global,
    members: &[usize],
    own: Run,
    others: &[Run],
    place: usize,
) -> Result<Vec<usize>, NoMemory>
    ensures rise { IfOk result (λ list. IsStrictlySortedBy nat_cmp list.items) }
    ensures same { IfOk result (λ list. (x : ℕ) → Contains list.items x ↔ Contains (gathered members.now (own ∷ others.now) place) x) }
{
    let mut list = gathered(alloc, members, own, others, place)?;
    list.sort_unstable();
    list.dedup();
    Ok(list)
}

fn gathered(
    alloc: Global,
    members: &[usize],
    own: Run,
    others: &[Run],
    place: usize,
) -> Result<Vec<usize>, NoMemory>
    ensures { IfOk result (λ list. list.items ≡ gathered members.now (own ∷ others.now) place) }
{
    let mut list = Vec::new(alloc);
    add_others(&mut list, part(members, own), place)?;
    for run in others {
        add_others(&mut list, part(members, *run), place)?;
    }
    Ok(list)
}

/// The members of a run.
fn part(members: &[usize], run: Run) -> &[usize]
    ensures { result.now ≡ members_in members.now run }
{
    let rest = behind(members, run.from);
    &rest[..run.to.saturating_sub(run.from).min(rest.len())]
}

fn behind(members: &[usize], from: usize) -> &[usize]
    ensures { result.now ≡ drop from members.now }
{
    &members[from.min(members.len())..]
}

/// Adds the members other than this one.
fn add_others(list: &mut Vec<usize>, members: &[usize], place: usize) -> Result<(), NoMemory>
    ensures { OnOk result (list.new.items ≡ list.old.items ++ filter (is_other place) members.now) }
{
    for member in members {
        if *member == place {
            continue;
        }
        list.push(*member)?;
    }
    Ok(())
}
