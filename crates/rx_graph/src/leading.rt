//! A root that gives nothing, and leads to one that gives all that it leads to, is left out: that one stands for it.
ghost use Rattle.std.specs.Prelude.{◌≡◌, true, nat_eq, IfOk, OnOk, length, if◌then◌else◌, slice_set};
ghost use Rattle.rx_graph.specs.Ways.{LeadsToMark, merged_lead, only_lead, all_led, is_led, AreLed};

use crate::marks::Marks;
use crate::rows::Rows;
use rx_terms::NoMemory;
use std::alloc::Global;

/// For each root what stands for it: itself, another, or none where nothing is given. The tops are the roots, each behind
/// all that it leads to.
pub(crate) fn leading(
    alloc: Global,
    nexts: &Rows,
    own: &Rows,
    tops: &[usize],
) -> Result<Marks, NoMemory>
    ensures leads { IfOk result (λ lead. LeadsToMark nexts.now lead) }
    ensures led { IfOk result (λ lead. AreLed nexts.now own.now lead) }
{
    let lead = leads(alloc, nexts, own, tops)?;
    // Of tops in another order that may not be so. Then each stands for itself.
    if are_led(nexts, own, &lead) {
        return Ok(lead);
    }
    let each = Marks::own(alloc, nexts.len())?;
    Ok(each)
}

/// The same but for the order of the tops.
fn leads(alloc: Global, nexts: &Rows, own: &Rows, tops: &[usize]) -> Result<Marks, NoMemory>
    ensures { IfOk result (λ lead. LeadsToMark nexts.now lead) }
{
    let mut lead = Marks::own(alloc, nexts.len())?;
    for i in 0..tops.len() {
        let top = tops[i];
        lead_one(top, own.numbers(top), nexts.numbers(top), &mut lead);
    }
    Ok(lead)
}

/// Puts what stands for a root in its place, by its rows.
fn lead_one(top: usize, own: &[usize], row: &[usize], lead: &mut Marks)
    ensures { lead.new ≡ (if nat_eq (length own.now) 0 then slice_set lead.old top (only_lead lead.old top (length lead.old) row.now) else lead.old) }
{
    if own.len() != 0 {
        return;
    }
    let only = only_lead(top, row, lead);
    lead.set(top, only);
}

/// The only one that stands for all of a row; none where nothing does, and the top itself where several do.
fn only_lead(top: usize, row: &[usize], lead: &Marks) -> usize
    ensures { result ≡ only_lead lead.now top (length lead.now) row.now }
{
    let mut only = lead.len();
    for number in row {
        only = merged(top, lead.len(), only, lead.at(*number));
    }
    only
}

fn merged(top: usize, size: usize, only: usize, next: usize) -> usize
    ensures { result ≡ merged_lead top size only next }
{
    if next >= size || next == only {
        return only;
    }
    if only < size { top } else { next }
}

/// Whether what stands for a root that gives nothing stands for all that it leads to.
fn are_led(nexts: &Rows, own: &Rows, lead: &Marks) -> bool
    ensures { result ≡ true → AreLed nexts.now own.now lead.now }
{
    for number in 0..nexts.len() {
        if !is_led(number, own.numbers(number), nexts.numbers(number), lead) {
            return false;
        }
    }
    true
}

fn is_led(number: usize, own: &[usize], row: &[usize], lead: &Marks) -> bool
    ensures { result ≡ is_led lead.now number own.now row.now }
{
    let to = lead.at(number);
    if to == number {
        return true;
    }
    if own.len() != 0 {
        return false;
    }
    all_led(to, row, lead)
}

fn all_led(to: usize, row: &[usize], lead: &Marks) -> bool
    ensures { result ≡ all_led lead.now to row.now }
{
    for number in row {
        let next = lead.at(*number);
        if next < lead.len() && next != to {
            return false;
        }
    }
    true
}
