//! The order in which numbers are joined. No contract speaks of it: by another order fewer numbers are joined, and all that
//! is promised holds.

use crate::marks::Marks;
use crate::rows::Rows;
use rx_terms::NoMemory;
use std::alloc::Global;

/// A number that a search has come to, and how many of its row it has gone to.
#[derive(Clone, Copy)]
struct Open {
    number: usize,
    gone: usize,
}

/// The numbers from the last that a search to the depths leaves to the first. So a number stands before all that it leads
/// to, where none of these leads back.
pub(crate) fn order(alloc: Global, links: &Rows) -> Result<Vec<usize>, NoMemory> {
    let mut begun = Marks::none(alloc, links.len())?;
    let mut open = Vec::new(alloc);
    let mut left = Vec::new(alloc);
    for number in 0..links.len() {
        begin(number, &mut begun, &mut open)?;
        leave_all(links, &mut begun, &mut open, &mut left)?;
    }
    left.reverse();
    Ok(left)
}

fn begin(number: usize, begun: &mut Marks, open: &mut Vec<Open>) -> Result<(), NoMemory> {
    if begun.at(number) < begun.len() {
        return Ok(());
    }
    begun.set(number, 0);
    open.push(Open { number, gone: 0 })?;
    Ok(())
}

/// Goes on until nothing is open. Each round leaves a number or goes on in a row, so they are few.
fn leave_all(
    links: &Rows,
    begun: &mut Marks,
    open: &mut Vec<Open>,
    left: &mut Vec<usize>,
) -> Result<(), NoMemory> {
    for _ in 0..u64::MAX {
        let Some(last) = open.pop() else {
            return Ok(());
        };
        go_on(links, last, begun, open, left)?;
    }
    Ok(())
}

fn go_on(
    links: &Rows,
    last: Open,
    begun: &mut Marks,
    open: &mut Vec<Open>,
    left: &mut Vec<usize>,
) -> Result<(), NoMemory> {
    let row = links.numbers(last.number);
    if last.gone >= row.len() {
        left.push(last.number)?;
        return Ok(());
    }
    let further = Open {
        number: last.number,
        gone: last.gone + 1,
    };
    open.push(further)?;
    begin(row[last.gone], begun, open)
}

/// Those numbers of an order that are their own marks, from its end.
pub(crate) fn tops(alloc: Global, order: &[usize], marks: &Marks) -> Result<Vec<usize>, NoMemory> {
    let mut tops = Vec::new(alloc);
    for i in 0..order.len() {
        let number = order[order.len() - 1 - i];
        if marks.at(number) == number {
            tops.push(number)?;
        }
    }
    Ok(tops)
}
