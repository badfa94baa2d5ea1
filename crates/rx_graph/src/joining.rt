//! Numbers that lead to each other are joined under one of them, their root.
ghost use Rattle.std.specs.Prelude.{◌≡◌, ◌<◌, ◌⊎◌, nat_eq, IfOk, OnOk, if◌then◌else◌};
ghost use Rattle.rx_graph.specs.Rows.{pushed};
ghost use Rattle.rx_graph.specs.Ways.{mark_at, turned_row, IsTurned, spread_one, spread_all, Marked, LeadsToMark, Joined, next_row, AreNexts};

use crate::marks::Marks;
use crate::order::{order, tops};
use crate::rows::Rows;
use rx_terms::NoMemory;
use std::alloc::Global;

/// The root of each number, and the roots, each behind all that it leads to.
#[derive(Drop)]
pub(crate) struct Joining {
    pub(crate) roots: Marks,
    pub(crate) tops: Vec<usize>,
}

/// Joins what the rows lead to and fro.
///
/// It is the search of Kosaraju and Sharir: backward from each number in the order of a search to the depths, and then
/// forward from each of those roots in the order turned round. The time is that of the rows.
pub(crate) fn join(alloc: Global, links: &Rows) -> Result<Joining, NoMemory>
    ensures { IfOk result (λ joining. Joined links.now joining.roots) }
{
    let turned = turned(alloc, links)?;
    let order = order(alloc, links)?;
    let back = marked(alloc, &turned, &order)?;
    let tops = tops(alloc, &order, &back)?;
    let forth = marked(alloc, links, &tops)?;
    let roots = roots(alloc, links, &back, &forth)?;
    Ok(Joining { roots, tops })
}

/// The rows turned round: for each number those that lead to it at once.
fn turned(alloc: Global, links: &Rows) -> Result<Rows, NoMemory>
    ensures { IfOk result (λ turned. IsTurned links.now turned) }
{
    let mut turned = Rows::empty(alloc, links.len())?;
    for number in 0..links.len() {
        turn_row(number, links.numbers(number), &mut turned)?;
    }
    Ok(turned)
}

fn turn_row(number: usize, row: &[usize], turned: &mut Rows) -> Result<(), NoMemory>
    ensures { OnOk result (turned.new ≡ turned_row number turned.old row.now) }
{
    for to in row {
        turned.put(*to, number)?;
    }
    Ok(())
}

/// Of each number the first of the order that leads to it and has not been reached itself.
fn marked(alloc: Global, rows: &Rows, order: &[usize]) -> Result<Marks, NoMemory>
    ensures { IfOk result (λ marks. Marked rows.now marks) }
{
    let mut marks = Marks::none(alloc, rows.len())?;
    let mut found = Vec::new(alloc);
    for i in 0..order.len() {
        spread(rows, order[i], &mut marks, &mut found)?;
    }
    Ok(marks)
}

/// Marks all that the number leads to and has no mark yet, itself first, where it has none.
fn spread(
    rows: &Rows,
    start: usize,
    marks: &mut Marks,
    found: &mut Vec<usize>,
) -> Result<(), NoMemory>
    requires { Marked rows.now marks.old }
    ensures { OnOk result (Marked rows.now marks.new) }
{
    let mut done = found.len();
    spread_to(start, start, marks, found)?;
    for _ in 0..rows.len() {
        if done >= found.len() {
            return Ok(());
        }
        let number = found[done];
        let mark = marks.at(number);
        spread_row(rows.numbers(number), mark, marks, found)?;
        done += 1;
    }
    Ok(())
}

/// Gives the mark to those of a row that have none yet.
fn spread_row(
    row: &[usize],
    mark: usize,
    marks: &mut Marks,
    found: &mut Vec<usize>,
) -> Result<(), NoMemory>
    ensures { OnOk result (marks.new ≡ spread_all mark marks.old row.now) }
{
    for number in row {
        spread_to(*number, mark, marks, found)?;
    }
    Ok(())
}

fn spread_to(
    number: usize,
    mark: usize,
    marks: &mut Marks,
    found: &mut Vec<usize>,
) -> Result<(), NoMemory>
    ensures { OnOk result (marks.new ≡ spread_one mark marks.old number) }
{
    if marks.at(number) < marks.len() {
        return Ok(());
    }
    marks.set(number, mark);
    found.push(number)?;
    Ok(())
}

/// Each number's mark where both are one, and else the number itself.
fn roots(alloc: Global, links: &Rows, back: &Marks, forth: &Marks) -> Result<Marks, NoMemory>
    requires back { LeadsToMark links.now back.now }
    requires forth { Marked links.now forth.now }
    ensures { IfOk result (λ roots. Joined links.now roots) }
{
    let mut roots = Marks::own(alloc, links.len())?;
    for number in 0..links.len() {
        roots.set(number, root_of(number, links.len(), back, forth));
    }
    Ok(roots)
}

fn root_of(number: usize, size: usize, back: &Marks, forth: &Marks) -> usize
    ensures { (result ≡ number) ⊎ ((result ≡ mark_at back.now number) × (result ≡ mark_at forth.now number) × (result < size)) }
{
    let mark = back.at(number);
    if mark != forth.at(number) || mark >= size {
        return number;
    }
    mark
}

/// For each root the roots that those which it joins lead to at once, but for itself.
pub(crate) fn nexts(alloc: Global, links: &Rows, roots: &Marks) -> Result<Rows, NoMemory>
    requires { Joined links.now roots.now }
    ensures { IfOk result (λ nexts. AreNexts links.now roots.now nexts) }
{
    let mut nexts = Rows::empty(alloc, links.len())?;
    for number in 0..links.len() {
        next_row(links.numbers(number), roots.at(number), roots, &mut nexts)?;
    }
    Ok(nexts)
}

fn next_row(row: &[usize], root: usize, roots: &Marks, nexts: &mut Rows) -> Result<(), NoMemory>
    ensures { OnOk result (nexts.new ≡ next_row roots.now root nexts.old row.now) }
{
    for number in row {
        put_next(roots.at(*number), root, nexts)?;
    }
    Ok(())
}

fn put_next(next: usize, root: usize, nexts: &mut Rows) -> Result<(), NoMemory>
    ensures { OnOk result (nexts.new ≡ (if nat_eq root next then nexts.old else pushed nexts.old root next)) }
{
    if root == next {
        return Ok(());
    }
    nexts.put(root, next)
}
