//! Chains of numbers, and which of them end.
ghost use Rattle.std.specs.Prelude.{◌≡◌, ◌+◌, suc, length, IfOk};
ghost use Rattle.rx_shapes.specs.Rows.{filed, table};
ghost use Rattle.rx_shapes.specs.Chains.{Settled, source_row};

use crate::reach::Reached;
use crate::rows::Rows;
use rx_terms::NoMemory;
use std::alloc::Global;

/// Where a chain goes on from a number.
#[derive(Clone, Copy)]
pub(crate) enum Link {
    /// It ends here.
    Ends,
    /// It breaks off here.
    Breaks,
    /// It goes on to this number.
    To(usize),
}

/// Of each number whether its chain ends, rather than break off or come round again. Each number is a link's place.
///
/// It goes back from the ends, so that each number is looked at once.
pub(crate) fn settle(alloc: Global, links: &[Link]) -> Result<Vec<bool>, NoMemory>
    ensures { IfOk result (λ marks. Settled links.now marks.items) }
{
    let sources = sources(alloc, links)?;
    let mut reached = Reached::new(alloc, links.len())?;
    reached.add_all(sources.row(links.len()))?;
    let mut done = 0;
    while done < reached.len() {
        reached.add_all(sources.row(reached.at(done)))?;
        done += 1;
    }
    Ok(reached.into_marks())
}

/// For each number those whose links lead to it, and last those at which a chain ends.
fn sources(alloc: Global, links: &[Link]) -> Result<Rows, NoMemory>
    ensures { IfOk result (λ rows. rows ≡ table (filed (source_row (length links.now)) links.now) 0 (suc (length links.now))) }
{
    let mut rows = Rows::empty(alloc, links.len())?;
    rows.add(alloc)?;
    for i in 0..links.len() {
        rows.file(source_row(links.len(), links[i]), i)?;
    }
    Ok(rows)
}

fn source_row(size: usize, link: Link) -> Option<usize>
    ensures { result ≡ source_row size link }
{
    match link {
        Link::Ends => Some(size),
        Link::Breaks => None,
        Link::To(number) => { if number < size { Some(number) } else { None } }
    }
}
