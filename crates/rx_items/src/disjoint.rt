//! Runs of members that share none, so that each member is looked at once, however starts lie in each other.
ghost use Rattle.std.specs.Prelude.{◌≡◌, ◌++◌, IfOk, OnOk};
ghost use Rattle.std.specs.List.Sorted.{IsNonDecreasingBy, IsPermutation};
ghost use Rattle.rx_items.specs.Disjoint.{end_with_run, rest_of, unshared};
ghost use Rattle.rx_items.specs.declared.kept.Run.{Run};

use crate::kept::Run;
use rx_terms::NoMemory;
use std::alloc::Global;

/// Sorts runs by where they begin.
pub(crate) fn sort_by_begin(runs: &mut Vec<Run>)
    ensures same { IsPermutation runs.old.items runs.new.items }
    ensures sorted { IsNonDecreasingBy (λ (run : Run). run.from) runs.new.items }
{
    runs.sort_unstable_by_key(|run| run.from);
}

/// Of each run what is behind those before it. Of sorted runs none is lost.
pub(crate) fn disjoint(alloc: Global, runs: &[Run]) -> Result<Vec<Run>, NoMemory>
    ensures { IfOk result (λ list. list.items ≡ unshared 0 runs.now) }
{
    let mut list = Vec::new(alloc);
    let mut end = 0;
    for run in runs {
        end = add_rest(&mut list, *run, end)?;
    }
    Ok(list)
}

/// Adds what of a run is behind this place, where there is any, and tells where the runs end now.
fn add_rest(list: &mut Vec<Run>, run: Run, end: usize) -> Result<usize, NoMemory>
    ensures end { IfOk result (λ now. now ≡ end_with_run end run) }
    ensures added { OnOk result (list.new.items ≡ list.old.items ++ rest_of end run) }
{
    let from = run.from.max(end);
    if run.to <= from {
        return Ok(end);
    }
    list.push(Run { from, to: run.to })?;
    Ok(run.to)
}
