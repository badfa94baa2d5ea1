//! The runs of members that are properties of an item.
ghost use Rattle.std.specs.Prelude.{◌≡◌, ◌≢◌, ◌++◌, [], ◌∷◌, ℕ, List, IfOk, OnOk};
ghost use Rattle.rx_items.specs.Disjoint.{Apart};
ghost use Rattle.rx_items.specs.Properties.{in_runs, members_in};
ghost use Rattle.rx_items.specs.Starts.{HaveReached, OfSorted};

use crate::disjoint::{disjoint, sort_by_begin};
use crate::kept::{Reach, Run};
use crate::rows::Row;
use crate::starts::{own_run, start_run};
use rx_terms::NoMemory;
use std::alloc::Global;

/// The members that the item at this place has below it, and those that these starts reach.
pub(crate) fn reach_of(
    alloc: Global,
    rows: &[Row],
    members: &[usize],
    starts: &[usize],
    place: usize,
) -> Result<Reach, NoMemory>
    ensures reach { OfSorted rows.now members.now (λ tree. IfOk result (λ reach. HaveReached tree members.now place starts.now (reach.own ∷ reach.others.items))) }
    ensures apart { IfOk result (λ reach. Apart 0 reach.others.items) }
    ensures one { starts.now ≡ [] → IfOk result (λ reach. reach.others.items ≡ []) }
    ensures many { starts.now ≢ [] → IfOk result (λ reach. reach.own ≡ record { from = 0; to = 0 }) }
{
    if starts.is_empty() {
        return Ok(Reach {
            own: own_run(rows, members, place),
            others: Vec::new(alloc),
        });
    }
    let others = runs_apart(alloc, rows, members, starts, place)?;
    Ok(Reach {
        own: Run { from: 0, to: 0 },
        others,
    })
}

/// What an element reaches that is no item.
pub(crate) fn no_reach(alloc: Global) -> Reach {
    Reach {
        own: Run { from: 0, to: 0 },
        others: Vec::new(alloc),
    }
}

/// The same members in runs that share none.
fn runs_apart(
    alloc: Global,
    rows: &[Row],
    members: &[usize],
    starts: &[usize],
    place: usize,
) -> Result<Vec<Run>, NoMemory>
    ensures reach { OfSorted rows.now members.now (λ tree. IfOk result (λ runs. HaveReached tree members.now place starts.now runs.items)) }
    ensures apart { IfOk result (λ runs. Apart 0 runs.items) }
{
    let mut runs = runs_of(alloc, rows, members, starts, place)?;
    sort_by_begin(&mut runs);
    Ok(disjoint(alloc, runs.as_slice())?)
}

/// The run of what the item has below it, and that of each start. Starts may lie in each other, and so may their runs.
fn runs_of(
    alloc: Global,
    rows: &[Row],
    members: &[usize],
    starts: &[usize],
    place: usize,
) -> Result<Vec<Run>, NoMemory>
    ensures { OfSorted rows.now members.now (λ tree. IfOk result (λ runs. HaveReached tree members.now place starts.now runs.items)) }
{
    let mut runs = Vec::new(alloc);
    add_run(&mut runs, own_run(rows, members, place))?;
    for start in starts {
        add_run(&mut runs, start_run(rows, members, *start))?;
    }
    Ok(runs)
}

/// Adds a run where it has a member.
fn add_run(runs: &mut Vec<Run>, run: Run) -> Result<(), NoMemory>
    ensures { OnOk result ((members : List ℕ) → in_runs members runs.new.items ≡ in_runs members runs.old.items ++ members_in members run) }
{
    if run.to <= run.from {
        return Ok(());
    }
    runs.push(run)?;
    Ok(())
}
