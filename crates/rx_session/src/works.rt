//! A page that is being read, for its triples, for its items or for its faults.
ghost use Rattle.std.specs.Prelude.{ℕ, List, IfOk};
ghost use Rattle.rx_rdfa.specs.Names.{Context as RulesContext};
ghost use Rattle.rx_page.specs.Written.{graph_made};
ghost use Rattle.rx_session.specs.Given.{IsGiven};
ghost use Rattle.rx_session.specs.Wants.{Want};
ghost use Rattle.rx_session.specs.Works.{ReadsWanted, WorkPieceGives, WorkEndGives, CheckEnds, ExtractionEnds, ItemizationEnds};

use crate::given::Given;
use crate::graphs::Counted;
use crate::outputs::Plan;
use rx_items::ItemWalk;
use rx_page::{PageReader, right_text, text_of, text_of_items};
use rx_quads::Quads;
use rx_terms::{NoMemory, TripleList};
use rx_walk::{Check, Stop, Walk};
use std::alloc::Global;

/// A page that is being read: a walk where its triples are wanted, with how they are handed over and the number of the first
/// blank node, or where its items are; and a check where only its faults are.
#[derive(Drop)]
pub(crate) enum Work {
    Extracts { walk: Walk, plan: Plan, first: u64 },
    Itemizes(ItemWalk),
    Checks(Check),
}

impl Work {
    /// Takes the whole piece.
    pub(crate) fn feed(&mut self, piece: &[u8]) -> Result<(), Stop>
        ensures { (want : Want) (context : RulesContext) (bytes : List ℕ) → ReadsWanted want context self.old bytes
            → WorkPieceGives want context bytes piece.now result self.new }
    {
        match self {
            Work::Extracts { walk, .. } => PageReader::feed(walk, piece),
            Work::Itemizes(walk) => PageReader::feed(walk, piece),
            Work::Checks(check) => PageReader::feed(check, piece),
        }
    }

    /// The page's end, and what it gives.
    pub(crate) fn finish(self, alloc: Global) -> Result<Given, Stop>
        ensures { (want : Want) (context : RulesContext) (bytes : List ℕ) → ReadsWanted want context self bytes → WorkEndGives want context bytes result }
    {
        match self {
            Work::Extracts { walk, plan, first } => extracted(alloc, walk, plan, first),
            Work::Itemizes(walk) => itemized(alloc, walk),
            Work::Checks(check) => checked(alloc, check),
        }
    }
}

/// What the page's triples give.
fn extracted(alloc: Global, walk: Walk, plan: Plan, first: u64) -> Result<Given, Stop>
    ensures { ExtractionEnds walk plan first result }
{
    let list = match PageReader::finish(walk) {
        Ok(list) => list,
        Err(stop) => {
            drop(plan);
            return Err(stop);
        }
    };
    Ok(given_of(alloc, list, plan, first)?)
}

fn given_of(alloc: Global, list: TripleList, plan: Plan, first: u64) -> Result<Given, NoMemory>
    ensures { IfOk result (λ given. IsGiven plan first (graph_made list) given) }
{
    let Ok(counted) = Counted::of(alloc, list, first) else {
        drop(plan);
        return Err(NoMemory);
    };
    let Counted { graph, nodes } = counted;
    match plan {
        Plan::Text(form) => {
            let text = text_of(alloc, graph, form)?;
            Ok(Given::Text { text, nodes })
        }
        Plan::Quads(name) => {
            let quads = Quads::new(alloc, graph, name);
            Ok(Given::Quads { quads, nodes })
        }
    }
}

/// The text of the page's items.
fn itemized(alloc: Global, walk: ItemWalk) -> Result<Given, Stop>
    ensures { ItemizationEnds walk result }
{
    let found = match PageReader::finish(walk) {
        Ok(found) => found,
        Err(stop) => return Err(stop),
    };
    match text_of_items(alloc, &found) {
        Ok(text) => {
            drop(found);
            Ok(Given::Text { text, nodes: 0 })
        }
        Err(stop) => {
            drop(found);
            Err(stop)
        }
    }
}

/// That the page is one.
fn checked(alloc: Global, check: Check) -> Result<Given, Stop>
    ensures { CheckEnds check result }
{
    match PageReader::finish(check) {
        Ok(()) => {}
        Err(stop) => return Err(stop),
    }
    let text = right_text(alloc)?;
    Ok(Given::Text { text, nodes: 0 })
}
