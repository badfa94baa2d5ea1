//! A visit of an item: what is wrong with it, where it begins, and where it ends.
ghost use Rattle.std.specs.Prelude.{◌≡◌, ◌++◌, ◌∷◌, [], ℕ, List, length, ◌==◌, nat_le};
ghost use Rattle.std.specs.List.{list_any};
ghost use Rattle.rx_items.specs.Expanding.{BeginsVisit, visit_fault};

use crate::kept::Element;
use rx_grammar::{Fault, Kind};
use rx_tags::Stop;

/// How many items may stand on a path.
pub(crate) const NESTED: usize = 40;

/// How many visits there may be.
const VISITS: u32 = 100_000;

/// The places of the items on the path to an item, the outermost first, and how many visits were made.
#[derive(Drop)]
pub(crate) struct Trail {
    pub(crate) path: Vec<usize>,
    pub(crate) visits: u32,
}

/// What is wrong with a visit to the item at this place.
fn kind_of(trail: &Trail, place: usize) -> Option<Kind>
    ensures { result ≡ visit_fault trail.now.path.items trail.now.visits place }
{
    if is_on(trail.path.as_slice(), place) {
        return Some(Kind::Cycle);
    }
    if is_deep(trail.path.as_slice()) {
        return Some(Kind::ItemsTooNested);
    }
    if are_many(trail.visits) {
        return Some(Kind::ItemsTooMany);
    }
    None
}

fn is_on(path: &[usize], place: usize) -> bool
    ensures { result ≡ list_any (λ (x : ℕ). x == place) path.now }
{
    path.iter().any(|on_path| *on_path == place)
}

fn is_deep(path: &[usize]) -> bool
    ensures { result ≡ nat_le 40 (length path.now) }
{
    NESTED <= path.len()
}

fn are_many(visits: u32) -> bool
    ensures { result ≡ nat_le 100000 visits }
{
    VISITS <= visits
}

/// A visit begins, or is refused.
pub(crate) fn enter(trail: &mut Trail, element: &Element<'_>, place: usize) -> Result<(), Stop>
    ensures { BeginsVisit trail.old trail.new element.now place result }
{
    if let Some(kind) = kind_of(trail, place) {
        return Err(Stop::Fault(Fault {
            kind,
            token: element.token,
            at: element.at,
        }));
    }
    let Ok(()) = trail.path.push(place) else {
        return Err(Stop::NoMemory);
    };
    trail.visits += 1;
    Ok(())
}

/// A visit ends.
pub(crate) fn leave(trail: &mut Trail)
    ensures path { (path : List ℕ) (place : ℕ) → trail.old.path.items ≡ path ++ place ∷ [] → trail.new.path.items ≡ path }
    ensures visits { trail.new.visits ≡ trail.old.visits }
{
    drop(trail.path.pop());
}
