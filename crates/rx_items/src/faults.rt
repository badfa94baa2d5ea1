//! The first faulty visit of a page's items. No JSON is made.
ghost use Rattle.std.specs.Prelude.{◌≡◌, ⊤, OnOk};
ghost use Rattle.rx_items.specs.Held.{OfRows};
ghost use Rattle.rx_items.specs.Expanding.{GivesUnlessFault, token_count};
ghost use Rattle.rx_items.specs.Pages.{AtTop, VisitsGive, top_visits};
ghost use Rattle.rx_items.specs.Visiting.{AtItem, AtRow, AtRows, PassesVisits, visits_again, visits_among, visits_below, visits_by_name, visits_to};

use crate::elements::{element_at, is_item_at, is_top_at};
use crate::gathering::{listed, properties};
use crate::kept::{Element, Kept, Tokens};
use crate::visits::{Trail, enter, leave};
use rx_tags::Stop;
use std::alloc::Global;

/// Visits the items of a page in order of expansion until a visit is faulty.
pub(crate) fn visit_all(alloc: Global, kept: &Kept) -> Result<(), Stop>
    ensures { OfRows kept.now (λ rows base. VisitsGive rows result) }
{
    let mut trail = Trail {
        path: Vec::new(alloc),
        visits: 0,
    };
    for place in 0..kept.rows.as_slice().len() {
        pass_top(alloc, kept, &mut trail, place)?;
    }
    Ok(())
}

/// Visits an element where it is a top-level item.
fn pass_top(alloc: Global, kept: &Kept, trail: &mut Trail, place: usize) -> Result<(), Stop>
    ensures path { OnOk result (trail.new.path.items ≡ trail.old.path.items) }
    ensures finds { AtTop kept.now trail.old place (λ rows base e. GivesUnlessFault trail.old.visits (top_visits rows base e) trail.new.visits (λ done. ⊤) result) }
{
    if !is_top_at(kept, place) {
        return Ok(());
    }
    let Some(element) = element_at(kept, place) else {
        return Ok(());
    };
    pass(alloc, kept, trail, &element, place)
}

/// Visits an item, and those in it.
#[cycle(pass)]
fn pass(
    alloc: Global,
    kept: &Kept,
    trail: &mut Trail,
    element: &Element<'_>,
    place: usize,
) -> Result<(), Stop>
    ensures path { OnOk result (trail.new.path.items ≡ trail.old.path.items) }
    ensures finds { AtItem kept.now trail.old place element.now (PassesVisits trail.old visits_to trail.new result) }
{
    enter(trail, element, place)?;
    pass_item(alloc, kept, trail, element, place)?;
    leave(trail);
    Ok(())
}

/// Visits the items that are values of an item's properties.
#[cycle(pass)]
fn pass_item(
    alloc: Global,
    kept: &Kept,
    trail: &mut Trail,
    element: &Element<'_>,
    place: usize,
) -> Result<(), Stop>
    ensures path { OnOk result (trail.new.path.items ≡ trail.old.path.items) }
    ensures finds { AtItem kept.now trail.old place element.now (PassesVisits trail.old visits_below trail.new result) }
{
    match listed(kept.members.as_slice(), element.own, element.others, place) {
        Some(list) => pass_each(alloc, kept, trail, list),
        None => pass_sorted(alloc, kept, trail, element, place),
    }
}

/// The same, where the places of the properties have to be sorted first.
#[cycle(pass)]
fn pass_sorted(
    alloc: Global,
    kept: &Kept,
    trail: &mut Trail,
    element: &Element<'_>,
    place: usize,
) -> Result<(), Stop>
    ensures path { OnOk result (trail.new.path.items ≡ trail.old.path.items) }
    ensures finds { AtItem kept.now trail.old place element.now (PassesVisits trail.old visits_below trail.new result) }
{
    let list = properties(
        alloc,
        kept.members.as_slice(),
        element.own,
        element.others,
        place,
    )?;
    pass_each(alloc, kept, trail, list.as_slice())
}

/// Visits those of the properties at these places that are items.
#[cycle(pass)]
fn pass_each(alloc: Global, kept: &Kept, trail: &mut Trail, list: &[usize]) -> Result<(), Stop>
    ensures path { OnOk result (trail.new.path.items ≡ trail.old.path.items) }
    ensures finds { AtRows kept.now trail.old list.now (PassesVisits trail.old visits_among trail.new result) }
{
    for place in list {
        pass_property(alloc, kept, trail, *place)?;
    }
    Ok(())
}

/// Visits a property, once for each of its names, where it is an item.
#[cycle(pass)]
fn pass_property(alloc: Global, kept: &Kept, trail: &mut Trail, place: usize) -> Result<(), Stop>
    ensures path { OnOk result (trail.new.path.items ≡ trail.old.path.items) }
    ensures finds { AtRow kept.now trail.old place (PassesVisits trail.old visits_by_name trail.new result) }
{
    if !is_item_at(kept, place) {
        return Ok(());
    }
    let Some(element) = element_at(kept, place) else {
        return Ok(());
    };
    pass_times(alloc, kept, trail, &element, place, count(&element.names))
}

/// Visits an item so many times.
#[cycle(pass)]
fn pass_times(
    alloc: Global,
    kept: &Kept,
    trail: &mut Trail,
    element: &Element<'_>,
    place: usize,
    times: usize,
) -> Result<(), Stop>
    ensures path { OnOk result (trail.new.path.items ≡ trail.old.path.items) }
    ensures finds { AtItem kept.now trail.old place element.now (PassesVisits trail.old (visits_again times) trail.new result) }
{
    for _ in 0..times {
        pass(alloc, kept, trail, element, place)?;
    }
    Ok(())
}

/// How many tokens an attribute has.
fn count(tokens: &Tokens<'_>) -> usize
    ensures { result ≡ token_count tokens.now }
{
    match tokens {
        Tokens::One(_span) => 1,
        Tokens::Many(list) => list.len(),
    }
}
