//! The JSON of a page's top-level items. Faults are found before anything is written, since they come in tree order, and
//! what is written goes by names.
ghost use Rattle.rx_microdata.specs.Visits.{standard_bounds};
ghost use Rattle.rx_items.specs.Rows.{outcome_in};
ghost use Rattle.rx_items.specs.Held.{OfRows};
ghost use Rattle.rx_items.specs.Pages.{JsonGives, TextGives};

use crate::faults::visit_all;
use crate::kept::Kept;
use crate::writing::{value, written};
use rx_tags::Stop;
use serde_json::Value;
use std::alloc::Global;

/// The JSON of a page, or the fault of the first faulty visit.
pub(crate) fn page_of(alloc: Global, kept: &Kept) -> Result<Value, Stop>
    ensures { OfRows kept.now (λ rows base. JsonGives (outcome_in standard_bounds base rows) result) }
{
    visit_all(alloc, kept)?;
    Ok(value(alloc, kept)?)
}

/// The compact text of that JSON, or the same fault.
pub(crate) fn text_of(alloc: Global, kept: &Kept) -> Result<Vec<u8>, Stop>
    ensures { OfRows kept.now (λ rows base. TextGives (outcome_in standard_bounds base rows) result) }
{
    visit_all(alloc, kept)?;
    Ok(written(alloc, kept)?)
}
