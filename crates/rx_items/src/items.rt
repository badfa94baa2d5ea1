//! The items of a whole page.
ghost use Rattle.rx_grammar.specs.Common.{Tree, Chars};
ghost use Rattle.rx_microdata.specs.Elements.{elements_of};
ghost use Rattle.rx_microdata.specs.Json.{outcome_of};
ghost use Rattle.rx_microdata.specs.Visits.{standard_bounds};
ghost use Rattle.rx_items.specs.Rows.{rows_of};
ghost use Rattle.rx_items.specs.Held.{HoldsRows};
ghost use Rattle.rx_items.specs.Pages.{JsonGives, TextGives};

use crate::keeping::kept_of;
use crate::kept::Kept;
use crate::pages::{page_of, text_of};
use crate::tables::Table;
use rx_tags::Stop;
use rx_terms::{Iri, NoMemory};
use serde_json::Value;
use std::alloc::Global;
use std::marker::Model;

/// The items of a whole page.
#[derive(Drop)]
pub struct Items {
    kept: Kept,
}

impl Model for Items {
    ghost use Rattle.rx_items.specs.declared.kept.Kept.{Kept};

    ghost Value = { Kept };

    ghost view = { λ items. items.kept };
}

impl Items {
    ghost use Rattle.std.specs.Prelude.{IfOk};
    ghost use Rattle.rx_items.specs.Showing.{ShowsRows};

    /// The items of a page that has ended with this table, whose references are resolved against this base.
    pub(crate) fn of_table(alloc: Global, table: Table, base: Iri) -> Result<Items, NoMemory>
        ensures { (tree : Tree) → ShowsRows table.words table.text table.times table.rows (rows_of tree)
            → IfOk result (λ items. HoldsRows items (rows_of tree) base) }
    {
        let kept = kept_of(alloc, table.into_rows(), base)?;
        Ok(Items { kept })
    }

    /// The JSON of the top-level items, with each item that is the value of a property in its place, or the fault of
    /// the first faulty visit: an item within itself, items nested beyond 40, or more than 100,000 item objects.
    pub fn json(&self, alloc: Global) -> Result<Value, Stop>
        ensures { (tree : Tree) (base : Chars) → HoldsRows self.now (rows_of tree) base
            → JsonGives (outcome_of standard_bounds (elements_of tree) base) result }
    {
        page_of(alloc, &self.kept)
    }

    /// The compact text of that JSON, or the same fault. It is written piece by piece, so beside the text no more is in memory
    /// than the names and places of the properties of each item on one path.
    pub fn text(&self, alloc: Global) -> Result<Vec<u8>, Stop>
        ensures { (tree : Tree) (base : Chars) → HoldsRows self.now (rows_of tree) base
            → TextGives (outcome_of standard_bounds (elements_of tree) base) result }
    {
        text_of(alloc, &self.kept)
    }
}
