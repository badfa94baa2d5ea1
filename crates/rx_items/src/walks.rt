//! The items of a page that is read in pieces.
ghost use Rattle.std.specs.Prelude.{◌≡◌, ℕ, List, [], true, IfOk};
ghost use Rattle.rx_nest.specs.Falling.{Answered, MayAnswer};
ghost use Rattle.rx_nest.specs.FaultPlaces.{PlaceGives};
ghost use Rattle.rx_nest.specs.Readings.{IsWhole, has_failed};
ghost use Rattle.rx_items.specs.Collecting.{Collects, MicrodataSetting, microdata_way};
ghost use Rattle.rx_items.specs.Walks as walks;

use crate::collectors::{Base, Collector};
use crate::items::Items;
use rx_nest::{Limits, Reading, Stop, Syntax};
use rx_terms::{Iri, NoMemory};
use std::alloc::Global;
use std::marker::Model;

/// Reads a page's bytes in pieces, and gives the items of the page. What is kept are the elements that matter, with their
/// values. A contract sees the elements that were read, what is kept of them, and whether a fault or want of memory was
/// answered, which then comes again.
#[derive(Drop)]
pub struct ItemWalk {
    reading: Reading<Collector>,
}

impl Model for ItemWalk {
    ghost use Rattle.rx_items.specs.Walks.{ItemsWalked};

    ghost Value = { ItemsWalked };

    ghost view = { λ w. w.reading };
}

/// The items of a whole page.
fn items_of(collector: Collector) -> Result<Items, NoMemory>
    requires { IsWhole microdata_way Collects collector }
    ensures { walks.GivesItems collector result }
{
    let Collector {
        alloc,
        address,
        base,
        table,
    } = collector;
    drop(address);
    match base {
        Base::Known(base) => Items::of_table(alloc, table, base),
        Base::Sought(_sought) => unreachable!(),
    }
}

impl ItemWalk {
    /// Before the first byte of the page at this address. It takes the memory of all levels.
    pub fn new(
        alloc: Global,
        syntax: Syntax,
        address: Iri,
        limits: Limits,
    ) -> Result<ItemWalk, NoMemory>
        ensures { IfOk result (λ walk. walks.ItemWalkStands (record { syntax = syntax; limits = limits; address = address }) walk []) }
    {
        let collector = Collector::new(alloc, address);
        let reading = Reading::new(alloc, syntax, limits, collector)?;
        Ok(ItemWalk { reading })
    }

    /// Takes the whole piece. Text takes no memory where no value gathers it: a piece without `<` and `&` then never wants
    /// memory where no token is unfinished. After a fault or want of memory it answers the same again, and changes nothing.
    pub fn feed(&mut self, piece: &[u8]) -> Result<(), Stop>
        ensures gives { (setting : MicrodataSetting) (bytes : List ℕ) → walks.ItemWalkStands setting self.old bytes
            → walks.ItemWalkFeedGives setting bytes piece.now result self.new }
        ensures place { (setting : MicrodataSetting) (bytes : List ℕ) → walks.ItemWalkStands setting self.old bytes
            → PlaceGives (microdata_way setting) bytes piece.now result }
        ensures quiet { walks.FeedsQuietly self.old piece.now result }
        ensures asked { MayAnswer self.old.failed self.old.out_of_memory result }
        ensures keeps { Answered result self.new.failed self.new.out_of_memory }
        ensures stays { has_failed self.old ≡ true → self.new ≡ self.old }
    {
        self.reading.feed(piece)
    }

    /// The page's end: its items. `Unended` comes exactly where the bytes are no page and no earlier fault stands in them.
    pub fn finish(self) -> Result<Items, Stop>
        ensures gives { (setting : MicrodataSetting) (bytes : List ℕ) → walks.ItemWalkStands setting self bytes → walks.ItemWalkEndGives setting bytes result }
        ensures asked { MayAnswer self.failed self.out_of_memory result }
    {
        let collector = self.reading.finish()?;
        Ok(items_of(collector)?)
    }
}
