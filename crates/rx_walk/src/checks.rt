//! A page that is checked in pieces.
ghost use Rattle.std.specs.Prelude.{◌≡◌, ℕ, List, [], true, Err, IfOk};
ghost use Rattle.rx_nest.specs.Falling.{Answered, MayAnswer};
ghost use Rattle.rx_nest.specs.FaultPlaces.{PlaceGives};
ghost use Rattle.rx_nest.specs.Readings.{has_failed};
ghost use Rattle.rx_walk.specs.Settings.{Setting, way_of};
ghost use Rattle.rx_walk.specs.Checks as checks;

use crate::scopes::CheckingListener;
use rx_names::{Context, Names};
use rx_nest::{Limits, Reading, Stop, Syntax};
use rx_terms::NoMemory;
use std::alloc::Global;
use std::marker::Model;

/// Reads a page's bytes in pieces, and tells whether the page would be walked through to its end. What is kept are the open
/// elements with the names in force: a check makes no facts and no triples, so that its memory doesn't grow with the page.
/// A contract sees the elements that were read, the names, and whether a fault or want of memory was answered, which then
/// comes again.
#[derive(Drop)]
pub struct Check {
    reading: Reading<CheckingListener>,
}

impl Model for Check {
    ghost use Rattle.rx_walk.specs.Checks.{Checked};

    ghost Value = { Checked };

    ghost view = { λ c. c.reading };
}

impl Check {
    /// Before the first byte of a page, with the context's prefixes and terms. It takes the memory of all levels.
    pub fn new(
        alloc: Global,
        syntax: Syntax,
        context: Context,
        limits: Limits,
    ) -> Result<Check, NoMemory>
        ensures { IfOk result (λ check. checks.CheckStands (record { syntax = syntax; limits = limits; context = context }) check []) }
    {
        let names = Names::new(alloc, context, limits.depth)?;
        let reading = Reading::new(alloc, syntax, limits, CheckingListener { names })?;
        Ok(Check { reading })
    }

    /// Takes the whole piece. Text takes no memory: a piece without `<` and `&` never wants memory where no token is
    /// unfinished, whatever elements are open. After a fault or want of memory it answers the same again, and changes nothing.
    pub fn feed(&mut self, piece: &[u8]) -> Result<(), Stop>
        ensures gives { (setting : Setting) (bytes : List ℕ) → checks.CheckStands setting self.old bytes
            → checks.CheckFeedGives setting bytes piece.now result self.new }
        ensures place { (setting : Setting) (bytes : List ℕ) → checks.CheckStands setting self.old bytes → PlaceGives (way_of setting) bytes piece.now result }
        ensures quiet { checks.ChecksQuietly self.old piece.now result }
        ensures asked { MayAnswer self.old.failed self.old.out_of_memory result }
        ensures keeps { Answered result self.new.failed self.new.out_of_memory }
        ensures stays { has_failed self.old ≡ true → self.new ≡ self.old }
    {
        self.reading.feed(piece)
    }

    /// The page's end: whether the bytes are a page of which no start tag is refused. `Unended` comes exactly where they are no
    /// page and no earlier fault stands in them.
    pub fn finish(self) -> Result<(), Stop>
        ensures gives { (setting : Setting) (bytes : List ℕ) → checks.CheckStands setting self bytes → checks.CheckEndGives setting bytes result }
        ensures asked { MayAnswer self.failed self.out_of_memory result }
        ensures memory { result ≡ Err Stop.NoMemory → self.out_of_memory ≡ true }
    {
        match self.reading.finish() {
            Ok(scope) => {
                drop(scope);
                Ok(())
            }
            Err(stop) => Err(stop),
        }
    }
}
