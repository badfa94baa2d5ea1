//! A page that is read in pieces.
ghost use Rattle.std.specs.Prelude.{◌≡◌, [], true, false, Err, IfOk};
ghost use Rattle.rx_nest.specs.Falling.{Answered, MayAnswer};
ghost use Rattle.rx_nest.specs.FaultPlaces.{FeedsInPlace};
ghost use Rattle.rx_nest.specs.Quiets as quiets;
ghost use Rattle.rx_nest.specs.Readings as readings;
ghost use Rattle.rx_nest.specs.Turns.{TurnTakes, TakesByte};

use crate::listener::Listener;
use crate::nests::Nest;
use crate::turns::{Turn, is_more};
use rx_grammar::Limits;
use rx_scan::{Latch, Syntax};
use rx_tags::Stop;
use rx_terms::NoMemory;
use std::alloc::Global;
use std::marker::Model;

/// Reads a page's bytes in pieces, and tells a listener of its elements. What is kept are the open elements, and what the
/// listener keeps. A contract sees the elements that were read, the listener, and whether a fault or want of memory was
/// answered, which then comes again.
#[derive(Drop)]
pub struct Reading<L: Listener> {
    nest: Nest,
    listener: L,
    latch: Latch,
}

impl<L: Listener> Model for Reading<L> {
    ghost use Rattle.rx_nest.specs.Readings.{Read, Ready};

    ghost Value = { Read L };

    ghost view = { λ r. record { nest = r.nest; listener = r.listener; failed = r.latch.failed; out_of_memory = r.latch.out_of_memory } };

    ghost invariant = { λ r. Ready L.way L.knows r.nest r.listener r.latch.failed r.latch.out_of_memory };
}

/// Takes what comes next of the page's tree.
fn step<L: Listener>(nest: &mut Nest, listener: &mut L, piece: &[u8]) -> Result<Turn, Stop>
    requires { readings.Somewhere L.way L.knows nest.old listener.old }
    ensures gives { readings.TakesTurn L.way L.knows nest.old listener.old piece.now result nest.new listener.new }
    ensures takes { TurnTakes piece.now result nest.old.owed nest.new.owed }
    ensures quiet { quiets.TakesTurnQuietly L.way L.knows L.idle nest.old listener.old piece.now result nest.new listener.new }
{
    let (taken, event) = match nest.step(piece) {
        Ok(step) => step,
        Err(stop) => return Err(stop),
    };
    let is_done = is_more(event);
    match listener.hear(event) {
        Ok(()) if is_done => Ok(Turn::Done),
        Ok(()) => Ok(Turn::Took(taken)),
        Err(stop) => Err(stop),
    }
}

/// Goes on until bytes are taken: what is due before needs none.
fn take_some<L: Listener>(nest: &mut Nest, listener: &mut L, piece: &[u8]) -> Result<Turn, Stop>
    requires { readings.Somewhere L.way L.knows nest.old listener.old }
    ensures gives { readings.TakesTurn L.way L.knows nest.old listener.old piece.now result nest.new listener.new }
    ensures takes { TakesByte piece.now result }
    ensures quiet { quiets.TakesTurnQuietly L.way L.knows L.idle nest.old listener.old piece.now result nest.new listener.new }
{
    'turns: loop {
        match step(nest, listener, piece) {
            Ok(Turn::Took(0)) => {}
            Ok(turn) => return Ok(turn),
            Err(stop) => return Err(stop),
        }
    }
}

/// Takes the whole piece.
fn take_all<L: Listener>(nest: &mut Nest, listener: &mut L, piece: &[u8]) -> Result<(), Stop>
    requires { readings.Somewhere L.way L.knows nest.old listener.old }
    ensures gives { readings.TakesPiece L.way L.knows nest.old listener.old piece.now result nest.new listener.new }
    ensures quiet { quiets.TakesPieceQuietly L.way L.knows L.idle nest.old listener.old piece.now result }
{
    let mut rest = piece;
    'turns: loop {
        match take_some(nest, listener, rest) {
            Ok(Turn::Took(taken)) => rest = &rest[taken..],
            Ok(Turn::Done) => return Ok(()),
            Err(stop) => return Err(stop),
        }
    }
}

impl<L: Listener + Drop> Reading<L> {
    /// Before the first byte of a page, whose listener was told nothing. It takes the memory of all levels.
    pub fn new(
        alloc: Global,
        syntax: Syntax,
        limits: Limits,
        listener: L,
    ) -> Result<Reading<L>, NoMemory>
        requires { readings.IsNewListener L.way L.knows syntax limits listener }
        ensures { IfOk result (λ reading. readings.StandsFirst L.way L.knows syntax limits listener reading) }
    {
        let Ok(nest) = Nest::new(alloc, syntax, limits) else {
            drop(listener);
            return Err(NoMemory);
        };
        Ok(Reading {
            nest,
            listener,
            latch: Latch::new(),
        })
    }

    /// Takes the whole piece. Text takes no memory where the listener needs none for it: a piece without `<` and `&` then
    /// never wants memory where no token is unfinished. After a fault or want of memory it answers the same again, and changes
    /// nothing: the listener is told no more.
    pub fn feed(&mut self, piece: &[u8]) -> Result<(), Stop>
        ensures gives { readings.Feeds L.way L.knows self.old piece.now result self.new }
        ensures place { FeedsInPlace L.way L.knows self.old piece.now result }
        ensures quiet { quiets.FeedsQuietly L.way L.knows L.idle self.old piece.now result }
        ensures asked { MayAnswer self.old.failed self.old.out_of_memory result }
        ensures keeps { Answered result self.new.failed self.new.out_of_memory }
        ensures stays { readings.has_failed self.old ≡ true → self.new ≡ self.old }
    {
        self.latch.repeat()?;
        match take_all(&mut self.nest, &mut self.listener, piece) {
            Ok(()) => Ok(()),
            Err(stop) => {
                self.latch.keep(stop);
                Err(stop)
            }
        }
    }

    /// The page's end: the listener, which was told of the whole page. `Unended` comes exactly where the bytes are no page and
    /// no earlier fault stands in them. It takes no memory: want of memory is answered only where it was before.
    pub fn finish(self) -> Result<L, Stop>
        ensures gives { readings.Finishes L.way L.knows self result }
        ensures whole { IfOk result (λ listener. readings.IsWhole L.way L.knows listener) }
        ensures asked { MayAnswer self.failed self.out_of_memory result }
        ensures memory { result ≡ Err Stop.NoMemory → self.out_of_memory ≡ true }
    {
        let Reading {
            mut nest,
            listener,
            latch,
        } = self;
        if let Err(stop) = latch.repeat() {
            drop(nest);
            drop(listener);
            return Err(stop);
        }
        match nest.end() {
            Ok(()) => {
                drop(nest);
                Ok(listener)
            }
            Err(stop) => {
                drop(nest);
                drop(listener);
                Err(stop)
            }
        }
    }

    /// Who listens.
    #[inline]
    pub fn listener(&self) -> &L
        ensures { result.now ≡ self.now.listener }
    {
        &self.listener
    }

    /// Whether a fault or want of memory was answered.
    #[inline]
    pub fn has_failed(&self) -> bool
        ensures { result ≡ readings.has_failed self.now }
    {
        self.latch.has_answered()
    }
}
