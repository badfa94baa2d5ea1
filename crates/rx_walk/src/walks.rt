//! A page that is walked through in pieces.
ghost use Rattle.std.specs.Prelude.{◌≡◌, [], length, true, Err, IfOk, Some, None, MatchOption, if◌then◌else◌};
ghost use Rattle.rx_names.specs.Lines.{declared_along};
ghost use Rattle.rx_nest.specs.Falling.{Answered, MayAnswer};
ghost use Rattle.rx_nest.specs.FaultPlaces.{PlaceGives};
ghost use Rattle.rx_nest.specs.Readings.{has_failed};
ghost use Rattle.rx_walk.specs.Settings.{way_of};
ghost use Rattle.rx_walk.specs.Walks as walks;

use crate::courses::RdfaListener;
use crate::stages::Stage;
use rx_eval::Inherited;
use rx_names::Context;
use rx_nest::{Limits, Reading, Stop, Syntax};
use rx_terms::{Iri, NoMemory, TripleList};
use std::alloc::Global;
use std::marker::Model;

/// Reads a page's bytes in pieces, and gives the list of its triples. What is kept are the open elements and the triples so
/// far, and until the page's base is known what was told of it. A contract sees the elements that were read, what is known
/// of them, and whether a fault or want of memory was answered, which then comes again.
#[derive(Drop)]
pub struct Walk {
    reading: Reading<RdfaListener>,
}

impl Model for Walk {
    ghost use Rattle.rx_walk.specs.Walks.{Walked};

    ghost Value = { Walked };

    ghost view = { λ w. w.reading };
}

/// The list of a whole page. It takes no memory: the evaluator of a walk has always had what it asked for.
fn list_of(course: RdfaListener) -> TripleList
    requires { walks.CourseIsWhole course }
    ensures { walks.ListsPage course result }
{
    let RdfaListener {
        names,
        maker,
        facts,
        stage,
        ..
    } = course;
    drop(names);
    drop(maker);
    drop(facts);
    match stage {
        Stage::Found(eval) => match eval.finish() {
            Ok(list) => list,
            Err(NoMemory) => unreachable!(),
        },
        Stage::Seeking(_head) => unreachable!(),
    }
}

impl Walk {
    /// Before the first byte of the page at this address, with the context's prefixes and terms. It takes the memory of all
    /// levels.
    pub fn new(
        alloc: Global,
        syntax: Syntax,
        context: Context,
        address: Iri,
        limits: Limits,
    ) -> Result<Walk, NoMemory>
        ensures { IfOk result (λ walk. walks.WalkStands (record { syntax = syntax; limits = limits; context = context }) address walk []) }
    {
        let course = RdfaListener::new(alloc, context, address, limits.depth)?;
        let reading = Reading::new(alloc, syntax, limits, course)?;
        Ok(Walk { reading })
    }

    /// Takes the whole piece. Text takes no memory where the base is known and no open element gathers its text: a piece
    /// without `<` and `&` then never wants memory where no token is unfinished. After a fault or want of memory it answers the
    /// same again, and changes nothing.
    pub fn feed(&mut self, piece: &[u8]) -> Result<(), Stop>
        ensures gives { walks.WhereStands self.old (λ setting address bytes. walks.WalkFeedGives setting address bytes piece.now result self.new) }
        ensures place { walks.WhereStands self.old (λ setting address bytes. PlaceGives (way_of setting) bytes piece.now result) }
        ensures quiet { walks.TakesQuietly self.old piece.now result }
        ensures asked { MayAnswer self.old.failed self.old.out_of_memory result }
        ensures keeps { Answered result self.new.failed self.new.out_of_memory }
        ensures stays { has_failed self.old ≡ true → self.new ≡ self.old }
    {
        self.reading.feed(piece)
    }

    /// The page's end: the list of its triples. `Unended` comes exactly where the bytes are no page and no earlier fault stands
    /// in them. It takes no memory: want of memory is answered only where it was before.
    pub fn finish(self) -> Result<TripleList, Stop>
        ensures gives { walks.WhereStands self (λ setting address bytes. walks.WalkEndGives setting address bytes result) }
        ensures asked { MayAnswer self.failed self.out_of_memory result }
        ensures memory { result ≡ Err Stop.NoMemory → self.out_of_memory ≡ true }
    {
        match self.reading.finish() {
            Ok(course) => Ok(list_of(course)),
            Err(stop) => Err(stop),
        }
    }

    /// How many elements are open, none after a fault or want of memory.
    pub fn depth(&self) -> u32
        ensures count { result ≡ (if has_failed self.now then 0 else self.now.listener.count) }
        ensures line { walks.DepthGives self.now result }
    {
        if self.reading.has_failed() {
            return 0;
        }
        self.reading.listener().count
    }

    /// How many declarations of prefixes, vocabularies and languages are kept, none after a fault or want of memory.
    pub fn rows(&self) -> usize
        ensures count { result ≡ (if has_failed self.now then 0 else length self.now.listener.names.rows) }
        ensures bound { walks.IsBoundedBy self.now declared_along result }
    {
        if self.reading.has_failed() {
            return 0;
        }
        self.reading.listener().names.rows()
    }

    /// The context in which a child of the innermost open element would stand; none before the page's base is known, where no
    /// element is open, and after a fault or want of memory.
    pub fn inherited(&self) -> Option<Inherited<'_>>
        ensures open { MatchOption result (walks.state_open self.now ≡ None) (walks.ShowsOpen self.now) }
        ensures line { walks.ShowsOnceKnown self.now result }
    {
        if self.reading.has_failed() || self.reading.listener().count == 0 {
            return None;
        }
        match &self.reading.listener().stage {
            Stage::Seeking(_head) => None,
            Stage::Found(eval) => Some(eval.inherited()),
        }
    }
}
