//! A page that is handed over in pieces, then its text or its quads.
ghost use Rattle.std.specs.Prelude.{◌≡◌, ◌++◌, [], IfOk, OnErr, length, min, take, drop};
ghost use Rattle.rx_rdfa.specs.Names.{Context as RulesContext};
ghost use Rattle.rx_job.specs.Words.{itemizes, checks};
ghost use Rattle.rx_session.specs.Given.{lent_quad};
ghost use Rattle.rx_session.specs.Wants.{plain, extraction_seen};
ghost use Rattle.rx_session.specs.Sessions.{StoppedBy, IsFed, WhereFed, SessionFeedGives, SessionFinishGives, FeedAgain, FinishAgain, finished_text, nodes_in, quads_in, shown_in, KeepsQuads, ShowsQuad, refused_fault, is_read, is_spent};

use crate::copies::copy_front;
use crate::errors::SessionError;
use crate::given::Given;
use crate::outputs::{Output, Plan};
use crate::works::Work;
use rx_items::ItemWalk;
use rx_names::Context;
use rx_quads::ShownQuad;
use rx_terms::{Iri, NoMemory};
use rx_walk::{Check, Fault, Limits, Stop, Syntax, Walk};
use std::alloc::Global;
use std::marker::Model;
use std::mem;

/// Where a page that is handed over stands.
#[derive(Drop)]
pub(crate) enum State {
    /// It is being read.
    Reads(Work),
    /// It was read to its end, and gives this.
    Gave(Given),
    /// It has this fault.
    Refused(Fault),
    /// There was no memory.
    Spent,
}

/// A page that is handed over in pieces, then its text or its quads. A contract sees where the page stands.
///
/// What was answered comes again: a fault and want of memory at each later call, and a page that was finished stays so.
#[derive(Drop)]
pub struct Session {
    state: State,
}

impl Model for Session {
    ghost use Rattle.rx_session.specs.declared.sessions.State.{State};

    ghost Value = { State };

    ghost view = { λ s. s.state };
}

/// What is asked of an extraction besides the context.
#[derive(Drop)]
pub struct Extraction {
    pub syntax: Syntax,
    pub output: Output,
    pub graph: Option<Iri>,
    pub address: Iri,
    /// The number of the first blank node.
    pub first: u64,
}

impl Session {
    /// Before the first byte of a page whose triples are wanted, under a context.
    pub fn extract(
        alloc: Global,
        extraction: Extraction,
        context: Context,
    ) -> Result<Session, NoMemory>
        ensures { IfOk result (λ session. IsFed (extraction_seen extraction) context [] session) }
    {
        let Extraction {
            syntax,
            output,
            graph,
            address,
            first,
        } = extraction;
        let Ok(plan) = Plan::of(alloc, output, graph, &context) else {
            drop(context);
            drop(address);
            return Err(NoMemory);
        };
        let Ok(walk) = Walk::new(alloc, syntax, context, address, Limits::standard()) else {
            drop(plan);
            return Err(NoMemory);
        };
        Ok(Session {
            state: State::Reads(Work::Extracts { walk, plan, first }),
        })
    }

    /// Before the first byte of a page whose items are wanted.
    pub fn items(alloc: Global, syntax: Syntax, address: Iri) -> Result<Session, NoMemory>
        ensures { (context : RulesContext) → IfOk result (λ session. IsFed (plain (itemizes (record { syntax = syntax; address = address }))) context [] session) }
    {
        let walk = ItemWalk::new(alloc, syntax, address, Limits::standard())?;
        Ok(Session {
            state: State::Reads(Work::Itemizes(walk)),
        })
    }

    /// Before the first byte of a page whose faults are wanted, under a context.
    pub fn check(alloc: Global, syntax: Syntax, context: Context) -> Result<Session, NoMemory>
        ensures { IfOk result (λ session. IsFed (plain (checks syntax)) context [] session) }
    {
        let check = Check::new(alloc, syntax, context, Limits::standard())?;
        Ok(Session {
            state: State::Reads(Work::Checks(check)),
        })
    }

    /// Takes the whole piece.
    pub fn feed(&mut self, piece: &[u8]) -> Result<(), SessionError>
        ensures gives { WhereFed self.old (λ want context bytes. SessionFeedGives want context bytes piece.now result self.new) }
        ensures again { FeedAgain self.old result self.new }
    {
        match &mut self.state {
            State::Reads(work) => match work.feed(piece) {
                Ok(()) => Ok(()),
                Err(stop) => Err(self.stopped(stop)),
            },
            State::Gave(_) => Err(SessionError::Finished),
            State::Refused(fault) => Err(SessionError::Refused(*fault)),
            State::Spent => Err(SessionError::NoMemory),
        }
    }

    /// The page's end: its text is there then, or its quads are.
    pub fn finish(&mut self, alloc: Global) -> Result<(), SessionError>
        ensures gives { WhereFed self.old (λ want context bytes. SessionFinishGives want context bytes result self.new) }
        ensures again { FinishAgain self.old result self.new }
    {
        match mem::replace(&mut self.state, State::Spent) {
            State::Reads(work) => match work.finish(alloc) {
                Ok(given) => {
                    drop(mem::replace(&mut self.state, State::Gave(given)));
                    Ok(())
                }
                Err(stop) => Err(self.stopped(stop)),
            },
            State::Gave(given) => {
                drop(mem::replace(&mut self.state, State::Gave(given)));
                Ok(())
            }
            State::Refused(fault) => {
                drop(mem::replace(&mut self.state, State::Refused(fault)));
                Err(SessionError::Refused(fault))
            }
            State::Spent => Err(SessionError::NoMemory),
        }
    }

    // Nothing is read any more.
    fn stopped(&mut self, stop: Stop) -> SessionError
        ensures { StoppedBy stop result self.new }
    {
        match stop {
            Stop::Fault(fault) => {
                drop(mem::replace(&mut self.state, State::Refused(fault)));
                SessionError::Refused(fault)
            }
            Stop::NoMemory => {
                drop(mem::replace(&mut self.state, State::Spent));
                SessionError::NoMemory
            }
        }
    }

    /// The page's text once it was finished, and nothing before and after a fault or want of memory, nor where its quads are
    /// shown.
    pub fn text(&self) -> &[u8]
        ensures { result.now ≡ finished_text self.now }
    {
        match &self.state {
            State::Reads(_) => &[],
            State::Gave(given) => given.text(),
            State::Refused(_) => &[],
            State::Spent => &[],
        }
    }

    /// Copies the text from this byte on, as far as there is room, and answers how many bytes that are.
    pub fn copy_text(&self, from: usize, out: &mut [u8]) -> usize
        ensures count { result ≡ min (length out.old) (length (drop from (finished_text self.now))) }
        ensures copied { out.new ≡ take result (drop from (finished_text self.now)) ++ drop result out.old }
    {
        let text = self.text();
        copy_front(&text[from.min(text.len())..], out)
    }

    /// How many blank nodes the page's graph has once it was finished, and none otherwise.
    pub fn nodes(&self) -> u64
        ensures { result ≡ nodes_in self.now }
    {
        match &self.state {
            State::Reads(_) => 0,
            State::Gave(given) => given.nodes(),
            State::Refused(_) => 0,
            State::Spent => 0,
        }
    }

    /// How many quads the page has once it was finished, where they are shown one at a time; none otherwise.
    pub fn quad_count(&self) -> usize
        ensures { result ≡ length (quads_in self.now) }
    {
        match &self.state {
            State::Reads(_) => 0,
            State::Gave(given) => given.quad_count(),
            State::Refused(_) => 0,
            State::Spent => 0,
        }
    }

    /// Shows the quad of this number, from 0, and answers whether there is one. Where there is no memory, nothing is changed.
    pub fn show(&mut self, alloc: Global, number: usize) -> Result<bool, NoMemory>
        ensures keeps { KeepsQuads self.old self.new }
        ensures shows { IfOk result (λ is_there. ShowsQuad self.old number is_there self.new) }
        ensures err { OnErr result (self.new ≡ self.old) }
    {
        match &mut self.state {
            State::Reads(_) => Ok(false),
            State::Gave(given) => Ok(given.show(alloc, number)?),
            State::Refused(_) => Ok(false),
            State::Spent => Ok(false),
        }
    }

    /// The quad that was shown last.
    pub fn shown(&self) -> Option<&ShownQuad>
        ensures { lent_quad result ≡ shown_in self.now }
    {
        match &self.state {
            State::Reads(_) => None,
            State::Gave(given) => given.shown(),
            State::Refused(_) => None,
            State::Spent => None,
        }
    }

    /// The page's fault, where it was refused.
    pub fn fault(&self) -> Option<Fault>
        ensures { result ≡ refused_fault self.now }
    {
        match &self.state {
            State::Refused(fault) => Some(*fault),
            State::Reads(_) => None,
            State::Gave(_) => None,
            State::Spent => None,
        }
    }

    /// Whether the page is being read, and so takes pieces.
    pub fn is_read(&self) -> bool
        ensures { result ≡ is_read self.now }
    {
        match &self.state {
            State::Reads(_) => true,
            State::Gave(_) => false,
            State::Refused(_) => false,
            State::Spent => false,
        }
    }

    /// Whether there was no memory.
    pub fn is_spent(&self) -> bool
        ensures { result ≡ is_spent self.now }
    {
        match &self.state {
            State::Reads(_) => false,
            State::Gave(_) => false,
            State::Refused(_) => false,
            State::Spent => true,
        }
    }
}
