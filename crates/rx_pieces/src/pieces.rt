//! Bytes on their way to a sink, which are sent in pieces.
ghost use Rattle.std.specs.Prelude.{◌≡◌, ◌+◌, ◌≤◌, ℕ, [], IfOk, OnOk, is_err, length, false};
ghost use Rattle.rx_pieces.specs.Underway.{nothing_waits, keeps, PushesBytes};

use rx_ports::{Failed, PIECE, Sink, put_all};
use rx_terms::NoMemory;
use std::alloc::Global;
use std::marker::Model;

/// Bytes that wait until they are a piece. Once the sink has failed it is given nothing more, and what is added is lost;
/// `send` says so.
#[derive(Drop)]
pub struct Pieces {
    waiting: Vec<u8>,
    failed: bool,
}

impl Model for Pieces {
    ghost use Rattle.std.specs.Prelude.{◌≤◌, vec_len, vec_capacity};
    ghost use Rattle.rx_pieces.specs.Underway.{Underway};

    ghost Value = { Underway };

    ghost view = { λ p. record { waiting = p.waiting.items; failed = p.failed } };

    ghost invariant = { λ p. (vec_len p.waiting ≤ 65536) × (65536 ≤ vec_capacity p.waiting) };
}

impl Pieces {
    /// Takes the memory of a piece, which is all that is ever taken.
    pub fn new(alloc: Global) -> Result<Pieces, NoMemory>
        ensures { IfOk result (λ pieces. pieces ≡ nothing_waits false) }
    {
        let waiting = Vec::with_capacity(alloc, PIECE)?;
        Ok(Pieces {
            waiting,
            failed: false,
        })
    }

    /// Whether the sink has failed.
    #[inline(always)]
    pub fn has_failed(&self) -> bool
        ensures { result ≡ self.now.failed }
    {
        self.failed
    }

    /// Adds bytes, which mostly fit into the piece.
    #[inline(always)]
    pub fn add<S: Sink>(&mut self, sink: &mut S, bytes: &[u8])
        ensures { PushesBytes S.held S.faults self.old sink.old self.new sink.new bytes.now }
    {
        if bytes.len() <= self.room() {
            self.keep(bytes);
        } else {
            self.add_sending(sink, bytes);
        }
    }

    /// How many bytes the piece lacks.
    #[inline(always)]
    fn room(&self) -> usize
        ensures { result + length self.now.waiting ≡ 65536 }
    {
        PIECE - self.waiting.len()
    }

    #[inline(always)]
    fn keep(&mut self, bytes: &[u8])
        requires { length self.old.waiting + length bytes.now ≤ 65536 }
        ensures { self.new ≡ keeps self.old bytes.now }
    {
        match self.waiting.extend_from_slice(bytes) {
            Ok(()) => {}
            Err(_error) => unreachable!(),
        }
    }

    /// Adds bytes that end a piece, or many.
    #[cold]
    #[inline(never)]
    fn add_sending<S: Sink>(&mut self, sink: &mut S, bytes: &[u8])
        ensures { PushesBytes S.held S.faults self.old sink.old self.new sink.new bytes.now }
    {
        let mut rest = bytes;
        while rest.len() > self.room() {
            let (front, behind) = rest.split_at(self.room());
            self.keep(front);
            self.start_next(sink);
            rest = behind;
        }
        self.keep(rest);
    }

    /// Sends what waits, and begins the next piece.
    fn start_next<S: Sink>(&mut self, sink: &mut S)
        ensures adds { PushesBytes S.held S.faults self.old sink.old self.new sink.new [] }
        ensures empty { self.new.waiting ≡ [] }
    {
        self.failed = self.send(sink).is_err();
        self.waiting.clear();
    }

    /// Sends what waits, unless the sink has failed. It answers `Failed` where a piece before it wasn't taken, too.
    pub fn send<S: Sink>(&self, sink: &mut S) -> Result<(), Failed>
        ensures adds { PushesBytes S.held S.faults self.now sink.old (nothing_waits (is_err result)) sink.new [] }
        ensures whole { OnOk result (self.now.failed ≡ false) }
    {
        if self.failed {
            return Err(Failed);
        }
        put_all(sink, self.waiting.as_slice())
    }
}
