//! What was answered comes again.
ghost use Rattle.std.specs.Prelude.{◌≡◌};
ghost use Rattle.rx_scan.specs.Latches.{Repeats, has_answered, latched_by, nothing_answered};

use rx_grammar::Stop;
use std::marker::Model;

/// Whether a fault or want of memory was answered, which then comes again at each later call.
#[derive(Drop)]
pub struct Latch {
    answered: Option<Stop>,
}

impl Model for Latch {
    ghost use Rattle.rx_scan.specs.Latches.{Latched, latched};

    ghost Value = { Latched };

    ghost view = { λ l. latched l.answered };
}

impl Latch {
    /// Neither was answered.
    pub fn new() -> Latch
        ensures { result ≡ nothing_answered }
    {
        Latch { answered: None }
    }

    /// Answers what was answered before, and `Ok` exactly where nothing was.
    #[inline]
    pub fn repeat(&self) -> Result<(), Stop>
        ensures { Repeats self.now result }
    {
        match self.answered {
            None => Ok(()),
            Some(stop) => Err(stop),
        }
    }

    /// Answers this from now on.
    pub fn keep(&mut self, stop: Stop)
        ensures { self.new ≡ latched_by stop }
    {
        self.answered = Some(stop);
    }

    /// Whether a fault or want of memory was answered.
    #[inline]
    pub fn has_answered(&self) -> bool
        ensures { result ≡ has_answered self.now }
    {
        self.answered.is_some()
    }
}
