//! Why a page isn't read on.
ghost use Rattle.std.specs.Prelude.{◌≡◌};

use crate::faults::Fault;
use rx_terms::NoMemory;

/// Why a page isn't read on.
#[derive(Clone, Copy, Debug, PartialEq, Eq)]
pub enum Stop {
    /// The page has this fault.
    Fault(Fault),
    /// There was no memory.
    NoMemory,
}

impl From<NoMemory> for Stop {
    ghost use Rattle.rx_grammar.specs.declared.stops.Stop.TheVariants.{NoMemory};

    ghost from_gives = { λ _ error. error ≡ NoMemory };

    fn from(_error: NoMemory) -> Stop {
        Stop::NoMemory
    }
}
