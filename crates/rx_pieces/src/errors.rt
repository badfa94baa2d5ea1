//! Why a text wasn't written whole.
ghost use Rattle.std.specs.Prelude.{◌≡◌};

use rx_ports::Failed;
use rx_terms::NoMemory;

/// Why a text wasn't written whole.
#[derive(Clone, Copy, Debug, PartialEq, Eq)]
pub enum WriteError {
    /// The sink failed. It holds a proper front of the text more than before, and was given nothing after its failure.
    Failed,
    /// There was no memory. The sink is as it was.
    NoMemory,
}

impl From<Failed> for WriteError {
    ghost use Rattle.rx_pieces.specs.declared.errors.WriteError.{WriteError};

    ghost from_gives = { λ _ error. error ≡ WriteError.Failed };

    fn from(_error: Failed) -> WriteError {
        WriteError::Failed
    }
}

impl From<NoMemory> for WriteError {
    ghost use Rattle.rx_pieces.specs.declared.errors.WriteError.{WriteError};

    ghost from_gives = { λ _ error. error ≡ WriteError.NoMemory };

    fn from(_error: NoMemory) -> WriteError {
        WriteError::NoMemory
    }
}
