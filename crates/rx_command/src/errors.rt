//! Why a job has no text.
use rx_terms::NoMemory;
use rx_walk::Fault;

/// Why there is no text.
#[derive(Clone, Copy, Debug, PartialEq, Eq)]
pub(crate) enum InputError {
    /// A file is missing or couldn't be read.
    Failed,
    /// The context file has another shape, or it is too long.
    BadContext,
    /// The page has this fault.
    Refused(Fault),
    NoMemory,
}

impl From<NoMemory> for InputError {
    ghost use Rattle.std.specs.Prelude.{◌≡◌};
    ghost use Rattle.rx_command.specs.declared.errors.InputError.{InputError};

    ghost from_gives = { λ _ error. error ≡ InputError.NoMemory };

    fn from(_error: NoMemory) -> InputError {
        InputError::NoMemory
    }
}
