//! Why there is no session, and why one takes no more.
use rx_terms::NoMemory;
use rx_walk::Fault;

/// Why no session was opened.
#[derive(Clone, Copy, Debug, PartialEq, Eq)]
pub enum OpenError {
    /// What was asked for is nothing: an unknown number, an address or a name that is no IRI, a name for a graph of which
    /// the format can't say it.
    Usage,
    /// The context file has another shape, or it is too long.
    BadContext,
    NoMemory,
}

impl From<NoMemory> for OpenError {
    ghost use Rattle.std.specs.Prelude.{◌≡◌};
    ghost use Rattle.rx_session.specs.declared.errors.OpenError.{OpenError};

    ghost from_gives = { λ _ error. error ≡ OpenError.NoMemory };

    fn from(_error: NoMemory) -> OpenError {
        OpenError::NoMemory
    }
}

/// Why a session doesn't go on.
#[derive(Clone, Copy, Debug, PartialEq, Eq)]
pub enum SessionError {
    /// The page has this fault.
    Refused(Fault),
    NoMemory,
    /// The page was finished, and its text is there.
    Finished,
}
