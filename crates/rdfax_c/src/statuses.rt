//! The numbers of answers.
ghost use Rattle.std.specs.Prelude.{◌≡◌};
ghost use Rattle.rdfax_c.specs.Statuses.{answer_code, open_code, state_code};

use rx_session::{OpenError, Session, SessionError};

/// What was asked was done.
pub(crate) const DONE: u32 = 0;
/// The page has a fault.
pub(crate) const REFUSED: u32 = 1;
/// Nothing that is done was asked for.
pub(crate) const USAGE: u32 = 2;
/// There was no memory.
pub(crate) const NO_MEMORY: u32 = 5;
/// The context file is none.
pub(crate) const BAD_CONTEXT: u32 = 6;
/// The page is being read.
pub(crate) const READING: u32 = 8;

/// The number of what a session answered.
pub(crate) fn answer_code(answer: Result<(), SessionError>) -> u32
    ensures { result ≡ answer_code answer }
{
    match answer {
        Ok(()) => DONE,
        Err(SessionError::Refused(_)) => REFUSED,
        Err(SessionError::Finished) => USAGE,
        Err(SessionError::NoMemory) => NO_MEMORY,
    }
}

/// The number of why no session was opened.
pub(crate) fn open_code(error: OpenError) -> u32
    ensures { result ≡ open_code error }
{
    match error {
        OpenError::Usage => USAGE,
        OpenError::BadContext => BAD_CONTEXT,
        OpenError::NoMemory => NO_MEMORY,
    }
}

/// The number of where a session stands.
pub(crate) fn state_code(session: &Session) -> u32
    ensures { result ≡ state_code session.now }
{
    if session.is_read() {
        return READING;
    }
    if session.is_spent() {
        return NO_MEMORY;
    }
    match session.fault() {
        Some(_fault) => REFUSED,
        None => DONE,
    }
}
