//! Why words are no job.
use rx_terms::NoMemory;
use thiserror::Error;

/// Why the words are no job.
#[derive(Clone, Copy, Debug, PartialEq, Eq, Error)]
pub enum JobError {
    /// The words ask for nothing that the program does.
    #[error("the words are not understood")]
    Usage,
    /// There was no memory.
    #[error("there was no memory")]
    NoMemory,
}

impl From<NoMemory> for JobError {
    ghost use Rattle.std.specs.Prelude.{◌≡◌};
    ghost use Rattle.rx_job.specs.declared.errors.JobError.{JobError};

    ghost from_gives = { λ _ error. error ≡ JobError.NoMemory };

    fn from(_error: NoMemory) -> JobError {
        JobError::NoMemory
    }
}
