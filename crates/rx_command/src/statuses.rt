//! How a run ends.
ghost use Rattle.std.specs.Prelude.{◌≡◌};

use rx_walk::Fault;

/// How a run ended.
#[derive(Clone, Copy, Debug, PartialEq, Eq)]
pub enum Status {
    /// The text was written, and the page was read to its end.
    Done,
    /// The page has this fault, and nothing was written.
    Refused(Fault),
    /// The words ask for nothing that the program does.
    Usage,
    /// A file is missing or couldn't be read.
    ReadFault,
    /// The text couldn't be written whole.
    WriteFault,
    /// There was no memory, and nothing was written.
    Memory,
    /// The context file has another shape, or it is too long; nothing was written.
    BadContext,
}

impl Status {
    ghost use Rattle.rx_command.specs.Runs.{code_of};

    /// The number that the process ends with.
    pub fn code(self) -> u8
        ensures { result ≡ code_of self }
    {
        match self {
            Status::Done => 0,
            Status::Refused(_) => 1,
            Status::Usage => 2,
            Status::ReadFault => 3,
            Status::WriteFault => 4,
            Status::Memory => 5,
            Status::BadContext => 6,
        }
    }
}
