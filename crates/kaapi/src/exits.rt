// How a call ends.
ghost use Rattle.std.specs.Prelude.{◌≡◌};
ghost use Rattle.kaapi.specs.Exits.{ends_run, number_of};

/// How a call ends.
#[derive(Clone, Copy, Debug, PartialEq, Eq)]
pub enum Exit {
    /// The rows, or the canonical text, were written.
    Done,
    /// The words have no form that is served.
    Usage,
    /// The source failed, and nothing was written.
    ReadFault,
    /// The sink failed, and a part of the answer was written.
    WriteFault,
    /// The program is not read, or not accepted.
    Refused,
    /// The data are not the numbers that the program wants.
    BadData,
    /// The run met a fault.
    Fault,
    /// The run had too many tasks or indexes.
    Limit,
    /// The job has too many bytes.
    TooLong,
    /// There was no memory, and nothing was written.
    NoMemory,
}

impl Exit {
    /// The status with which the process ends.
    pub fn code(self) -> u8
        ensures { result ≡ number_of self }
    {
        match self {
            Exit::Done => 0,
            Exit::Usage => 2,
            Exit::ReadFault => 3,
            Exit::WriteFault => 4,
            Exit::Refused => 5,
            Exit::BadData => 6,
            Exit::Fault => 7,
            Exit::Limit => 8,
            Exit::TooLong => 9,
            Exit::NoMemory => 10,
        }
    }

    /// Whether a run came to its end, and its answer was written.
    pub fn ends_run(self) -> bool
        ensures { result ≡ ends_run self }
    {
        match self {
            Exit::Done | Exit::Fault | Exit::Limit => true,
            Exit::Usage
            | Exit::ReadFault
            | Exit::WriteFault
            | Exit::Refused
            | Exit::BadData
            | Exit::TooLong
            | Exit::NoMemory => false,
        }
    }
}
