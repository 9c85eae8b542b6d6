// What gives bytes, and what takes them.
ghost use Rattle.std.specs.Prelude.{◌<◌, ◌≤◌, ◌+◌, ℕ, List, length};
ghost use Rattle.std.specs.declared.option.Option.{Option};
ghost use Rattle.std.specs.Io.{ReadsAtMost};
ghost use Rattle.kt_io.specs.Streams.{HasCause, Reads, Writes, IsCountOf};

use std::error::Error;
use std::fmt;

/// The device behind a source or a sink failed.
#[derive(Clone, Copy, Debug, PartialEq, Eq)]
pub struct Failed;

impl fmt::Display for Failed {
    fn fmt<W: fmt::Write>(&self, f: &mut fmt::Formatter<W>) -> fmt::Result {
        write!(f, "the device failed")
    }
}

impl Error for Failed {}

/// What gives bytes. It may fail at any call, and may be asked again afterwards.
pub trait Source {
    /// The bytes that reads will give from here on, where they are told.
    ghost left: { Self → Option (List ℕ) };

    /// How often it has failed. The count never falls, and stays at 2^64-1.
    ghost faults: { Self → ℕ };

    /// How often it was read, where that is told, and else any number that does not grow faster.
    ghost calls: { Self → ℕ };

    /// Reads the next bytes into the front of the buffer; 0 is the end of input.
    fn read(&mut self, into: &mut [u8]) -> Result<usize, Failed>
        requires { 0 < length into.old }
        ensures bound { ReadsAtMost result into.new }
        ensures bytes { Reads (left self.old) (left self.new) result into.new }
        ensures cause { HasCause (faults self.old) (faults self.new) result }
        ensures once { calls self.new ≤ calls self.old + 1 };
}

/// What takes bytes. It may fail at any call, and may be asked again afterwards.
pub trait Sink {
    /// The bytes that were written so far, where they are told.
    ghost written: { Self → Option (List ℕ) };

    /// How often it has failed. The count never falls, and stays at 2^64-1.
    ghost faults: { Self → ℕ };

    /// How often it was written to, where that is told, and else any number that does not grow faster.
    ghost calls: { Self → ℕ };

    /// Writes the front of the piece, and tells how many bytes of it. A device that takes none has failed.
    fn write(&mut self, piece: &[u8]) -> Result<usize, Failed>
        requires { 0 < length piece.now }
        ensures bound { IsCountOf result piece.now }
        ensures bytes { Writes (written self.old) (written self.new) result piece.now }
        ensures cause { HasCause (faults self.old) (faults self.new) result }
        ensures once { calls self.new ≤ calls self.old + 1 };
}
