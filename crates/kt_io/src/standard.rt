// The edge: readers and writers of the standard library. What they tell of their bytes is told here,
// so nothing at standard input and standard output.
ghost use Rattle.std.specs.Prelude.{◌≡◌, ◌<◌, ◌≤◌, ◌+◌, length};
ghost use Rattle.std.specs.Io.{ReadsAtMost};
ghost use Rattle.kt_io.specs.Streams.{HasCause, Reads, Writes, IsCountOf};

use crate::{Failed, Sink, Source};
use std::io::{Read, Write};
use std::marker::Model;

/// Reads from a reader. Each error of the reader is a fault.
#[derive(Drop)]
pub struct StdSource<I: Read + Drop> {
    reader: I,
    faults: u64,
}

impl<I: Read + Drop> Model for StdSource<I> {
    ghost use Rattle.kt_io.specs.Standard.{Device};

    ghost Value = { Device };

    ghost view = { λ s. record { bytes = I.remaining s.reader; faults = s.faults } };
}

impl<I: Read + Drop> StdSource<I> {
    /// A source that has not failed yet.
    pub fn new(reader: I) -> Self
        ensures { result ≡ record { bytes = I.remaining reader; faults = 0 } }
    {
        StdSource { reader, faults: 0 }
    }
}

impl<I: Read + Drop> Source for StdSource<I> {
    ghost use Rattle.kt_io.specs.Standard.{CountsFaults};

    ghost left = { λ s. s.bytes };

    ghost faults = { λ s. s.faults };

    ghost calls = { λ _. 0 };

    fn read(&mut self, into: &mut [u8]) -> Result<usize, Failed>
        requires { 0 < length into.old }
        ensures bound { ReadsAtMost result into.new }
        ensures bytes { Reads self.old.bytes self.new.bytes result into.new }
        ensures cause { HasCause self.old.faults self.new.faults result }

        // The count is raised at failures alone.
        ensures count { CountsFaults self.old.faults self.new.faults result }
    {
        match self.reader.read(into) {
            Ok(count) => Ok(count),
            Err(_) => {
                self.faults = self.faults.saturating_add(1);
                Err(Failed)
            }
        }
    }
}

/// Writes to a writer. Each error of the writer is a fault, and so is a write of no bytes.
#[derive(Drop)]
pub struct StdSink<O: Write + Drop> {
    writer: O,
    faults: u64,
}

impl<O: Write + Drop> Model for StdSink<O> {
    ghost use Rattle.kt_io.specs.Standard.{Device};

    ghost Value = { Device };

    ghost view = { λ s. record { bytes = O.contents s.writer; faults = s.faults } };
}

impl<O: Write + Drop> StdSink<O> {
    /// A sink that has not failed yet.
    pub fn new(writer: O) -> Self
        ensures { result ≡ record { bytes = O.contents writer; faults = 0 } }
    {
        StdSink { writer, faults: 0 }
    }
}

impl<O: Write + Drop> Sink for StdSink<O> {
    ghost use Rattle.kt_io.specs.Standard.{CountsFaults};

    ghost written = { λ s. s.bytes };

    ghost faults = { λ s. s.faults };

    ghost calls = { λ _. 0 };

    fn write(&mut self, piece: &[u8]) -> Result<usize, Failed>
        requires { 0 < length piece.now }
        ensures bound { IsCountOf result piece.now }
        ensures bytes { Writes self.old.bytes self.new.bytes result piece.now }
        ensures cause { HasCause self.old.faults self.new.faults result }

        // The count is raised at failures alone.
        ensures count { CountsFaults self.old.faults self.new.faults result }
    {
        match self.writer.write(piece) {
            Ok(count) if count > 0 => Ok(count),
            _ => {
                self.faults = self.faults.saturating_add(1);
                Err(Failed)
            }
        }
    }
}
