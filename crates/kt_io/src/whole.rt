// Reading to the end of input, and writing a whole text.
ghost use Rattle.std.specs.Prelude.{◌≡◌, ◌<◌, ◌≤◌, ◌+◌, length, IfOk, OnOk, OnErr, IsErrOf};
ghost use Rattle.std.specs.Io.KnownBytes.{Appends};
ghost use Rattle.kt_io.specs.Streams.{Rose, HasCause, TakesWithin, TakesAll, HasMoreThan, AppendsPart};
ghost use Rattle.kt_io.specs.declared.whole.ReadError.TheVariants.{NoMemory, Failed};

use crate::{Sink, Source, streams};
use std::alloc::{AllocError, Global};
use std::error::Error;
use std::fmt;

/// The most bytes that one read asks for.
const PIECE: usize = 4096;

/// Why not all bytes were read.
#[derive(Clone, Copy, Debug, PartialEq, Eq)]
pub enum ReadError {
    /// The source failed.
    Failed,
    /// The source gave more bytes than the limit.
    TooLong,
    NoMemory,
}

impl fmt::Display for ReadError {
    fn fmt<W: fmt::Write>(&self, f: &mut fmt::Formatter<W>) -> fmt::Result {
        match self {
            ReadError::Failed => write!(f, "the source failed"),
            ReadError::TooLong => write!(f, "too long"),
            ReadError::NoMemory => write!(f, "out of memory"),
        }
    }
}

impl Error for ReadError {}

impl From<AllocError> for ReadError {
    ghost from_gives = { λ _ e. e ≡ NoMemory };

    fn from(_: AllocError) -> Self {
        ReadError::NoMemory
    }
}

impl From<streams::Failed> for ReadError {
    ghost from_gives = { λ _ e. e ≡ Failed };

    fn from(_: streams::Failed) -> Self {
        ReadError::Failed
    }
}

/// Reads to the end of input, but at most one byte more than the limit. After an error the bytes that
/// were read are lost.
pub fn read_all<S: Source>(
    alloc: Global,
    source: &mut S,
    limit: usize,
) -> Result<Vec<u8>, ReadError>
    ensures ok { IfOk result
        (λ bytes. TakesAll (S.left source.old) (S.left source.new) bytes.items) }
    ensures within { IfOk result (λ bytes. length bytes.items ≤ limit) }
    ensures failed { IsErrOf result ReadError.Failed
        → Rose (S.faults source.old) (S.faults source.new) }
    ensures too_long { IsErrOf result ReadError.TooLong → HasMoreThan limit (S.left source.old) }

    // Whatever it answers.
    ensures later { S.faults source.old ≤ S.faults source.new }
    ensures taken { TakesWithin limit (IsErrOf result ReadError.TooLong) (S.left source.old)
        (S.left source.new) }
    ensures reads { S.calls source.new ≤ S.calls source.old + limit + 1 }
{
    let mut bytes = Vec::new(alloc);
    let mut piece = [0; PIECE];
    loop {
        let room = limit - bytes.len();
        // One byte more than there is room for shows that there are too many.
        let ask = PIECE.min(room.saturating_add(1));
        let count = source.read(&mut piece[..ask])?;
        if count == 0 {
            return Ok(bytes);
        }
        if count > room {
            return Err(ReadError::TooLong);
        }
        bytes.extend_from_slice(&piece[..count])?;
    }
}

/// Writes all bytes in order. After a failure a front of them was written, and not all.
pub fn write_all<K: Sink>(sink: &mut K, bytes: &[u8]) -> Result<(), streams::Failed>
    ensures ok { OnOk result (Appends (K.written sink.old) (K.written sink.new) bytes.now) }
    ensures part { OnErr result (AppendsPart (K.written sink.old) (K.written sink.new) bytes.now) }
    ensures cause { HasCause (K.faults sink.old) (K.faults sink.new) result }
    ensures writes { K.calls sink.new ≤ K.calls sink.old + length bytes.now }
{
    let mut rest = bytes;
    while !rest.is_empty() {
        let count = sink.write(rest)?;
        rest = &rest[count..];
    }
    Ok(())
}
