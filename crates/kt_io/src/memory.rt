// A source and a sink over memory, which fail at the calls of given numbers.
ghost use Rattle.std.specs.Prelude.{◌≡◌, ◌<◌, ◌≤◌, ◌+◌, length, Some, IfOk};
ghost use Rattle.std.specs.Io.{ReadsAtMost};
ghost use Rattle.kt_io.specs.Streams.{HasCause, Reads, Writes, IsCountOf};

use crate::{Failed, Sink, Source};
use kt_law::NoMemory;
use std::alloc::Global;
use std::marker::Model;

/// Gives bytes of memory, at most `piece` a call. The calls whose numbers, from 1, stand in `fails` fail.
#[derive(Drop)]
pub struct MemSource {
    bytes: Vec<u8>,
    given: usize,
    piece: usize,
    fails: Vec<u64>,
    calls: u64,
    faults: u64,
}

impl Model for MemSource {
    ghost use Rattle.std.specs.Prelude.{◌≤◌, ◌<◌, drop, vec_len};
    ghost use Rattle.kt_io.specs.Memory.{Reading};

    ghost Value = { Reading };

    ghost view = { λ s. record {
      left = drop s.given s.bytes.items;
      piece = s.piece;
      fails = s.fails.items;
      calls = s.calls;
      faults = s.faults;
    } };

    ghost invariant = { λ s. (s.given ≤ vec_len s.bytes) × (0 < s.piece) };
}

impl MemSource {
    ghost use Rattle.kt_io.specs.Memory.{fresh_source};

    /// A source of these bytes that was not read yet.
    pub fn new(bytes: Vec<u8>, piece: usize, fails: Vec<u64>) -> Self
        requires { 0 < piece }
        ensures { result ≡ fresh_source bytes.items piece fails.items }
    {
        MemSource {
            bytes,
            given: 0,
            piece,
            fails,
            calls: 0,
            faults: 0,
        }
    }
}

impl Source for MemSource {
    ghost use Rattle.kt_io.specs.Memory.{ReadsInPieces};

    ghost left = { λ s. Some s.left };

    ghost faults = { λ s. s.faults };

    ghost calls = { λ s. s.calls };

    fn read(&mut self, into: &mut [u8]) -> Result<usize, Failed>
        requires { 0 < length into.old }
        ensures bound { ReadsAtMost result into.new }
        ensures bytes { Reads (Some self.old.left) (Some self.new.left) result into.new }
        ensures cause { HasCause self.old.faults self.new.faults result }
        ensures once { self.new.calls ≤ self.old.calls + 1 }

        // Which calls fail, and how many bytes the others give.
        ensures pieces { ReadsInPieces (length into.new) self.old self.new result }
    {
        self.calls = self.calls.saturating_add(1);
        if self.fails.contains(&self.calls) {
            self.faults = self.faults.saturating_add(1);
            return Err(Failed);
        }
        let left = self.bytes.len() - self.given;
        let count = self.piece.min(into.len()).min(left);
        into[..count].copy_from_slice(&self.bytes[self.given..self.given + count]);
        self.given += count;
        Ok(count)
    }
}

/// Takes bytes into memory, at most `piece` a call and `room` in all. It fails where its room is full,
/// and at the calls whose numbers, from 1, stand in `fails`.
#[derive(Drop)]
pub struct MemSink {
    taken: Vec<u8>,
    room: usize,
    piece: usize,
    fails: Vec<u64>,
    calls: u64,
    faults: u64,
}

impl Model for MemSink {
    ghost use Rattle.std.specs.Prelude.{◌≤◌, ◌<◌, vec_len, vec_capacity};
    ghost use Rattle.kt_io.specs.Memory.{Writing};

    ghost Value = { Writing };

    ghost view = { λ s. record {
      written = s.taken.items;
      room = s.room;
      piece = s.piece;
      fails = s.fails.items;
      calls = s.calls;
      faults = s.faults;
    } };

    ghost invariant = { λ s. (vec_len s.taken ≤ s.room) × (s.room ≤ vec_capacity s.taken)
        × (0 < s.piece) };
}

impl MemSink {
    ghost use Rattle.kt_io.specs.Memory.{fresh_sink};

    /// A sink to which nothing was written yet. It takes the memory of its whole room here.
    pub fn new(alloc: Global, room: usize, piece: usize, fails: Vec<u64>) -> Result<Self, NoMemory>
        requires { 0 < piece }
        ensures { IfOk result (λ sink. sink ≡ fresh_sink room piece fails.items) }
    {
        let taken = Vec::with_capacity(alloc, room)?;
        Ok(MemSink {
            taken,
            room,
            piece,
            fails,
            calls: 0,
            faults: 0,
        })
    }

    /// The bytes that were written so far.
    pub fn written(&self) -> &[u8]
        ensures { result.now ≡ self.now.written }
    {
        &self.taken
    }
}

impl Sink for MemSink {
    ghost use Rattle.kt_io.specs.Memory.{WritesInPieces};

    ghost written = { λ s. Some s.written };

    ghost faults = { λ s. s.faults };

    ghost calls = { λ s. s.calls };

    fn write(&mut self, piece: &[u8]) -> Result<usize, Failed>
        requires { 0 < length piece.now }
        ensures bound { IsCountOf result piece.now }
        ensures bytes { Writes (Some self.old.written) (Some self.new.written) result piece.now }
        ensures cause { HasCause self.old.faults self.new.faults result }
        ensures once { self.new.calls ≤ self.old.calls + 1 }

        // Which calls fail, and how many bytes the others take.
        ensures pieces { WritesInPieces (length piece.now) self.old self.new result }
    {
        self.calls = self.calls.saturating_add(1);
        let left = self.room - self.taken.len();
        if left == 0 || self.fails.contains(&self.calls) {
            self.faults = self.faults.saturating_add(1);
            return Err(Failed);
        }
        let count = self.piece.min(piece.len()).min(left);
        self.taken.extend_from_slice(&piece[..count]).unwrap();
        Ok(count)
    }
}
