// The frames that a worker has under way.
ghost use Rattle.std.specs.Prelude.{◌≡◌, ◌<◌, ◌≤◌, ◌∷◌, IfOk, IfSome, IfNone, [], length, List};

use kt_body::Ended;
use kt_law::NoMemory;
use std::alloc::Global;
use std::marker::Model;

/// A task whose body has ended, and the frame of its children.
#[derive(Clone, Copy, Debug)]
pub struct Level {
    /// The task's record.
    pub at: u32,
    /// The place of its first child in the region of the worker, and how many there are.
    pub first: u32,
    pub count: u32,
    /// So many of them, the first ones, are known to be finished.
    pub next: u32,
    /// The task is the next entry of the frame below.
    pub own: bool,
    /// The next entry was found stolen.
    pub stolen: bool,
    /// The task is a loop, whose indexes have begun.
    pub looping: bool,
    pub ended: Ended,
}

/// The topmost frame is the last one.
#[derive(Drop)]
pub struct Stack {
    levels: Vec<Level>,
    room: usize,
}

impl Model for Stack {
    ghost use Rattle.std.specs.Prelude.{◌≤◌, reverse, vec_capacity};
    ghost use Rattle.kt_worker.specs.Stacks.{Frames};

    ghost Value = { Frames };

    ghost view = { λ s. record { levels = reverse s.levels.items; room = s.room } };

    ghost invariant = { λ s. s.room ≤ vec_capacity s.levels };
}

impl Stack {
    /// No frame, and room for so many.
    pub fn reserve(alloc: Global, room: usize) -> Result<Stack, NoMemory>
        ensures { IfOk result (λ s. s ≡ record { levels = []; room = room }) }
    {
        let levels = Vec::with_capacity(alloc, room)?;
        Ok(Stack { levels, room })
    }

    pub fn push(&mut self, level: Level)
        requires { length self.old.levels < self.old.room }
        ensures { self.new ≡ record { levels = level ∷ self.old.levels; room = self.old.room } }
    {
        self.levels.push_reserved(level);
    }

    pub fn pop(&mut self) -> Option<Level>
        ensures some { IfSome result (λ l. self.old.levels ≡ l ∷ self.new.levels) }
        ensures none { IfNone result ((self.old.levels ≡ []) × (self.new.levels ≡ [])) }
        ensures room { self.new.room ≡ self.old.room }
    {
        self.levels.pop()
    }
}
