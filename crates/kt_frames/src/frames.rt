// The stack of frames of the tasks that run.
ghost use Rattle.std.specs.Prelude.{◌≡◌, ◌≤◌, ◌<◌, ◌+◌, ◌-◌, ◌↔◌, IfOk, IsTrue, length};
ghost use Rattle.kt_frames.specs.Stack.{HasEnded, IsRunning, begun, finished_top, next_of, opened, path_over, pushed, pushed_as};

use arrayvec::ArrayVec;
use kt_law::NoMemory;
use kt_prog::{Call, PATH};
use std::alloc::Global;
use std::marker::Model;

/// Whether a child was added. A child that was has the count of tasks before it as its number; one that was not would
/// have made the count this large.
#[derive(Clone, Copy, Debug, PartialEq, Eq)]
pub enum Pushed {
    Pushed(u32),
    Limit(u32),
}

/// The tasks under way, each with a frame for the calls that it forked. A task runs from the `next` that gave its call
/// to its `finish`, and the topmost frame is that of the task that was claimed last.
#[derive(Drop)]
pub struct Frames {
    // those of all frames, the lower frames' first
    calls: Vec<Call>,
    below: Vec<Span>,
    // of the topmost frame
    start: usize,
    at: usize,
    tasks: u32,
    room: u32,
}

/// A frame below the topmost: where its calls start, and which of them runs.
#[derive(Clone, Copy)]
struct Span {
    start: u32,
    at: u32,
    ghost small: { at < 4294967295 },
}

impl Span {
    /// The number of the entry that runs, counted from 1.
    fn number(&self) -> u32
        ensures { result ≡ (self.now.at - self.now.start) + 1 }
    {
        self.at.saturating_sub(self.start) + 1
    }
}

impl Model for Frames {
    ghost use Rattle.std.specs.Prelude.{drop, reverse, ◌-◌};
    ghost use Rattle.kt_frames.specs.Stack.{Stack};

    ghost Value = { Stack };

    ghost use Rattle.kt_frames.specs.Layout.{IsLaidOut, frame_from, frames_below};

    ghost view = { λ f. record {
      top = frame_from f.start f.at f.calls.items;
      below = frames_below f.start (reverse f.below.items) f.calls.items;
      tasks = f.tasks;
      room = f.room;
    } };

    ghost invariant = { IsLaidOut };
}

impl Frames {
    /// A stack with one frame, whose one entry is the call of `main`, and with room for so many tasks, `main` among them.
    /// No other call takes memory.
    pub fn reserve(alloc: Global, tasks: u32) -> Result<Frames, NoMemory>
        requires some { 1 ≤ tasks }
        requires few { tasks ≤ 4294967294 }
        ensures { IfOk result (λ frames. frames ≡ opened tasks) }
    {
        let mut calls = Vec::with_capacity(alloc, tasks as usize)?;
        let below = Vec::with_capacity(alloc, tasks as usize)?;
        calls.push_reserved(Call::of_main());
        Ok(Frames {
            calls,
            below,
            start: 0,
            at: 0,
            tasks: 1,
            room: tasks,
        })
    }

    /// Adds a child of the task that runs to the topmost frame.
    pub fn push(&mut self, call: &Call) -> Pushed
        requires { IsRunning self.old }
        ensures answer { result ≡ pushed_as self.old }
        ensures frames { self.new ≡ pushed self.old call.now }
    {
        if self.tasks >= self.room {
            return Pushed::Limit(self.tasks + 1);
        }
        self.calls.push_reserved(call.copied());
        let number = self.tasks;
        self.tasks += 1;
        Pushed::Pushed(number)
    }

    /// Claims the first unfinished entry of the topmost frame and begins a frame for its children. None where the topmost
    /// frame has no unfinished entry.
    pub fn next(&mut self) -> Option<Call>
        ensures call { result ≡ next_of self.old }
        ensures frames { self.new ≡ begun self.old }
    {
        if self.at == self.calls.len() {
            return None;
        }
        let call = self.calls[self.at].copied();
        let (start, at) = (self.start as u32, self.at as u32);
        self.below.push_reserved(Span { start, at });
        self.start = self.calls.len();
        self.at = self.start;
        Some(call)
    }

    /// Pops the topmost frame and finishes its task.
    pub fn finish(&mut self)
        requires runs { IsRunning self.old }
        requires ended { HasEnded self.old }
        ensures { self.new ≡ finished_top self.old }
    {
        self.calls.truncate(self.start);
        match self.below.pop() {
            Some(span) => {
                self.start = span.start as usize;
                self.at = span.at as usize + 1;
            }
            None => unreachable!(),
        }
    }

    /// Whether a task runs.
    pub fn is_running(&self) -> bool
        ensures { IsTrue result ↔ IsRunning self.now }
    {
        !self.below.is_empty()
    }

    /// The path of the task that runs and was claimed last.
    pub fn path(&self) -> ArrayVec<u32, PATH>
        requires { length self.now.below ≤ PATH + 1 }
        ensures { result.items ≡ path_over self.now.below }
    {
        let mut path = ArrayVec::new();
        for i in 1..self.below.len() {
            path.push(self.below[i].number());
        }
        path
    }

    /// The count of tasks so far.
    pub fn tasks(&self) -> u32
        ensures { result ≡ self.now.tasks }
    {
        self.tasks
    }
}
