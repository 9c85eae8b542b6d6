// The body of a task that a worker has begun.
ghost use Rattle.std.specs.Prelude.{◌≡◌, false, true, []};
ghost use Rattle.kt_prog.specs.Accepted.{IsAccepted};
ghost use Rattle.kt_prog.specs.Calls.{Whole};
ghost use Rattle.kt_prog.specs.Fits.{Fits};
ghost use Rattle.kt_prog.specs.Operations.{is_loop_at};
ghost use Rattle.kt_body.specs.Endings.{Begins, EndsSo};
ghost use Rattle.kt_worker.specs.Hands.{GoneSo, StandsAt, ZeroedSo};

use crate::hands::{Began, Hands};
use kt_body::{Ended, Ops, run_body, run_zero};
use kt_calls::Run;
use kt_law::DEFINITIONS;
use kt_prog::{Call, Program};
use kt_tiles::{Tiles, run_kernel};
use std::marker::PhantomData;

/// What a body is run with: its program, the table of first elements, the call, the task's record, the place of its first
/// child, and the number of its frame.
#[derive(Clone, Copy)]
pub struct Start<'a> {
    pub program: &'a Program,
    pub firsts: &'a [u32],
    pub call: &'a Call,
    pub parent: u32,
    pub first: u32,
    pub frame: u64,
}

/// A seat after a body, how that ended, how many children it forked, and how many operations on elements it did.
pub struct Gone<R: Run> {
    pub run: R,
    pub ended: Ended,
    pub forks: u32,
    pub elements: u32,
}

/// Runs the body of a task or of a kernel.
fn run_call<O: Ops>(program: &Program, call: &Call, ops: &mut O, tiles: &mut Tiles) -> Ended
    requires begins { Begins O.at O.goes O.halted program.now (Whole call.now) ops.old }
    requires plain { is_loop_at program.now call.now.task ≡ false }
    ensures { EndsSo O.at O.goes O.halted program.now (Whole call.now) ops.old ops.new result }
{
    if call.task > DEFINITIONS {
        return run_kernel(program, call, ops, tiles);
    }
    run_body(program, call, ops)
}

/// Runs the body of the task that the seat has begun last.
pub fn go<R: Run, B: Began>(run: R, start: Start, tiles: &mut Tiles) -> Gone<R>
    requires accepted { IsAccepted start.program.now }
    requires fits { Fits start.program.now start.call.now }
    requires plain { is_loop_at start.program.now start.call.now.task ≡ false }
    requires stands { StandsAt B.view
        (record {
          view = R.view run;
          program = start.program.now;
          firsts = start.firsts.now;
          parent =
              start.parent;
          first = start.first;
          forks = 0;
          frame = start.frame;
          limit = false;
        })
        start.program.now (Whole start.call.now) [] 0 }
    ensures { GoneSo B.view (R.view result.run) start.entry.program.now result.forks result.ended }
{
    let mut hands: Hands<R, B> = Hands {
        run,
        program: start.program,
        firsts: start.firsts,
        parent: start.parent,
        first: start.first,
        forks: 0,
        frame: start.frame,
        elements: 0,
        limit: false,
        of: PhantomData,
    };
    let ended = run_call(start.program, start.call, &mut hands, tiles);
    let (run, forks, elements) = hands.taken_apart();
    Gone {
        run,
        ended,
        forks,
        elements,
    }
}

/// Zeroes what the indexes of the loop write that the seat has begun last.
pub fn zero<R: Run, B: Began>(run: R, start: Start) -> Gone<R>
    requires accepted { IsAccepted start.program.now }
    requires fits { Fits start.program.now start.call.now }
    requires loops { is_loop_at start.program.now start.call.now.task ≡ true }
    requires stands { StandsAt B.view
        (record {
          view = R.view run;
          program = start.program.now;
          firsts = start.firsts.now;
          parent =
              start.parent;
          first = start.first;
          forks = 0;
          frame = start.frame;
          limit = false;
        })
        start.program.now (Whole start.call.now) [] 0 }
    ensures { ZeroedSo B.view (R.view result.run) start.entry.program.now result.forks
        result.ended }
{
    let mut hands: Hands<R, B> = Hands {
        run,
        program: start.program,
        firsts: start.firsts,
        parent: start.parent,
        first: start.first,
        forks: 0,
        frame: start.frame,
        elements: 0,
        limit: false,
        of: PhantomData,
    };
    let ended = run_zero(start.program, start.call, &mut hands);
    let (run, forks, elements) = hands.taken_apart();
    Gone {
        run,
        ended,
        forks,
        elements,
    }
}
