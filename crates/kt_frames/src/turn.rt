// A turn of the owner's loop: the next call is claimed and its body run.
ghost use Rattle.std.specs.Prelude.{◌≡◌, false};
ghost use Rattle.kt_prog.specs.Accepted.{IsAccepted};
ghost use Rattle.kt_prog.specs.Calls.{Whole};
ghost use Rattle.kt_prog.specs.Operations.{is_loop_at};
ghost use Rattle.kt_body.specs.Endings.{Begins, EndsSo};
ghost use Rattle.kt_frames.specs.Owned.{Moves, never, stands_at};
ghost use Rattle.kt_frames.specs.Rest.{Claims, IsClaimed, IsLive, TurnIs, with_frames};
ghost use Rattle.kt_frames.specs.Stack.{Stack};

use crate::faults::least_after;
use crate::frames::Frames;
use crate::loops::run_loop;
use crate::owner::Owner;
use kt_body::{Ended, run_body};
use kt_prog::{Call, FaultAt, Form, Program};
use kt_tiles::{Tiles, run_kernel};

/// What came of a turn of the owner's loop.
#[derive(Clone, Copy, Debug, PartialEq, Eq)]
pub enum Turn {
    /// A call was run.
    Ran,
    /// No call is left.
    Ended,
    /// There are more tasks or indexes than the limits allow.
    Over,
}

/// Finishes the tasks of which no entry waits, and claims the next entry that does.
fn claim(frames: &mut Frames) -> Option<Call>
    ensures { Claims frames.old frames.new result }
{
    'frames: loop {
        match frames.next() {
            Some(call) => return Some(call),
            None => {}
        }
        if !frames.is_running() {
            return None;
        }
        frames.finish();
    }
}

/// Runs the body of `main`, a task or a kernel that was claimed.
fn run_single(program: &Program, call: &Call, owner: &mut Owner, tiles: &mut Tiles) -> Ended
    requires begins { Begins stands_at Moves never program.now (Whole call.now) owner.old }
    requires single { is_loop_at program.now call.now.task ≡ false }
    ensures { EndsSo stands_at Moves never program.now (Whole call.now) owner.old owner.new result }
{
    match call.form(program) {
        Form::Kernel => run_kernel(program, call, owner, tiles),
        _ => run_body(program, call, owner),
    }
}

/// Runs a call that was claimed and is no loop's, and takes note of its fault.
fn run_task(
    program: &Program,
    call: &Call,
    owner: &mut Owner,
    least: &mut Option<FaultAt>,
    tiles: &mut Tiles,
) -> Turn
    requires accepted { IsAccepted program.now }
    requires single { is_loop_at program.now call.now.task ≡ false }
    requires claimed { (s : Stack) × IsClaimed program.now owner.old s call.now }
    ensures { (s : Stack) → IsClaimed program.now owner.old s call.now
        → TurnIs program.now (with_frames owner.old s) least.old owner.new least.new result }
{
    let ended = run_single(program, call, owner, tiles);
    if owner.over {
        return Turn::Over;
    }
    *least = least_after(least.take(), ended, &owner.frames, None);
    Turn::Ran
}

/// Runs a call that was claimed, and takes note of its faults.
fn run_claimed(
    program: &Program,
    call: &Call,
    owner: &mut Owner,
    least: &mut Option<FaultAt>,
    tiles: &mut Tiles,
) -> Turn
    requires accepted { IsAccepted program.now }
    requires claimed { (s : Stack) × IsClaimed program.now owner.old s call.now }
    ensures { (s : Stack) → IsClaimed program.now owner.old s call.now
        → TurnIs program.now (with_frames owner.old s) least.old owner.new least.new result }
{
    match call.form(program) {
        Form::Loop => run_loop(program, call, owner, least),
        _ => run_task(program, call, owner, least, tiles),
    }
}

/// Runs the next call of the run.
pub fn run_next(
    program: &Program,
    owner: &mut Owner,
    least: &mut Option<FaultAt>,
    tiles: &mut Tiles,
) -> Turn
    requires accepted { IsAccepted program.now }
    requires live { IsLive program.now owner.old }
    ensures { TurnIs program.now owner.old least.old owner.new least.new result }
{
    match claim(&mut owner.frames) {
        None => Turn::Ended,
        Some(call) => run_claimed(program, &call, owner, least, tiles),
    }
}
