// A loop in the owner's loop: its zeroing, and then its indexes in rising order.
ghost use Rattle.std.specs.Prelude.{◌≡◌, ◌+◌, ◌<◌, ◌≤◌, true};
ghost use Rattle.kt_law.specs.declared.limits.TheConstants.{INDEXES};
ghost use Rattle.kt_prog.specs.Accepted.{IsAccepted};
ghost use Rattle.kt_prog.specs.Calls.{Index, Whole};
ghost use Rattle.kt_prog.specs.Operations.{is_loop_at};
ghost use Rattle.kt_body.specs.Endings.{Begins, EndsSo, ZeroesSo};
ghost use Rattle.kt_body.specs.declared.ops.Ended.TheVariants.{Done};
ghost use Rattle.kt_frames.specs.Loops.{IsLooping, left_in};
ghost use Rattle.kt_frames.specs.Owned.{Moves, never, stands_at};
ghost use Rattle.kt_frames.specs.Rest.{IsClaimed, TurnIs, with_frames};
ghost use Rattle.kt_frames.specs.Stack.{Stack};

use crate::faults::least_after;
use crate::owner::Owner;
use crate::turn::Turn;
use kt_body::{Ended, run_index, run_zero};
use kt_law::INDEXES;
use kt_prog::{Call, FaultAt, Program};

/// Stores 0 to each element of each `w` object of a loop that was claimed.
fn zero(program: &Program, call: &Call, owner: &mut Owner)
    requires { Begins stands_at Moves never program.now (Whole call.now) owner.old }
    ensures { ZeroesSo stands_at Moves never program.now call.now owner.old owner.new Done }
{
    match run_zero(program, call, owner) {
        Ended::Done => {}
        Ended::Fault(_, _) => unreachable!(),
        Ended::Halted => unreachable!(),
    }
}

/// Runs the body of one index.
fn run_at(program: &Program, call: &Call, index: u32, owner: &mut Owner) -> Ended
    requires { Begins stands_at Moves never program.now (Index call.now index) owner.old }
    ensures { EndsSo stands_at Moves never program.now
        (Index call.now index) owner.old owner.new result }
{
    run_index(program, call, index, owner)
}

/// Runs one index, and takes note of its fault.
fn run_one(
    program: &Program,
    call: &Call,
    index: u32,
    owner: &mut Owner,
    least: &mut Option<FaultAt>,
)
    requires accepted { IsAccepted program.now }
    requires below { index < call.now.length }
    requires looping { IsLooping program.now owner.old call.now }
    ensures looping { IsLooping program.now owner.new call.now }
    ensures frames { owner.new.frames ≡ owner.old.frames }
    ensures run { left_in program.now owner.new call.now (index + 1) least.new
        ≡ left_in program.now owner.old call.now index least.old }
{
    let ended = run_at(program, call, index, owner);
    *least = least_after(least.take(), ended, &owner.frames, Some(index));
}

/// Runs the indexes of a loop whose zeroing is done.
fn run_indexes(program: &Program, call: &Call, owner: &mut Owner, least: &mut Option<FaultAt>)
    requires accepted { IsAccepted program.now }
    requires looping { IsLooping program.now owner.old call.now }
    ensures looping { IsLooping program.now owner.new call.now }
    ensures frames { owner.new.frames ≡ owner.old.frames }
    ensures run { left_in program.now owner.new call.now call.now.length least.new
        ≡ left_in program.now owner.old call.now 0 least.old }
{
    for index in 0..call.length {
        run_one(program, call, index, owner, least);
    }
}

/// Runs a loop that was claimed, and takes note of the faults of its indexes.
pub fn run_loop(
    program: &Program,
    call: &Call,
    owner: &mut Owner,
    least: &mut Option<FaultAt>,
) -> Turn
    requires accepted { IsAccepted program.now }
    requires loop_call { is_loop_at program.now call.now.task ≡ true }
    requires claimed { (s : Stack) × IsClaimed program.now owner.old s call.now }
    ensures { (s : Stack) → IsClaimed program.now owner.old s call.now
        → TurnIs program.now (with_frames owner.old s) least.old owner.new least.new result }
{
    if call.length > INDEXES - owner.indexes {
        return Turn::Over;
    }
    let indexes = owner.indexes + call.length;
    zero(program, call, owner);
    owner.indexes = indexes;
    run_indexes(program, call, owner, least);
    Turn::Ran
}
