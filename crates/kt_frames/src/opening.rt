// Where a run begins: the input in the store, and `main` alone on the stack.
ghost use Rattle.std.specs.Prelude.{◌≡◌, IfOk, None, length};
ghost use Rattle.kt_prog.specs.Accepted.{IsAccepted};
ghost use Rattle.kt_prog.specs.Objects.{inputs_of};
ghost use Rattle.kt_prog.specs.Outcome.{outcome_of};
ghost use Rattle.kt_frames.specs.Rest.{IsLive, left};

use crate::frames::Frames;
use crate::owner::Owner;
use kt_law::{NoMemory, TASKS};
use kt_prog::Program;
use kt_store::PlainStore;
use std::alloc::Global;

/// An owner before the first task.
pub fn open<'a>(alloc: Global, program: &'a Program, input: &[u64]) -> Result<Owner<'a>, NoMemory>
    requires accepted { IsAccepted program.now }
    requires inputs { length input.now ≡ inputs_of program.now.families }
    ensures live { IfOk result (λ owner. IsLive program.now owner) }
    ensures whole { IfOk result (λ owner.
        left program.now owner None ≡ outcome_of program.now input.now) }
{
    let store = PlainStore::open(alloc, program, input)?;
    let frames = Frames::reserve(alloc, TASKS)?;
    Ok(Owner {
        store,
        frames,
        over: false,
        indexes: 0,
    })
}
