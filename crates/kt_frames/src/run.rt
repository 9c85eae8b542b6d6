// The owner's loop.
ghost use Rattle.std.specs.Prelude.{◌≡◌, ℕ, IfOk, List, length};
ghost use Rattle.kt_prog.specs.Accepted.{IsAccepted};
ghost use Rattle.kt_prog.specs.Objects.{elements_of, inputs_of};
ghost use Rattle.kt_prog.specs.Outcome.{outcome_of};
ghost use Rattle.kt_prog.specs.declared.runs.Outcome.TheVariants.{Rows};
ghost use Rattle.kt_frames.specs.Rest.{ended_ran, limit_ran};

use crate::opening::open;
use crate::owner::Owner;
use crate::turn::{Turn, run_next};
use kt_law::NoMemory;
use kt_prog::{FaultAt, Outcome, Program, Ran};
use kt_tiles::Tiles;
use sqlite_items::Items;
use std::alloc::Global;

/// Runs the program on this input: `main`, and after each body the calls that it forked, in order, a loop's indexes in
/// rising order. The answer is that of the reference run with its counts.
pub fn run_owner(alloc: Global, program: &Program, input: &[u64]) -> Result<Ran, NoMemory>
    requires accepted { IsAccepted program.now }
    requires whole { length input.now ≡ inputs_of program.now.families }
    ensures ran { IfOk result (λ ran. ran ≡ outcome_of program.now input.now) }
    ensures rows { IfOk result (λ ran. (rows : List ℕ) → ran.outcome ≡ Rows rows
        → length rows ≡ elements_of program.now.families) }
{
    let mut owner = open(alloc, program, input)?;
    let mut tiles = Tiles::new(alloc)?;
    let mut least = None;
    'turns: loop {
        match run_next(program, &mut owner, &mut least, &mut tiles) {
            Turn::Ran => {}
            Turn::Ended => return Ok(ended(owner, least)),
            Turn::Over => return Ok(over()),
        }
    }
}

/// What a run comes to that has more tasks or indexes than the limits allow.
fn over() -> Ran
    ensures { result ≡ limit_ran }
{
    Ran {
        outcome: Outcome::Limit,
        tasks: 0,
        indexes: 0,
    }
}

/// What a run comes to once no task is left: the least fault, or else the rows.
fn ended(owner: Owner, least: Option<FaultAt>) -> Ran
    ensures ran { result ≡ ended_ran owner.entry least }
    ensures rows { (rows : List ℕ) → result.outcome ≡ Rows rows
        → length rows ≡ elements_of owner.entry.store.program.families }
{
    let tasks = owner.frames.tasks();
    let indexes = owner.indexes;
    let outcome = match least {
        Some(fault) => Outcome::Fault(fault),
        None => Outcome::Rows(Items::from_vec(owner.store.into_elements())),
    };
    Ran {
        outcome,
        tasks,
        indexes,
    }
}
