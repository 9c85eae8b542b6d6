// A whole run.
ghost use Rattle.std.specs.Prelude.{◌≡◌, ◌≢◌, ◌≤◌, ◌<◌, ℕ, IfOk, List, length};
ghost use Rattle.kt_law.specs.declared.limits.TheConstants.{WORKERS};
ghost use Rattle.kt_prog.specs.Accepted.{IsAccepted};
ghost use Rattle.kt_prog.specs.Objects.{elements_of, inputs_of};
ghost use Rattle.kt_prog.specs.Outcome.{outcome_of};
ghost use Rattle.kt_prog.specs.declared.runs.Outcome.TheVariants.{Limit, Rows};
ghost use Rattle.kt_frames.specs.Rest.{limit_ran};
ghost use Rattle.kt_sim.specs.Simulated.{IsCalm, IsOver};
ghost use Rattle.kt_tables.specs.Tables.{MainIsFinished, count_indexes};

use crate::choices::Choices;
use crate::faults::least_fault;
use crate::operations::{Simulation, Stop};
use crate::turns::run_all;
use kt_core::Core;
use kt_law::NoMemory;
use kt_prog::{Outcome, Program, Ran};
use kt_tiles::Tiles;
use sqlite_items::Items;
use std::alloc::Global;

/// Runs the program on this input by events of a core alone, with at most so many tasks under way at once, in an order that the
/// number chooses: each number gives the answer of the reference run. Whole bodies of tasks and of indexes follow one another.
pub fn simulate<'a>(
    alloc: Global,
    program: &'a Program,
    input: &'a [u64],
    workers: u32,
    number: u64,
) -> Result<(Ran, Core<'a>), NoMemory>
    requires accepted { IsAccepted program.now }
    requires whole { length input.now ≡ inputs_of program.now.families }
    requires some { 1 ≤ workers }
    requires few { workers ≤ WORKERS }
    ensures ran { IfOk result (λ x. x.0 ≡ outcome_of program.now input.now) }
    ensures job { IfOk result (λ x. (x.1.program ≡ program.now) × (x.1.input ≡ input.now)) }
    ensures finished { IfOk result (λ x. x.0.outcome ≢ Limit → MainIsFinished x.1.table.tasks) }
    ensures rows { IfOk result (λ x. (rows : List ℕ) → x.0.outcome ≡ Rows rows
        → length rows ≡ elements_of program.now.families) }
{
    let core = Core::new(alloc, program, input)?;
    let mut choices = Choices::new(alloc, number)?;
    let mut tiles = Tiles::new(alloc)?;
    let mut simulation = Simulation {
        core,
        indexes: 0,
        task: 0,
        index: None,
        stop: None,
    };
    match run_all(&mut simulation, &mut choices, &mut tiles, workers) {
        Ok(()) => {
            let ran = answer(alloc, &simulation.core, simulation.indexes)?;
            Ok((ran, simulation.core))
        }
        Err(Stop::Over) => {
            let ran = over(&simulation.core);
            Ok((ran, simulation.core))
        }
        Err(Stop::NoMemory) => Err(NoMemory),
    }
}

/// What a run comes to that has more tasks or indexes than the limits allow.
fn over(core: &Core) -> Ran
    requires { IsOver core.now }
    ensures ran { result ≡ outcome_of core.now.program core.now.input }
    ensures limit { result ≡ limit_ran }
{
    core.has_no_more();
    Ran {
        outcome: Outcome::Limit,
        tasks: 0,
        indexes: 0,
    }
}

/// What a run comes to once `main` is finished: the least fault, or else the rows.
fn answer(alloc: Global, core: &Core, indexes: u32) -> Result<Ran, NoMemory>
    requires calm { IsCalm core.now }
    requires counted { count_indexes core.now.table.tasks ≡ indexes }
    requires finished { MainIsFinished core.now.table.tasks }
    ensures ran { IfOk result (λ ran. ran ≡ outcome_of core.now.program core.now.input) }
    ensures rows { IfOk result (λ ran. (rows : List ℕ) → ran.outcome ≡ Rows rows
        → length rows ≡ elements_of core.now.program.families) }
{
    core.gives_outcome();
    let tasks = core.tasks();
    match least_fault(core) {
        Some(fault) => Ok(Ran {
            outcome: Outcome::Fault(fault),
            tasks,
            indexes,
        }),
        None => {
            let rows = Items::from_vec(Vec::from_slice(alloc, core.rows())?);
            Ok(Ran {
                outcome: Outcome::Rows(rows),
                tasks,
                indexes,
            })
        }
    }
}
