// The totals of a run.
ghost use Rattle.std.specs.Prelude.{◌≡◌, ◌<◌, ◌^◌, ◌%◌, ℕ, List, length};
ghost use Rattle.std.specs.List.{sum};
ghost use Rattle.kt_prog.specs.Accepted.{IsAccepted};
ghost use Rattle.kt_prog.specs.Objects.{elements_of};
ghost use Rattle.kt_prog.specs.Outcome.{outcome_of};
ghost use Rattle.kt_prog.specs.declared.runs.Outcome.TheVariants.{Rows};
ghost use Rattle.kaapi.specs.Totals.{outputs_of, totals_of};

use kt_print::Line;
use kt_prog::laws::few_objects;
use kt_prog::{Outcome, Program, Ran};

/// The totals of a run that came to rows.
pub fn totals(program: &Program, ran: Ran) -> Line
    requires accepted { IsAccepted program.now }
    requires rows { (rows : List ℕ) × (ran.outcome ≡ Rows rows)
        × (length rows ≡ elements_of program.now.families) }
    ensures { (input : List ℕ) → ran ≡ outcome_of program.now input
        → result ≡ totals_of program.now input }
{
    few_objects();
    let Ran {
        outcome,
        tasks,
        indexes,
    } = ran;
    match outcome {
        Outcome::Rows(rows) => Line::Totals(tasks, indexes, output_sum(program, rows.as_slice())),
        Outcome::Fault(_) => unreachable!(),
        Outcome::Limit => unreachable!(),
    }
}

/// The sum of the elements of the output families modulo 2^64. The rows are the elements of all objects in order.
fn output_sum(program: &Program, rows: &[u64]) -> u64
    requires all { length rows.now ≡ elements_of program.now.families }
    requires few { elements_of program.now.families < 2 ^ 32 }
    ensures { result ≡ sum (outputs_of program.now.families rows.now) % 2 ^ 64 }
{
    let mut total = 0u64;
    let mut rest = rows;
    for family in program.families.as_slice() {
        let (own, behind) = rest.split_at((family.members * family.elements) as usize);
        if family.output {
            total = total.wrapping_add(sum_of(own));
        }
        rest = behind;
    }
    total
}

fn sum_of(values: &[u64]) -> u64
    ensures { result ≡ sum values.now % 2 ^ 64 }
{
    let mut total = 0u64;
    for value in values {
        total = total.wrapping_add(*value);
    }
    total
}
