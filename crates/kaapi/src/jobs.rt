// What a job is answered, made whole before any of it is written.
ghost use Rattle.std.specs.Prelude.{◌≡◌, ◌≢◌, ◌≤◌, ◌↔◌, ℕ, List, length, IfOk, true, false};
ghost use Rattle.kt_prog.specs.Accepted.{IsAccepted};
ghost use Rattle.kt_prog.specs.Objects.{elements_of, inputs_of};
ghost use Rattle.kt_prog.specs.Outcome.{outcome_of};
ghost use Rattle.kt_prog.specs.declared.runs.Outcome.TheVariants.{Limit, Rows};
ghost use Rattle.kt_open.specs.Answers.{answered_run};
ghost use Rattle.kt_open.specs.Unopened.{IsUnopened};
ghost use Rattle.kaapi.specs.Answers.{AnswersAsked, AnswersCheck, AnswersRun, answered_by, told};
ghost use Rattle.kaapi.specs.Exits.{ends_run};
ghost use Rattle.kaapi.specs.Jobs.{IsChecked, exit_of};
ghost use Rattle.kt_open.specs.declared.opening.Unopened.TheVariants as U;
ghost use Rattle.kaapi.specs.declared.exits.Exit.TheVariants as E;

use crate::asked::{Asked, Way};
use crate::exits::Exit;
use crate::replies::Reply;
use kt_check::{CheckRefusal, check_indexed};
use kt_frames::run_owner;
use kt_law::{JOB, NoMemory, Refusal};
use kt_open::{Unopened, open_job};
use kt_print::{Line, line_bytes, print_program, rows_bytes};
use kt_prog::laws::few_objects;
use kt_prog::{Outcome, Program};
use kt_read::{ReadRefusal, read_program};
use kt_sim::simulate;
use std::alloc::Global;

/// A job whose program was read and checked.
#[derive(Drop)]
pub enum Checked {
    Accepted(Program),
    Refused(Refusal),
}

/// The reply to a job.
pub fn reply_to(alloc: Global, asked: Asked, job: &[u8]) -> Result<Reply, NoMemory>
    requires { length job.now ≤ JOB }
    ensures { IfOk result (AnswersAsked asked job.now) }
{
    match asked {
        Asked::Check => reply_to_check(alloc, job),
        Asked::Run(way) => reply_to_run(alloc, way, job),
    }
}

/// The program of a job, whose data are not looked at.
fn check_job(alloc: Global, job: &[u8]) -> Result<Checked, NoMemory>
    requires { length job.now ≤ JOB }
    ensures { IfOk result (IsChecked job.now) }
{
    let (program, _) = match read_program(alloc, job) {
        Ok(read) => read,
        Err(ReadRefusal::Refused(refusal)) => return Ok(Checked::Refused(refusal)),
        Err(ReadRefusal::NoMemory) => return Err(NoMemory),
    };
    match check_indexed(alloc, &program) {
        Ok(()) => Ok(Checked::Accepted(program)),
        Err(CheckRefusal::Refused(refusal)) => Ok(Checked::Refused(refusal)),
        Err(CheckRefusal::NoMemory) => Err(NoMemory),
    }
}

fn reply_to_check(alloc: Global, job: &[u8]) -> Result<Reply, NoMemory>
    requires { length job.now ≤ JOB }
    ensures { IfOk result (AnswersCheck job.now) }
{
    match check_job(alloc, job)? {
        Checked::Refused(refusal) => reply_with(alloc, Exit::Refused, &Line::Refused(refusal)),
        Checked::Accepted(program) => {
            let text = print_program(alloc, &program)?;
            Ok(Reply::new(Exit::Done, text))
        }
    }
}

fn reply_to_run(alloc: Global, way: Way, job: &[u8]) -> Result<Reply, NoMemory>
    requires { length job.now ≤ JOB }
    ensures { IfOk result (AnswersRun job.now) }
{
    match open_job(alloc, job) {
        Ok((program, input)) => run(alloc, way, &program, &input),
        Err(unopened) => reply_to_unopened(alloc, unopened),
    }
}

/// The reply to a job that has no run.
pub fn reply_to_unopened(alloc: Global, unopened: Unopened) -> Result<Reply, NoMemory>
    ensures answers { (job : List ℕ) → IsUnopened job unopened → IfOk result (AnswersRun job) }
    ensures unrun { IfOk result (λ reply. ends_run reply.exit ≡ false) }
    ensures told { IfOk result (λ reply. unopened ≢ U.NoMemory) }
{
    match unopened {
        Unopened::Line(line) => reply_with(alloc, exit_of(&line), &line),
        Unopened::NoMemory => Err(NoMemory),
    }
}

/// How a call ends that answers with the line of a job that has no run.
fn exit_of(line: &Line) -> Exit
    ensures { result ≡ exit_of line.now }
{
    match line {
        Line::Refused(_) => Exit::Refused,
        _ => Exit::BadData,
    }
}

fn run(alloc: Global, way: Way, program: &Program, input: &[u64]) -> Result<Reply, NoMemory>
    requires accepted { IsAccepted program.now }
    requires whole { length input.now ≡ inputs_of program.now.families }
    ensures { IfOk result
        (λ reply. answered_by reply
        ≡ answered_run program.now.families (outcome_of program.now input.now).outcome) }
{
    let outcome = outcome(alloc, way, program, input)?;
    reply_to_outcome(alloc, program, outcome)
}

/// The reply to a job whose run came to this.
pub fn reply_to_outcome(
    alloc: Global,
    program: &Program,
    outcome: Outcome,
) -> Result<Reply, NoMemory>
    requires accepted { IsAccepted program.now }
    requires whole { (rows : List ℕ) → outcome ≡ Rows rows
        → length rows ≡ elements_of program.now.families }
    ensures answers { IfOk result
        (λ reply. answered_by reply ≡ answered_run program.now.families outcome) }
    ensures ended { IfOk result (λ reply. ends_run reply.exit ≡ true) }
    ensures limit { IfOk result (λ reply. (reply.exit ≡ E.Limit) ↔ (outcome ≡ Limit)) }
{
    few_objects();
    match outcome {
        Outcome::Rows(rows) => {
            let text = rows_bytes(alloc, program, rows.as_slice())?;
            Ok(Reply::new(Exit::Done, text))
        }
        Outcome::Fault(fault) => reply_with(alloc, Exit::Fault, &Line::Fault(fault)),
        Outcome::Limit => reply_with(alloc, Exit::Limit, &Line::Limit),
    }
}

fn outcome(alloc: Global, way: Way, program: &Program, input: &[u64]) -> Result<Outcome, NoMemory>
    requires accepted { IsAccepted program.now }
    requires whole { length input.now ≡ inputs_of program.now.families }
    ensures outcome { IfOk result
        (λ outcome. outcome ≡ (outcome_of program.now input.now).outcome) }
    ensures rows { IfOk result
        (λ outcome. (rows : List ℕ) → outcome ≡ Rows rows
        → length rows ≡ elements_of program.now.families) }
{
    match way {
        Way::Owner => Ok(run_owner(alloc, program, input)?.outcome),
        Way::Events(choice) => {
            let (ran, _) = simulate(alloc, program, input, choice.workers, choice.number)?;
            Ok(ran.outcome)
        }
    }
}

/// The reply of one line.
pub fn reply_with(alloc: Global, exit: Exit, line: &Line) -> Result<Reply, NoMemory>
    ensures { IfOk result (λ reply. reply ≡ told exit line.now) }
{
    let text = line_bytes(alloc, line)?;
    Ok(Reply::new(exit, text))
}
