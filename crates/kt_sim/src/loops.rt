// The turns of a loop: splits and takes of its pieces, bodies of its indexes, retirements, and its finish.
ghost use Rattle.std.specs.Prelude.{◌≡◌, ◌≤◌, ◌<◌, ◌+◌, ◌-◌, ℕ, All, None, Some, true, false, length, slice_get, IfOk, IfSome};
ghost use Rattle.kt_sim.specs.Choosing.{AreBelow};
ghost use Rattle.kt_sim.specs.Simulated.{GoesOn, IsAsLong, IsCalm, IsCounted, IsTaken};
ghost use Rattle.kt_sim.specs.Turns.{BeginsPiece, Does, IsFreeLoop, IsRunOut, Tries, TriesBody, first_of};
ghost use Rattle.kt_tables.specs.LoopRows.{is_under_way};
ghost use Rattle.kt_tables.specs.Tables.{TaskRow};

use crate::bodies::run_taken;
use crate::choices::{Choices, pick};
use crate::events::{do_event, finish, try_event};
use crate::operations::{Simulation, Stop};
use kt_core::{Core, Event};

/// So many indexes are taken at once, at most.
const CHUNK: u32 = 64;

/// The indexes from one up to another, which is not among them.
#[derive(Clone, Copy)]
pub struct Span {
    from: u32,
    to: u32,
}

impl Span {
    fn length(&self) -> u32
        ensures { self.now.from < self.now.to → result ≡ self.now.to - self.now.from }
    {
        self.to.saturating_sub(self.from)
    }
}

/// How many of the first indexes are taken at once.
fn chunk_of(choices: &mut Choices, span: Span) -> u32
    ensures some { 1 ≤ result }
    ensures few { span.from < span.to → span.from + result ≤ span.to }
    ensures same { (tasks : ℕ) → AreBelow tasks choices.old → AreBelow tasks choices.new }
{
    choices.some_count(span.length().min(CHUNK))
}

/// Where some piece of a loop begins and ends.
fn some_piece(core: &Core, choices: &mut Choices, task: u32) -> Option<Span>
    requires there { task < length core.now.table.tasks }
    ensures { (tasks : ℕ) → AreBelow tasks choices.old → AreBelow tasks choices.new }
{
    let pieces = core.pieces(task);
    match pick(pieces.len(), &mut choices.random) {
        None => None,
        Some(place) => {
            let piece = &pieces[place];
            Some(Span {
                from: piece.from(),
                to: piece.to(),
            })
        }
    }
}

/// Where the first piece of a loop begins and ends.
fn first_piece(core: &Core, task: u32) -> Option<Span>
    requires { task < length core.now.table.tasks }
    ensures { (r : TaskRow) → slice_get core.now.table.tasks task ≡ Some r
        → result ≡ first_of r.loop.pieces }
{
    match core.pieces(task) {
        [] => None,
        [piece, ..] => Some(Span {
            from: piece.from(),
            to: piece.to(),
        }),
    }
}

/// Cuts some piece of a loop in two, if there are fewer pieces than workers.
fn try_split(core: &mut Core, choices: &mut Choices, task: u32, workers: u32) -> Result<bool, Stop>
    requires calm { IsCalm core.old }
    requires below { AreBelow (length core.old.table.tasks) choices.old }
    requires there { task < length core.old.table.tasks }
    ensures tries { Tries core.old core.new result }
    ensures below { IfOk result (λ _. AreBelow (length core.new.table.tasks) choices.new) }
{
    if core.pieces(task).len() >= workers as usize {
        return Ok(false);
    }
    match some_piece(core, choices, task) {
        None => Ok(false),
        Some(span) => {
            let part = choices.some_count(span.length());
            try_event(core, &Event::Split(task, span.from.saturating_add(part)))
        }
    }
}

/// Takes the first indexes of some piece of a loop.
fn try_take(core: &mut Core, choices: &mut Choices, task: u32) -> Result<bool, Stop>
    requires calm { IsCalm core.old }
    requires below { AreBelow (length core.old.table.tasks) choices.old }
    requires there { task < length core.old.table.tasks }
    ensures tries { Tries core.old core.new result }
    ensures below { IfOk result (λ _. AreBelow (length core.new.table.tasks) choices.new) }
{
    match some_piece(core, choices, task) {
        None => Ok(false),
        Some(span) => {
            let count = chunk_of(choices, span);
            let taken = try_event(core, &Event::Take(task, span.from, count))?;
            if taken {
                choices.note_taken(task, span.from, count)?;
            }
            Ok(taken)
        }
    }
}

/// Retires some of the indexes that have ended.
fn try_retire(core: &mut Core, choices: &mut Choices, task: u32) -> Result<bool, Stop>
    requires calm { IsCalm core.old }
    requires below { AreBelow (length core.old.table.tasks) choices.old }
    requires there { task < length core.old.table.tasks }
    ensures tries { Tries core.old core.new result }
    ensures below { IfOk result (λ _. AreBelow (length core.new.table.tasks) choices.new) }
{
    let count = choices.some_count(core.ended(task));
    try_event(core, &Event::Retire(task, count))
}

/// A split, a take or a retirement, as the number says, if that can be done.
fn try_loop(core: &mut Core, choices: &mut Choices, task: u32, workers: u32) -> Result<bool, Stop>
    requires calm { IsCalm core.old }
    requires below { AreBelow (length core.old.table.tasks) choices.old }
    requires there { task < length core.old.table.tasks }
    ensures tries { Tries core.old core.new result }
    ensures below { IfOk result (λ _. AreBelow (length core.new.table.tasks) choices.new) }
{
    match choices.some_count(3) {
        1 => try_split(core, choices, task, workers),
        2 => try_take(core, choices, task),
        _ => try_retire(core, choices, task),
    }
}

/// Runs the body of some index that is held, if there is one.
pub fn try_held(simulation: &mut Simulation, choices: &mut Choices) -> Result<bool, Stop>
    requires calm { IsCalm simulation.old.core }
    requires counted { IsCounted simulation.old }
    requires below { AreBelow (length simulation.old.core.table.tasks) choices.old }
    ensures tries { TriesBody simulation.old.core simulation.new.core result }
    ensures counted { IfOk result (λ _. IsCounted simulation.new) }
    ensures below { IfOk result (λ _.
        AreBelow (length simulation.new.core.table.tasks) choices.new) }
{
    match choices.take_held() {
        None => Ok(false),
        Some(held) => try_taken(simulation, held.task, held.index),
    }
}

/// Runs the body of an index, if it is under way.
fn try_taken(simulation: &mut Simulation, task: u32, index: u32) -> Result<bool, Stop>
    requires calm { IsCalm simulation.old.core }
    requires counted { IsCounted simulation.old }
    requires there { task < length simulation.old.core.table.tasks }
    ensures tries { TriesBody simulation.old.core simulation.new.core result }
    ensures counted { IfOk result (λ _. IsCounted simulation.new) }
    ensures long { IfOk result (λ _. IsAsLong simulation.old simulation.new) }
{
    if !simulation.core.phase(task).is_looping() {
        return Ok(false);
    }
    if !simulation.core.is_under_way(task, index) {
        return Ok(false);
    }
    run_taken(simulation, task, index)?;
    Ok(true)
}

/// What comes next of a loop none of whose children is open: what the number says, or else what can be done.
pub fn loop_on(
    simulation: &mut Simulation,
    choices: &mut Choices,
    task: u32,
    workers: u32,
) -> Result<(), Stop>
    requires calm { IsCalm simulation.old.core }
    requires counted { IsCounted simulation.old }
    requires below { AreBelow (length simulation.old.core.table.tasks) choices.old }
    requires free { IsFreeLoop task simulation.old.core }
    ensures goes { GoesOn simulation.old.core simulation.new.core result }
    ensures counted { IfOk result (λ _. IsCounted simulation.new) }
    ensures below { IfOk result (λ _.
        AreBelow (length simulation.new.core.table.tasks) choices.new) }
{
    if try_loop(&mut simulation.core, choices, task, workers)? {
        return Ok(());
    }
    if try_held(simulation, choices)? {
        return Ok(());
    }
    settle(simulation, choices, task)
}

/// A take, an index that is under way, a retirement of all that have ended, or the finish of the loop.
fn settle(simulation: &mut Simulation, choices: &mut Choices, task: u32) -> Result<(), Stop>
    requires calm { IsCalm simulation.old.core }
    requires counted { IsCounted simulation.old }
    requires below { AreBelow (length simulation.old.core.table.tasks) choices.old }
    requires free { IsFreeLoop task simulation.old.core }
    ensures goes { GoesOn simulation.old.core simulation.new.core result }
    ensures counted { IfOk result (λ _. IsCounted simulation.new) }
    ensures below { IfOk result (λ _.
        AreBelow (length simulation.new.core.table.tasks) choices.new) }
{
    simulation.core.is_lawful();
    match first_piece(&simulation.core, task) {
        Some(span) => take_first(&mut simulation.core, choices, task, span),
        None => match first_taken(&simulation.core, task) {
            Some(index) => run_taken(simulation, task, index),
            None => run_out(&mut simulation.core, &choices.parents, task),
        },
    }
}

/// Takes some of the first indexes of the first piece.
fn take_first(core: &mut Core, choices: &mut Choices, task: u32, span: Span) -> Result<(), Stop>
    requires calm { IsCalm core.old }
    requires below { AreBelow (length core.old.table.tasks) choices.old }
    requires piece { BeginsPiece task span core.old }
    ensures does { Does core.old core.new result }
    ensures below { IfOk result (λ _. AreBelow (length core.new.table.tasks) choices.new) }
{
    let count = chunk_of(choices, span);
    do_event(core, &Event::Take(task, span.from, count))?;
    choices.note_taken(task, span.from, count)?;
    Ok(())
}

/// The first index of a loop that is under way.
fn first_taken(core: &Core, task: u32) -> Option<u32>
    requires { task < length core.now.table.tasks }
    ensures some { (r : TaskRow) → slice_get core.now.table.tasks task ≡ Some r
        → IfSome result (λ i. is_under_way (slice_get r.loop.indexes i) ≡ true) }
    ensures none { (r : TaskRow) → slice_get core.now.table.tasks task ≡ Some r → result ≡ None
        → (i : ℕ) → i < r.call.length → is_under_way (slice_get r.loop.indexes i) ≡ false }
{
    for index in 0..core.call(task).length {
        if core.is_under_way(task, index) {
            return Some(index);
        }
    }
    None
}

/// A retirement of all indexes that have ended, or else the finish.
fn run_out(core: &mut Core, parents: &[u32], task: u32) -> Result<(), Stop>
    requires calm { IsCalm core.old }
    requires count { length parents.now ≡ length core.old.table.tasks }
    requires below { All (λ t. t < length core.old.table.tasks) parents.now }
    requires out { IsRunOut task core.old }
    ensures { Does core.old core.new result }
{
    core.is_lawful();
    let ended = core.ended(task);
    if ended > 0 {
        return do_event(core, &Event::Retire(task, ended));
    }
    finish(core, parents, task)
}
