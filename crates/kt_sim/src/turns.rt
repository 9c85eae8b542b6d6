// The turns of a run: each does at least one event.
ghost use Rattle.std.specs.Prelude.{◌≡◌, ◌<◌, length, IfOk, IfSome};
ghost use Rattle.kt_sim.specs.Choosing.{AreBelow};
ghost use Rattle.kt_sim.specs.Simulated.{GoesOn, IsCalm, IsCounted, IsInPhase};
ghost use Rattle.kt_tables.specs.declared.events.Phase.TheVariants.{Running};
ghost use Rattle.kt_sim.specs.Turns.{Ends, IsFree, IsOpen, Tries, TriesBody};

use crate::bodies::run_task;
use crate::choices::{Choices, pick, pick_waiting};
use crate::events::{do_event, finish, finish_up, try_event};
use crate::loops::{loop_on, try_held};
use crate::operations::{Simulation, Stop};
use kt_core::{Core, Event, Phase};
use kt_tiles::Tiles;

/// The first task in the order of the reference run that can go on: all before it are finished.
fn first_free(core: &Core) -> u32
    requires { IsOpen core.now }
    ensures { IsFree result core.now }
{
    let mut task = 0;
    'down: loop {
        if !core.phase(task).has_ended() {
            return task;
        }
        core.is_lawful();
        match core.open_child(task) {
            None => return task,
            Some(child) => task = child,
        }
    }
}

/// Claims some task that waits, ahead of others if they do not clash.
fn try_claim(core: &mut Core, choices: &mut Choices) -> Result<bool, Stop>
    requires calm { IsCalm core.old }
    requires below { AreBelow (length core.old.table.tasks) choices.old }
    ensures tries { Tries core.old core.new result }
    ensures below { IfOk result (λ _. AreBelow (length core.new.table.tasks) choices.new) }
{
    match pick_waiting(choices.waiting.len(), &mut choices.random) {
        None => Ok(false),
        Some(place) => claim_at(core, choices, place),
    }
}

fn claim_at(core: &mut Core, choices: &mut Choices, place: usize) -> Result<bool, Stop>
    requires calm { IsCalm core.old }
    requires below { AreBelow (length core.old.table.tasks) choices.old }
    requires inside { place < length choices.old.waiting.items }
    ensures tries { Tries core.old core.new result }
    ensures below { IfOk result (λ _. AreBelow (length core.new.table.tasks) choices.new) }
{
    let task = choices.waiting[place];
    let claimed = try_event(core, &Event::ClaimReady(task))?;
    if !core.phase(task).is_unclaimed() {
        choices.waiting.remove(place);
    }
    if claimed {
        choices.running.push(task)?;
    }
    Ok(claimed)
}

/// The body of a claimed task, and what it lets finish.
fn run_whole(
    simulation: &mut Simulation,
    choices: &mut Choices,
    tiles: &mut Tiles,
    task: u32,
) -> Result<(), Stop>
    requires calm { IsCalm simulation.old.core }
    requires counted { IsCounted simulation.old }
    requires below { AreBelow (length simulation.old.core.table.tasks) choices.old }
    requires running { IsInPhase Running task simulation.old.core }
    ensures goes { GoesOn simulation.old.core simulation.new.core result }
    ensures counted { IfOk result (λ _. IsCounted simulation.new) }
    ensures below { IfOk result (λ _.
        AreBelow (length simulation.new.core.table.tasks) choices.new) }
{
    let before = simulation.core.tasks();
    run_task(simulation, tiles, task)?;
    choices.note_forks(task, before, simulation.core.tasks())?;
    if simulation.core.phase(task).is_looping() {
        choices.looping.push(task)?;
        return Ok(());
    }
    finish_up(&mut simulation.core, &choices.parents, task)
}

/// What comes next of a task that can go on: its claim, its body, what its indexes want, or its finish.
fn go_on(
    simulation: &mut Simulation,
    choices: &mut Choices,
    tiles: &mut Tiles,
    task: u32,
    workers: u32,
) -> Result<(), Stop>
    requires calm { IsCalm simulation.old.core }
    requires counted { IsCounted simulation.old }
    requires below { AreBelow (length simulation.old.core.table.tasks) choices.old }
    requires free { IsFree task simulation.old.core }
    ensures goes { GoesOn simulation.old.core simulation.new.core result }
    ensures counted { IfOk result (λ _. IsCounted simulation.new) }
    ensures below { IfOk result (λ _.
        AreBelow (length simulation.new.core.table.tasks) choices.new) }
{
    match simulation.core.phase(task) {
        Phase::Unclaimed => {
            do_event(&mut simulation.core, &Event::ClaimInOrder(task))?;
            choices.running.push(task)?;
            Ok(())
        }
        Phase::Running => run_whole(simulation, choices, tiles, task),
        Phase::Looping => loop_on(simulation, choices, task, workers),
        Phase::Ended => {
            simulation.core.is_lawful();
            finish(&mut simulation.core, &choices.parents, task)
        }
        Phase::Finished => unreachable!(),
    }
}

/// Some task that runs.
fn running_task(core: &Core, choices: &mut Choices) -> Option<u32>
    requires below { AreBelow (length core.now.table.tasks) choices.old }
    ensures free { IfSome result (λ task. IsFree task core.now) }
    ensures below { AreBelow (length core.now.table.tasks) choices.new }
{
    match choices.take_running() {
        None => None,
        Some(task) => {
            if core.phase(task).is_running() {
                Some(task)
            } else {
                None
            }
        }
    }
}

/// Some loop whose indexes are there.
fn looping_task(core: &Core, choices: &mut Choices) -> Option<u32>
    requires below { AreBelow (length core.now.table.tasks) choices.old }
    ensures free { IfSome result (λ task. IsFree task core.now) }
    ensures below { AreBelow (length core.now.table.tasks) choices.new }
{
    match pick(choices.looping.len(), &mut choices.random) {
        None => None,
        Some(place) => {
            let task = choices.looping[place];
            if !core.phase(task).is_looping() {
                choices.looping.swap_remove(place);
                return None;
            }
            match core.open_child(task) {
                None => Some(task),
                Some(_) => None,
            }
        }
    }
}

/// Some task that runs, or some loop.
fn chosen_task(core: &Core, choices: &mut Choices, runs: bool) -> Option<u32>
    requires below { AreBelow (length core.now.table.tasks) choices.old }
    ensures free { IfSome result (λ task. IsFree task core.now) }
    ensures below { AreBelow (length core.now.table.tasks) choices.new }
{
    if runs {
        running_task(core, choices)
    } else {
        looping_task(core, choices)
    }
}

/// Some task that runs or loops, or else the first one that can go on.
fn next_task(core: &Core, choices: &mut Choices) -> u32
    requires open { IsOpen core.now }
    requires below { AreBelow (length core.now.table.tasks) choices.old }
    ensures free { IsFree result core.now }
    ensures below { AreBelow (length core.now.table.tasks) choices.new }
{
    let runs = choices.flips();
    match chosen_task(core, choices, runs) {
        Some(task) => task,
        None => match chosen_task(core, choices, !runs) {
            Some(task) => task,
            None => first_free(core),
        },
    }
}

/// The body of some index that was taken, or a claim of some task, if fewer than so many are under way; or nothing.
fn try_ahead(simulation: &mut Simulation, choices: &mut Choices, workers: u32) -> Result<bool, Stop>
    requires calm { IsCalm simulation.old.core }
    requires counted { IsCounted simulation.old }
    requires below { AreBelow (length simulation.old.core.table.tasks) choices.old }
    ensures tries { TriesBody simulation.old.core simulation.new.core result }
    ensures counted { IfOk result (λ _. IsCounted simulation.new) }
    ensures below { IfOk result (λ _.
        AreBelow (length simulation.new.core.table.tasks) choices.new) }
{
    if choices.flips() {
        return try_held(simulation, choices);
    }
    if choices.under_way() < workers as usize {
        return try_claim(&mut simulation.core, choices);
    }
    Ok(false)
}

/// An index that was taken, a claim, or else what comes next of some task.
fn turn(
    simulation: &mut Simulation,
    choices: &mut Choices,
    tiles: &mut Tiles,
    workers: u32,
) -> Result<(), Stop>
    requires calm { IsCalm simulation.old.core }
    requires counted { IsCounted simulation.old }
    requires below { AreBelow (length simulation.old.core.table.tasks) choices.old }
    requires open { IsOpen simulation.old.core }
    ensures goes { GoesOn simulation.old.core simulation.new.core result }
    ensures counted { IfOk result (λ _. IsCounted simulation.new) }
    ensures below { IfOk result (λ _.
        AreBelow (length simulation.new.core.table.tasks) choices.new) }
{
    if try_ahead(simulation, choices, workers)? {
        return Ok(());
    }
    let task = next_task(&simulation.core, choices);
    go_on(simulation, choices, tiles, task, workers)
}

/// All turns of a run, until `main` is finished.
pub fn run_all(
    simulation: &mut Simulation,
    choices: &mut Choices,
    tiles: &mut Tiles,
    workers: u32,
) -> Result<(), Stop>
    requires calm { IsCalm simulation.old.core }
    requires counted { IsCounted simulation.old }
    requires below { AreBelow (length simulation.old.core.table.tasks) choices.old }
    requires main { 0 < length simulation.old.core.table.tasks }
    ensures ends { Ends simulation.old.core simulation.new.core result }
    ensures counted { IfOk result (λ _. IsCounted simulation.new) }
{
    'turns: loop {
        if simulation.core.phase(0).is_finished() {
            return Ok(());
        }
        turn(simulation, choices, tiles, workers)?;
    }
}
