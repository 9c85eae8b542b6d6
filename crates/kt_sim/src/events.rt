// Events outside of bodies, and the finishes that one lets follow.
ghost use Rattle.std.specs.Prelude.{◌≡◌, ◌≢◌, ◌<◌, All, None, Ok, false, length};
ghost use Rattle.kt_sim.specs.Simulated.{IsCalm};
ghost use Rattle.kt_sim.specs.Turns.{Does, IsOutside, Reaches, Tries};
ghost use Rattle.kt_tables.specs.TableEvents.{refusal, task_of};
ghost use Rattle.kt_tables.specs.declared.events.Event.TheVariants.{Finish};

use crate::doing::enter;
use crate::operations::Stop;
use kt_core::{Core, Event, Why};
use kt_law::NoMemory;

/// Does an event outside of bodies that nothing refuses.
pub fn do_event(core: &mut Core, event: &Event) -> Result<(), Stop>
    requires calm { IsCalm core.old }
    requires outside { IsOutside event.now }
    requires there { task_of event.now < length core.old.table.tasks }
    requires free { refusal event.now core.old.table ≡ None }
    ensures { Does core.old core.new result }
{
    core.is_lawful();
    match enter(core, event) {
        Ok(()) => Ok(()),
        Err(NoMemory) => Err(Stop::NoMemory),
    }
}

/// Does an event outside of bodies, or tells that it cannot be done now.
pub fn try_event(core: &mut Core, event: &Event) -> Result<bool, Stop>
    requires calm { IsCalm core.old }
    requires outside { IsOutside event.now }
    requires there { task_of event.now < length core.old.table.tasks }
    ensures tries { Tries core.old core.new result }
    ensures refused { result ≡ Ok false → refusal event.now core.old.table ≢ None }
{
    core.is_lawful();
    match core.step(event) {
        Ok(()) => Ok(true),
        Err(Why::NoMemory) => Err(Stop::NoMemory),
        Err(_) => Ok(false),
    }
}

/// Finishes a task, and then each task above it that has no child left.
pub fn finish_up(core: &mut Core, parents: &[u32], task: u32) -> Result<(), Stop>
    requires calm { IsCalm core.old }
    requires count { length parents.now ≡ length core.old.table.tasks }
    requires below { All (λ t. t < length core.old.table.tasks) parents.now }
    requires there { task < length core.old.table.tasks }
    ensures { Reaches core.old core.new result }
{
    let mut current = task;
    'up: loop {
        if !try_event(core, &Event::Finish(current))? {
            return Ok(());
        }
        current = parents[current as usize];
    }
}

/// Finishes a task that has no child left, and what it lets finish.
pub fn finish(core: &mut Core, parents: &[u32], task: u32) -> Result<(), Stop>
    requires calm { IsCalm core.old }
    requires count { length parents.now ≡ length core.old.table.tasks }
    requires below { All (λ t. t < length core.old.table.tasks) parents.now }
    requires there { task < length core.old.table.tasks }
    requires free { refusal (Finish task) core.old.table ≡ None }
    ensures { Does core.old core.new result }
{
    do_event(core, &Event::Finish(task))?;
    finish_up(core, parents, parents[task as usize])
}
