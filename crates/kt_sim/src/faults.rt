// The least fault of a run.
ghost use Rattle.std.specs.Prelude.{◌≡◌, ◌<◌, None, Some, length, slice_get};
ghost use Rattle.kt_tables.specs.TableLaws.{faults_at, faults_in};
ghost use Rattle.kt_tables.specs.Tables.{TaskRow};
ghost use Rattle.kt_sim.specs.Answering.{least_among};

use kt_core::Core;
use kt_faults::earlier;
use kt_prog::FaultAt;

/// The least of a fault that there may be and those of a task and its indexes.
fn least_at(core: &Core, task: u32, least: Option<FaultAt>) -> Option<FaultAt>
    requires { task < length core.now.table.tasks }
    ensures { (r : TaskRow) → slice_get core.now.table.tasks task ≡ Some r
        → result ≡ least_among least (faults_at core.now.program r) }
{
    core.is_lawful();
    let mut least = earlier(least, core.fault(task));
    for index in 0..core.call(task).length {
        least = earlier(least, core.index_fault(task, index));
    }
    least
}

/// The least fault of all tasks and indexes.
pub fn least_fault(core: &Core) -> Option<FaultAt>
    ensures { result ≡ least_among None (faults_in core.now.program core.now.table.tasks) }
{
    let mut least = None;
    for task in 0..core.tasks() {
        least = least_at(core, task, least);
    }
    least
}
