// An event that nothing refuses.
ghost use Rattle.std.specs.Prelude.{◌≡◌, IfErr, IfOk, None};
ghost use Rattle.kt_tables.specs.TableEvents.{CanAsk, refusal, state_after};

use kt_core::{Core, Event, Why};
use kt_law::NoMemory;

/// Does an event that nothing refuses. Want of memory changes nothing.
pub fn enter(core: &mut Core, event: &Event) -> Result<(), NoMemory>
    requires can { CanAsk core.old.program event.now core.old.table }
    requires free { refusal event.now core.old.table ≡ None }
    ensures done { IfOk result (λ _. core.new ≡ state_after event.now core.old) }
    ensures same { IfErr result (λ _. core.new ≡ core.old) }
{
    match core.step(event) {
        Ok(()) => Ok(()),
        Err(Why::NoMemory) => Err(NoMemory),
        Err(_) => unreachable!(),
    }
}
