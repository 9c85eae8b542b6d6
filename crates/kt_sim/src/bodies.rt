// Whole bodies.
ghost use Rattle.std.specs.Prelude.{◌≡◌, false, true, IfOk, None};
ghost use Rattle.kt_prog.specs.Calls.{Whole};
ghost use Rattle.kt_prog.specs.Operations.{is_loop_at};
ghost use Rattle.kt_body.specs.Endings.{Begins, EndsSo};
ghost use Rattle.kt_sim.specs.Simulated.{At, EndsWith, GoesOn, HasZeroed, IsAsLong, IsCalm, IsCounted, IsEnd, IsInPhase, IsLast, IsOfIndex, IsOut, IsTaken, Moves};
ghost use Rattle.kt_tables.specs.declared.events.Phase.TheVariants.{Running};

use crate::doing::enter;
use crate::operations::{Simulation, Stop};
use kt_body::{Ended, run_body, run_index, run_zero};
use kt_core::Event;
use kt_law::{INDEXES, NoMemory};
use kt_prog::laws::loop_is_zeroing;
use kt_prog::{Call, Form, Operation, Program};
use kt_tiles::{Tiles, run_kernel};

/// Runs the body of a task that was claimed, from its first operation to its last, or to the beginning of a loop.
pub fn run_task(simulation: &mut Simulation, tiles: &mut Tiles, task: u32) -> Result<(), Stop>
    requires calm { IsCalm simulation.old.core }
    requires counted { IsCounted simulation.old }
    requires running { IsInPhase Running task simulation.old.core }
    ensures goes { GoesOn simulation.old.core simulation.new.core result }
    ensures counted { IfOk result (λ _. IsCounted simulation.new) }
{
    simulation.task = task;
    simulation.index = None;
    simulation.stop = None;
    let program = simulation.core.program();
    let call = simulation.core.call(task).copied();
    simulation.core.is_lawful();
    match call.form(program) {
        Form::Loop => simulation.run_loop(program, &call),
        _ => simulation.run_single(program, &call, tiles),
    }
}

/// Runs the body of an index that was taken.
pub fn run_taken(simulation: &mut Simulation, task: u32, index: u32) -> Result<(), Stop>
    requires calm { IsCalm simulation.old.core }
    requires counted { IsCounted simulation.old }
    requires taken { IsTaken task index simulation.old.core }
    ensures goes { GoesOn simulation.old.core simulation.new.core result }
    ensures counted { IfOk result (λ _. IsCounted simulation.new) }
    ensures long { IfOk result (λ _. IsAsLong simulation.old simulation.new) }
{
    simulation.task = task;
    simulation.index = Some(index);
    simulation.stop = None;
    let program = simulation.core.program();
    let call = simulation.core.call(task).copied();
    simulation.core.is_lawful();
    let ended = run_index(program, &call, index, simulation);
    match simulation.stop {
        Some(stop) => Err(stop),
        None => simulation.end(ended),
    }
}

impl<'a> Simulation<'a> {
    /// Runs the body of `main`, a task or a kernel.
    fn run_single(&mut self, program: &Program, call: &Call, tiles: &mut Tiles) -> Result<(), Stop>
        requires begins { Begins At Moves IsOut program.now (Whole call.now) self.old }
        requires single { is_loop_at program.now call.now.task ≡ false }
        requires counted { IsCounted self.old }
        ensures goes { GoesOn self.old.core self.new.core result }
        ensures counted { IfOk result (λ _. IsCounted self.new) }
    {
        let ended = self.run_form(program, call, tiles);
        match self.stop {
            Some(stop) => Err(stop),
            None => self.end(ended),
        }
    }

    fn run_form(&mut self, program: &Program, call: &Call, tiles: &mut Tiles) -> Ended
        requires begins { Begins At Moves IsOut program.now (Whole call.now) self.old }
        requires single { is_loop_at program.now call.now.task ≡ false }
        ensures { EndsSo At Moves IsOut program.now (Whole call.now) self.old self.new result }
    {
        match call.form(program) {
            Form::Kernel => run_kernel(program, call, self, tiles),
            _ => run_body(program, call, self),
        }
    }

    /// Zeroes for a loop, and begins it.
    fn run_loop(&mut self, program: &Program, call: &Call) -> Result<(), Stop>
        requires begins { Begins At Moves IsOut program.now (Whole call.now) self.old }
        requires loops { is_loop_at program.now call.now.task ≡ true }
        requires task { self.old.index ≡ None }
        requires counted { IsCounted self.old }
        ensures goes { GoesOn self.old.core self.new.core result }
        ensures counted { IfOk result (λ _. IsCounted self.new) }
    {
        loop_is_zeroing();
        run_zero(program, call, self);
        match self.stop {
            Some(stop) => Err(stop),
            None => self.begin(call.length),
        }
    }

    /// A loop whose zeroing is done gets its indexes.
    fn begin(&mut self, length: u32) -> Result<(), Stop>
        requires zeroed { (z : HasZeroed self.old) × (z.call.length ≡ length) }
        requires counted { IsCounted self.old }
        ensures goes { GoesOn self.old.core self.new.core result }
        ensures counted { IfOk result (λ _. IsCounted self.new) }
    {
        self.core.is_lawful();
        enter(&mut self.core, &Event::Begin(self.task))?;
        self.indexes += length;
        if self.indexes > INDEXES {
            return Err(Stop::Over);
        }
        Ok(())
    }

    /// The last operation of a body that ended so.
    fn end(&mut self, ended: Ended) -> Result<(), Stop>
        requires ends { EndsWith self.old ended }
        requires counted { IsCounted self.old }
        ensures goes { GoesOn self.old.core self.new.core result }
        ensures counted { IfOk result (λ _. IsCounted self.new) }
        ensures long { IsOfIndex self.old → IfOk result (λ _. IsAsLong self.old self.new) }
    {
        match ended {
            Ended::Done => self.end_by(Operation::End),
            Ended::Fault(law, line) => self.end_by(Operation::Fault(law, line)),
            Ended::Halted => unreachable!(),
        }
    }

    fn end_by(&mut self, operation: Operation) -> Result<(), Stop>
        requires last { IsEnd operation }
        requires due { IsLast self.old operation }
        requires counted { IsCounted self.old }
        ensures goes { GoesOn self.old.core self.new.core result }
        ensures counted { IfOk result (λ _. IsCounted self.new) }
        ensures long { IsOfIndex self.old → IfOk result (λ _. IsAsLong self.old self.new) }
    {
        self.core.is_lawful();
        let event = self.event(operation);
        match enter(&mut self.core, &event) {
            Ok(()) => Ok(()),
            Err(NoMemory) => Err(Stop::NoMemory),
        }
    }
}
