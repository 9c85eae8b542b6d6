// The events of a core, one kind a function.
ghost use Rattle.std.specs.Prelude.{◌≡◌, IfErr, IfOk};
ghost use Rattle.kt_prog.specs.Next.{IsOnElement};
ghost use Rattle.kt_core.specs.Steps.{EventsKeepStatesLawful, Goes, IsClosed, IsNoFork, Steps, acted};
ghost use Rattle.kt_tables.specs.TableEvents.{CanAsk, Replies, refusal, state_after};
ghost use Rattle.kt_tables.specs.declared.events.Event.TheVariants as event_is;
ghost use Rattle.kt_prog.specs.declared.runs.Operation.TheVariants as operation_is;

use crate::links::add_child;
use crate::parts::Part;
use crate::rows::TaskRow;
use crate::running::Core;
use kt_prog::laws::{next_is_on_element, next_is_rightful};
use kt_prog::{Call, Operation};
use kt_store::PlainStore;
use kt_tables::laws::events_keep_tables_lawful;
use kt_tables::{Event, Phase, Why};

impl<'a> Core<'a> {
    /// Does an event, or tells why it cannot be done. Want of memory is told last, and only of an event that could be done.
    pub fn step(&mut self, event: &Event) -> Result<(), Why>
        requires { CanAsk self.old.program event.now self.old.table }
        ensures reply { Replies (refusal event.now self.old.table) result }
        ensures done { IfOk result (λ _. self.new ≡ state_after event.now self.old) }
        ensures same { IfErr result (λ _. self.new ≡ self.old) }
    {
        self.is_lawful();
        match event {
            Event::ClaimInOrder(task) => self.claim_in_order(*task),
            Event::ClaimReady(task) => self.claim_ready(*task),
            Event::Body(task, operation) => self.body(*task, operation),
            Event::Begin(task) => self.begin(*task),
            Event::Split(task, at) => self.split(*task, *at),
            Event::Take(task, at, count) => self.take(*task, *at, *count),
            Event::Index(task, index, operation) => self.index(*task, *index, operation),
            Event::Retire(task, count) => self.retire(*task, *count),
            Event::Finish(task) => self.finish(*task),
        }
    }

    fn claim_in_order(&mut self, task: u32) -> Result<(), Why>
        requires { CanAsk self.old.program (event_is.ClaimInOrder task) self.old.table }
        ensures { Steps (event_is.ClaimInOrder task) self.old self.new result }
    {
        let phase = self.phase(task);
        if !phase.is_unclaimed() {
            return Err(Why::Found(phase));
        }
        match self.earlier(task) {
            Some(earlier) => Err(Why::Earlier(earlier)),
            None => {
                self.is_lawful();
                events_keep_states_lawful();
                self.put_phase(task, Phase::Running);
                Ok(())
            }
        }
    }

    fn claim_ready(&mut self, task: u32) -> Result<(), Why>
        requires { CanAsk self.old.program (event_is.ClaimReady task) self.old.table }
        ensures { Steps (event_is.ClaimReady task) self.old self.new result }
    {
        let phase = self.phase(task);
        if !phase.is_unclaimed() {
            return Err(Why::Found(phase));
        }
        match self.clash(task) {
            Some(earlier) => Err(Why::Clash(earlier)),
            None => {
                self.is_lawful();
                events_keep_states_lawful();
                self.put_phase(task, Phase::Running);
                Ok(())
            }
        }
    }

    fn finish(&mut self, task: u32) -> Result<(), Why>
        requires { CanAsk self.old.program (event_is.Finish task) self.old.table }
        ensures { Steps (event_is.Finish task) self.old self.new result }
    {
        let phase = self.phase(task);
        if !phase.has_ended() {
            return Err(Why::Found(phase));
        }
        match self.open_child(task) {
            Some(child) => Err(Why::Child(child)),
            None => self.close(task),
        }
    }

    /// The finish of a task that has ended and whose children are finished.
    fn close(&mut self, task: u32) -> Result<(), Why>
        requires can { CanAsk self.old.program (event_is.Finish task) self.old.table }
        requires closed { IsClosed task self.old.table.tasks }
        ensures { Steps (event_is.Finish task) self.old self.new result }
    {
        let left = self.tasks[task as usize].unretired();
        if left > 0 {
            return Err(Why::Left(left));
        }
        self.is_lawful();
        events_keep_states_lawful();
        self.put_phase(task, Phase::Finished);
        self.settle(task);
        Ok(())
    }
}

impl<'a> Core<'a> {
    fn begin(&mut self, task: u32) -> Result<(), Why>
        requires { CanAsk self.old.program (event_is.Begin task) self.old.table }
        ensures { Steps (event_is.Begin task) self.old self.new result }
    {
        let phase = self.phase(task);
        if !phase.is_running() {
            return Err(Why::Found(phase));
        }
        events_keep_states_lawful();
        let length = self.tasks[task as usize].length();
        match Part::whole(self.alloc, length) {
            Ok(part) => {
                self.tasks[task as usize].begin(part);
                Ok(())
            }
            Err(_) => Err(Why::NoMemory),
        }
    }

    fn split(&mut self, task: u32, at: u32) -> Result<(), Why>
        requires { CanAsk self.old.program (event_is.Split task at) self.old.table }
        ensures { Steps (event_is.Split task at) self.old self.new result }
    {
        let phase = self.phase(task);
        if !phase.is_looping() {
            return Err(Why::Found(phase));
        }
        if !self.tasks[task as usize].has_inside(at) {
            return Err(Why::NoPiece);
        }
        events_keep_states_lawful();
        match self.tasks[task as usize].split(at) {
            Ok(()) => {}
            Err(_) => return Err(Why::NoMemory),
        }
        Ok(())
    }

    fn take(&mut self, task: u32, at: u32, count: u32) -> Result<(), Why>
        requires { CanAsk self.old.program (event_is.Take task at count) self.old.table }
        ensures { Steps (event_is.Take task at count) self.old self.new result }
    {
        let phase = self.phase(task);
        if !phase.is_looping() {
            return Err(Why::Found(phase));
        }
        if count == 0 || !self.tasks[task as usize].can_take(at, count) {
            return Err(Why::NoPiece);
        }
        events_keep_states_lawful();
        self.tasks[task as usize].take(at, count);
        Ok(())
    }

    fn index(&mut self, task: u32, index: u32, operation: &Operation) -> Result<(), Why>
        requires { CanAsk self.old.program
            (event_is.Index task index operation.now) self.old.table }
        ensures { Steps (event_is.Index task index operation.now) self.old self.new result }
    {
        let phase = self.phase(task);
        if !phase.is_looping() {
            return Err(Why::Found(phase));
        }
        if !self.tasks[task as usize].is_under_way(index) {
            return Err(Why::NotTaken(index));
        }
        events_keep_states_lawful();
        next_is_on_element();
        match self.tasks[task as usize].go_on_index(index, operation) {
            Ok(()) => {
                act(&mut self.store, operation);
                Ok(())
            }
            Err(_) => Err(Why::NoMemory),
        }
    }

    fn retire(&mut self, task: u32, count: u32) -> Result<(), Why>
        requires { CanAsk self.old.program (event_is.Retire task count) self.old.table }
        ensures { Steps (event_is.Retire task count) self.old self.new result }
    {
        let phase = self.phase(task);
        if !phase.is_looping() {
            return Err(Why::Found(phase));
        }
        let ended = self.tasks[task as usize].ended();
        if count == 0 || ended < count {
            return Err(Why::NotEnded(ended));
        }
        events_keep_states_lawful();
        self.tasks[task as usize].retire(count);
        Ok(())
    }
}

impl<'a> Core<'a> {
    fn body(&mut self, task: u32, operation: &Operation) -> Result<(), Why>
        requires { CanAsk self.old.program (event_is.Body task operation.now) self.old.table }
        ensures { Steps (event_is.Body task operation.now) self.old self.new result }
    {
        let phase = self.phase(task);
        if !phase.is_running() {
            return Err(Why::Found(phase));
        }
        match operation {
            Operation::Fork(call) => self.fork(task, call),
            Operation::Load(_, _, _) => self.go_on(task, operation),
            Operation::Store(_, _, _) => self.go_on(task, operation),
            Operation::Fold(_, _, _, _) => self.go_on(task, operation),
            Operation::End => self.go_on(task, operation),
            Operation::Fault(_, _) => self.go_on(task, operation),
        }
    }

    /// An operation that forks nothing.
    fn go_on(&mut self, task: u32, operation: &Operation) -> Result<(), Why>
        requires goes { Goes (event_is.Body task operation.now) self.old }
        requires no_fork { IsNoFork operation.now }
        ensures { Steps (event_is.Body task operation.now) self.old self.new result }
    {
        events_keep_states_lawful();
        next_is_on_element();
        match self.tasks[task as usize].go_on(operation) {
            Ok(()) => {
                act(&mut self.store, operation);
                Ok(())
            }
            Err(_) => Err(Why::NoMemory),
        }
    }

    fn fork(&mut self, task: u32, call: &Call) -> Result<(), Why>
        requires { Goes (event_is.Body task (operation_is.Fork call.now)) self.old }
        ensures { Steps (event_is.Body task (operation_is.Fork call.now)) self.old self.new result }
    {
        events_keep_states_lawful();
        next_is_rightful();
        let at = task as usize;
        if !self.tasks[at].can_go_on() {
            return Err(Why::NoMemory);
        }
        let number = self.links[at].children().len() as u32 + 1;
        let path = self.tasks[at].child_path(number);
        let row = TaskRow::new(self.alloc, path, call.copied());
        match add_child(self.alloc, &mut self.tasks, &mut self.links, task, row) {
            Ok(()) => {
                self.tasks[at].count();
                Ok(())
            }
            Err(_) => Err(Why::NoMemory),
        }
    }
}

/// Does an operation to the store.
fn act(store: &mut PlainStore, operation: &Operation)
    requires { IsOnElement store.old.program.families operation.now }
    ensures { store.new ≡ acted operation.now store.old }
{
    match operation {
        Operation::Load(_, _, _) => {}
        Operation::Store(object, element, value) => store.store(*object, *element, *value),
        Operation::Fold(object, element, op, value) => store.fold(*object, *element, *op, *value),
        Operation::Fork(_) => {}
        Operation::End => {}
        Operation::Fault(_, _) => {}
    }
}

/// An event that nothing refuses leaves a lawful core lawful.
fn events_keep_states_lawful()
    ensures { EventsKeepStatesLawful }
{
    events_keep_tables_lawful();
}
