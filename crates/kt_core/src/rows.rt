// The tasks of a core.
ghost use Rattle.std.specs.Prelude.{◌≡◌, ◌≤◌, ◌<◌, ◌-◌, ◌^◌, ◌∷◌, ◌++◌, ◌↔◌, [], IfErr, IfOk, IsTrue, length, slice_get, true};
ghost use Rattle.kt_core.specs.Reads.{fault_of_index};
ghost use Rattle.kt_tables.specs.LoopRows.{can_take, has_inside, is_under_way, row_begun, row_indexed, row_retired, row_split, row_taken};
ghost use Rattle.kt_tables.specs.Tables.{fault_of_row, fresh_row, whole_loop};
ghost use Rattle.kt_tables.specs.TableEvents.{in_phase, row_after, went_on};
ghost use Rattle.kt_tables.specs.declared.events.Phase.TheVariants as phase_is;
ghost use Rattle.kt_prog.specs.declared.runs.Operation.TheVariants as operation_is;

use crate::parts::Part;
use crate::pieces::Piece;
use arrayvec::ArrayVec;
use kt_law::{F, NoMemory};
use kt_prog::{Call, FaultAt, Operation, PATH};
use kt_tables::{BodyFault, Phase};
use std::alloc::Global;
use std::marker::Model;

/// A task of a run: its path, call and phase, what its loads found, how many operations it has done, the fault that ended its body,
/// and its part of a loop.
#[derive(Drop)]
pub struct TaskRow {
    pub path: ArrayVec<u32, PATH>,
    pub call: Call,
    pub phase: Phase,
    pub answers: Vec<u64>,
    pub done: u64,
    pub fault: Option<BodyFault>,
    part: Part,
}

impl Model for TaskRow {
    ghost use Rattle.std.specs.Prelude.{option_map};
    ghost use Rattle.kt_tables.specs.Tables.{TaskRow, body_fault};

    ghost Value = { TaskRow };

    ghost view = { λ r. record {
      path = r.path.items;
      call = r.call;
      phase = r.phase;
      answers = r.answers.items;
      done = r.done;
      fault = option_map body_fault r.fault;
      loop = r.part;
    } };
}

impl TaskRow {
    /// A task that nobody has claimed.
    pub fn new(alloc: Global, path: ArrayVec<u32, PATH>, call: Call) -> TaskRow
        ensures { result ≡ fresh_row path.items call }
    {
        TaskRow {
            path,
            call,
            phase: Phase::Unclaimed,
            answers: Vec::new(alloc),
            done: 0,
            fault: None,
            part: Part::none(alloc),
        }
    }

    pub fn phase(&self) -> Phase
        ensures { result ≡ self.now.phase }
    {
        self.phase
    }

    /// The fault that ended its body, with its path.
    pub fn fault(&self) -> Option<FaultAt>
        ensures { result ≡ fault_of_row self.now }
    {
        match self.fault {
            Some(fault) => Some(FaultAt {
                path: copied_path(self.path.as_slice()),
                index: None,
                fault: fault.law,
                line: fault.line,
            }),
            None => None,
        }
    }

    /// The path of a child with this number.
    pub fn child_path(&self, number: u32) -> ArrayVec<u32, PATH>
        requires { length self.now.path < PATH }
        ensures { result.items ≡ self.now.path ++ number ∷ [] }
    {
        let mut path = copied_path(self.path.as_slice());
        path.push(number);
        path
    }

    pub fn set_phase(&mut self, phase: Phase)
        ensures { self.new ≡ in_phase phase self.old }
    {
        self.phase = phase;
    }

    /// A loop begins with this part.
    pub fn begin(&mut self, part: Part)
        requires { part ≡ whole_loop self.old.call.length }
        ensures { self.new ≡ row_begun self.old }
    {
        self.phase = Phase::Looping;
        self.part = part;
    }

    /// How many indexes its call has, if it is a loop's.
    pub fn length(&self) -> u32
        ensures { result ≡ self.now.call.length }
    {
        self.call.length
    }

    /// How many indexes are not retired.
    pub fn unretired(&self) -> u32
        ensures { result ≡ self.now.loop.unretired }
    {
        self.part.unretired()
    }

    /// How many indexes have ended that are not retired.
    pub fn ended(&self) -> u32
        ensures { result ≡ self.now.loop.ended }
    {
        self.part.ended()
    }

    /// The pieces of its indexes that are not taken.
    pub fn pieces(&self) -> &[Piece]
        ensures { result.now ≡ self.now.loop.pieces }
    {
        self.part.pieces()
    }

    /// The fault that ended the body of an index, with the path of the loop.
    pub fn index_fault(&self, index: u32) -> Option<FaultAt>
        ensures { result
            ≡ fault_of_index self.now.path index (slice_get self.now.loop.indexes index) }
    {
        match self.part.index_fault(index) {
            Some(fault) => Some(FaultAt {
                path: copied_path(self.path.as_slice()),
                index: Some(index),
                fault: fault.law,
                line: fault.line,
            }),
            None => None,
        }
    }

    pub fn has_inside(&self, at: u32) -> bool
        ensures { result ≡ has_inside at self.now.loop.pieces }
    {
        self.part.has_inside(at)
    }

    pub fn can_take(&self, at: u32, count: u32) -> bool
        ensures { result ≡ can_take at count self.now.loop.pieces }
    {
        self.part.can_take(at, count)
    }

    /// Whether the index is taken and its body has not ended.
    pub fn is_under_way(&self, index: u32) -> bool
        ensures { result ≡ is_under_way (slice_get self.now.loop.indexes index) }
    {
        self.part.is_under_way(index)
    }

    /// Want of memory changes nothing.
    pub fn split(&mut self, at: u32) -> Result<(), NoMemory>
        requires { has_inside at self.old.loop.pieces ≡ true }
        ensures done { IfOk result (λ _. self.new ≡ row_split at self.old) }
        ensures same { IfErr result (λ _. self.new ≡ self.old) }
    {
        self.part.split(at)
    }

    pub fn take(&mut self, at: u32, count: u32)
        requires { can_take at count self.old.loop.pieces ≡ true }
        ensures { self.new ≡ row_taken at count self.old }
    {
        self.part.take(at, count);
    }

    /// Does what an operation makes of an index that is under way. Want of memory changes nothing.
    pub fn go_on_index(&mut self, index: u32, operation: &Operation) -> Result<(), NoMemory>
        requires { is_under_way (slice_get self.old.loop.indexes index) ≡ true }
        ensures done { IfOk result (λ _. self.new ≡ row_indexed index operation.now self.old) }
        ensures same { IfErr result (λ _. self.new ≡ self.old) }
    {
        self.part.go_on(index, operation)
    }

    /// Retires so many of the indexes that have ended.
    pub fn retire(&mut self, count: u32)
        requires { count ≤ self.old.loop.ended }
        ensures { self.new ≡ row_retired count self.old }
    {
        self.part.retire(count);
    }

    /// Whether one operation more can be counted.
    pub fn can_go_on(&self) -> bool
        ensures { IsTrue result ↔ (self.now.done < 2 ^ 64 - 1) }
    {
        self.done < u64::MAX
    }

    /// Does what an operation makes of its task. Want of memory, and of room in the count of operations, changes nothing.
    pub fn go_on(&mut self, operation: &Operation) -> Result<(), NoMemory>
        ensures done { IfOk result (λ _. self.new ≡ row_after operation.now self.old) }
        ensures same { IfErr result (λ _. self.new ≡ self.old) }
    {
        if !self.can_go_on() {
            return Err(NoMemory);
        }
        match operation {
            Operation::Load(_, _, value) => self.hear(*value),
            Operation::Store(_, _, _) => {
                self.count();
                Ok(())
            }
            Operation::Fold(_, _, _, _) => {
                self.count();
                Ok(())
            }
            Operation::Fork(_) => {
                self.count();
                Ok(())
            }
            Operation::End => {
                self.end();
                Ok(())
            }
            Operation::Fault(law, line) => {
                self.fail(*law, *line);
                Ok(())
            }
        }
    }

    /// Counts an operation that heard nothing.
    pub fn count(&mut self)
        requires { self.old.done < 2 ^ 64 - 1 }
        ensures { self.new ≡ went_on [] self.old }
    {
        self.done += 1;
    }

    fn hear(&mut self, value: u64) -> Result<(), NoMemory>
        requires { self.old.done < 2 ^ 64 - 1 }
        ensures done { IfOk result (λ _. self.new ≡ went_on (value ∷ []) self.old) }
        ensures same { IfErr result (λ _. self.new ≡ self.old) }
    {
        self.answers.push(value)?;
        self.done += 1;
        Ok(())
    }

    fn end(&mut self)
        requires { self.old.done < 2 ^ 64 - 1 }
        ensures { self.new ≡ in_phase phase_is.Ended (went_on [] self.old) }
    {
        self.phase = Phase::Ended;
        self.done += 1;
    }

    fn fail(&mut self, law: F, line: u32)
        requires { self.old.done < 2 ^ 64 - 1 }
        ensures { self.new ≡ row_after (operation_is.Fault law line) self.old }
    {
        self.phase = Phase::Ended;
        self.fault = Some(BodyFault { law, line });
        self.done += 1;
    }
}

/// The same path once more, which takes no memory.
pub fn copied_path(from: &[u32]) -> ArrayVec<u32, PATH>
    requires { length from.now ≤ PATH }
    ensures { result.items ≡ from.now }
{
    let mut path = ArrayVec::new();
    match path.try_extend_from_slice(from) {
        Ok(()) => path,
        Err(_) => unreachable!(),
    }
}
