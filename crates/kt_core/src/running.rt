// The core: a run of a program, event by event.
ghost use Rattle.std.specs.Prelude.{◌≡◌, ◌<◌, ◌≤◌, length, All, IfOk, Some, slice_get};
ghost use Rattle.kt_law.specs.Acts.{Load};
ghost use Rattle.kt_prog.specs.Accepted.{IsAccepted};
ghost use Rattle.kt_prog.specs.Entries.{indexes_of, tasks_of};
ghost use Rattle.kt_prog.specs.Objects.{inputs_of, objects_of, width_of};
ghost use Rattle.kt_prog.specs.Outcome.{answered, outcome_of};
ghost use Rattle.kt_prog.specs.Reference.{reference};
ghost use Rattle.kt_prog.specs.Store.{answer};
ghost use Rattle.kt_core.specs.Links.{FindsAlike, siblings_of};
ghost use Rattle.kt_core.specs.Steps.{StaysFinished, rephased};
ghost use Rattle.kt_tables.specs.Tables.{MainIsFinished, TaskRow, clash_before, count_indexes, fault_of_row, open_before, open_child, opening_state};
ghost use Rattle.kt_tables.specs.TableLaws.{IsLawfulState, TableGivesReference, faults_in};

mod reads;
mod steps;

use crate::links::{Link, count_settled, first_clash, first_open};
use crate::rows::TaskRow;
use arrayvec::ArrayVec;
use kt_law::NoMemory;
use kt_prog::{Call, FaultAt, Program};
use kt_store::PlainStore;
use kt_tables::Phase;
use kt_tables::laws::{done_table_is_reference, opening_table_is_lawful, tables_have_no_more};
use std::alloc::Global;
use std::marker::Model;

/// A run of a program, as far as it has come: the store, and the tasks in the order of their forks, `main` as number 0. Only
/// [`Core::new`] and [`Core::step`] make and change one, so every core is lawful.
#[derive(Drop)]
pub struct Core<'a> {
    alloc: Global,
    store: PlainStore<'a>,
    input: &'a [u64],
    tasks: Vec<TaskRow>,
    links: Vec<Link>,
}

impl<'a> Model for Core<'a> {
    ghost use Rattle.std.specs.Coded.{codes};
    ghost use Rattle.kt_tables.specs.Tables.{CoreState};
    ghost use Rattle.kt_prog.specs.contracts.programs.What as what;
    ghost use Rattle.kt_prog.specs.contracts.programs.Stmt as stmt;
    ghost use Rattle.kt_prog.specs.contracts.programs.Expr as expr;

    ghost Value = { CoreState };

    ghost coded = { Prim.hlevel (codes, what.the_row.coded, stmt.the_row.coded, expr.the_row.coded) };

    ghost use Rattle.kt_core.specs.Sound.{IsSoundInside, seen};

    ghost view = { seen };

    ghost invariant = { IsSoundInside };
}

impl<'a> Core<'a> {
    /// A run that has not begun: `main` is unclaimed, and the input stands in the store.
    pub fn new(alloc: Global, program: &'a Program, input: &'a [u64]) -> Result<Core<'a>, NoMemory>
        requires accepted { IsAccepted program.now }
        requires whole { length input.now ≡ inputs_of program.now.families }
        ensures { IfOk result (λ core. core ≡ opening_state program.now input.now) }
    {
        let store = PlainStore::open(alloc, program, input)?;
        let mut tasks = Vec::new(alloc);
        tasks.push(TaskRow::new(alloc, ArrayVec::new(), Call::of_main()))?;
        let mut links = Vec::new(alloc);
        links.push(Link::new(alloc, None))?;
        opening_table_is_lawful();
        Ok(Core {
            alloc,
            store,
            input,
            tasks,
            links,
        })
    }

    /// How many tasks there are.
    pub fn tasks(&self) -> u32
        ensures { result ≡ length self.now.table.tasks }
    {
        self.tasks.len() as u32
    }

    pub fn phase(&self, task: u32) -> Phase
        requires { task < length self.now.table.tasks }
        ensures { (r : TaskRow) → slice_get self.now.table.tasks task ≡ Some r → result ≡ r.phase }
    {
        self.tasks[task as usize].phase()
    }

    /// The elements of all objects, in the order of their numbers.
    pub fn rows(&self) -> &[u64]
        ensures { result.now ≡ self.now.table.store }
    {
        self.store.elements()
    }

    /// The program of the run.
    pub fn program(&self) -> &'a Program
        ensures { result.now ≡ self.now.program }
    {
        self.store.program()
    }

    /// What the store has in an element of an object.
    pub fn value(&self, object: u32, element: u32) -> u64
        requires object { object < objects_of self.now.program.families }
        requires element { element < width_of self.now.program.families object }
        ensures { result
            ≡ answer self.now.program.families
            (record { object = object; element = element; deed = Load }) self.now.table.store }
    {
        self.store.load(object, element)
    }

    /// The call of a task.
    pub fn call(&self, task: u32) -> &Call
        requires { task < length self.now.table.tasks }
        ensures { (r : TaskRow) → slice_get self.now.table.tasks task ≡ Some r
            → result.now ≡ r.call }
    {
        &self.tasks[task as usize].call
    }

    /// The fault that ended the body of a task.
    pub fn fault(&self, task: u32) -> Option<FaultAt>
        requires { task < length self.now.table.tasks }
        ensures { (r : TaskRow) → slice_get self.now.table.tasks task ≡ Some r
            → result ≡ fault_of_row r }
    {
        self.tasks[task as usize].fault()
    }

    /// The first child of a task that is not finished.
    pub fn open_child(&self, task: u32) -> Option<u32>
        requires { task < length self.now.table.tasks }
        ensures { (r : TaskRow) → slice_get self.now.table.tasks task ≡ Some r
            → result ≡ open_child r self.now.table.tasks }
    {
        let children = self.links[task as usize].left();
        first_open(self.tasks.as_slice(), children, self.tasks())
    }

    /// Every core is lawful. The function does nothing; its contract is the law.
    pub fn is_lawful(&self)
        ensures { IsLawfulState self.now }
    {
        let _ = &self.tasks;
    }

    /// Where `main` is finished, the store is that of the reference run, and the tasks with what their loads found, the indexes with
    /// theirs, and the faults are those of the reference run, by path and index, in some order: with faults or none, and past the
    /// limits too. The function does nothing; its contract is the law.
    pub fn gives_reference(&self)
        requires { MainIsFinished self.now.table.tasks }
        ensures store { self.now.table.store ≡ (reference self.now.program self.now.input).store }
        ensures runs { ∥ TableGivesReference self.now.program self.now.input self.now.table ∥₁ }
    {
        self.is_lawful();
        done_table_is_reference();
    }

    /// Where `main` is finished, the numbers of tasks and of indexes, their faults and the store give the outcome of the reference run.
    /// The function does nothing; its contract is the law.
    pub fn gives_outcome(&self)
        requires { MainIsFinished self.now.table.tasks }
        ensures { answered (length self.now.table.tasks) (count_indexes self.now.table.tasks)
            (faults_in self.now.program self.now.table.tasks) self.now.table.store
            ≡ outcome_of self.now.program self.now.input }
    {
        self.is_lawful();
        done_table_is_reference();
    }

    /// There are no more tasks and no more indexes than in the reference run. The function does nothing; its contract is the law.
    pub fn has_no_more(&self)
        ensures tasks { length self.now.table.tasks
            ≤ length (tasks_of self.now.program
            (reference self.now.program self.now.input).entries) }
        ensures indexes { count_indexes self.now.table.tasks
            ≤ length (indexes_of self.now.program
            (reference self.now.program self.now.input).entries) }
    {
        self.is_lawful();
        tables_have_no_more();
    }

    /// The numbers of the children of its parent, itself among them, without the first ones that are known to be finished.
    fn siblings(&self, task: u32) -> &[u32]
        requires { task < length self.now.table.tasks }
        ensures there { All (λ k. k < length self.now.table.tasks) result.now }
        ensures alike { (r : TaskRow) → slice_get self.now.table.tasks task ≡ Some r
            → FindsAlike self.now.table.tasks result.now (siblings_of r self.now.table.tasks) }
    {
        match self.links[task as usize].parent() {
            Some(parent) => self.links[parent as usize].left(),
            None => &[],
        }
    }

    /// The first task before it in its frame that is not finished.
    fn earlier(&self, task: u32) -> Option<u32>
        requires { task < length self.now.table.tasks }
        ensures { (r : TaskRow) → slice_get self.now.table.tasks task ≡ Some r
            → result ≡ open_before task r self.now.table.tasks }
    {
        first_open(self.tasks.as_slice(), self.siblings(task), task)
    }

    /// The first task before it in its frame that is not finished and clashes with it.
    fn clash(&self, task: u32) -> Option<u32>
        requires { task < length self.now.table.tasks }
        ensures { (r : TaskRow) → slice_get self.now.table.tasks task ≡ Some r
            → result ≡ clash_before task r self.now.table.tasks }
    {
        first_clash(
            self.tasks.as_slice(),
            self.siblings(task),
            task,
            &self.tasks[task as usize].call,
        )
    }

    /// Puts a task into another phase, where that is lawful.
    fn put_phase(&mut self, task: u32, phase: Phase)
        requires there { task < length self.old.table.tasks }
        requires lawful { IsLawfulState (rephased task phase self.old) }
        requires stays { StaysFinished task phase self.old.table.tasks }
        ensures { self.new ≡ rephased task phase self.old }
    {
        self.tasks[task as usize].set_phase(phase);
    }

    /// Notes how many of the first children of its parent are finished.
    fn settle(&mut self, task: u32)
        requires { task < length self.old.table.tasks }
        ensures { self.new ≡ self.old }
    {
        match self.links[task as usize].parent() {
            Some(parent) => self.settle_children(parent),
            None => {}
        }
    }

    /// Notes how many of its first children are finished.
    fn settle_children(&mut self, task: u32)
        requires { task < length self.old.table.tasks }
        ensures { self.new ≡ self.old }
    {
        let link = &self.links[task as usize];
        let settled = count_settled(self.tasks.as_slice(), link.children(), link.settled());
        self.links[task as usize].set_settled(settled);
    }
}
