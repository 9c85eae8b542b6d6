// The plain store: one list of the elements of all objects.
ghost use Rattle.std.specs.Prelude.{◌≡◌, ◌<◌, ◌+◌, IfOk, length};
ghost use Rattle.kt_law.specs.Acts.{Load, Store, Fold};
ghost use Rattle.kt_prog.specs.Accepted.{IsAccepted};
ghost use Rattle.kt_prog.specs.Objects.{elements_of, first_element_of, inputs_of, objects_of, width_of};
ghost use Rattle.kt_prog.specs.Store.{answer};
ghost use Rattle.kt_store.specs.Stores.{after_act, opened};

use crate::opening::{firsts_of, open_families};
use kt_law::{NoMemory, Op, fold};
use kt_prog::Program;
use std::alloc::Global;
use std::marker::Model;

/// The elements of all objects of a program, in the order of their numbers.
#[derive(Drop)]
pub struct PlainStore<'a> {
    program: &'a Program,
    // the number of each object's element 0
    firsts: Vec<u32>,
    elements: Vec<u64>,
}

impl<'a> Model for PlainStore<'a> {
    ghost use Rattle.std.specs.Coded.{codes};
    ghost use Rattle.kt_store.specs.Stores.{StoreState};
    ghost use Rattle.kt_prog.specs.contracts.programs.What as what;
    ghost use Rattle.kt_prog.specs.contracts.programs.Stmt as stmt;
    ghost use Rattle.kt_prog.specs.contracts.programs.Expr as expr;

    ghost Value = { StoreState };

    ghost coded = { Prim.hlevel (codes, what.the_row.coded, stmt.the_row.coded, expr.the_row.coded) };

    ghost view = { λ s. record { program = s.program.now; elements = s.elements.items } };

    ghost use Rattle.kt_store.specs.Whole.{IsWhole};

    ghost invariant = { IsWhole };
}

impl<'a> PlainStore<'a> {
    /// The store of a run that has not begun: the input in the elements of the input families, and 0 in all others.
    pub fn open(
        alloc: Global,
        program: &'a Program,
        input: &[u64],
    ) -> Result<PlainStore<'a>, NoMemory>
        requires accepted { IsAccepted program.now }
        requires whole { length input.now ≡ inputs_of program.now.families }
        ensures { IfOk result (λ store. store ≡ opened program.now input.now) }
    {
        let firsts = firsts_of(alloc, program)?;
        let mut elements = Vec::new(alloc);
        open_families(program.families.as_slice(), input, &mut elements)?;
        Ok(PlainStore {
            program,
            firsts,
            elements,
        })
    }

    /// What an element of an object has.
    pub fn load(&self, object: u32, element: u32) -> u64
        requires object { object < objects_of self.now.program.families }
        requires element { element < width_of self.now.program.families object }
        ensures { result
            ≡ answer self.now.program.families
            (record { object = object; element = element; deed = Load }) self.now.elements }
    {
        self.elements[self.place(object, element)]
    }

    /// Puts a value into an element of an object.
    pub fn store(&mut self, object: u32, element: u32, value: u64)
        requires object { object < objects_of self.old.program.families }
        requires element { element < width_of self.old.program.families object }
        ensures { self.new
            ≡ after_act (record { object = object; element = element; deed = Store value })
            self.old }
    {
        let at = self.place(object, element);
        self.elements[at] = value;
    }

    /// Cumulates a value into an element of an object.
    pub fn fold(&mut self, object: u32, element: u32, op: Op, value: u64)
        requires object { object < objects_of self.old.program.families }
        requires element { element < width_of self.old.program.families object }
        ensures { self.new
            ≡ after_act (record { object = object; element = element; deed = Fold op value })
            self.old }
    {
        let at = self.place(object, element);
        self.elements[at] = fold(op, self.elements[at], value);
    }

    /// The program of the run.
    pub fn program(&self) -> &'a Program
        ensures { result.now ≡ self.now.program }
    {
        self.program
    }

    /// The elements in the order of their numbers.
    pub fn elements(&self) -> &[u64]
        ensures items { result.now ≡ self.now.elements }
        ensures whole { length result.now ≡ elements_of self.now.program.families }
    {
        self.elements.as_slice()
    }

    /// The elements in the order of their numbers, without the rest of the store.
    pub fn into_elements(self) -> Vec<u64>
        ensures items { result.items ≡ self.entry.elements }
        ensures whole { length result.items ≡ elements_of self.entry.program.families }
    {
        self.elements
    }

    // the number of an element
    fn place(&self, object: u32, element: u32) -> usize
        requires object { object < objects_of self.now.program.families }
        requires element { element < width_of self.now.program.families object }
        ensures at { result ≡ first_element_of self.now.program.families object + element }
        ensures there { result < length self.now.elements }
    {
        self.firsts[object as usize] as usize + element as usize
    }
}
