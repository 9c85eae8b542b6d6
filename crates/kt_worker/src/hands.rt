// What a worker does the operations of a body on: its seat.
ghost use Rattle.std.specs.Prelude.{◌≡◌, true};
ghost use Rattle.kt_rule.specs.declared.views.View.{View};

use kt_body::{Got, Ops, Went};
use kt_calls::{Published, Run};
use kt_law::Op;
use kt_prog::{Call, Program};
use kt_words::RECORDS;
use std::marker::{Brand, PhantomData};

/// What a seat knew where the body began that it runs. Each call that runs a body picks it.
pub trait Began {
    ghost view: { View };
}

impl Began for Brand {
    ghost use Rattle.kt_rule.specs.Views.{blank_view};

    ghost view = { blank_view };
}

/// A seat within a body.
pub struct Hands<'a, R: Run, B: Began> {
    pub run: R,
    pub program: &'a Program,
    /// The number of each object's element 0.
    pub firsts: &'a [u32],
    /// The record of the task.
    pub parent: u32,
    /// Where the records of its children begin in the seat's region, and how many there are.
    pub first: u32,
    pub forks: u32,
    /// The frame of these records.
    pub frame: u64,
    /// How many operations on elements the body did.
    pub elements: u32,
    /// A fork was one too many.
    pub limit: bool,
    pub of: PhantomData<B>,
}

impl<'a, R: Run, B: Began> Hands<'a, R, B> {
    /// The seat, how many children it forked, and how many operations on elements it did.
    pub fn taken_apart(self) -> (R, u32, u32)
        ensures { (result.0 ≡ self.entry.run) × (result.1 ≡ self.entry.forks) }
    {
        let Hands {
            run,
            program: _,
            firsts: _,
            parent: _,
            first: _,
            forks,
            frame: _,
            elements,
            limit: _,
            of: _,
        } = self;
        (run, forks, elements)
    }
}

impl<'a, R: Run, B: Began> Ops for Hands<'a, R, B> {
    ghost use Rattle.std.specs.Prelude.{◌≡◌, true};
    ghost use Rattle.kt_worker.specs.Hands.{StandsAt};

    ghost at = { λ h p job answers count. StandsAt B.view
        (record {
          view = R.view h.run;
          program = h.program.now;
          firsts = h.firsts.now;
          parent = h.parent;
          first = h.first;
          forks = h.forks;
          frame = h.frame;
          limit = h.limit;
        })
        p job answers count };

    ghost goes = { λ x operation y. Unit {0} };

    ghost halted = { λ h. h.limit ≡ true };

    fn load(&mut self, object: u32, element: u32) -> Got {
        self.elements = self.elements.saturating_add(1);
        let number = self.firsts[object as usize] + element;
        Got::Value(self.run.load(number))
    }

    fn store(&mut self, object: u32, element: u32, value: u64) -> Went {
        self.elements = self.elements.saturating_add(1);
        let number = self.firsts[object as usize] + element;
        self.run.store(number, value);
        Went::Went
    }

    fn fold(&mut self, object: u32, element: u32, op: Op, value: u64) -> Went {
        self.elements = self.elements.saturating_add(1);
        let number = self.firsts[object as usize] + element;
        self.run.fold(number, op, value);
        Went::Went
    }

    fn fork(&mut self, child: &Call) -> Went {
        let at = RECORDS * self.run.worker() + self.first + self.forks;
        match self
            .run
            .publish(self.parent, at, self.frame, self.forks + 1, child)
        {
            Published::Published(_) => {
                self.forks += 1;
                Went::Went
            }
            Published::Limit(_) => {
                self.limit = true;
                Went::Halt
            }
        }
    }
}
