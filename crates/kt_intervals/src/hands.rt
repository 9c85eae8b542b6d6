// What a worker does the operations of an index's body on: its seat.
ghost use Rattle.std.specs.Prelude.{◌≡◌};
ghost use Rattle.kt_intervals.specs.Indexes.{Start};

use kt_body::{Got, Ops, Went};
use kt_calls::Run;
use kt_law::Op;
use kt_prog::{Call, Program};
use std::marker::{Brand, PhantomData};

/// What a seat knew where the body began that it runs. Each call that runs a body picks it.
pub trait Began {
    ghost start: { Start };
}

impl Began for Brand {
    ghost use Rattle.kt_intervals.specs.Indexes.{blank_start};

    ghost start = { blank_start };
}

/// A seat within the body of an index.
pub struct IndexHands<'a, R: Run, B: Began> {
    pub run: R,
    pub program: &'a Program,
    /// The number of each object's element 0.
    pub firsts: &'a [u32],
    pub of: PhantomData<B>,
}

impl<'a, R: Run, B: Began> IndexHands<'a, R, B> {
    /// The seat.
    pub fn into_run(self) -> R
        ensures { result ≡ self.entry.run }
    {
        let IndexHands {
            run,
            program: _,
            firsts: _,
            of: _,
        } = self;
        run
    }
}

impl<'a, R: Run, B: Began> Ops for IndexHands<'a, R, B> {
    ghost use Rattle.std.specs.Prelude.{◌≡◌};
    ghost use Rattle.kt_intervals.specs.Indexes.{StandsIn};

    ghost at = { λ h p job answers count. StandsIn B.start
        (record { view = R.view h.run; program = h.program.now; firsts = h.firsts.now })
        p job answers count };

    ghost goes = { λ x operation y. Unit {0} };

    ghost halted = { λ h. ⊥ };

    fn load(&mut self, object: u32, element: u32) -> Got {
        let number = self.firsts[object as usize] + element;
        Got::Value(self.run.load(number))
    }

    fn store(&mut self, object: u32, element: u32, value: u64) -> Went {
        let number = self.firsts[object as usize] + element;
        self.run.store(number, value);
        Went::Went
    }

    fn fold(&mut self, object: u32, element: u32, op: Op, value: u64) -> Went {
        let number = self.firsts[object as usize] + element;
        self.run.fold(number, op, value);
        Went::Went
    }

    // an index forks nothing
    fn fork(&mut self, _child: &Call) -> Went {
        unreachable!()
    }
}
