// The body of `main` on an object that notes what it is asked.
use crate::jobs::opened;
use arrayvec::ArrayVec;
use kt_body::{Ended, Got, Ops, Went, run_body, run_zero};
use kt_law::{F, Op};
use kt_prog::Call;
use std::alloc::Global;
use std::test::Fail;

/// The tasks that were forked, in order, and 0 for each other operation.
#[derive(Drop)]
struct Notes {
    done: ArrayVec<u32, 8>,
}

impl Notes {
    fn note(&mut self, what: u32) {
        if self.done.len() < 8 {
            self.done.push(what);
        }
    }
}

impl Ops for Notes {
    ghost use Rattle.std.specs.Prelude.{ℕ};

    ghost at = { λ s p job answers count. Unit {0} };

    ghost goes = { λ s operation t. Unit {0} };

    ghost halted = { λ s. ⊥ };

    fn load(&mut self, _object: u32, _element: u32) -> Got {
        self.note(0);
        Got::Value(0)
    }

    fn store(&mut self, _object: u32, _element: u32, _value: u64) -> Went {
        self.note(0);
        Went::Went
    }

    fn fold(&mut self, _object: u32, _element: u32, _op: Op, _value: u64) -> Went {
        self.note(0);
        Went::Went
    }

    fn fork(&mut self, child: &Call) -> Went {
        self.note(child.task);
        Went::Went
    }
}

const WORLD: &str = "object A[2] of 2; task s() {} task t(int n, x P, x Q) {} main {\n";

// A body behind those declarations, how it ends, and what it forks before.
const BODIES: [(&str, Ended, &[u32]); 10] = [
    ("", Ended::Done, &[]),
    ("let v = 1 / 0;", Ended::Fault(F::F1, 2), &[]),
    (
        "let v = 3; if v == 3 {\nv = 1 / 0; } else {}",
        Ended::Fault(F::F1, 3),
        &[],
    ),
    ("for i in 0..4194303 {}", Ended::Done, &[]),
    (
        "fork s(); for i in 0..4194303 {}",
        Ended::Fault(F::F6, 2),
        &[1],
    ),
    ("fork t(1 / 0, A[2], A[2]);", Ended::Fault(F::F1, 2), &[]),
    ("fork t(1, A[2], A[2]);", Ended::Fault(F::F3, 2), &[]),
    ("fork t(1, A[0], A[2]);", Ended::Fault(F::F3, 2), &[]),
    ("fork t(1, A[1], A[1]);", Ended::Fault(F::F4, 2), &[]),
    (
        "fork t(1, A[1], A[0]); fork s(); fork t(2, A[0], A[1]);",
        Ended::Done,
        &[2, 1, 2],
    ),
];

// How the body of `main` ends, and what it did. It has nothing to zero.
fn end_of(alloc: Global, body: &str) -> Result<(Ended, Notes), Fail> {
    let job = format!(in alloc; "{}{}\n}} data", WORLD, body)?;
    let (program, _) = opened(alloc, &job)?;
    let mut notes = Notes {
        done: ArrayVec::new(),
    };
    let call = Call::of_main();
    if run_zero(&program, &call, &mut notes) != Ended::Done {
        return Err("nothing to zero".into());
    }
    let end = run_body(&program, &call, &mut notes);
    Ok((end, notes))
}

#[test]
fn bodies_end(rt: HostRuntime) -> Result<(), Fail> {
    for (body, wanted, forked) in BODIES {
        let (end, notes) = end_of(rt.alloc(), body)?;
        assert!(rt; end == wanted, "{body}");
        assert!(rt; notes.done.as_slice() == forked, "{body}");
    }
    Ok(())
}
