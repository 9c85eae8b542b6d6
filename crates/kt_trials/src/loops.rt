// Loops and kernels on one thread, with the counts of tasks and indexes.

use crate::jobs::opened;
use kt_frames::run_owner;
use kt_law::F;
use kt_prog::{FaultAt, Outcome, Ran, inputs, laws};
use std::alloc::Global;
use std::process::Abort;
use std::test::Fail;

/// What a run comes to.
#[derive(Clone, Copy)]
enum Wanted {
    Row(u64),
    /// By the path, the index and the line.
    Fault(&'static [u32], Option<u32>, F, u32),
    Limit,
}

#[derive(Clone, Copy)]
struct Trial {
    job: &'static str,
    wanted: Wanted,
    tasks: u32,
    indexes: u32,
}

const TRIALS: [Trial; 12] = [
    Trial {
        job: "object A of 1 output; loop each(i; cw(add) P) { P[0] add= i; } main { fork each(0; A); } data",
        wanted: Wanted::Row(0),
        tasks: 2,
        indexes: 0,
    },
    Trial {
        job: "object A of 1 output; loop each(i; cw(add) P) { P[0] add= i; } main { fork each(1; A); } data",
        wanted: Wanted::Row(0),
        tasks: 2,
        indexes: 1,
    },
    Trial {
        job: "object A of 1 output; loop each(i; cw(add) P) { P[0] add= i; } main { fork each(4096; A); } data",
        wanted: Wanted::Row(8_386_560),
        tasks: 2,
        indexes: 4_096,
    },
    // What is zeroed is zeroed before the first index.
    Trial {
        job: "object A of 3 input output; loop each(i; w P) { if i == 1 { P[i] = 5; } } task sum(x P) { P[0] = P[0] + P[1] * 10 + P[2] * 100; }\nmain { fork each(3; A); fork sum(A); } data 7 7 7",
        wanted: Wanted::Row(50),
        tasks: 3,
        indexes: 3,
    },
    Trial {
        job: "object A of 1 output; loop each(i; cw(add) P) { P[0] add= 1; } main { for j in 0..256 { fork each(4096; A); } } data",
        wanted: Wanted::Row(1_048_576),
        tasks: 257,
        indexes: 1_048_576,
    },
    Trial {
        job: "object A of 4 input; object B of 4 input; object C of 4 output; main { fork k_mul(2, 2, 2, A, B, C); } data 1 2 3 4 5 6 7 8",
        wanted: Wanted::Row(19),
        tasks: 2,
        indexes: 0,
    },
    Trial {
        job: "object A of 4 input; object C of 4 output; main { fork k_mul(0, 0, 0, A, A, C); } data 1 2 3 4",
        wanted: Wanted::Row(0),
        tasks: 2,
        indexes: 0,
    },
    Trial {
        job: "object A of 1 output; loop each(i; cw(add) P) { P[0] add= 1; } main { for j in 0..257 { fork each(4096; A); } } data",
        wanted: Wanted::Limit,
        tasks: 0,
        indexes: 0,
    },
    Trial {
        job: "object A of 1 output; loop each(i; cw(add) P) { P[0] add= i; }\nmain { fork each(4097; A); } data",
        wanted: Wanted::Fault(&[], None, F::F7, 2),
        tasks: 1,
        indexes: 0,
    },
    // All indexes run, and the first fault is answered.
    Trial {
        job: "object A of 1 output; loop each(i; cw(add) P) {\nlet q = 1 / (2 - i); P[0] add= 1; }\nmain { fork each(3; A); fork each(3; A); } data",
        wanted: Wanted::Fault(&[1], Some(2), F::F1, 2),
        tasks: 3,
        indexes: 6,
    },
    Trial {
        job: "object A of 1 output; loop each(i; cw(add) P) {\nP[0] add= 1; let q = 1 / 0; }\nmain { fork each(3; A); } data",
        wanted: Wanted::Fault(&[1], Some(0), F::F1, 2),
        tasks: 2,
        indexes: 3,
    },
    // A kernel's tile of one element less.
    Trial {
        job: "object A of 3 input; object B of 4 input; object C of 4 output; main { fork k_mul(2, 2, 2, A, B, C); } data 1 2 3 4 5 6 7",
        wanted: Wanted::Fault(&[1], None, F::F2, 0),
        tasks: 2,
        indexes: 0,
    },
];

fn is_at(at: &FaultAt, path: &[u32], index: Option<u32>, fault: F, line: u32) -> bool {
    at.path.as_slice() == path && at.index == index && at.fault == fault && at.line == line
}

fn is_wanted(outcome: &Outcome, wanted: Wanted) -> bool {
    match (outcome, wanted) {
        (Outcome::Rows(rows), Wanted::Row(sum)) => rows.as_slice().contains(&sum),
        (Outcome::Fault(at), Wanted::Fault(path, index, fault, line)) => {
            is_at(at, path, index, fault, line)
        }
        (Outcome::Limit, Wanted::Limit) => true,
        _ => false,
    }
}

fn by_owner(rt: &impl Abort, alloc: Global, trial: &Trial) -> Result<Ran, Fail> {
    let (program, input) = opened(alloc, trial.job)?;
    laws::few_objects();
    let wanted = inputs(&program) as usize;
    assert!(rt; wanted == input.len());
    Ok(run_owner(alloc, &program, &input)?)
}

#[test]
fn loops_and_kernels_come_to_their_answers(rt: HostRuntime) -> Result<(), Fail> {
    let alloc = rt.alloc();
    for trial in &TRIALS {
        let ran = by_owner(&rt, alloc, trial)?;
        assert!(rt; is_wanted(&ran.outcome, trial.wanted), "{}", trial.job);
        assert!(rt;
            ran.tasks == trial.tasks && ran.indexes == trial.indexes,
            "{}",
            trial.job
        );
    }
    Ok(())
}
