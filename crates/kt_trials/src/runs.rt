// Whole runs, on one thread and by events, with the counts of their tasks.
ghost use Rattle.std.specs.Prelude.{◌≤◌};
ghost use Rattle.kt_law.specs.declared.limits.TheConstants.{WORKERS};
ghost use Rattle.kt_prog.specs.Accepted.{IsAccepted};

use crate::jobs::opened;
use kt_core::{Core, Phase};
use kt_frames::run_owner;
use kt_law::F;
use kt_prog::{Outcome, Program, Ran, inputs, laws};
use kt_sim::simulate;
use std::alloc::Global;
use std::process::Abort;
use std::test::Fail;

/// What a run comes to.
#[derive(Clone, Copy)]
enum Wanted {
    Rows(&'static [u64]),
    Fault(&'static [u32], F, u32),
    Limit,
}

#[derive(Clone, Copy)]
struct Trial {
    job: &'static str,
    wanted: Wanted,
    tasks: u32,
}

const TWICE: &str =
    "object A of 1 input output; task one(cw(add) P) { P[0] add= 1; } main { fork one(A); fork one(A); } data 41";

const MANY: &str =
    "object A of 1 output; task one(cw(add) P) { P[0] add= 1; } main { for i in 0..16383 { fork one(A); } } data";

const TOO_MANY: &str =
    "object A of 1 output; task one(cw(add) P) { P[0] add= 1; } main { for i in 0..16384 { fork one(A); } } data";

const CLASHING: &str =
    "object A of 1 output; task one(x P) { P[0] = P[0] * 2 + 1; } main { for i in 0..30 { fork one(A); } } data";

// The children of a task with a fault run, and the fault of the first such task is answered.
const FAILING: &str =
    "object A of 1 output; task one(cw(add) P) { P[0] add= 1; }\ntask bad(cwp(add) P) {\nfork one(P);\nlet q = 1 / 0; }\nmain { fork one(A); fork bad(A); fork bad(A); } data";

const ALL_FAIL: &str =
    "task one() {\nlet q = 1 / 0; }\nmain { for i in 0..5 { fork one(); } } data";

const DEEP: &str =
    "object A of 1 output; task down(int k, cw(add) P) {\nP[0] add= 1; if k > 0 { fork down(k - 1, P); } }\nmain { fork down(31, A); } data";

const TOO_DEEP: &str =
    "object A of 1 output; task down(int k, cw(add) P) {\nP[0] add= 1; if k > 0 { fork down(k - 1, P); } }\nmain { fork down(32, A); } data";

// A task of eight accesses, two of them ranges, past the end of its first object, and of its last.
const PAST_THE_FIRST: &str =
    "object A of 3; object B of 1; object C of 4; object D of 2; object E of 5; object F[3] of 6; object G[2] of 7; object S of 1 output; task one(x P) { P[5] = 1; } task look(r P) { let n = P[6]; } task last(x P, x S) { S[0] = S[0] * 10 + P[1]; }\ntask all(x P, x Q, w R, cw(add) T, x U, xp V[], rp W[], x Z) {\nP[3] = 1; Q[0] = P[2] + 1; R[3] = Q[0] * 3; T[1] add= 4; U[4] = 5; fork one(V[2]); fork look(W[1]);\nZ[0] = 1; }\nmain { fork all(A, B, C, D, E, F, G, S); fork last(D, S); } data";

const PAST_THE_LAST: &str =
    "object A of 3; object B of 1; object C of 4; object D of 2; object E of 5; object F[3] of 6; object G[2] of 7; object S of 1 output; task one(x P) { P[5] = 1; } task look(r P) { let n = P[6]; } task last(x P, x S) { S[0] = S[0] * 10 + P[1]; }\ntask all(x P, x Q, w R, cw(add) T, x U, xp V[], rp W[], x Z) {\nP[2] = 1; Q[0] = P[2] + 1; R[3] = Q[0] * 3; T[1] add= 4; U[4] = 5; fork one(V[2]); fork look(W[1]);\nZ[1] = 1; }\nmain { fork all(A, B, C, D, E, F, G, S); fork last(D, S); } data";

const TRIALS: [Trial; 10] = [
    Trial {
        job: TWICE,
        wanted: Wanted::Rows(&[43]),
        tasks: 3,
    },
    Trial {
        job: MANY,
        wanted: Wanted::Rows(&[16_383]),
        tasks: 16_384,
    },
    Trial {
        job: TOO_MANY,
        wanted: Wanted::Limit,
        tasks: 0,
    },
    Trial {
        job: CLASHING,
        wanted: Wanted::Rows(&[1_073_741_823]),
        tasks: 31,
    },
    Trial {
        job: FAILING,
        wanted: Wanted::Fault(&[2], F::F1, 4),
        tasks: 6,
    },
    Trial {
        job: ALL_FAIL,
        wanted: Wanted::Fault(&[1], F::F1, 2),
        tasks: 6,
    },
    Trial {
        job: DEEP,
        wanted: Wanted::Rows(&[32]),
        tasks: 33,
    },
    Trial {
        job: TOO_DEEP,
        wanted: Wanted::Fault(&[1; 32], F::F5, 2),
        tasks: 33,
    },
    Trial {
        job: PAST_THE_FIRST,
        wanted: Wanted::Fault(&[1], F::F2, 3),
        tasks: 3,
    },
    Trial {
        job: PAST_THE_LAST,
        wanted: Wanted::Fault(&[1], F::F2, 4),
        tasks: 5,
    },
];

fn is_wanted(outcome: &Outcome, wanted: Wanted) -> bool {
    match (outcome, wanted) {
        (Outcome::Rows(rows), Wanted::Rows(wanted)) => rows.as_slice() == wanted,
        (Outcome::Fault(at), Wanted::Fault(path, fault, line)) => {
            at.path.as_slice() == path && at.index.is_none() && at.fault == fault && at.line == line
        }
        (Outcome::Limit, Wanted::Limit) => true,
        _ => false,
    }
}

fn comes_to(rt: &impl Abort, ran: &Ran, trial: &Trial) {
    assert!(rt; is_wanted(&ran.outcome, trial.wanted), "{}", trial.job);
    assert!(rt;
        ran.tasks == trial.tasks && ran.indexes == 0,
        "{}",
        trial.job
    );
}

fn by_owner(rt: &impl Abort, alloc: Global, trial: &Trial) -> Result<(), Fail> {
    let (program, input) = opened(alloc, trial.job)?;
    laws::few_objects();
    let wanted = inputs(&program) as usize;
    assert!(rt; wanted == input.len());
    comes_to(rt, &run_owner(alloc, &program, &input)?, trial);
    Ok(())
}

// A run by events, and the core that it leaves.
fn simulated<'a>(
    rt: &impl Abort,
    alloc: Global,
    program: &'a Program,
    input: &'a [u64],
    workers: u32,
    number: u64,
) -> Result<(Ran, Core<'a>), Fail>
    requires accepted { IsAccepted program.now }
    requires some { 1 ≤ workers }
    requires few { workers ≤ WORKERS }
{
    laws::few_objects();
    let wanted = inputs(program) as usize;
    assert!(rt; wanted == input.len());
    Ok(simulate(alloc, program, input, workers, number)?)
}

fn by_events(
    rt: &impl Abort,
    alloc: Global,
    trial: &Trial,
    workers: u32,
    number: u64,
) -> Result<(), Fail>
    requires some { 1 ≤ workers }
    requires few { workers ≤ WORKERS }
{
    let (program, input) = opened(alloc, trial.job)?;
    let (ran, core) = simulated(rt, alloc, &program, &input, workers, number)?;
    comes_to(rt, &ran, trial);
    let tasks = core.tasks();
    assert!(rt; tasks > 0);
    if !matches!(trial.wanted, Wanted::Limit) {
        assert!(rt; core.phase(0) == Phase::Finished && core.open_child(0).is_none());
    }
    Ok(())
}

#[test]
fn runs_come_to_their_answers(rt: HostRuntime) -> Result<(), Fail> {
    let alloc = rt.alloc();
    for trial in &TRIALS {
        by_owner(&rt, alloc, trial)?;
        by_events(&rt, alloc, trial, 3, 7)?;
        by_events(&rt, alloc, trial, 8, u64::MAX)?;
    }
    Ok(())
}

const EIGHT: &str =
    "task inner(int n) {} task outer(int n) { fork inner(n); } main { for i in 0..8 { fork outer(i); } } data";

// The eight inner tasks stand in the order of the forks, which is the order in which one worker claims the outer ones.
fn order(core: &Core) -> u64 {
    let mut digits = 0u64;
    for task in 9..core.tasks() {
        let ints = core.call(task).ints.as_slice();
        let number = ints.first().copied().unwrap_or(0);
        digits = digits.wrapping_mul(8).wrapping_add(number);
    }
    digits
}

#[test]
fn many_orders(rt: HostRuntime) -> Result<(), Fail> {
    let alloc = rt.alloc();
    let (program, input) = opened(alloc, EIGHT)?;
    let mut orders = Vec::new(alloc);
    for number in 0..1000 {
        let (ran, core) = simulated(&rt, alloc, &program, &input, 1, number)?;
        assert!(rt; ran.tasks == 17);
        orders.push(order(&core))?;
    }
    orders.sort()?;
    let mut different = 0u64;
    let mut before = None;
    for order in &orders {
        if before != Some(*order) {
            different = different.wrapping_add(1);
        }
        before = Some(*order);
    }
    assert!(rt; 100 <= different);
    Ok(())
}
