// Runs by workers.
use super::{
    A_KERNEL, A_LOOP, Case, INDEX_FAULT, KERNEL_PRODUCT, KERNEL_ROWS, KERNELS, NEVER_RUN,
    PRODUCT_ROWS, SHORT_TILE, SHORT_TILES, SUM_ROW, SUMS, TOO_LONG_A_LOOP, TOO_MANY, WALK_ROWS,
    WALKS, answers, at_the_limit, in_faults, in_rows, words_of,
};
use crate::exits::Exit;
use crate::top::top;
use kt_io::{MemSink, MemSource};
use kt_worker::{Gate, NoGate};
use std::alloc::Global;
use std::process::Abort;
use std::sync::Wait;
use std::sync::atomic::{AtomicU64, Ordering};
use std::test::Fail;
use std::thread::Threads;

/// Ends as it should, and has a record just where a run came to its end.
pub fn ends<R: Abort + Threads + Wait + Sync, G: Gate + Sync>(
    rt: &R,
    alloc: Global,
    case: &Case,
    gate: &G,
) -> Result<(), Fail> {
    let mut source = MemSource::new(case.job.as_bytes().to_vec(alloc)?, 100, Vec::new(alloc));
    let mut sink = MemSink::new(alloc, 1_000, 100, Vec::new(alloc))?;
    let words = words_of(alloc, case.words)?;
    let (exit, record) = top(rt, alloc, &words, &mut source, &mut sink, gate);
    assert!(rt; exit == case.exit, "{} {}", case.words, case.job);
    assert!(rt;
        sink.written() == case.text.as_bytes(),
        "{} {}",
        case.words,
        case.job
    );
    let asks_run = case.words.starts_with("run") || case.words.starts_with("demo");
    let has_run = asks_run && exit.ends_run();
    assert!(rt; record.is_some() == has_run, "{} {}", case.words, case.job);
    Ok(())
}

fn end_by_workers<R: Abort + Threads + Wait + Sync>(
    rt: &R,
    alloc: Global,
    cases: &[Case],
) -> Result<(), Fail> {
    for case in cases {
        for words in ["run 1", "run 2", "run 8"] {
            let case = answers(words, case.job, case.exit, case.text);
            ends(rt, alloc, &case, &NoGate)?;
        }
    }
    Ok(())
}

#[test]
fn workers_end_in_rows(rt: HostRuntime) -> Result<(), Fail> {
    end_by_workers(&rt, rt.alloc(), &in_rows())
}

#[test]
fn workers_end_in_faults(rt: HostRuntime) -> Result<(), Fail> {
    end_by_workers(&rt, rt.alloc(), &in_faults())
}

// A tree of more tasks than there may be.
const TREE: &str =
    "task node(int k) { if k > 0 { fork node(k - 1); fork node(k - 1); } }\nmain { fork node(14); }\ndata\n";

// Tasks side by side in one frame. Each steal goes through all of them, so their number counts twice.
const FLAT: &str =
    "object A of 1 output;\ntask one(cw(add) P) { P[0] add= 1; }\nmain { for i in 0..600 { fork one(A); } }\ndata\n";

#[test]
fn workers_end_at_the_limit(rt: HostRuntime) -> Result<(), Fail> {
    for case in &at_the_limit() {
        let case = answers("run 1", case.job, case.exit, case.text);
        ends(&rt, rt.alloc(), &case, &NoGate)?;
    }
    let cases = [
        answers("run 2", TREE, Exit::Limit, "limit\n"),
        answers("run 2", FLAT, Exit::Done, "A[0] 600\n"),
        answers("run 2", TOO_MANY, Exit::Limit, "limit\n"),
    ];
    end_by_workers(&rt, rt.alloc(), &cases)
}

#[test]
fn workers_run_loops(rt: HostRuntime) -> Result<(), Fail> {
    let cases = [
        answers("run 2", A_LOOP, Exit::Done, "A[0] 8386563\n"),
        answers(
            "run 2",
            INDEX_FAULT,
            Exit::Fault,
            "fault F1 2 index 3 line 2\n",
        ),
        answers(
            "run 2",
            TOO_LONG_A_LOOP,
            Exit::Fault,
            "fault F7 main line 3\n",
        ),
        answers("run 2", SUMS, Exit::Done, SUM_ROW),
    ];
    end_by_workers(&rt, rt.alloc(), &cases)
}

#[test]
fn workers_run_kernels(rt: HostRuntime) -> Result<(), Fail> {
    let cases = [
        answers("run 2", A_KERNEL, Exit::Done, ""),
        answers("run 2", KERNELS, Exit::Done, KERNEL_ROWS),
        answers("run 2", KERNEL_PRODUCT, Exit::Done, PRODUCT_ROWS),
        answers("run 2", WALKS, Exit::Done, WALK_ROWS),
        answers("run 2", SHORT_TILE, Exit::Fault, "fault F2 1 line 0\n"),
        answers("run 2", SHORT_TILES, Exit::Fault, "fault F2 1 line 0\n"),
    ];
    end_by_workers(&rt, rt.alloc(), &cases)
}

// What is refused comes before what is wrong with the data.
#[test]
fn jobs_without_a_run(rt: HostRuntime) -> Result<(), Fail> {
    let cases = [
        answers("run 2", "main { @ }", Exit::Refused, "refused P1 1:8\n"),
        answers("run 2", NEVER_RUN, Exit::Refused, "refused P9 5:14\n"),
        answers(
            "run 2",
            "loop l(i; x P) { P[0] = 1; } main {} data",
            Exit::Refused,
            "refused P11 1:18\n",
        ),
        answers(
            "run 2",
            "loop l(i;) {} main {} data 5",
            Exit::BadData,
            "data B3 1:28\n",
        ),
        answers("run 2", "main {} data 5", Exit::BadData, "data B3 1:14\n"),
    ];
    end_by_workers(&rt, rt.alloc(), &cases)
}

#[test]
fn words_by_the_whole_call(rt: HostRuntime) -> Result<(), Fail> {
    let cases = [
        answers("run", "", Exit::Usage, "usage\n"),
        answers("run 0", "", Exit::Usage, "usage\n"),
        answers("run 9", "", Exit::Usage, "usage\n"),
        answers("run 1 1", "", Exit::Usage, "usage\n"),
        answers("seq 1", "", Exit::Usage, "usage\n"),
        answers("sim 1", "", Exit::Usage, "usage\n"),
        answers("gen mul 26 0", "", Exit::Usage, "usage\n"),
        answers("run 01", "main {} data", Exit::Done, ""),
        answers("seq", "main {} data", Exit::Done, ""),
        answers("sim 3 7", "main {} data", Exit::Done, ""),
        answers("check", "main {} data", Exit::Done, "main {\n}\ndata\n"),
    ];
    for case in &cases {
        ends(&rt, rt.alloc(), case, &NoGate)?;
    }
    Ok(())
}

// Holds task 1 until task 2 was started, for so many loads.
#[derive(Drop)]
struct Both {
    second: AtomicU64,
    expired: AtomicU64,
    loads: u64,
}

impl Both {
    fn new(loads: u64) -> Both {
        Both {
            second: AtomicU64::new(0),
            expired: AtomicU64::new(0),
            loads,
        }
    }

    fn is_expired(&self) -> bool {
        self.expired.load(Ordering::SeqCst) == 1
    }

    fn hold(&self) {
        for _ in 0..self.loads {
            if self.second.load(Ordering::SeqCst) == 1 {
                return;
            }
        }
        self.expired.store(1, Ordering::SeqCst);
    }
}

impl Gate for Both {
    fn started(&self, _worker: u32, task: u32) {
        match task {
            1 => self.hold(),
            2 => self.second.store(1, Ordering::SeqCst),
            _ => {}
        }
    }
}

const TWO: &str =
    "object A of 1 input output;\ntask one(cw(add) P) { P[0] add= 1; }\nmain { fork one(A); fork one(A); }\ndata\n5\n";

// One thread would hold task 1 until the gate is expired.
#[test]
fn two_started(rt: HostRuntime) -> Result<(), Fail> {
    let gate = Both::new(1_000_000_000);
    let case = answers("run 2", TWO, Exit::Done, "A[0] 7\n");
    ends(&rt, rt.alloc(), &case, &gate)?;
    assert!(&rt; !gate.is_expired());
    Ok(())
}

// A run whose answer could not be written hands back no record.
#[test]
fn no_record_of_an_answer_in_part(rt: HostRuntime) -> Result<(), Fail> {
    let alloc = rt.alloc();
    let job = b"object A of 1 output; main {} data".to_vec(alloc)?;
    let mut source = MemSource::new(job, 100, Vec::new(alloc));
    let mut sink = MemSink::new(alloc, 1_000, 5, [2].to_vec(alloc)?)?;
    let words = words_of(alloc, "run 2")?;
    let (exit, record) = top(&rt, alloc, &words, &mut source, &mut sink, &NoGate);
    assert!(&rt; exit == Exit::WriteFault && record.is_none());
    assert!(&rt; sink.written() == b"A[0] ".as_slice());
    Ok(())
}
