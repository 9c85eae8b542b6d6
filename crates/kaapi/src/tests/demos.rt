// Generated jobs by workers.
use super::crews::ends;
use super::{answers, words_of};
use crate::exits::Exit;
use crate::top::top;
use kt_io::{MemSink, MemSource};
use kt_worker::NoGate;
use std::test::Fail;

const MUL: &str = "tasks 9 indexes 0 sum 7957195962\n";

const WALKS: &str = "tasks 9 indexes 0 sum 61040\n";

const STENCIL: &str = "tasks 13 indexes 0 sum 4633372\n";

const SCAN: &str = "tasks 7 indexes 48 sum 366477\n";

#[test]
fn small_jobs(rt: HostRuntime) -> Result<(), Fail> {
    let cases = [
        answers("demo mul 2 7 1", "", Exit::Done, MUL),
        answers("demo mul 2 7 2", "", Exit::Done, MUL),
        answers("demo mul 02 007 8", "", Exit::Done, MUL),
        answers("demo walks 1 7 1", "", Exit::Done, WALKS),
        answers("demo walks 1 7 2", "", Exit::Done, WALKS),
        answers("demo walks 1 7 8", "", Exit::Done, WALKS),
        answers("demo stencil 3 5 1", "", Exit::Done, STENCIL),
        answers("demo stencil 3 5 2", "", Exit::Done, STENCIL),
        answers("demo stencil 3 5 8", "", Exit::Done, STENCIL),
        answers("demo scan 3 7 1", "", Exit::Done, SCAN),
        answers("demo scan 3 7 2", "", Exit::Done, SCAN),
        answers("demo scan 3 7 8", "", Exit::Done, SCAN),
    ];
    for case in &cases {
        ends(&rt, rt.alloc(), case, &NoGate)?;
    }
    Ok(())
}

const LARGEST_MUL: &str = "tasks 15626 indexes 0 sum 15680801005915\n";

const LARGEST_WALKS: &str = "tasks 14977 indexes 0 sum 1268962\n";

const LARGEST_STENCIL: &str = "tasks 4097 indexes 0 sum 2075142548\n";

const LARGEST_SCAN: &str = "tasks 2049 indexes 16384 sum 66432348733\n";

// The totals are the same with any number of workers, and each time.
#[test]
fn largest_jobs(rt: HostRuntime) -> Result<(), Fail> {
    let cases = [
        answers("demo mul 25 7 1", "", Exit::Done, LARGEST_MUL),
        answers("demo mul 25 7 2", "", Exit::Done, LARGEST_MUL),
        answers("demo mul 25 7 8", "", Exit::Done, LARGEST_MUL),
        answers("demo mul 25 7 8", "", Exit::Done, LARGEST_MUL),
        answers("demo walks 12 7 1", "", Exit::Done, LARGEST_WALKS),
        answers("demo walks 12 7 2", "", Exit::Done, LARGEST_WALKS),
        answers("demo walks 12 7 8", "", Exit::Done, LARGEST_WALKS),
        answers("demo walks 12 7 8", "", Exit::Done, LARGEST_WALKS),
        answers("demo stencil 1024 7 1", "", Exit::Done, LARGEST_STENCIL),
        answers("demo stencil 1024 7 8", "", Exit::Done, LARGEST_STENCIL),
        answers("demo scan 1024 7 1", "", Exit::Done, LARGEST_SCAN),
        answers("demo scan 1024 7 8", "", Exit::Done, LARGEST_SCAN),
    ];
    for case in &cases {
        ends(&rt, rt.alloc(), case, &NoGate)?;
    }
    Ok(())
}

#[test]
fn other_words(rt: HostRuntime) -> Result<(), Fail> {
    let cases = [
        answers("demo", "", Exit::Usage, "usage\n"),
        answers("demo mul 1 0", "", Exit::Usage, "usage\n"),
        answers("demo mul 26 0 1", "", Exit::Usage, "usage\n"),
        answers("demo walks 13 0 1", "", Exit::Usage, "usage\n"),
        answers("demo stencil 0 0 1", "", Exit::Usage, "usage\n"),
        answers("demo mul 1 0 0", "", Exit::Usage, "usage\n"),
        answers("demo mul 1 0 9", "", Exit::Usage, "usage\n"),
        answers("demo sum 1 0 1", "", Exit::Usage, "usage\n"),
        answers("demo mul 1 0 1 1", "", Exit::Usage, "usage\n"),
    ];
    for case in &cases {
        ends(&rt, rt.alloc(), case, &NoGate)?;
    }
    Ok(())
}

// The source is left alone, so its failure is not met; and where the totals are not written whole, no record is handed back.
#[test]
fn streams_of_a_demo(rt: HostRuntime) -> Result<(), Fail> {
    let alloc = rt.alloc();
    let mut source = MemSource::new(b"5".to_vec(alloc)?, 1, [1].to_vec(alloc)?);
    let mut sink = MemSink::new(alloc, 100, 5, [2].to_vec(alloc)?)?;
    let words = words_of(alloc, "demo mul 1 0 2")?;
    let (exit, record) = top(&rt, alloc, &words, &mut source, &mut sink, &NoGate);
    assert!(&rt; exit == Exit::WriteFault && record.is_none());
    assert!(&rt; sink.written() == b"tasks".as_slice());
    Ok(())
}
