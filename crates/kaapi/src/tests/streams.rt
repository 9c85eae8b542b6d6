// Malformed jobs, and streams that fail.
use super::{CANONICAL, COUNTER, ROUND_TRIP, words_of};
use crate::exits::Exit;
use crate::top::{top, top_plain};
use kt_io::{MemSink, MemSource};
use kt_worker::NoGate;
use std::alloc::Global;
use std::process::Abort;
use std::sync::Wait;
use std::test::Fail;
use std::thread::Threads;

/// Streams of memory: the bytes of one call of each, how many the sink takes in all, and the calls that fail (none for 0).
#[derive(Clone, Copy)]
pub struct Streams {
    read: usize,
    write: usize,
    room: usize,
    read_fails: u64,
    write_fails: u64,
}

pub const SOUND: Streams = Streams {
    read: 10,
    write: 1,
    room: 500,
    read_fails: 0,
    write_fails: 0,
};

/// A call ends so.
pub fn ends(
    rt: &impl Abort,
    alloc: Global,
    words: &str,
    job: &[u8],
    streams: &Streams,
    wanted: (Exit, &[u8]),
) -> Result<(), Fail> {
    assert!(rt; streams.read > 0 && streams.write > 0);
    let read_fails = [streams.read_fails].to_vec(alloc)?;
    let write_fails = [streams.write_fails].to_vec(alloc)?;
    let mut source = MemSource::new(job.to_vec(alloc)?, streams.read, read_fails);
    let mut sink = MemSink::new(alloc, streams.room, streams.write, write_fails)?;
    let found = top_plain(alloc, &words_of(alloc, words)?, &mut source, &mut sink);
    let at = (streams.read_fails, streams.write_fails);
    assert!(rt; found == wanted.0, "{words} {} {}", at.0, at.1);
    assert!(rt; sink.written() == wanted.1, "{words} {} {}", at.0, at.1);
    Ok(())
}

/// A whole call ends so, and hands back a record just where the answer of a run by workers was written.
pub fn ends_whole<R: Abort + Threads + Wait + Sync>(
    rt: &R,
    alloc: Global,
    words: &str,
    job: &[u8],
    streams: &Streams,
    wanted: (Exit, &[u8]),
) -> Result<(), Fail> {
    assert!(rt; streams.read > 0 && streams.write > 0);
    let read_fails = [streams.read_fails].to_vec(alloc)?;
    let write_fails = [streams.write_fails].to_vec(alloc)?;
    let mut source = MemSource::new(job.to_vec(alloc)?, streams.read, read_fails);
    let mut sink = MemSink::new(alloc, streams.room, streams.write, write_fails)?;
    let asked = words_of(alloc, words)?;
    let (found, record) = top(rt, alloc, &asked, &mut source, &mut sink, &NoGate);
    let at = (streams.read_fails, streams.write_fails);
    assert!(rt; found == wanted.0, "{words} {} {}", at.0, at.1);
    assert!(rt; sink.written() == wanted.1, "{words} {} {}", at.0, at.1);
    let has_run = words.starts_with("run") && found.ends_run();
    assert!(rt; record.is_some() == has_run, "{words} {} {}", at.0, at.1);
    Ok(())
}

const MALFORMED: [(&[u8], Exit, &[u8]); 11] = [
    (b"", Exit::Refused, b"refused P4 1:1\n"),
    (b"object", Exit::Refused, b"refused P4 1:7\n"),
    (b"object A o", Exit::Refused, b"refused P4 1:10\n"),
    (
        b"object A of 1 input output;",
        Exit::Refused,
        b"refused P4 1:28\n",
    ),
    (b"dat", Exit::Refused, b"refused P4 1:1\n"),
    (b"main {} data5", Exit::Refused, b"refused P4 1:9\n"),
    (b"main {} # data", Exit::Refused, b"refused P4 1:15\n"),
    (b"\xff", Exit::Refused, b"refused P1 1:1\n"),
    (b"main { let v = !1; }", Exit::Refused, b"refused P2 1:16\n"),
    (
        b"main { for i in 0.5 {} }",
        Exit::Refused,
        b"refused P2 1:18\n",
    ),
    (b"main {} data 5", Exit::BadData, b"data B3 1:14\n"),
];

#[test]
fn malformed_jobs(rt: HostRuntime) -> Result<(), Fail> {
    for (job, exit, text) in MALFORMED {
        for words in ["seq", "sim 3 7"] {
            ends(&rt, rt.alloc(), words, job, &SOUND, (exit, text))?;
        }
    }
    Ok(())
}

/// A way to answer a job, the job, and its answer.
type Answered = (&'static str, &'static str, &'static str);

const ANSWERED: [Answered; 3] = [
    ("seq", COUNTER, "A[0] 42\n"),
    ("sim 3 7", COUNTER, "A[0] 42\n"),
    ("check", ROUND_TRIP, CANONICAL),
];

// The job is read in pieces of ten bytes; the last read finds its end.
#[test]
fn the_source_fails(rt: HostRuntime) -> Result<(), Fail> {
    for (words, job, text) in ANSWERED {
        let reads = (job.len() as u64).saturating_add(9) / 10 + 1;
        for read_fails in 1..=reads {
            let streams = Streams {
                read_fails,
                ..SOUND
            };
            ends(
                &rt,
                rt.alloc(),
                words,
                job.as_bytes(),
                &streams,
                (Exit::ReadFault, b""),
            )?;
        }
        let streams = Streams {
            read_fails: reads + 1,
            ..SOUND
        };
        let whole = (Exit::Done, text.as_bytes());
        ends(&rt, rt.alloc(), words, job.as_bytes(), &streams, whole)?;
    }
    Ok(())
}

// The answer is written in pieces of one byte.
#[test]
fn the_sink_fails(rt: HostRuntime) -> Result<(), Fail> {
    for (words, job, text) in ANSWERED {
        let text = text.as_bytes();
        for written in 0..text.len() {
            let part = (Exit::WriteFault, &text[..written]);
            let fails = Streams {
                write_fails: written as u64 + 1,
                ..SOUND
            };
            ends(&rt, rt.alloc(), words, job.as_bytes(), &fails, part)?;
            let full = Streams {
                room: written,
                ..SOUND
            };
            ends(&rt, rt.alloc(), words, job.as_bytes(), &full, part)?;
        }
    }
    let fives = Streams {
        write: 5,
        write_fails: 2,
        ..SOUND
    };
    let counted = COUNTER.as_bytes();
    ends(
        &rt,
        rt.alloc(),
        "seq",
        counted,
        &fives,
        (Exit::WriteFault, b"A[0] "),
    )?;
    ends(
        &rt,
        rt.alloc(),
        "seq",
        b"@",
        &fives,
        (Exit::WriteFault, b"refus"),
    )?;
    let fails = Streams {
        write_fails: 1,
        ..SOUND
    };
    ends(&rt, rt.alloc(), "seq", b"", &fails, (Exit::WriteFault, b""))?;
    let both = Streams {
        read_fails: 1,
        ..fails
    };
    ends(&rt, rt.alloc(), "seq", b"", &both, (Exit::ReadFault, b""))
}

#[test]
fn malformed_jobs_by_the_whole_call(rt: HostRuntime) -> Result<(), Fail> {
    for (job, exit, text) in MALFORMED {
        for words in ["seq", "run 1", "run 8"] {
            ends_whole(&rt, rt.alloc(), words, job, &SOUND, (exit, text))?;
        }
    }
    Ok(())
}

#[test]
fn the_source_fails_before_a_run(rt: HostRuntime) -> Result<(), Fail> {
    let job = COUNTER.as_bytes();
    let reads = (job.len() as u64).saturating_add(9) / 10 + 1;
    for read_fails in 1..=reads {
        let streams = Streams {
            read_fails,
            ..SOUND
        };
        let nothing = (Exit::ReadFault, b"".as_slice());
        ends_whole(&rt, rt.alloc(), "run 2", job, &streams, nothing)?;
    }
    Ok(())
}

#[test]
fn the_sink_fails_behind_a_run(rt: HostRuntime) -> Result<(), Fail> {
    let job = COUNTER.as_bytes();
    let text = b"A[0] 42\n".as_slice();
    for written in 0..text.len() {
        let part = (Exit::WriteFault, &text[..written]);
        let fails = Streams {
            write_fails: written as u64 + 1,
            ..SOUND
        };
        ends_whole(&rt, rt.alloc(), "run 2", job, &fails, part)?;
        let full = Streams {
            room: written,
            ..SOUND
        };
        ends_whole(&rt, rt.alloc(), "run 2", job, &full, part)?;
    }
    let whole = (Exit::Done, text);
    ends_whole(&rt, rt.alloc(), "run 2", job, &SOUND, whole)
}
