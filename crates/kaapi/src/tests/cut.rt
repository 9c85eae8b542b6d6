// Jobs that are cut off.
use super::{CANONICAL, COUNTER, HALVES, ROUND_TRIP, words_of};
use crate::exits::Exit;
use crate::top::top_plain;
use kt_io::{MemSink, MemSource};
use std::alloc::Global;
use std::process::Abort;
use std::test::Fail;

/// A way to answer a job, the job, and what its last beginnings are answered; all shorter ones are refused.
type Cut = (&'static str, &'static str, &'static [(Exit, &'static str)]);

const CUTS: [Cut; 3] = [
    (
        "seq",
        COUNTER,
        &[
            (Exit::BadData, "data B2 0 1\n"),
            (Exit::BadData, "data B2 0 1\n"),
            (Exit::Done, "A[0] 5\n"),
            (Exit::Done, "A[0] 42\n"),
            (Exit::Done, "A[0] 42\n"),
        ],
    ),
    (
        "check",
        ROUND_TRIP,
        &[
            (Exit::Done, CANONICAL),
            (Exit::Done, CANONICAL),
            (Exit::Done, CANONICAL),
        ],
    ),
    (
        "sim 3 7",
        HALVES,
        &[
            (Exit::Done, "A[0] 10\nA[1] 11\nA[2] 12\nA[3] 13\n"),
            (Exit::Done, "A[0] 10\nA[1] 11\nA[2] 12\nA[3] 13\n"),
        ],
    ),
];

// One line, which tells of a refusal.
fn is_refusal(text: &[u8]) -> bool {
    let Some(end) = text.iter().position(|byte| *byte == b'\n') else {
        return false;
    };
    text.starts_with(b"refused P") && text.len().saturating_sub(end) == 1
}

fn is_answered(
    rt: &impl Abort,
    alloc: Global,
    words: &str,
    job: &[u8],
    wanted: Option<&(Exit, &str)>,
) -> Result<(), Fail> {
    let length = job.len();
    let mut source = MemSource::new(job.to_vec(alloc)?, 4096, Vec::new(alloc));
    let mut sink = MemSink::new(alloc, 500, 500, Vec::new(alloc))?;
    let exit = top_plain(alloc, &words_of(alloc, words)?, &mut source, &mut sink);
    let text = sink.written();
    match wanted {
        Some((done, answer)) => assert!(rt;
            exit == *done && text == answer.as_bytes(),
            "{words} {length}"
        ),
        None => assert!(rt;
            exit == Exit::Refused && is_refusal(text),
            "{words} {length}"
        ),
    }
    Ok(())
}

// However a job is cut off, it has one answer.
#[test]
fn jobs_cut_off(rt: HostRuntime) -> Result<(), Fail> {
    for (words, job, answers) in CUTS {
        let bytes = job.as_bytes();
        let refused = bytes.len() + 1 - answers.len().min(bytes.len());
        for length in 0..=bytes.len() {
            let answer = if length < refused {
                None
            } else {
                answers.get(length - refused)
            };
            is_answered(&rt, rt.alloc(), words, &bytes[..length], answer)?;
        }
    }
    Ok(())
}
