// Generated jobs, as texts, in reference order and by events.
use super::words_of;
use crate::exits::Exit;
use crate::top::top_plain;
use kt_io::{MemSink, MemSource};
use std::alloc::Global;
use std::process::Abort;
use std::test::Fail;

/// The words that write a job, and the sum of the rows that it comes to.
const JOBS: [(&str, u64); 4] = [
    ("gen mul 2 7", 7_957_195_962),
    ("gen walks 1 7", 61_040),
    ("gen stencil 3 5", 4_633_372),
    ("gen scan 2 7", 123_130),
];

fn answer(rt: &impl Abort, alloc: Global, words: &str, job: &[u8]) -> Result<Vec<u8>, Fail> {
    let mut source = MemSource::new(job.to_vec(alloc)?, 4096, Vec::new(alloc));
    let mut sink = MemSink::new(alloc, 10_000, 4096, Vec::new(alloc))?;
    let exit = top_plain(alloc, &words_of(alloc, words)?, &mut source, &mut sink);
    assert!(rt; exit == Exit::Done, "{words}");
    Ok(sink.written().to_vec(alloc)?)
}

// The sum modulo 2^64 of all numbers behind the names of rows.
fn sum_of(rows: &[u8]) -> u64 {
    let mut sum = 0u64;
    let mut number = 0u64;
    let mut is_named = false;
    for byte in rows {
        if *byte == b' ' || *byte == b'\n' {
            sum = sum.wrapping_add(number);
            number = 0;
            is_named = *byte == b' ';
        } else if is_named {
            let digit = u64::from(byte.wrapping_sub(b'0'));
            number = number.wrapping_mul(10).wrapping_add(digit);
        }
    }
    sum
}

#[test]
fn generated_jobs_come_to_their_sums(rt: HostRuntime) -> Result<(), Fail> {
    let alloc = rt.alloc();
    for (words, sum) in JOBS {
        let job = answer(&rt, alloc, words, b"")?;
        for way in ["seq", "sim 1 0", "sim 3 7"] {
            let rows = answer(&rt, alloc, way, &job)?;
            assert!(&rt; sum_of(&rows) == sum, "{words} {way}");
        }
    }
    Ok(())
}
