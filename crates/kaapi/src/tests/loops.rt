// Loops of many lengths, in reference order and by workers.
use super::streams::{SOUND, ends, ends_whole};
use crate::exits::Exit;
use std::test::Fail;

/// A job but for one number.
type Around = (&'static str, &'static str);

const EACH: Around = (
    "object R of 8;\nobject S of 1 output;\nloop each(i; r Q, cw(add) T) { if i == 17 { T[0] add= Q[9]; } T[0] add= 1; }\nmain { fork each(",
    "; R, S); }\ndata\n",
);

const MANY: Around = (
    "object A of 1 output;\nloop c(i; cw(add) P) { P[0] add= 1; }\nmain { for i in 0..",
    " { fork c(4096; A); } }\ndata\n",
);

const LENGTHS: [(Around, u64, Exit, &str); 7] = [
    (EACH, 0, Exit::Done, "S[0] 0\n"),
    (EACH, 1, Exit::Done, "S[0] 1\n"),
    (EACH, 17, Exit::Done, "S[0] 17\n"),
    (EACH, 4096, Exit::Fault, "fault F2 1 index 17 line 3\n"),
    (EACH, 4097, Exit::Fault, "fault F7 main line 4\n"),
    (MANY, 256, Exit::Done, "A[0] 1048576\n"),
    (MANY, 257, Exit::Limit, "limit\n"),
];

#[test]
fn loops_of_many_lengths(rt: HostRuntime) -> Result<(), Fail> {
    let alloc = rt.alloc();
    for (around, number, exit, text) in LENGTHS {
        let job = format!(in alloc; "{}{}{}", around.0, number, around.1)?;
        ends(
            &rt,
            alloc,
            "seq",
            job.as_bytes(),
            &SOUND,
            (exit, text.as_bytes()),
        )?;
        for words in ["run 1", "run 4"] {
            let wanted = (exit, text.as_bytes());
            ends_whole(&rt, alloc, words, job.as_bytes(), &SOUND, wanted)?;
        }
    }
    Ok(())
}
