use crate::exits::Exit;
use crate::laws::{answers_without_faults, one_answer};
use crate::top::top_plain;
use kt_io::{MemSink, MemSource};
use kt_law::JOB;
use std::alloc::{AllocError, Global};
use std::process::Abort;
use std::test::Fail;

mod crews;
mod cut;
mod demos;
mod generated;
mod loops;
mod streams;

const COUNTER: &str =
    "object A of 1 input output;\ntask inc(x P) { P[0] = P[0] + 1; }\nmain { fork inc(A); }\ndata\n41\n";

const WRAPS: &str =
    "object A of 1 input output;\ntask inc(x P) { P[0] = P[0] + 1; }\nmain { fork inc(A); }\ndata\n18446744073709551615\n";

const SATURATES: &str =
    "object A of 1 input output;\ntask inc(x P) { P[0] = satadd(P[0], 1); }\nmain { fork inc(A); }\ndata\n18446744073709551615\n";

const ZEROED: &str =
    "object A of 3 input output;\ntask one(w P) { P[1] = 7; }\nmain { fork one(A); }\ndata\n5 5 5\n";

const LAST_WRITE: &str =
    "object A of 1 output; object B of 1 output;\ntask put(int v, w P) { P[0] = v; }\ntask copy(r P, x Q) { Q[0] = P[0]; }\nmain { fork put(3, A); fork put(4, A); fork copy(A, B); }\ndata\n";

const CUMULATED: &str =
    "object A of 1 output; object B of 1 output;\ntask one(int v, cw(add) P) { P[0] add= v; }\ntask copy(r P, x Q) { Q[0] = P[0]; }\nmain { for i in 1..11 { fork one(i, A); } fork copy(A, B); }\ndata\n";

const TWO_LAWS: &str =
    "object A of 1 output;\ntask a(int v, cw(add) P) { P[0] add= v; }\ntask m(int v, cw(max) P) { P[0] max= v; }\nmain { fork a(5, A); fork m(9, A); fork a(2, A); }\ndata\n";

const NEVER_RUN: &str =
    "object A of 1;\ntask see(r P) { let v = P[0]; }\ntask own(x P) {\n  if 0 {\n    fork see(P);\n  }\n}\nmain { fork own(A); }\ndata\n";

const ALIAS: &str =
    "object D[4] of 1 output;\ntask mix(r P, x Q) { Q[0] = P[0] + 1; }\nmain { for i in 0..2 { fork mix(D[i], D[1]); } }\ndata\n";

const READ_TWICE: &str =
    "object D[4] of 1 output;\ntask mix(r P, r Q) { let v = P[0] + Q[0]; }\nmain { for i in 0..2 { fork mix(D[i], D[1]); } }\ndata\n";

const FIRST_FAULT: &str =
    "object Z of 1;\ntask slow(x P) { for i in 0..100000 { P[0] = i; } P[0] = 1 / 0; }\ntask fast(int v) { let q = v / 0; }\nmain { fork slow(Z); fork fast(1); }\ndata\n";

const PAST_THE_END: &str =
    "object A of 2 output;\ntask set(x P) { P[1] = 6; P[2] = 7; }\nmain { fork set(A); }\ndata\n";

// The child does not run before the rest of the body, and its fault comes behind that of its parent.
const PARENT_FAULT: &str =
    "task child() { let q = 1 / 0; }\ntask parent() { fork child(); let q = 1 / 0; }\nmain { fork parent(); }\ndata\n";

const MANY: &str =
    "object A of 1 output;\ntask one(cw(add) P) { P[0] add= 1; }\nmain { for i in 0..16383 { fork one(A); } }\ndata\n";

const TOO_MANY: &str =
    "object A of 1 output;\ntask one(cw(add) P) { P[0] add= 1; }\nmain { for i in 0..16384 { fork one(A); } }\ndata\n";

const DEEP: &str =
    "object A of 1 output;\ntask down(int k, cw(add) P) { P[0] add= 1; if k > 0 { fork down(k - 1, P); } }\nmain { fork down(31, A); }\ndata\n";

const TOO_DEEP: &str =
    "object A of 1 output;\ntask down(int k, cw(add) P) { P[0] add= 1; if k > 0 { fork down(k - 1, P); } }\nmain { fork down(32, A); }\ndata\n";

const HALVES: &str =
    "object A[4] of 1 output;\ntask put(int v, w P) { P[0] = v; }\ntask fill(int v, int n, wp R[]) {\n  if n == 1 { fork put(v, R[0]); } else {\n    fork fill(v, n / 2, R[0..n / 2]);\n    fork fill(v + n / 2, n - n / 2, R[n / 2..n]);\n  }\n}\nmain { fork fill(10, 4, A); }\ndata\n";

const FIFTHS: &str =
    "object A[4] of 1 output;\ntask put(int v, w P) { P[0] = v; }\ntask fill(int v, int n, wp R[]) {\n  if n == 1 { fork put(v, R[0]); } else {\n    fork fill(v, n / 2, R[0..n / 2]);\n    fork fill(v + n / 2, n - n / 2, R[n / 2..n]);\n  }\n}\nmain { fork fill(10, 5, A); }\ndata\n";

const MOST_STEPS: &str = "task spin() { for i in 0..4194303 {} }\nmain { fork spin(); }\ndata\n";

const TOO_MANY_STEPS: &str =
    "task spin() { for i in 0..4194304 {} }\nmain { fork spin(); }\ndata\n";

// A product of two matrices of four tiles each.
const PRODUCT: &str =
    "object A[4] of 4 input;\nobject B[4] of 4 input;\nobject C[4] of 4 output;\ntask mul(int n, r P, r Q, cw(add) T) {\nfor i in 0..n { for j in 0..n { for k in 0..n {\nT[i * n + j] add= P[i * n + k] * Q[k * n + j];\n} } }\n}\nmain {\nfor i in 0..2 { for j in 0..2 { for k in 0..2 {\nfork mul(2, A[i * 2 + k], B[k * 2 + j], C[i * 2 + j]);\n} } }\n}\ndata\n1 2 3 4 5 6 7 8 1 0 0 1 0 1 1 0\n1 0 0 1 1 1 1 1 2 0 0 2 0 1 0 1\n";

const PRODUCT_ROWS: &str = "C[0] 11 14 17 20\nC[1] 3 14 7 22\nC[2] 1 2 2 1\nC[3] 1 2 1 2\n";

// The same by a kernel.
const KERNEL_PRODUCT: &str =
    "object A[4] of 4 input;\nobject B[4] of 4 input;\nobject C[4] of 4 output;\nmain {\nfor i in 0..2 { for j in 0..2 { for k in 0..2 {\nfork k_mul(2, 2, 2, A[i * 2 + k], B[k * 2 + j], C[i * 2 + j]);\n} } }\n}\ndata\n1 2 3 4 5 6 7 8 1 0 0 1 0 1 1 0\n1 0 0 1 1 1 1 1 2 0 0 2 0 1 0 1\n";

const KERNEL_PRODUCT_TEXT: &str =
    "object A[4] of 4 input;\nobject B[4] of 4 input;\nobject C[4] of 4 output;\nmain {\n  for i in 0..2 {\n    for j in 0..2 {\n      for k in 0..2 {\n        fork k_mul(2, 2, 2, A[i * 2 + k], B[k * 2 + j], C[i * 2 + j]);\n      }\n    }\n  }\n}\ndata\n";

// The same with tiles that are too short.
const SHORT_TILES: &str =
    "object A[4] of 3 input;\nobject B[4] of 4 input;\nobject C[4] of 4 output;\nmain {\nfor i in 0..2 { for j in 0..2 { for k in 0..2 {\nfork k_mul(2, 2, 2, A[i * 2 + k], B[k * 2 + j], C[i * 2 + j]);\n} } }\n}\ndata\n1 2 3 4 5 6 7 8 1 0 0 1\n1 0 0 1 1 1 1 1 2 0 0 2 0 1 0 1\n";

// The shortest walks between four nodes.
const WALKS: &str =
    "object D[4] of 4 input output;\nobject E[4] of 4;\ntask copy(r P, w Q) { for i in 0..4 { Q[i] = P[i]; } }\nmain {\nfor t in 0..4 { fork copy(D[t], E[t]); }\nfor i in 0..2 { for j in 0..2 { for k in 0..2 { fork k_minplus(2, 2, 2, D[i * 2 + k], D[k * 2 + j], E[i * 2 + j]); } } }\nfor t in 0..4 { fork copy(E[t], D[t]); }\nfor i in 0..2 { for j in 0..2 { for k in 0..2 { fork k_minplus(2, 2, 2, E[i * 2 + k], E[k * 2 + j], D[i * 2 + j]); } } }\n}\ndata\n0 3 18446744073709551615 0\n10 18446744073709551615 4 18446744073709551615\n18446744073709551615 18446744073709551615 1 18446744073709551615\n0 18446744073709551615 18446744073709551615 0\n";

const WALK_ROWS: &str =
    "D[0] 0 3 18446744073709551615 0\nD[1] 7 18446744073709551615 4 18446744073709551615\nD[2] 18446744073709551615 18446744073709551615 1 4\nD[3] 0 18446744073709551615 8 0\n";

const SUMS: &str =
    "object A[1] of 16 input output;\nobject P of 1;\nloop sums(i; int t, int m, r Q, cw(add) R) {\n  for u in t + 1..m {\n    R[u] add= Q[i];\n  }\n}\nmain {\n  for t in 0..1 {\n    fork sums(16; t, 1, A[t], P);\n  }\n  for t in 0..1 {\n    fork k_scan(16, t, P, A[t]);\n  }\n}\ndata\n0 1 4 9 16 25 36 49 64 81 100 121 144 169 196 225\n";

const SUM_ROW: &str = "A[0] 0 1 5 14 30 55 91 140 204 285 385 506 650 819 1015 1240\n";

// 64 signs `(`, of which the last nests too deep.
const NESTED: &str =
    "main { let v = ((((((((((((((((((((((((((((((((((((((((((((((((((((((((((((((((";

const A_LOOP: &str =
    "object A of 1 output;\nloop c(i; cw(add) P) { P[0] add= i; }\nmain { fork c(3; A); fork c(4096; A); fork c(0; A); }\ndata\n";

const INDEX_FAULT: &str =
    "object A of 1;\nloop e(i; r P) { let q = 1 / (3 - i); }\nmain { fork e(3; A); fork e(4; A); fork e(4; A); }\ndata\n";

const TOO_LONG_A_LOOP: &str =
    "object A of 1;\nloop e(i; r P) { }\nmain { fork e(4096; A); fork e(4097; A); }\ndata\n";

const KERNELS: &str =
    "object A of 4 input output; object D of 4 input output; object B of 4 output; object C of 4 output;\nmain { fork k_mul(2, 2, 2, A, A, B); fork k_minplus(2, 2, 2, A, A, D); fork k_stencil(4, A, A, A, C); fork k_scan(4, 3, B, A); }\ndata\n1 2 3 4 9 9 1 9\n";

const KERNEL_ROWS: &str = "A[0] 23 25 28 32\nD[0] 2 3 1 5\nB[0] 7 10 15 22\nC[0] 8 8 12 12\n";

const SHORT_TILE: &str = "object A of 3; object B of 1;\nmain { fork k_scan(4, 0, B, A); }\ndata\n";

const A_KERNEL: &str = "object A of 4;\nmain { if 0 { fork k_scan(4, 0, A, A); } }\ndata\n";

const ROUND_TRIP: &str = "main { let v = (1+2)*3; if v { } else { v = 4; } } # comment\ndata x";

const CANONICAL: &str =
    "main {\n  let v = (1 + 2) * 3;\n  if v {\n  } else {\n    v = 4;\n  }\n}\ndata\n";

const SCAN: &str =
    "object A[1] of 16 input output;\nobject P of 1;\nloop sums(i; int t, int m, r Q, cw(add) R) {\n  for u in t + 1..m {\n    R[u] add= Q[i];\n  }\n}\nmain {\n  for t in 0..1 {\n    fork sums(16; t, 1, A[t], P);\n  }\n  for t in 0..1 {\n    fork k_scan(16, t, P, A[t]);\n  }\n}\ndata\n0 1 4 9 16 25 36 49 64 81 100 121 144 169 196 225\n";

#[derive(Clone, Copy)]
struct Case {
    words: &'static str,
    job: &'static str,
    exit: Exit,
    text: &'static str,
}

fn answers(words: &'static str, job: &'static str, exit: Exit, text: &'static str) -> Case {
    Case {
        words,
        job,
        exit,
        text,
    }
}

fn words_of(alloc: Global, text: &str) -> Result<Vec<String>, AllocError> {
    let mut words = Vec::new(alloc);
    for word in text.split(' ') {
        words.push(String::from_str(alloc, word)?)?;
    }
    Ok(words)
}

// Ends as it should over streams of pieces of this many bytes, whose calls of this number fail (none for 0).
fn ends(
    rt: &impl Abort,
    alloc: Global,
    case: &Case,
    pieces: (usize, usize),
    fails: (u64, u64),
) -> Result<(), Fail> {
    assert!(rt; pieces.0 > 0 && pieces.1 > 0);
    let bytes = case.job.as_bytes().to_vec(alloc)?;
    let mut source = MemSource::new(bytes, pieces.0, [fails.0].to_vec(alloc)?);
    let mut sink = MemSink::new(alloc, 1_000, pieces.1, [fails.1].to_vec(alloc)?)?;
    let found = top_plain(alloc, &words_of(alloc, case.words)?, &mut source, &mut sink);
    assert!(rt; found == case.exit, "{}", case.job);
    assert!(rt; sink.written() == case.text.as_bytes(), "{}", case.job);
    Ok(())
}

fn end_whole(rt: &impl Abort, alloc: Global, cases: &[Case]) -> Result<(), Fail> {
    for case in cases {
        ends(rt, alloc, case, (100, 100), (0, 0))?;
    }
    Ok(())
}

fn end_by(
    rt: &impl Abort,
    alloc: Global,
    ways: &[&'static str],
    cases: &[Case],
) -> Result<(), Fail> {
    for case in cases {
        for words in ways {
            let case = answers(words, case.job, case.exit, case.text);
            ends(rt, alloc, &case, (100, 100), (0, 0))?;
        }
    }
    Ok(())
}

// Whatever a job is answered in reference order it is answered by events, with any number of workers and any choice.
fn end_alike(rt: &impl Abort, alloc: Global, cases: &[Case]) -> Result<(), Fail> {
    let ways = ["seq", "sim 1 0", "sim 3 7", "sim 8 18446744073709551615"];
    end_by(rt, alloc, &ways, cases)
}

// Programs of tasks, and the rows that they end in.
fn in_rows() -> [Case; 13] {
    [
        answers("seq", "main {}\ndata\n", Exit::Done, ""),
        answers("seq", COUNTER, Exit::Done, "A[0] 42\n"),
        answers("seq", WRAPS, Exit::Done, "A[0] 0\n"),
        answers("seq", SATURATES, Exit::Done, "A[0] 18446744073709551615\n"),
        answers("seq", ZEROED, Exit::Done, "A[0] 0 7 0\n"),
        answers("seq", LAST_WRITE, Exit::Done, "A[0] 4\nB[0] 4\n"),
        answers("seq", CUMULATED, Exit::Done, "A[0] 55\nB[0] 55\n"),
        answers("seq", TWO_LAWS, Exit::Done, "A[0] 11\n"),
        answers(
            "seq",
            READ_TWICE,
            Exit::Done,
            "D[0] 0\nD[1] 0\nD[2] 0\nD[3] 0\n",
        ),
        answers("seq", MOST_STEPS, Exit::Done, ""),
        answers("seq", PRODUCT, Exit::Done, PRODUCT_ROWS),
        answers("seq", DEEP, Exit::Done, "A[0] 32\n"),
        answers(
            "seq",
            HALVES,
            Exit::Done,
            "A[0] 10\nA[1] 11\nA[2] 12\nA[3] 13\n",
        ),
    ]
}

// Programs of tasks that end in a fault.
fn in_faults() -> [Case; 7] {
    [
        answers("seq", ALIAS, Exit::Fault, "fault F4 main line 3\n"),
        answers("seq", FIRST_FAULT, Exit::Fault, "fault F1 1 line 2\n"),
        answers("seq", PAST_THE_END, Exit::Fault, "fault F2 1 line 2\n"),
        answers("seq", PARENT_FAULT, Exit::Fault, "fault F1 1 line 2\n"),
        answers("seq", FIFTHS, Exit::Fault, "fault F3 1 line 6\n"),
        answers(
            "seq",
            TOO_DEEP,
            Exit::Fault,
            "fault F5 1.1.1.1.1.1.1.1.1.1.1.1.1.1.1.1.1.1.1.1.1.1.1.1.1.1.1.1.1.1.1.1 line 2\n",
        ),
        answers("seq", TOO_MANY_STEPS, Exit::Fault, "fault F6 1 line 1\n"),
    ]
}

#[test]
fn runs_end_in_rows(rt: HostRuntime) -> Result<(), Fail> {
    end_alike(&rt, rt.alloc(), &in_rows())
}

#[test]
fn runs_end_in_faults(rt: HostRuntime) -> Result<(), Fail> {
    end_alike(&rt, rt.alloc(), &in_faults())
}

// As many tasks as there may be, and one more.
fn at_the_limit() -> [Case; 2] {
    [
        answers("seq", MANY, Exit::Done, "A[0] 16383\n"),
        answers("seq", TOO_MANY, Exit::Limit, "limit\n"),
    ]
}

#[test]
fn runs_end_at_the_limit(rt: HostRuntime) -> Result<(), Fail> {
    end_alike(&rt, rt.alloc(), &at_the_limit())
}

#[test]
fn loops_and_kernels_are_run(rt: HostRuntime) -> Result<(), Fail> {
    let cases = [
        answers("seq", A_LOOP, Exit::Done, "A[0] 8386563\n"),
        answers(
            "seq",
            INDEX_FAULT,
            Exit::Fault,
            "fault F1 2 index 3 line 2\n",
        ),
        answers(
            "seq",
            TOO_LONG_A_LOOP,
            Exit::Fault,
            "fault F7 main line 3\n",
        ),
        answers("seq", A_KERNEL, Exit::Done, ""),
        answers("seq", SHORT_TILE, Exit::Fault, "fault F2 1 line 0\n"),
        answers("seq", KERNELS, Exit::Done, KERNEL_ROWS),
        answers("seq", KERNEL_PRODUCT, Exit::Done, PRODUCT_ROWS),
        answers("seq", SHORT_TILES, Exit::Fault, "fault F2 1 line 0\n"),
        answers("seq", WALKS, Exit::Done, WALK_ROWS),
        answers("seq", SUMS, Exit::Done, SUM_ROW),
    ];
    end_alike(&rt, rt.alloc(), &cases)
}

#[test]
fn data_are_refused(rt: HostRuntime) -> Result<(), Fail> {
    let cases = [
        answers(
            "seq",
            "object A of 1 input;\nmain {}\ndata\n1x\n",
            Exit::BadData,
            "data B1 4:1\n",
        ),
        answers(
            "seq",
            "object A of 1 input;\nmain {}\ndata\n",
            Exit::BadData,
            "data B2 0 1\n",
        ),
        answers(
            "seq",
            "object A of 1 input;\nmain {}\ndata\n1 2\n",
            Exit::BadData,
            "data B3 4:3\n",
        ),
        answers("seq", "main {} data 5", Exit::BadData, "data B3 1:14\n"),
    ];
    end_alike(&rt, rt.alloc(), &cases)
}

// Texts that are refused, and how.
const REFUSED: [(&str, &str); 15] = [
    ("main { @ }", "refused P1 1:8\n"),
    ("main { let v = 12ab; }", "refused P2 1:16\n"),
    (
        "main { let v = 18446744073709551616; }",
        "refused P3 1:16\n",
    ),
    ("main {}\n", "refused P4 2:1\n"),
    (NESTED, "refused P14 1:79\n"),
    (
        "object A of 1; object A of 1; main {} data",
        "refused P5 1:23\n",
    ),
    ("main { fork t(); } data", "refused P6 1:13\n"),
    ("task t() {} main { fork t(1); } data", "refused P7 1:25\n"),
    (
        "task t(int v) {} object A of 1; main { fork t(A); } data",
        "refused P8 1:47\n",
    ),
    (NEVER_RUN, "refused P9 5:14\n"),
    (
        "object A of 1; task t(r P) { P[0] = 1; } main {} data",
        "refused P10 1:30\n",
    ),
    (
        "loop l(i; x P) { P[0] = 1; } main {} data",
        "refused P11 1:18\n",
    ),
    ("object A of 4097; main {} data", "refused P12 1:8\n"),
    ("data", "refused P13 1:1\n"),
    ("", "refused P4 1:1\n"),
];

#[test]
fn texts_are_refused(rt: HostRuntime) -> Result<(), Fail> {
    for (job, text) in REFUSED {
        let case = answers("seq", job, Exit::Refused, text);
        end_by(&rt, rt.alloc(), &["check", "seq", "sim 3 7"], &[case])?;
    }
    Ok(())
}

const WORLD: &str =
    "object A of 1; object B[1] of 1; task number(int P) {} task one(r P) {} task many(rp P[]) {} loop each(i;) {} ";

// What is answered, and the text of a program behind those declarations that breaks a rule.
const BROKEN: [(&str, &str); 23] = [
    ("refused P8 1:126\n", "main { let v = A; } data"),
    ("refused P8 1:130\n", "main { fork number(A); } data"),
    ("refused P8 1:118\n", "main { A = 1; } data"),
    (
        "refused P8 1:134\n",
        "main { for v in 0..1 { v = 1; } } data",
    ),
    ("refused P8 1:126\n", "main { let v = B[0]; } data"),
    ("refused P8 1:118\n", "main { B[0] = 1; } data"),
    ("refused P8 1:118\n", "main { B[0] add= 1; } data"),
    ("refused P8 1:123\n", "main { fork number(3; 1); } data"),
    ("refused P8 1:123\n", "main { fork each(); } data"),
    ("refused P7 1:123\n", "main { fork number(3;); } data"),
    ("refused P8 1:130\n", "main { fork number(B[0..1]); } data"),
    ("refused P8 1:127\n", "main { fork one(1); } data"),
    ("refused P8 1:127\n", "main { fork one(B); } data"),
    ("refused P8 1:127\n", "main { fork one(B[0..1]); } data"),
    ("refused P8 1:127\n", "main { fork one(A[0]); } data"),
    ("refused P8 1:128\n", "main { fork many(1); } data"),
    ("refused P8 1:128\n", "main { fork many(A); } data"),
    ("refused P8 1:128\n", "main { fork many(B[0]); } data"),
    (
        "refused P6 1:133\n",
        "main { if 0 {} else { v = 1; } } data",
    ),
    (
        "refused P9 1:134\n",
        "task u(x P) { fork one(P); } main {} data",
    ),
    (
        "refused P9 1:134\n",
        "task u(w P) { fork one(P); } main {} data",
    ),
    (
        "refused P9 1:140\n",
        "task u(cw(add) P) { fork one(P); } main {} data",
    ),
    (
        "refused P9 1:135\n",
        "task u(wp P) { fork one(P); } main {} data",
    ),
];

// Programs behind those declarations that break none.
const FINE: [&str; 9] = [
    "task u(r P) { fork one(P); } main {} data",
    "task u(rp P) { fork one(P); } main {} data",
    "task u(xp P) { fork one(P); } main {} data",
    "main { fork number(1); } data",
    "main { fork one(A); } data",
    "main { fork one(B[0]); } data",
    "main { fork many(B); } data",
    "main { fork many(B[0..1]); } data",
    "main { fork each(3;); } data",
];

// The program behind those declarations is checked, and the answer begins so.
fn checked(
    rt: &impl Abort,
    alloc: Global,
    text: &str,
    exit: Exit,
    start: &str,
) -> Result<(), Fail> {
    let mut job = WORLD.as_bytes().to_vec(alloc)?;
    job.extend_from_slice(text.as_bytes())?;
    let mut source = MemSource::new(job, 100, Vec::new(alloc));
    let mut sink = MemSink::new(alloc, 1_000, 100, Vec::new(alloc))?;
    let found = top_plain(alloc, &words_of(alloc, "check")?, &mut source, &mut sink);
    assert!(rt; found == exit, "{text}");
    assert!(rt; sink.written().starts_with(start.as_bytes()), "{text}");
    Ok(())
}

#[test]
fn rules_are_answered(rt: HostRuntime) -> Result<(), Fail> {
    for (answer, text) in BROKEN {
        checked(&rt, rt.alloc(), text, Exit::Refused, answer)?;
    }
    for text in FINE {
        checked(&rt, rt.alloc(), text, Exit::Done, "object A of 1;\n")?;
    }
    Ok(())
}

#[test]
fn texts_are_printed(rt: HostRuntime) -> Result<(), Fail> {
    let cases = [
        answers("check", ROUND_TRIP, Exit::Done, CANONICAL),
        answers("check", CANONICAL, Exit::Done, CANONICAL),
        answers("check", "main {} data 5", Exit::Done, "main {\n}\ndata\n"),
        answers("check", KERNEL_PRODUCT, Exit::Done, KERNEL_PRODUCT_TEXT),
    ];
    end_whole(&rt, rt.alloc(), &cases)
}

#[test]
fn other_words_read_nothing(rt: HostRuntime) -> Result<(), Fail> {
    let cases = [
        answers("", "", Exit::Usage, "usage\n"),
        answers("run 2", "", Exit::Usage, "usage\n"),
        answers("demo scan 1 0 2", "", Exit::Usage, "usage\n"),
        answers("seq 1", "", Exit::Usage, "usage\n"),
        answers("Seq", "", Exit::Usage, "usage\n"),
        answers("sim 0 1", "", Exit::Usage, "usage\n"),
        answers("sim 9 1", "", Exit::Usage, "usage\n"),
        answers("gen mul 0 1", "", Exit::Usage, "usage\n"),
        answers("gen mul 26 0", "", Exit::Usage, "usage\n"),
        answers("gen walks 13 0", "", Exit::Usage, "usage\n"),
        answers("gen scan 1025 0", "", Exit::Usage, "usage\n"),
        answers("gen MUL 1 0", "", Exit::Usage, "usage\n"),
        answers(
            "gen scan 1 000000000000000000000",
            "",
            Exit::Usage,
            "usage\n",
        ),
        answers("gen scan 1 0", "", Exit::Done, SCAN),
        answers("gen scan 1 00000000000000000000", "", Exit::Done, SCAN),
    ];
    for case in &cases {
        ends(&rt, rt.alloc(), case, (1, 10), (1, 0))?;
    }
    Ok(())
}

#[test]
fn a_job_of_one_byte_too_many(rt: HostRuntime) -> Result<(), Fail> {
    let alloc = rt.alloc();
    let mut job = b"main {} data".to_vec(alloc)?;
    job.extend_from_slice(&vec![in alloc; b' '; JOB - 11]?)?;
    let mut source = MemSource::new(job, 4096, Vec::new(alloc));
    let mut sink = MemSink::new(alloc, 10, 10, Vec::new(alloc))?;
    let found = top_plain(alloc, &words_of(alloc, "seq")?, &mut source, &mut sink);
    assert!(rt; found == Exit::TooLong);
    assert!(rt; sink.written() == b"too long\n".as_slice());
    Ok(())
}

#[test]
fn laws_have_callers() {
    one_answer();
    answers_without_faults();
}
