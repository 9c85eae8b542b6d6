use crate::{ReadRefusal, read_program};
use kt_law::{P, Place, Refusal};
use kt_prog::{Program, Sort, What};
use std::alloc::{AllocError, Global};
use std::test::Fail;

fn read(alloc: Global, job: &[u8]) -> Result<(Program, usize), ReadRefusal> {
    if job.len() > 100_000 {
        return Err(ReadRefusal::NoMemory);
    }
    read_program(alloc, job)
}

fn is_refused(alloc: Global, job: &[u8], code: P, line: u32, column: u32) -> bool {
    match read(alloc, job) {
        Err(ReadRefusal::Refused(refusal)) => {
            refusal
                == Refusal {
                    code,
                    place: Place { line, column },
                }
        }
        _ => false,
    }
}

fn is_read(alloc: Global, job: &[u8]) -> bool {
    read(alloc, job).is_ok()
}

const SAMPLE: &[u8] = b"object A[4] of 2 input output;
object B of 3;
task t(int v, r P, w Q, x R, cw(add) S, rp T, wp U[], xp V[], cwp(max) W) { P[0] = v; }
loop l(i; int n, x P) { P[i] min= n; }
main {
  let v = 1 + 2 * (3 - satadd(v, 4)) % 5;
  v = A[v / 2] == 7;
  A[v] = 1; B[0] xor= 2;
  if v <= 1 {} else { fork t(v, A[0], A[0..2], (B)); }
  for k in 0..4 { fork l(4; k, A[k]); fork l(A[0] + 1;); fork t(); }
}
task u() {}
main {}
data 17";

#[test]
fn a_job_is_read(rt: HostRuntime) -> Result<(), Fail> {
    let (program, from) = read(rt.alloc(), SAMPLE)?;
    assert_eq!(rt; from, SAMPLE.len() - 3);
    assert_eq!(rt; (program.end.line, program.end.column), (14, 1));
    assert_eq!(rt; program.families.len(), 2);
    assert_eq!(rt; program.tasks.len(), 3);
    assert_eq!(rt; program.mains.len(), 2);
    let family = program.families.get(0).ok_or("an object")?;
    assert!(rt; family.input && family.output && family.many);
    assert_eq!(rt; (family.members, family.elements), (4, 2));
    let task = program.tasks.get(0).ok_or("a task")?;
    assert!(rt; task.index.is_none());
    assert_eq!(rt; task.params.len(), 9);
    let param = task.params.get(6).ok_or("a parameter")?;
    assert!(rt; matches!(param.sort, Sort::Many(_)));
    assert_eq!(rt; (param.place.line, param.place.column), (3, 47));
    assert_eq!(rt; (param.name_place.line, param.name_place.column), (3, 50));
    let lines = program.tasks.get(1).ok_or("a loop")?;
    assert!(rt; lines.index.is_some());
    let main = program.mains.get(0).ok_or("a main")?;
    assert_eq!(rt; main.body.len(), 6);
    let choice = main.body.get(4).ok_or("an if")?;
    assert_eq!(rt; (choice.place.line, choice.place.column), (9, 3));
    assert!(rt; matches!(choice.what, What::If(..)));
    Ok(())
}

#[test]
fn other_texts_are_read(rt: HostRuntime) {
    for job in [
        b"data".as_slice(),
        b"data#5",
        b"main {} data;5",
        b"object of of 1 input; object output[2] of 3 output; data",
        b"task r(r r, int int, cw(max) cw, rp rp[]) { add[of] add= satadd; } data",
        b"main { let width = 1; version = width; } data",
        b"main { let aaaaaaaaaaaaaaaaaaaaaaaaaaaaaaaa = 18446744073709551615; } data",
        b"main { if 1 {} else { if 2 {} } fork l(1;); } data",
    ] {
        assert!(rt; is_read(rt.alloc(), job));
    }
}

#[test]
fn bad_tokens_are_refused(rt: HostRuntime) {
    for (job, code, column) in [
        (b"main { @ }".as_slice(), P::P1, 8),
        (b"\xff", P::P1, 1),
        (b"main {} @ data", P::P1, 9),
        (b"main { let v = 12ab; }", P::P2, 16),
        (b"main { let v = !1; }", P::P2, 16),
        (b"main { for i in 0.5 {} }", P::P2, 18),
        (
            b"main { let aaaaaaaaaaaaaaaaaaaaaaaaaaaaaaaaa = 1; }",
            P::P2,
            12,
        ),
        (b"main { let v = 18446744073709551616; }", P::P3, 16),
        (b"main { let v = 18446744073709551616ab; }", P::P2, 16),
        (b"main { 99999999999999999999 } data", P::P3, 8),
    ] {
        assert!(rt; is_refused(rt.alloc(), job, code, 1, column));
    }
}

#[test]
fn a_text_ends_with_the_word_data(rt: HostRuntime) {
    for (job, line, column) in [
        (b"".as_slice(), 1, 1),
        (b"object", 1, 7),
        (b"object A o", 1, 10),
        (b"object A of 1 input output;", 1, 28),
        (b"dat", 1, 1),
        (b"main {} data5", 1, 9),
        (b"main {} # data", 1, 15),
        (b"main {}\n", 2, 1),
        (b"version 2; main {} data", 1, 1),
    ] {
        assert!(rt; is_refused(rt.alloc(), job, P::P4, line, column));
    }
}

#[test]
fn declarations_are_refused_at_their_first_wrong_token(rt: HostRuntime) {
    for (job, column) in [
        (b"object A of 1 output input; data".as_slice(), 22),
        (b"object A of 1 input input; data", 21),
        (b"object A[] of 1; data", 10),
        (b"object A[2 of 1; data", 12),
        (b"object fork of 1; data", 8),
        (b"task t(x P[]) {} data", 11),
        (b"task t(rp P[1]) {} data", 13),
        (b"task t(int v,) {} data", 14),
        (b"task t(int v x P) {} data", 14),
        (b"task t(cw(sum) P) {} data", 11),
        (b"task t(cw P) {} data", 11),
        (b"task t(y P) {} data", 8),
        (b"loop l() {} data", 8),
        (b"loop l(int i; x P) {} data", 12),
        (b"loop l(i, x P) {} data", 9),
        (b"main data", 6),
    ] {
        assert!(rt; is_refused(rt.alloc(), job, P::P4, 1, column));
    }
}

#[test]
fn statements_are_refused_at_their_first_wrong_token(rt: HostRuntime) {
    for (job, column) in [
        (b"main { new t of 1; } data".as_slice(), 12),
        (b"main { else {} } data", 8),
        (b"main { if 1 } data", 13),
        (b"main { if 1 {} else if 2 {} } data", 21),
        (b"main { A[0] sum= 1; } data", 13),
        (b"main { v == 1; } data", 10),
        (b"main { for i in 0 {} } data", 19),
        (b"main { let v = 1 == 2 == 3; } data", 23),
        (b"main { let v = add(1, 2); } data", 19),
        (b"main { let v = min(1); } data", 21),
        (b"main { fork t(A[1..2] + 1); } data", 23),
        (b"main { fork l(A[1..2]; 1); } data", 22),
        (b"main { fork l(1, 2; 3); } data", 19),
        (b"main { fork l(1;; 2); } data", 17),
        (b"main { fork t(1,); } data", 17),
        (b"main { fork t(1) } data", 18),
        (b"main { let v = A[1..2]; } data", 19),
    ] {
        assert!(rt; is_refused(rt.alloc(), job, P::P4, 1, column));
    }
}

fn push_times(text: &mut Vec<u8>, piece: &[u8], times: usize) -> Result<(), AllocError> {
    for _ in 0..times {
        text.extend_from_slice(piece)?;
    }
    Ok(())
}

// Each `$` stands for 125 times `+1`.
fn lengthened(alloc: Global, short: &[u8]) -> Result<Vec<u8>, AllocError> {
    let mut text = Vec::new(alloc);
    for byte in short {
        if *byte == b'$' {
            push_times(&mut text, b"+1", 125)?;
        } else {
            text.push(*byte)?;
        }
    }
    Ok(text)
}

// An expression of 256 tokens is read, and of a longer one the next token is refused.
#[test]
fn an_expression_has_256_tokens(rt: HostRuntime) -> Result<(), Fail> {
    for short in [
        b"main { fork t(1$+1+1, min(1,1)$); } data".as_slice(),
        b"main { fork l(min(1,1)$; min(1,1)$, A[1$..1], A[1$+1]); } data",
        b"main { A[min(1,1)$] = min(1,1)$; A[min(1,1)$] add= min(1,1)$; } data",
        b"main { for i in min(1,1)$..min(1,1)$ {} if min(1,1)$ {} } data",
        b"main { let v = 1==A[1]$; v = 1==A[1]$; } data",
    ] {
        let job = lengthened(rt.alloc(), short)?;
        assert!(rt; is_read(rt.alloc(), job.as_slice()));
    }
    for (short, code, column) in [
        (b"main { fork t(1$+1+1+1); } data".as_slice(), P::P14, 271),
        (b"main { fork t(min(1,1)$+1); } data", P::P14, 273),
        (b"main { fork t(A[1$+1..1]); } data", P::P14, 272),
        (b"main { fork t(A[1$+1]+1); } data", P::P14, 271),
        (b"main { fork t(1==A[1]$==1); } data", P::P4, 272),
        (b"main { fork l(min(1,1)$+1; 1); } data", P::P14, 273),
        (b"main { A[min(1,1)$+1] = 1; } data", P::P14, 268),
        (b"main { A[0] add= 1$+1+1+1; } data", P::P14, 274),
        (b"main { for i in min(1,1)$+1..1 {} } data", P::P14, 275),
        (b"main { for i in 0..min(1,1)$+1 {} } data", P::P14, 278),
        (b"main { if min(1,1)$+1 {} } data", P::P14, 269),
        (b"main { let v = min(1,1)$+1; } data", P::P14, 274),
    ] {
        let job = lengthened(rt.alloc(), short)?;
        assert!(rt; is_refused(rt.alloc(), job.as_slice(), code, 1, column));
    }
    Ok(())
}

// `front`, then `open` so many times, `middle`, and `close` as many times.
fn nested(
    alloc: Global,
    front: &[u8],
    open: &[u8],
    times: usize,
    middle: &[u8],
    close: &[u8],
) -> Result<Vec<u8>, AllocError> {
    let mut text = Vec::from_slice(alloc, front)?;
    push_times(&mut text, open, times)?;
    text.extend_from_slice(middle)?;
    push_times(&mut text, close, times)?;
    Ok(text)
}

#[test]
fn a_text_has_64_open_brackets(rt: HostRuntime) -> Result<(), Fail> {
    for (front, open, times, middle, close) in [
        (
            b"main { let v = ".as_slice(),
            b"(".as_slice(),
            63,
            b"1".as_slice(),
            b")".as_slice(),
        ),
        (b"main { v = ", b"min(1, A[", 31, b"1", b"])"),
    ] {
        let mut job = nested(rt.alloc(), front, open, times, middle, close)?;
        job.extend_from_slice(b"; } data")?;
        assert!(rt; is_read(rt.alloc(), job.as_slice()));
    }
    let mut inner = nested(rt.alloc(), b"let v = ", b"(", 32, b"1", b")")?;
    inner.extend_from_slice(b"; ")?;
    for (open, times, middle) in [
        (b"if 1 {".as_slice(), 63, b"".as_slice()),
        (b"if (1) { A[0] = 1; } else {", 62, b"A[1] = 1;"),
        (b"for i in 0..(1) {", 31, inner.as_slice()),
    ] {
        let mut job = nested(rt.alloc(), b"main {", open, times, middle, b"}")?;
        job.extend_from_slice(b"} data")?;
        assert!(rt; is_read(rt.alloc(), job.as_slice()));
    }
    Ok(())
}

#[test]
fn a_65th_bracket_is_refused(rt: HostRuntime) -> Result<(), Fail> {
    for (front, open, times, rest, code, column) in [
        (
            b"main { let v = ".as_slice(),
            b"(".as_slice(),
            64,
            b"".as_slice(),
            P::P14,
            79,
        ),
        (b"main { let v = ", b"(", 63, b"1(", P::P4, 80),
        (b"main { let v = ", b"(", 63, b"@", P::P1, 79),
        (b"main {", b"if 1 {", 64, b"} data", P::P14, 390),
        (b"main {", b"if 1 {", 63, b"A[", P::P14, 386),
        (b"main {", b"if 1 {", 63, b"fork t(", P::P14, 391),
    ] {
        let job = nested(rt.alloc(), front, open, times, rest, b"")?;
        assert!(rt; is_refused(rt.alloc(), job.as_slice(), code, 1, column));
    }
    Ok(())
}
