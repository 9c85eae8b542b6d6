use crate::{job_bytes, make};
use kt_text::Kind;
use std::test::Fail;

const SCAN: &str =
    "object A[1] of 16 input output;\nobject P of 1;\nloop sums(i; int t, int m, r Q, cw(add) R) {\n  for u in t + 1..m {\n    R[u] add= Q[i];\n  }\n}\nmain {\n  for t in 0..1 {\n    fork sums(16; t, 1, A[t], P);\n  }\n  for t in 0..1 {\n    fork k_scan(16, t, P, A[t]);\n  }\n}\ndata\n0 1 4 9 16 25 36 49 64 81 100 121 144 169 196 225\n";

#[test]
fn the_smallest_scan(rt: HostRuntime) -> Result<(), Fail> {
    let job = job_bytes(rt.alloc(), Kind::Scan, 1, 0)?;
    assert!(rt; job.as_slice() == SCAN.as_bytes());
    Ok(())
}

// The families, the numbers and the last number of each kind.
#[test]
fn jobs_of_each_kind(rt: HostRuntime) -> Result<(), Fail> {
    for (kind, size, families, numbers, last) in [
        (Kind::Mul, 2, 3, 2_048, 42),
        (Kind::Walks, 2, 2, 1_024, 0),
        (Kind::Stencil, 3, 2, 80, 0),
        (Kind::Scan, 3, 2, 48, 527),
    ] {
        let (program, made) = make(rt.alloc(), kind, size, 7)?;
        assert_eq!(rt; program.families.len(), families);
        assert_eq!(rt; made.len(), numbers);
        assert!(rt; made.as_slice().last() == Some(&last));
    }
    Ok(())
}
