// The body of a kernel's call.
ghost use Rattle.std.specs.Prelude.{◌≡◌, slice_index};
ghost use Rattle.kt_prog.specs.Bodies.{job_body};
ghost use Rattle.kt_prog.specs.Calls.{Whole};
ghost use Rattle.kt_prog.specs.Kernels.{kernel_body, object_at};
ghost use Rattle.kt_prog.specs.Objects.{width_of};
ghost use Rattle.kt_body.specs.Endings.{Begins, EndsSo};
ghost use Rattle.kt_tiles.specs.Kernels.{IsKernel, line_given, product_given, sum_given};
ghost use Rattle.kt_body.specs.Moves.{Can, Ran};

use crate::lines::{Line, Sum, run_scan, run_stencil};
use crate::products::{Product, Ring, run_product};
use crate::tiles::{Buffers, TILE, Tiles};
use kt_body::{Early, Ended, Ops, Went, zero_each};
use kt_law::{Access, DEFINITIONS};
use kt_prog::{Call, Program};

#[tactic(auto, using(crate::proofs::Kernels::object_there, crate::proofs::Kernels::object_missing))]
fn object_of(accesses: &[Access], k: usize) -> u32
    ensures { result ≡ object_at accesses.now k }
{
    if k < accesses.len() {
        accesses[k].lo
    } else {
        0
    }
}

fn int_of(ints: &[u64], k: usize) -> u64
    ensures { result ≡ slice_index ints.now k }
{
    if k < ints.len() { ints[k] } else { 0 }
}

fn product_of(ints: &[u64], accesses: &[Access]) -> Product
    ensures { result ≡ product_given ints.now accesses.now }
{
    Product {
        n: int_of(ints, 0),
        p: int_of(ints, 1),
        q: int_of(ints, 2),
        a: object_of(accesses, 0),
        b: object_of(accesses, 1),
        c: object_of(accesses, 2),
    }
}

fn line_of(ints: &[u64], accesses: &[Access]) -> Line
    ensures { result ≡ line_given ints.now accesses.now }
{
    Line {
        n: int_of(ints, 0),
        left: object_of(accesses, 0),
        row: object_of(accesses, 1),
        right: object_of(accesses, 2),
        out: object_of(accesses, 3),
    }
}

fn sum_of(ints: &[u64], accesses: &[Access]) -> Sum
    ensures { result ≡ sum_given ints.now accesses.now }
{
    Sum {
        n: int_of(ints, 0),
        first: int_of(ints, 1),
        start: object_of(accesses, 0),
        row: object_of(accesses, 1),
    }
}

fn run_numbered<O: Ops>(
    program: &Program,
    kernel: u32,
    ints: &[u64],
    accesses: &[Access],
    ops: &mut O,
    buffers: &mut Buffers,
) -> Result<(), Early>
    requires { Can O.at O.goes O.halted program.now ops.old
        (kernel_body (width_of program.now.families) kernel ints.now accesses.now) }
    ensures { Ran O.at O.goes O.halted ops.old
        (kernel_body (width_of program.now.families) kernel ints.now accesses.now) ops.new result }
{
    let (a, rest) = buffers.numbers.split_at_mut(TILE);
    let (b, c) = rest.split_at_mut(TILE);
    if kernel == 0 {
        let s = product_of(ints, accesses);
        run_product(program, Ring::Wrapping, &s, a, b, c, ops)
    } else if kernel == 1 {
        let s = product_of(ints, accesses);
        run_product(program, Ring::Tropical, &s, a, b, c, ops)
    } else if kernel == 2 {
        run_stencil(program, &line_of(ints, accesses), a, c, ops)
    } else {
        run_scan(program, &sum_of(ints, accesses), a, ops)
    }
}

fn run_zeroed<O: Ops>(
    program: &Program,
    call: &Call,
    ops: &mut O,
    buffers: &mut Buffers,
) -> Result<(), Early>
    requires can { Can O.at O.goes O.halted program.now ops.old
        (job_body (λ w. w) program.now (Whole call.now)) }
    requires kernel { IsKernel call.now }
    ensures { Ran O.at O.goes O.halted ops.old (job_body (λ w. w) program.now (Whole call.now))
        ops.new result }
{
    let kernel = call.task - DEFINITIONS - 1;
    let (ints, accesses) = (call.ints.as_slice(), call.accesses.as_slice());
    match zero_each(program, accesses, ops) {
        Went::Went => run_numbered(program, kernel, ints, accesses, ops, buffers),
        Went::Halt => Err(Early::Halted),
    }
}

/// The operations of the body of a kernel's call, its zeroing first, in order. What stood in the tiles before doesn't count.
pub fn run_kernel<O: Ops>(program: &Program, call: &Call, ops: &mut O, tiles: &mut Tiles) -> Ended
    requires begins { Begins O.at O.goes O.halted program.now (Whole call.now) ops.old }
    requires kernel { IsKernel call.now }
    ensures { EndsSo O.at O.goes O.halted program.now (Whole call.now) ops.old ops.new result }
{
    match run_zeroed(program, call, ops, &mut tiles.buffers) {
        Ok(()) => Ended::Done,
        Err(Early::Fault(law, line)) => Ended::Fault(law, line),
        Err(Early::Halted) => Ended::Halted,
    }
}
