// The kernels that multiply tiles.
ghost use Rattle.std.specs.Prelude.{◌≡◌, ◌≤◌, ◌*◌, ◌<◌, ◌^◌, length, nat_le, true};
ghost use Rattle.kt_law.specs.declared.limits.TheConstants.{LENGTH, WIDTH};
ghost use Rattle.kt_prog.specs.Objects.{elements_of, width_of};
ghost use Rattle.kt_tiles.specs.Kernels.{fits_product, made_by, op_of, product_in, product_loaded};
ghost use Rattle.kt_body.specs.Moves.{Can, Ran};

use crate::rows::{load_row, write_row};
use kt_body::{Early, Ops, Write, width_at};
use kt_kernels::{minplus, mul};
use kt_law::{F, LENGTH, Op};
use kt_prog::Program;

/// Sums of products modulo 2^64, or least values of sums that stop at 2^64-1.
#[derive(Clone, Copy)]
pub enum Ring {
    Wrapping,
    Tropical,
}

/// An n by p tile of `a`, a p by q tile of `b`, and an n by q tile of `c` into which their product is folded.
#[derive(Clone, Copy)]
pub struct Product {
    pub n: u64,
    pub p: u64,
    pub q: u64,
    pub a: u32,
    pub b: u32,
    pub c: u32,
}

fn fold_of(ring: Ring) -> Op
    ensures { result ≡ op_of ring }
{
    match ring {
        Ring::Wrapping => Op::Add,
        Ring::Tropical => Op::Min,
    }
}

/// Whether the object has at least so many elements.
pub fn has(program: &Program, object: u32, n: u64) -> bool
    requires { elements_of program.now.families < 2 ^ 32 }
    ensures exact { result ≡ nat_le n (width_of program.now.families object) }
    ensures there { result ≡ true → n ≤ width_of program.now.families object }
{
    n <= u64::from(width_at(program, object))
}

/// No product is taken before its factors are within the limit.
fn is_fitting(program: &Program, s: &Product) -> bool
    requires { elements_of program.now.families < 2 ^ 32 }
    ensures { result ≡ fits_product (width_of program.now.families) s.now }
{
    let side = u64::from(LENGTH);
    s.n <= side
        && s.p <= side
        && s.q <= side
        && has(program, s.a, s.n * s.p)
        && has(program, s.b, s.p * s.q)
        && has(program, s.c, s.n * s.q)
}

#[tactic(auto, using(crate::proofs::Kernels::length_made))]
fn multiply(ring: Ring, s: &Product, a: &[u64], b: &[u64], out: &mut [u64])
    requires rows { s.now.n ≤ LENGTH }
    requires depth { s.now.p ≤ LENGTH }
    requires columns { s.now.q ≤ LENGTH }
    requires a_shape { length a.now ≡ s.now.n * s.now.p }
    requires b_shape { length b.now ≡ s.now.p * s.now.q }
    requires out_shape { length out.old ≡ s.now.n * s.now.q }
    ensures product { out.new ≡ made_by ring s.now.n s.now.p s.now.q a.now b.now }
    ensures shape { length out.new ≡ s.now.n * s.now.q }
{
    let (n, p, q) = (s.n as usize, s.p as usize, s.q as usize);
    match ring {
        Ring::Wrapping => mul(n, p, q, a, b, out),
        Ring::Tropical => minplus(n, p, q, a, b, out),
    }
}

fn run_fitting<O: Ops>(
    program: &Program,
    ring: Ring,
    s: &Product,
    a: &mut [u64],
    b: &mut [u64],
    out: &mut [u64],
    ops: &mut O,
) -> Result<(), Early>
    requires can { Can O.at O.goes O.halted program.now ops.old (product_loaded ring s.now) }
    requires rows { s.now.n ≤ LENGTH }
    requires depth { s.now.p ≤ LENGTH }
    requires columns { s.now.q ≤ LENGTH }
    requires a_shape { length a.old ≡ s.now.n * s.now.p }
    requires b_shape { length b.old ≡ s.now.p * s.now.q }
    requires out_shape { length out.old ≡ s.now.n * s.now.q }
    requires a_few { length a.old ≤ WIDTH }
    requires b_few { length b.old ≤ WIDTH }
    requires out_few { length out.old ≤ WIDTH }
    ensures { Ran O.at O.goes O.halted ops.old (product_loaded ring s.now) ops.new result }
{
    load_row(program, s.a, a, ops)?;
    load_row(program, s.b, b, ops)?;
    multiply(ring, s, a, b, out);
    write_row(program, Write::Fold(fold_of(ring)), s.c, out, ops)
}

/// The loads of both tiles and the folds of their product, where they fit the buffers.
fn run_tiled<O: Ops>(
    program: &Program,
    ring: Ring,
    s: &Product,
    a: &mut [u64],
    b: &mut [u64],
    c: &mut [u64],
    ops: &mut O,
) -> Result<(), Early>
    requires can { Can O.at O.goes O.halted program.now ops.old (product_loaded ring s.now) }
    requires rows { s.now.n ≤ LENGTH }
    requires depth { s.now.p ≤ LENGTH }
    requires columns { s.now.q ≤ LENGTH }
    requires a_few { s.now.n * s.now.p ≤ WIDTH }
    requires b_few { s.now.p * s.now.q ≤ WIDTH }
    requires c_few { s.now.n * s.now.q ≤ WIDTH }
    requires a_room { WIDTH ≤ length a.old }
    requires b_room { WIDTH ≤ length b.old }
    requires c_room { WIDTH ≤ length c.old }
    ensures { Ran O.at O.goes O.halted ops.old (product_loaded ring s.now) ops.new result }
{
    let xs = &mut a[..(s.n * s.p) as usize];
    let ys = &mut b[..(s.p * s.q) as usize];
    let out = &mut c[..(s.n * s.q) as usize];
    run_fitting(program, ring, s, xs, ys, out, ops)
}

/// The test, the loads of both tiles, and the folds of their product.
pub fn run_product<O: Ops>(
    program: &Program,
    ring: Ring,
    s: &Product,
    a: &mut [u64],
    b: &mut [u64],
    c: &mut [u64],
    ops: &mut O,
) -> Result<(), Early>
    requires can { Can O.at O.goes O.halted program.now ops.old
        (product_in (width_of program.now.families) ring s.now) }
    requires a_room { WIDTH ≤ length a.old }
    requires b_room { WIDTH ≤ length b.old }
    requires c_room { WIDTH ≤ length c.old }
    ensures { Ran O.at O.goes O.halted ops.old
        (product_in (width_of program.now.families) ring s.now) ops.new result }
{
    if is_fitting(program, s) {
        run_tiled(program, ring, s, a, b, c, ops)
    } else {
        Err(Early::Fault(F::F2, 0))
    }
}
