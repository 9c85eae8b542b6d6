// The kernels that go along a row.
ghost use Rattle.std.specs.Prelude.{◌≡◌, ◌≢◌, ◌≤◌, ◌-◌, ◌<◌, ◌^◌, length};
ghost use Rattle.kt_law.specs.declared.limits.TheConstants.{WIDTH};
ghost use Rattle.kt_prog.specs.Kernels.{smooth};
ghost use Rattle.kt_prog.specs.Objects.{elements_of, width_of};
ghost use Rattle.kt_tiles.specs.Kernels.{fits_line, fits_sum, line_in, line_loaded, sum_in, sum_loaded};
ghost use Rattle.kt_body.specs.Moves.{Can, Ran};

use crate::products::has;
use crate::rows::{load_row, write_row};
use kt_body::{Early, Got, Ops, Write, width_at};
use kt_kernels::{scan, stencil};
use kt_law::{F, LENGTH};
use kt_prog::Program;

/// A row of `n` elements between the last of `left` and the first of `right`, and where the weighted row goes.
#[derive(Clone, Copy)]
pub struct Line {
    pub n: u64,
    pub left: u32,
    pub row: u32,
    pub right: u32,
    pub out: u32,
}

/// A row of `n` elements whose sums begin with element `first` of `start`.
#[derive(Clone, Copy)]
pub struct Sum {
    pub n: u64,
    pub first: u64,
    pub start: u32,
    pub row: u32,
}

fn is_line_fitting(program: &Program, s: &Line) -> bool
    requires { elements_of program.now.families < 2 ^ 32 }
    ensures { result ≡ fits_line (width_of program.now.families) s.now }
{
    s.n <= u64::from(LENGTH)
        && has(program, s.left, s.n)
        && has(program, s.row, s.n)
        && has(program, s.right, s.n)
        && has(program, s.out, s.n)
}

fn is_sum_fitting(program: &Program, s: &Sum) -> bool
    requires { elements_of program.now.families < 2 ^ 32 }
    ensures { result ≡ fits_sum (width_of program.now.families) s.now }
{
    s.n <= u64::from(LENGTH)
        && has(program, s.row, s.n)
        && s.first < u64::from(width_at(program, s.start))
}

fn run_line<O: Ops>(
    program: &Program,
    s: &Line,
    row: &mut [u64],
    out: &mut [u64],
    ops: &mut O,
) -> Result<(), Early>
    requires can { Can O.at O.goes O.halted program.now ops.old (line_loaded s.now (s.now.n - 1)) }
    requires shape { length row.old ≡ s.now.n }
    requires out_shape { length out.old ≡ s.now.n }
    requires some { s.now.n ≢ 0 }
    requires few { s.now.n ≤ WIDTH }
    ensures { Ran O.at O.goes O.halted ops.old (line_loaded s.now (s.now.n - 1)) ops.new result }
{
    let left = match ops.load(s.left, (s.n - 1) as u32) {
        Got::Value(v) => v,
        Got::Halt => return Err(Early::Halted),
    };
    load_row(program, s.row, row, ops)?;
    let right = match ops.load(s.right, 0) {
        Got::Value(v) => v,
        Got::Halt => return Err(Early::Halted),
    };
    stencil(left, row, right, out);
    write_row(program, Write::Store, s.out, out, ops)
}

fn run_line_in<O: Ops>(
    program: &Program,
    s: &Line,
    row: &mut [u64],
    out: &mut [u64],
    ops: &mut O,
) -> Result<(), Early>
    requires can { Can O.at O.goes O.halted program.now ops.old (line_loaded s.now (s.now.n - 1)) }
    requires some { s.now.n ≢ 0 }
    requires few { s.now.n ≤ WIDTH }
    requires row_room { WIDTH ≤ length row.old }
    requires out_room { WIDTH ≤ length out.old }
    ensures { Ran O.at O.goes O.halted ops.old (line_loaded s.now (s.now.n - 1)) ops.new result }
{
    let n = s.n as usize;
    run_line(program, s, &mut row[..n], &mut out[..n], ops)
}

fn run_fitting_line<O: Ops>(
    program: &Program,
    s: &Line,
    row: &mut [u64],
    out: &mut [u64],
    ops: &mut O,
) -> Result<(), Early>
    requires can { Can O.at O.goes O.halted program.now ops.old
        (smooth (width_of program.now.families) s.now.n s.now.left s.now.row s.now.right
        s.now.out) }
    requires few { s.now.n ≤ WIDTH }
    requires row_room { WIDTH ≤ length row.old }
    requires out_room { WIDTH ≤ length out.old }
    ensures { Ran O.at O.goes O.halted ops.old
        (smooth (width_of program.now.families) s.now.n s.now.left s.now.row s.now.right s.now.out)
        ops.new result }
{
    if s.n == 0 {
        Ok(())
    } else {
        run_line_in(program, s, row, out, ops)
    }
}

/// The test, the loads of the neighbours and the row, and the stores of the weighted row. Nothing is loaded where the row is empty.
pub fn run_stencil<O: Ops>(
    program: &Program,
    s: &Line,
    row: &mut [u64],
    out: &mut [u64],
    ops: &mut O,
) -> Result<(), Early>
    requires row_room { WIDTH ≤ length row.old }
    requires out_room { WIDTH ≤ length out.old }
    requires can { Can O.at O.goes O.halted program.now ops.old
        (line_in (width_of program.now.families) s.now) }
    ensures { Ran O.at O.goes O.halted ops.old (line_in (width_of program.now.families) s.now)
        ops.new result }
{
    if is_line_fitting(program, s) {
        run_fitting_line(program, s, row, out, ops)
    } else {
        Err(Early::Fault(F::F2, 0))
    }
}

fn run_sum<O: Ops>(program: &Program, s: &Sum, row: &mut [u64], ops: &mut O) -> Result<(), Early>
    requires can { Can O.at O.goes O.halted program.now ops.old (sum_loaded s.now) }
    requires shape { length row.old ≡ s.now.n }
    requires few { s.now.n ≤ WIDTH }
    requires first { s.now.first ≤ WIDTH }
    ensures { Ran O.at O.goes O.halted ops.old (sum_loaded s.now) ops.new result }
{
    let start = match ops.load(s.start, s.first as u32) {
        Got::Value(v) => v,
        Got::Halt => return Err(Early::Halted),
    };
    load_row(program, s.row, row, ops)?;
    scan(start, row);
    write_row(program, Write::Store, s.row, row, ops)
}

fn run_sum_in<O: Ops>(program: &Program, s: &Sum, row: &mut [u64], ops: &mut O) -> Result<(), Early>
    requires can { Can O.at O.goes O.halted program.now ops.old (sum_loaded s.now) }
    requires few { s.now.n ≤ WIDTH }
    requires first { s.now.first ≤ WIDTH }
    requires room { WIDTH ≤ length row.old }
    ensures { Ran O.at O.goes O.halted ops.old (sum_loaded s.now) ops.new result }
{
    let n = s.n as usize;
    run_sum(program, s, &mut row[..n], ops)
}

/// The test, the loads of the start and the row, and the stores of the sums.
pub fn run_scan<O: Ops>(
    program: &Program,
    s: &Sum,
    row: &mut [u64],
    ops: &mut O,
) -> Result<(), Early>
    requires room { WIDTH ≤ length row.old }
    requires can { Can O.at O.goes O.halted program.now ops.old
        (sum_in (width_of program.now.families) s.now) }
    ensures { Ran O.at O.goes O.halted ops.old (sum_in (width_of program.now.families) s.now)
        ops.new result }
{
    if is_sum_fitting(program, s) {
        run_sum_in(program, s, row, ops)
    } else {
        Err(Early::Fault(F::F2, 0))
    }
}
