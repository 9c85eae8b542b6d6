// The generated programs.
ghost use Rattle.std.specs.Prelude.{◌≡◌, ◌+◌, ◌<◌, ◌≤◌, ◌^◌, [], ◌∷◌, None, IfOk};
ghost use Rattle.kt_prog.specs.Names.{IsName};
ghost use Rattle.kt_gen.specs.Jobs.{IsSize};
ghost use Rattle.kt_gen.specs.Texts.{rounds_of};
ghost use Rattle.kt_gen.specs.Trees.{copies, copy, mul_program, on, one_added, one_copied, program_of, round, row_args, scan_all, scan_program, smooth, stencil_program, sum_all, sums, tile_args, tiles, walks_program};

use crate::parts::{
    bare_name, binary, first_of, for_below, for_each, fork_of, member_at, numeral, object_of, one,
    param_of, program_with, range_of, tile_at, two, variable,
};
use kt_law::{BinOp, Mode, NoMemory, Op, Place};
use kt_prog::{Arg, Expr, Index, Name, Program, Sort, Stmt, Task, What};
use kt_text::Kind;
use sqlite_items::{Boxed, Items};
use std::alloc::Global;

/// The program of this kind and size.
pub(crate) fn program(alloc: Global, kind: Kind, size: u64) -> Result<Program, NoMemory>
    requires { IsSize kind size }
    ensures { IfOk result (λ made. made ≡ program_of kind size) }
{
    match kind {
        Kind::Mul => mul(alloc, size),
        Kind::Walks => walks(alloc, size),
        Kind::Stencil => stencil(alloc, size),
        Kind::Scan => scan(alloc, size),
    }
}

/// The sizes of a tile, and the tiles.
fn args_of_tiles(
    alloc: Global,
    at: Place,
    size: u64,
    a: &[u8],
    b: &[u8],
    c: &[u8],
) -> Result<Items<Arg>, NoMemory>
    requires a { IsName a.now }
    requires b { IsName b.now }
    requires c { IsName c.now }
    ensures { IfOk result (λ args. args ≡ tile_args at size a.now b.now c.now) }
{
    let mut args = two(alloc, numeral(at, 16), numeral(at, 16))?;
    args.push(numeral(at, 16))?;
    args.push(tile_at(alloc, at, a, b"i", size, b"k")?)?;
    args.push(tile_at(alloc, at, b, b"k", size, b"j")?)?;
    args.push(tile_at(alloc, at, c, b"i", size, b"j")?)?;
    Ok(args)
}

/// Three `for` from this line on, and in them the fork of this kernel.
fn product(
    alloc: Global,
    line: u32,
    size: u64,
    kernel: &[u8],
    a: &[u8],
    b: &[u8],
    c: &[u8],
) -> Result<Stmt, NoMemory>
    requires line { line < 2 ^ 16 }
    requires kernel { IsName kernel.now }
    requires a { IsName a.now }
    requires b { IsName b.now }
    requires c { IsName c.now }
    ensures { IfOk result (λ stmt. stmt ≡ tiles line size kernel.now a.now b.now c.now) }
{
    let at = first_of(line + 3);
    let args = args_of_tiles(alloc, at, size, a, b, c)?;
    let inner = fork_of(at, kernel, None, args);
    let inner = for_below(alloc, first_of(line + 2), b"k", size, inner)?;
    let inner = for_below(alloc, first_of(line + 1), b"j", size, inner)?;
    for_below(alloc, first_of(line), b"i", size, inner)
}

fn mul(alloc: Global, size: u64) -> Result<Program, NoMemory>
    requires { size ≤ 25 }
    ensures { IfOk result (λ made. made ≡ mul_program size) }
{
    let members = size * size;
    let a = range_of(1, b"A", members, 256, true, false);
    let b = range_of(2, b"B", members, 256, true, false);
    let mut families = two(alloc, a, b)?;
    families.push(range_of(3, b"C", members, 256, false, true))?;
    let body = one(alloc, product(alloc, 5, size, b"k_mul", b"A", b"B", b"C")?)?;
    program_with(alloc, families, Items::new(alloc), 4, body, 13)
}

/// `R[i] = P[i];` in this line.
fn copied(alloc: Global, at: Place) -> Result<Stmt, NoMemory>
    ensures { IfOk result (λ stmt. stmt ≡ one_copied at) }
{
    let value = Boxed::new(alloc, variable(at, b"i"))?;
    let value = Expr::Elem(Name::new(b"P"), at, value);
    Ok(Stmt {
        place: at,
        what: What::Store(Name::new(b"R"), at, variable(at, b"i"), value),
    })
}

/// The task that copies an object of 256 elements.
fn copy_task(alloc: Global) -> Result<Task, NoMemory>
    ensures { IfOk result (λ task. task ≡ copy) }
{
    let at = first_of(3);
    let from = param_of(at, b"P", Sort::One(Mode::R));
    let params = two(alloc, from, param_of(at, b"R", Sort::One(Mode::W)))?;
    let inner = copied(alloc, first_of(5))?;
    let body = one(alloc, for_below(alloc, first_of(4), b"i", 256, inner)?)?;
    Ok(Task {
        name: Name::new(b"copy"),
        place: at,
        index: None,
        params,
        body,
    })
}

/// The forks that copy each member of a range, from this line on.
fn copy_all(
    alloc: Global,
    line: u32,
    members: u64,
    from: &[u8],
    to: &[u8],
) -> Result<Stmt, NoMemory>
    requires line { line < 2 ^ 16 }
    requires from { IsName from.now }
    requires to { IsName to.now }
    ensures { IfOk result (λ stmt. stmt ≡ copies line members from.now to.now) }
{
    let at = first_of(line + 1);
    let source = member_at(alloc, at, from, variable(at, b"t"))?;
    let target = member_at(alloc, at, to, variable(at, b"t"))?;
    let inner = fork_of(at, b"copy", None, two(alloc, source, target)?);
    for_below(alloc, first_of(line), b"t", members, inner)
}

/// How many times each walk is made four times as long.
fn rounds(size: u64) -> u64
    requires { (1 ≤ size) × (size ≤ 12) }
    ensures { result ≡ rounds_of size }
{
    match size {
        1 => 2,
        2..=4 => 3,
        _ => 4,
    }
}

fn round_of(alloc: Global, size: u64) -> Result<Items<Stmt>, NoMemory>
    requires { size ≤ 12 }
    ensures { IfOk result (λ body. body ≡ round size) }
{
    let members = size * size;
    let copied = copy_all(alloc, 10, members, b"D", b"E")?;
    let walked = product(alloc, 13, size, b"k_minplus", b"D", b"D", b"E")?;
    let mut body = two(alloc, copied, walked)?;
    body.push(copy_all(alloc, 20, members, b"E", b"D")?)?;
    body.push(product(alloc, 23, size, b"k_minplus", b"E", b"E", b"D")?)?;
    Ok(body)
}

fn walks(alloc: Global, size: u64) -> Result<Program, NoMemory>
    requires { (1 ≤ size) × (size ≤ 12) }
    ensures { IfOk result (λ made. made ≡ walks_program size) }
{
    let members = size * size;
    let d = range_of(1, b"D", members, 256, true, true);
    let e = range_of(2, b"E", members, 256, false, false);
    let families = two(alloc, d, e)?;
    let tasks = one(alloc, copy_task(alloc)?)?;
    let round = round_of(alloc, size)?;
    let (from, to) = (Expr::Num(0), Expr::Num(rounds(size)));
    let body = one(alloc, for_each(first_of(9), b"h", from, to, round))?;
    program_with(alloc, families, tasks, 8, body, 32)
}

/// The size of a row, the rows before, at and behind `j`, and the row to be written.
fn args_of_rows(alloc: Global, at: Place, from: &[u8], to: &[u8]) -> Result<Items<Arg>, NoMemory>
    requires from { IsName from.now }
    requires to { IsName to.now }
    ensures { IfOk result (λ args. args ≡ row_args at from.now to.now) }
{
    let before = binary(alloc, BinOp::Sub, variable(at, b"j"), Expr::Num(1))?;
    let behind = binary(alloc, BinOp::Add, variable(at, b"j"), Expr::Num(1))?;
    let mut args = two(alloc, numeral(at, 16), member_at(alloc, at, from, before)?)?;
    args.push(member_at(alloc, at, from, variable(at, b"j"))?)?;
    args.push(member_at(alloc, at, from, behind)?)?;
    args.push(member_at(alloc, at, to, variable(at, b"j"))?)?;
    Ok(args)
}

/// The forks that smooth each row of one buffer into the other, from this line on.
fn smoothed(alloc: Global, line: u32, size: u64, from: &[u8], to: &[u8]) -> Result<Stmt, NoMemory>
    requires line { line < 2 ^ 16 }
    requires size { size ≤ 1024 }
    requires from { IsName from.now }
    requires to { IsName to.now }
    ensures { IfOk result (λ stmt. stmt ≡ smooth line size from.now to.now) }
{
    let at = first_of(line + 1);
    let args = args_of_rows(alloc, at, from, to)?;
    let inner = one(alloc, fork_of(at, b"k_stencil", None, args))?;
    let (first, end) = (Expr::Num(1), Expr::Num(size + 1));
    Ok(for_each(first_of(line), b"j", first, end, inner))
}

fn stencil(alloc: Global, size: u64) -> Result<Program, NoMemory>
    requires { size ≤ 1024 }
    ensures { IfOk result (λ made. made ≡ stencil_program size) }
{
    let a = range_of(1, b"A", size + 2, 16, true, true);
    let families = two(alloc, a, range_of(2, b"B", size + 2, 16, false, false))?;
    let there = smoothed(alloc, 5, size, b"A", b"B")?;
    let turn = two(alloc, there, smoothed(alloc, 8, size, b"B", b"A")?)?;
    let (from, to) = (Expr::Num(0), Expr::Num(2));
    let body = one(alloc, for_each(first_of(4), b"h", from, to, turn))?;
    program_with(alloc, families, Items::new(alloc), 3, body, 13)
}

/// `R[u] add= Q[i];` in this line.
fn added(alloc: Global, at: Place) -> Result<Stmt, NoMemory>
    ensures { IfOk result (λ stmt. stmt ≡ one_added at) }
{
    let value = Boxed::new(alloc, variable(at, b"i"))?;
    let value = Expr::Elem(Name::new(b"Q"), at, value);
    Ok(Stmt {
        place: at,
        what: What::Fold(Name::new(b"R"), at, variable(at, b"u"), Op::Add, value),
    })
}

/// The loop that adds the elements of an object to each sum behind it.
fn sums_loop(alloc: Global) -> Result<Task, NoMemory>
    ensures { IfOk result (λ task. task ≡ sums) }
{
    let (at, head) = (first_of(3), first_of(4));
    let (t, m) = (param_of(at, b"t", Sort::Int), param_of(at, b"m", Sort::Int));
    let mut params = two(alloc, t, m)?;
    params.push(param_of(at, b"Q", Sort::One(Mode::R)))?;
    params.push(param_of(at, b"R", Sort::One(Mode::Cw(Op::Add))))?;
    let from = binary(alloc, BinOp::Add, variable(head, b"t"), Expr::Num(1))?;
    let inner = one(alloc, added(alloc, first_of(5))?)?;
    let body = one(
        alloc,
        for_each(head, b"u", from, variable(head, b"m"), inner),
    )?;
    Ok(Task {
        name: Name::new(b"sums"),
        place: at,
        index: Some(Index {
            name: Name::new(b"i"),
            place: at,
        }),
        params,
        body,
    })
}

/// The forks that sum the elements of each object.
fn summed(alloc: Global, size: u64) -> Result<Stmt, NoMemory>
    ensures { IfOk result (λ stmt. stmt ≡ sum_all size) }
{
    let at = first_of(10);
    let mut args = two(alloc, bare_name(at, b"t"), numeral(at, size))?;
    args.push(member_at(alloc, at, b"A", variable(at, b"t"))?)?;
    args.push(bare_name(at, b"P"))?;
    let inner = fork_of(at, b"sums", Some(Expr::Num(16)), args);
    for_below(alloc, first_of(9), b"t", size, inner)
}

/// The forks that scan each object.
fn scanned(alloc: Global, size: u64) -> Result<Stmt, NoMemory>
    ensures { IfOk result (λ stmt. stmt ≡ scan_all size) }
{
    let at = first_of(13);
    let mut args = two(alloc, numeral(at, 16), bare_name(at, b"t"))?;
    args.push(bare_name(at, b"P"))?;
    args.push(member_at(alloc, at, b"A", variable(at, b"t"))?)?;
    let inner = fork_of(at, b"k_scan", None, args);
    for_below(alloc, first_of(12), b"t", size, inner)
}

fn scan(alloc: Global, size: u64) -> Result<Program, NoMemory>
    ensures { IfOk result (λ made. made ≡ scan_program size) }
{
    let a = range_of(1, b"A", size, 16, true, true);
    let families = two(alloc, a, object_of(2, b"P", size))?;
    let tasks = one(alloc, sums_loop(alloc)?)?;
    let body = two(alloc, summed(alloc, size)?, scanned(alloc, size)?)?;
    program_with(alloc, families, tasks, 8, body, 16)
}
