// Forks.
ghost use Rattle.std.specs.Prelude.{◌≡◌, ◌≤◌, ◌<◌, ◌+◌, ◌^◌, ◌∷◌, [], IfOk};
ghost use Rattle.kt_law.specs.declared.limits.TheConstants.{OBJECTS};
ghost use Rattle.kt_prog.specs.Forks.{argument, arguments, fork_named, fork_step, length_step, nothing_given, number_of, object_of, object_step, range_of, range_step};
ghost use Rattle.kt_prog.specs.Objects.{objects_of};
ghost use Rattle.kt_prog.specs.Script.{give};
ghost use Rattle.kt_prog.specs.Statements.{view};
ghost use Rattle.kt_prog.specs.Targets.{target_of};
ghost use Rattle.kt_prog.specs.declared.programs.Expr.{out-Expr};
ghost use Rattle.kt_body.specs.Forking.{Grows, HasRoom, target_in};
ghost use Rattle.kt_body.specs.Moves.{Can, Ran, RanTo};
ghost use Rattle.kt_body.specs.Scenes.{site_in};

use crate::eval::eval;
use crate::lookups::{Members, nowhere, object_at, range_at};
use crate::ops::{Early, Ops, Went};
use crate::passed::{Passed, clash_among, member, members};
use crate::scene::Scene;
use crate::targets::{Target, number_of, sort_at, target_at};
use crate::walk::Walk;
use kt_law::{DEPTH, F, LENGTH};
use kt_prog::{Arg, ArgWhat, Call, Expr, Name, Sort};

fn length_of<O: Ops>(
    scene: &Scene,
    walk: &Walk,
    line: u32,
    len: &Option<Expr>,
    ops: &mut O,
) -> Result<u32, Early>
    requires { Can O.at O.goes O.halted scene.now.program.now ops.old
        (length_step (λ w. w) len.now (view (site_in scene.now) walk.now line)) }
    ensures { Ran O.at O.goes O.halted ops.old
        (length_step (λ w. w) len.now (view (site_in scene.now) walk.now line)) ops.new result }
{
    match len {
        None => Ok(0),
        Some(e) => {
            let n = eval(scene, walk, line, e, ops)?;
            if n > u64::from(LENGTH) {
                return Err(Early::Fault(F::F7, line));
            }
            Ok(n as u32)
        }
    }
}

fn number_arg<O: Ops>(
    scene: &Scene,
    walk: &Walk,
    line: u32,
    what: &ArgWhat,
    ops: &mut O,
) -> Result<u64, Early>
    requires { Can O.at O.goes O.halted scene.now.program.now ops.old
        (number_of (λ w. w) what.now (view (site_in scene.now) walk.now line)) }
    ensures { Ran O.at O.goes O.halted ops.old
        (number_of (λ w. w) what.now (view (site_in scene.now) walk.now line)) ops.new result }
{
    match what {
        ArgWhat::Value(e) => eval(scene, walk, line, e, ops),
        ArgWhat::Span(_, _, _, _) => Ok(0),
    }
}

fn object_expr<O: Ops>(
    scene: &Scene,
    walk: &Walk,
    line: u32,
    e: &Expr,
    ops: &mut O,
) -> Result<u32, Early>
    requires { Can O.at O.goes O.halted scene.now.program.now ops.old
        (object_step (λ w. w) (out-Expr e.now) (view (site_in scene.now) walk.now line)) }
    ensures value { Ran O.at O.goes O.halted ops.old
        (object_step (λ w. w) (out-Expr e.now) (view (site_in scene.now) walk.now line))
        ops.new result }
    ensures small { IfOk result (λ o. o + 1 < 2 ^ 32) }
{
    match e {
        Expr::Num(_) => Ok(0),
        Expr::Var(name, _) => Ok(object_at(scene, walk, name)),
        Expr::Elem(name, _, at) => {
            let range = range_at(scene, walk, name);
            let i = eval(scene, walk, line, at.get(), ops)?;
            member(&range, i, line)
        }
        Expr::Bin(_, _, _) => Ok(0),
    }
}

fn object_arg<O: Ops>(
    scene: &Scene,
    walk: &Walk,
    line: u32,
    what: &ArgWhat,
    ops: &mut O,
) -> Result<u32, Early>
    requires { Can O.at O.goes O.halted scene.now.program.now ops.old
        (object_of (λ w. w) what.now (view (site_in scene.now) walk.now line)) }
    ensures value { Ran O.at O.goes O.halted ops.old
        (object_of (λ w. w) what.now (view (site_in scene.now) walk.now line)) ops.new result }
    ensures small { IfOk result (λ o. o + 1 < 2 ^ 32) }
{
    match what {
        ArgWhat::Value(e) => object_expr(scene, walk, line, e, ops),
        ArgWhat::Span(_, _, _, _) => Ok(0),
    }
}

fn range_expr(scene: &Scene, walk: &Walk, line: u32, e: &Expr) -> Members
    requires { objects_of scene.now.program.now.families ≤ OBJECTS }
    ensures { range_step (λ w. w) (out-Expr e.now) (view (site_in scene.now) walk.now line)
        ≡ give result }
{
    match e {
        Expr::Num(_) => nowhere(),
        Expr::Var(name, _) => range_at(scene, walk, name),
        Expr::Elem(_, _, _) => nowhere(),
        Expr::Bin(_, _, _) => nowhere(),
    }
}

fn range_arg<O: Ops>(
    scene: &Scene,
    walk: &Walk,
    line: u32,
    what: &ArgWhat,
    ops: &mut O,
) -> Result<Members, Early>
    requires { Can O.at O.goes O.halted scene.now.program.now ops.old
        (range_of (λ w. w) what.now (view (site_in scene.now) walk.now line)) }
    ensures { Ran O.at O.goes O.halted ops.old
        (range_of (λ w. w) what.now (view (site_in scene.now) walk.now line)) ops.new result }
{
    match what {
        ArgWhat::Value(e) => Ok(range_expr(scene, walk, line, e)),
        ArgWhat::Span(name, _, a, b) => {
            let range = range_at(scene, walk, name);
            let from = eval(scene, walk, line, a, ops)?;
            let to = eval(scene, walk, line, b, ops)?;
            members(&range, from, to, line)
        }
    }
}

fn pass<O: Ops>(
    scene: &Scene,
    walk: &Walk,
    line: u32,
    sort: Sort,
    arg: &Arg,
    passed: &mut Passed,
    ops: &mut O,
) -> Result<(), Early>
    requires can { Can O.at O.goes O.halted scene.now.program.now ops.old
        (argument (λ w. w) sort arg.now (view (site_in scene.now) walk.now line) passed.old) }
    requires room { HasRoom passed.old (sort ∷ []) }
    ensures grown { Grows sort passed.old passed.new }
    ensures ran { RanTo O.at O.goes O.halted ops.old
        (argument (λ w. w) sort arg.now (view (site_in scene.now) walk.now line) passed.old)
        ops.new passed.new result }
{
    match sort {
        Sort::Int => {
            let n = number_arg(scene, walk, line, &arg.what, ops)?;
            passed.add_int(n);
            Ok(())
        }
        Sort::One(mode) => {
            let object = object_arg(scene, walk, line, &arg.what, ops)?;
            passed.add_access(object, object + 1, mode);
            Ok(())
        }
        Sort::Many(mode) => {
            let range = range_arg(scene, walk, line, &arg.what, ops)?;
            passed.add_access(range.lo, range.hi, mode);
            Ok(())
        }
    }
}

fn pass_all<O: Ops>(
    scene: &Scene,
    walk: &Walk,
    line: u32,
    target: &Target,
    args: &[Arg],
    ops: &mut O,
) -> Result<Passed, Early>
    requires can { Can O.at O.goes O.halted scene.now.program.now ops.old
        (arguments (λ w. w) (target_in target.now).sorts args.now
        (view (site_in scene.now) walk.now line) nothing_given) }
    requires room { HasRoom nothing_given (target_in target.now).sorts }
    ensures { Ran O.at O.goes O.halted ops.old
        (arguments (λ w. w) (target_in target.now).sorts args.now
        (view (site_in scene.now) walk.now line) nothing_given) ops.new result }
{
    let mut passed = Passed::nothing();
    for i in 0..args.len() {
        match sort_at(target, i) {
            None => return Ok(passed),
            Some(sort) => pass(scene, walk, line, sort, &args[i], &mut passed, ops)?,
        }
    }
    Ok(passed)
}

fn fork_target<O: Ops>(
    scene: &Scene,
    walk: &Walk,
    line: u32,
    target: &Target,
    len: &Option<Expr>,
    args: &[Arg],
    ops: &mut O,
) -> Result<(), Early>
    requires can { Can O.at O.goes O.halted scene.now.program.now ops.old
        (fork_step (λ w. w) (target_in target.now) len.now args.now
        (view (site_in scene.now) walk.now line)) }
    requires room { HasRoom nothing_given (target_in target.now).sorts }
    ensures { Ran O.at O.goes O.halted ops.old
        (fork_step (λ w. w) (target_in target.now) len.now args.now
        (view (site_in scene.now) walk.now line)) ops.new result }
{
    let length = length_of(scene, walk, line, len, ops)?;
    let passed = pass_all(scene, walk, line, target, args, ops)?;
    let Passed { ints, accesses } = passed;
    if clash_among(accesses.as_slice()) {
        return Err(Early::Fault(F::F4, line));
    }
    if scene.depth >= DEPTH {
        return Err(Early::Fault(F::F5, line));
    }
    let child = Call {
        task: number_of(target),
        depth: scene.depth + 1,
        length,
        ints,
        accesses,
    };
    match ops.fork(&child) {
        Went::Went => Ok(()),
        Went::Halt => Err(Early::Halted),
    }
}

/// A fork: its length and its arguments with their tests, and the call.
pub fn fork<O: Ops>(
    scene: &Scene,
    walk: &Walk,
    line: u32,
    name: &Name,
    len: &Option<Expr>,
    args: &[Arg],
    ops: &mut O,
) -> Result<(), Early>
    requires { Can O.at O.goes O.halted scene.now.program.now ops.old
        (fork_named (λ w. w) (target_of scene.now.program.now.tasks name.now) len.now args.now
        (view (site_in scene.now) walk.now line)) }
    ensures { Ran O.at O.goes O.halted ops.old
        (fork_named (λ w. w) (target_of scene.now.program.now.tasks name.now) len.now args.now
        (view (site_in scene.now) walk.now line)) ops.new result }
{
    match target_at(scene.program.program(), name) {
        None => Ok(()),
        Some(target) => fork_target(scene, walk, line, &target, len, args, ops),
    }
}
