// Statements.
ghost use Rattle.std.specs.Prelude.{map};
ghost use Rattle.kt_prog.specs.Statements.{block, stmt_of, view};
ghost use Rattle.kt_body.specs.Moves.{Can, Ran, RanTo};
ghost use Rattle.kt_body.specs.Scenes.{bound_to, changed, site_in, written};

use crate::eval::eval;
use crate::forks::fork;
use crate::lookups::object_at;
use crate::ops::{Early, Ops};
use crate::scene::Scene;
use crate::walk::Walk;
use crate::writes::{Write, write_element};
use kt_prog::{Expr, Name, Stmt, What};

fn bind<'a, O: Ops>(
    scene: &Scene,
    walk: &mut Walk<'a>,
    line: u32,
    name: &'a Name,
    e: &Expr,
    ops: &mut O,
) -> Result<(), Early>
    requires { Can O.at O.goes O.halted scene.now.program.now ops.old
        (bound_to name.now e.now line (site_in scene.now) walk.old) }
    ensures { RanTo O.at O.goes O.halted ops.old
        (bound_to name.now e.now line (site_in scene.now) walk.old) ops.new walk.new result }
{
    let n = eval(scene, walk, line, e, ops)?;
    walk.add(name, n);
    Ok(())
}

fn change<O: Ops>(
    scene: &Scene,
    walk: &mut Walk,
    line: u32,
    name: &Name,
    e: &Expr,
    ops: &mut O,
) -> Result<(), Early>
    requires { Can O.at O.goes O.halted scene.now.program.now ops.old
        (changed name.now e.now line (site_in scene.now) walk.old) }
    ensures { RanTo O.at O.goes O.halted ops.old
        (changed name.now e.now line (site_in scene.now) walk.old) ops.new walk.new result }
{
    let n = eval(scene, walk, line, e, ops)?;
    walk.set(name, n);
    Ok(())
}

fn write<O: Ops>(
    scene: &Scene,
    walk: &Walk,
    line: u32,
    write: Write,
    name: &Name,
    at: &Expr,
    e: &Expr,
    ops: &mut O,
) -> Result<(), Early>
    requires { Can O.at O.goes O.halted scene.now.program.now ops.old
        (written write name.now at.now e.now (view (site_in scene.now) walk.now line)) }
    ensures { Ran O.at O.goes O.halted ops.old
        (written write name.now at.now e.now (view (site_in scene.now) walk.now line))
        ops.new result }
{
    let object = object_at(scene, walk, name);
    let i = eval(scene, walk, line, at, ops)?;
    let n = eval(scene, walk, line, e, ops)?;
    write_element(scene.program, line, write, object, i, n, ops)
}

/// The statements of a block, one after another.
#[cycle(exec)]
pub fn exec_all<'a, O: Ops>(
    scene: &Scene,
    walk: &mut Walk<'a>,
    stmts: &'a [Stmt],
    ops: &mut O,
) -> Result<(), Early>
    requires { Can O.at O.goes O.halted scene.now.program.now ops.old
        (block (map (stmt_of (λ w. w)) stmts.now) (site_in scene.now) walk.old) }
    ensures { RanTo O.at O.goes O.halted ops.old
        (block (map (stmt_of (λ w. w)) stmts.now) (site_in scene.now) walk.old) ops.new walk.new
        result }
{
    for stmt in stmts {
        exec(scene, walk, stmt, ops)?;
    }
    Ok(())
}

#[cycle(exec)]
fn exec<'a, O: Ops>(
    scene: &Scene,
    walk: &mut Walk<'a>,
    stmt: &'a Stmt,
    ops: &mut O,
) -> Result<(), Early>
    requires { Can O.at O.goes O.halted scene.now.program.now ops.old
        (stmt_of (λ w. w) stmt.now (site_in scene.now) walk.old) }
    ensures { RanTo O.at O.goes O.halted ops.old
        (stmt_of (λ w. w) stmt.now (site_in scene.now) walk.old) ops.new walk.new result }
{
    let line = stmt.place.line;
    walk.begin(line)?;
    match &stmt.what {
        What::Let(name, _, e) => bind(scene, walk, line, name, e, ops),
        What::Set(name, _, e) => change(scene, walk, line, name, e, ops),
        What::Store(name, _, at, e) => write(scene, walk, line, Write::Store, name, at, e, ops),
        What::Fold(name, _, at, op, e) => {
            write(scene, walk, line, Write::Fold(*op), name, at, e, ops)
        }
        What::If(test, then_do, else_do) => {
            let n = eval(scene, walk, line, test, ops)?;
            let len = walk.len();
            if n == 0 {
                exec_all(scene, walk, else_do.as_slice(), ops)?;
            } else {
                exec_all(scene, walk, then_do.as_slice(), ops)?;
            }
            walk.cut(len);
            Ok(())
        }
        What::For(name, _, a, b, body) => {
            let from = eval(scene, walk, line, a, ops)?;
            let to = eval(scene, walk, line, b, ops)?;
            let len = walk.len();
            let mut value = from;
            while value < to {
                walk.begin(line)?;
                walk.add(name, value);
                exec_all(scene, walk, body.as_slice(), ops)?;
                walk.cut(len);
                value += 1;
            }
            Ok(())
        }
        What::Fork(name, _, len, args) => {
            fork(scene, walk, line, name, len, args.as_slice(), ops)
        }
    }
}
