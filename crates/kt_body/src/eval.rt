// The values of expressions.
ghost use Rattle.kt_prog.specs.Statements.{view};
ghost use Rattle.kt_prog.specs.Values.{value_of};
ghost use Rattle.kt_body.specs.Moves.{Can, Ran};
ghost use Rattle.kt_body.specs.Scenes.{site_in};

use crate::lookups::{number_at, object_at};
use crate::ops::{Early, Ops};
use crate::scene::Scene;
use crate::walk::Walk;
use crate::writes::load_element;
use kt_law::{F, apply};
use kt_prog::Expr;

/// The value of an expression in a statement of this line.
pub fn eval<O: Ops>(
    scene: &Scene,
    walk: &Walk,
    line: u32,
    e: &Expr,
    ops: &mut O,
) -> Result<u64, Early>
    requires { Can O.at O.goes O.halted scene.now.program.now ops.old
        (value_of (λ w. w) e.now (view (site_in scene.now) walk.now line)) }
    ensures { Ran O.at O.goes O.halted ops.old
        (value_of (λ w. w) e.now (view (site_in scene.now) walk.now line)) ops.new result }
{
    match e {
        Expr::Num(n) => Ok(*n),
        Expr::Var(name, _) => Ok(number_at(scene, walk, name)),
        Expr::Elem(name, _, at) => {
            let object = object_at(scene, walk, name);
            let i = eval(scene, walk, line, at.get(), ops)?;
            load_element(scene.program, line, object, i, ops)
        }
        Expr::Bin(op, a, b) => {
            let x = eval(scene, walk, line, a.get(), ops)?;
            let y = eval(scene, walk, line, b.get(), ops)?;
            match apply(*op, x, y) {
                Some(v) => Ok(v),
                None => Err(Early::Fault(F::F1, line)),
            }
        }
    }
}
