// What stands behind the breach that was found. Nothing is looked up for it, since whatever it breaks isn't answered.
ghost use Rattle.std.specs.Prelude.{◌≡◌};
ghost use Rattle.kt_check.specs.Late.{argument_late, arguments_late, expr_late, fork_late, families_from, length_late, place_late, tasks_from};

use crate::least::is_before;
use kt_law::{Place, Refusal};
use kt_prog::{Arg, ArgWhat, Expr, Family, Task};

/// Whether none of the families stands before the place.
pub fn are_families_from(families: &[Family], from: Place) -> bool
    ensures { result ≡ families_from from families.now }
{
    for family in families {
        if is_before(family.place, from) {
            return false;
        }
    }
    true
}

/// Whether none of the tasks and loops does.
pub fn are_tasks_from(tasks: &[Task], from: Place) -> bool
    ensures { result ≡ tasks_from from tasks.now }
{
    for task in tasks {
        if is_before(task.place, from) {
            return false;
        }
    }
    true
}

/// Whether the place stands behind the breach that was found.
pub fn is_late(found: &Option<Refusal>, place: Place) -> bool
    ensures { result ≡ place_late found.now place }
{
    match found {
        None => false,
        Some(least) => is_before(least.place, place),
    }
}

fn is_expr_late(found: &Option<Refusal>, e: &Expr) -> bool
    ensures { result ≡ expr_late found.now e.now }
{
    match e {
        Expr::Num(_) => true,
        Expr::Var(_, place) => is_late(found, *place),
        Expr::Elem(_, place, at) => is_late(found, *place) && is_expr_late(found, at.get()),
        Expr::Bin(_, a, b) => is_expr_late(found, a.get()) && is_expr_late(found, b.get()),
    }
}

fn is_length_late(found: &Option<Refusal>, len: &Option<Expr>) -> bool
    ensures { result ≡ length_late found.now len.now }
{
    match len {
        None => true,
        Some(e) => is_expr_late(found, e),
    }
}

/// Whether the whole argument does.
pub fn is_argument_late(found: &Option<Refusal>, arg: &Arg) -> bool
    ensures { result ≡ argument_late found.now arg.now.place arg.now.what }
{
    match &arg.what {
        ArgWhat::Value(e) => is_late(found, arg.place) && is_expr_late(found, e),
        ArgWhat::Span(_, place, a, b) => {
            is_late(found, arg.place)
                && is_late(found, *place)
                && is_expr_late(found, a)
                && is_expr_late(found, b)
        }
    }
}

fn are_arguments_late(found: &Option<Refusal>, args: &[Arg]) -> bool
    ensures { result ≡ arguments_late found.now args.now }
{
    for arg in args {
        if !is_argument_late(found, arg) {
            return false;
        }
    }
    true
}

/// Whether a fork does from its name on.
pub fn is_fork_late(found: &Option<Refusal>, place: Place, len: &Option<Expr>, args: &[Arg]) -> bool
    ensures { result ≡ fork_late found.now place len.now args.now }
{
    is_late(found, place) && is_length_late(found, len) && are_arguments_late(found, args)
}
