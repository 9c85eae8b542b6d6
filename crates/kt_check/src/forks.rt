// The rules of forks.
ghost use Rattle.std.specs.Prelude.{◌≡◌, length, map, nat_eq, true, Some};
ghost use Rattle.kt_prog.specs.ForkRules.{argument_rules, fork_rule, is_formed, length_rule, unknown_in_all, unknown_in_argument};
ghost use Rattle.kt_prog.specs.Targets.{is_loop_of, kernel, target, target_of, task_named};
ghost use Rattle.kt_prog.specs.Refusals.{noted};
ghost use Rattle.kt_check.specs.Sights.{scope_of, sort_of};

use crate::arguments::{check_argument, check_known, check_names};
use crate::exprs::check_expr;
use crate::late::is_fork_late;
use crate::least::{note, note_if};
use crate::names::Sight;
use kt_law::{P, Place, Refusal};
use kt_prog::{Arg, ArgWhat, Expr, Index, Kernel, Name, Param, Sort, Task};

fn check_length(sight: &Sight, len: &Option<Expr>, found: &mut Option<Refusal>)
    ensures { found.new ≡ noted found.old (length_rule (scope_of sight.now) len.now) }
{
    match len {
        None => {}
        Some(e) => check_expr(sight, e, found),
    }
}

#[tactic(auto, using(crate::proofs::Noted::noted_append))]
fn check_names_in(sight: &Sight, what: &ArgWhat, found: &mut Option<Refusal>)
    ensures { found.new ≡ noted found.old (unknown_in_argument (scope_of sight.now) what.now) }
{
    match what {
        ArgWhat::Value(e) => check_names(sight, e, found),
        ArgWhat::Span(name, place, a, b) => {
            check_known(sight, name, *place, found);
            check_names(sight, a, found);
            check_names(sight, b, found);
        }
    }
}

fn check_all_names(sight: &Sight, args: &[Arg], found: &mut Option<Refusal>)
    ensures { found.new ≡ noted found.old (unknown_in_all (scope_of sight.now) args.now) }
{
    for arg in args {
        check_names_in(sight, &arg.what, found);
    }
}

fn check_sorts(sight: &Sight, sorts: &[Sort], args: &[Arg], found: &mut Option<Refusal>)
    requires { length args.now ≡ length sorts.now }
    ensures { found.new ≡ noted found.old (argument_rules sorts.now (scope_of sight.now) args.now) }
{
    for (i, arg) in args.iter().enumerate() {
        check_argument(sight, sorts[i], arg, found);
    }
}

fn check_given(sight: &Sight, params: &[Param], args: &[Arg], found: &mut Option<Refusal>)
    requires { length args.now ≡ length params.now }
    ensures { found.new ≡ noted found.old
        (argument_rules (map sort_of params.now) (scope_of sight.now) args.now) }
{
    for (i, arg) in args.iter().enumerate() {
        let param = &params[i];
        check_argument(sight, param.sort, arg, found);
    }
}

fn is_well_formed(index: &Option<Index>, len: &Option<Expr>) -> bool
    ensures { result ≡ is_formed (is_loop_of index.now) len.now }
{
    match index {
        None => len.is_none(),
        Some(_) => len.is_some(),
    }
}

#[tactic(auto, using(crate::proofs::Noted::noted_append))]
fn check_kernel(
    sight: &Sight,
    sorts: &[Sort],
    place: Place,
    len: &Option<Expr>,
    args: &[Arg],
    found: &mut Option<Refusal>,
)
    ensures { found.new ≡ noted found.old
        (fork_rule (Some (kernel 0 sorts.now)) place (scope_of sight.now) len.now args.now) }
{
    let counted = args.len() == sorts.len();
    let formed = len.is_none();
    note_if(found, place, P::P7, !counted);
    note_if(found, place, P::P8, !formed);
    check_length(sight, len, found);
    if counted && formed {
        check_sorts(sight, sorts, args, found);
    } else {
        check_all_names(sight, args, found);
    }
}

#[tactic(auto, using(crate::proofs::Noting::sorts_length))]
fn is_counted(task: &Task, args: &[Arg]) -> bool
    ensures exact { result ≡ nat_eq (length args.now) (length (target 0 task.now).sorts) }
    ensures same { result ≡ true → length args.now ≡ length task.now.params }
{
    args.len() == task.params.len()
}

#[tactic(auto, using(crate::proofs::Noted::noted_append))]
fn check_task(
    sight: &Sight,
    task: &Task,
    place: Place,
    len: &Option<Expr>,
    args: &[Arg],
    found: &mut Option<Refusal>,
)
    ensures { found.new ≡ noted found.old
        (fork_rule (Some (target 0 task.now)) place (scope_of sight.now) len.now args.now) }
{
    let params = task.params.as_slice();
    let counted = is_counted(task, args);
    let formed = is_well_formed(&task.index, len);
    note_if(found, place, P::P7, !counted);
    note_if(found, place, P::P8, !formed);
    check_length(sight, len, found);
    if counted && formed {
        check_given(sight, params, args, found);
    } else {
        check_all_names(sight, args, found);
    }
}

#[tactic(auto, using(crate::proofs::Passing::fork_is_late))]
fn check_named(
    sight: &Sight,
    name: &Name,
    place: Place,
    len: &Option<Expr>,
    args: &[Arg],
    found: &mut Option<Refusal>,
)
    ensures { found.new ≡ noted found.old
        (fork_rule (task_named 1 sight.now.program.now.tasks name.now) place
        (scope_of sight.now) len.now args.now) }
{
    if is_fork_late(found, place, len, args) {
        return;
    }
    let tasks = sight.program.tasks();
    let at = sight.program.task_at(name);
    if at < tasks.len() {
        return check_task(sight, &tasks[at], place, len, args, found);
    }
    note(found, place, P::P6);
    check_length(sight, len, found);
    check_all_names(sight, args, found);
}

/// Notes what a fork breaks, but for its place in a loop.
#[tactic(auto, using(crate::proofs::Noting::kernel_forked, crate::proofs::Noting::task_forked))]
pub fn check_fork(
    sight: &Sight,
    name: &Name,
    place: Place,
    len: &Option<Expr>,
    args: &[Arg],
    found: &mut Option<Refusal>,
)
    ensures { found.new ≡ noted found.old
        (fork_rule (target_of sight.now.program.now.tasks name.now) place
        (scope_of sight.now) len.now args.now) }
{
    match Kernel::named(name) {
        Some(kernel) => check_kernel(sight, kernel.sorts(), place, len, args, found),
        None => check_named(sight, name, place, len, args, found),
    }
}
