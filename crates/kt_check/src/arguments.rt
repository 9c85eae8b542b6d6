// The rules of arguments.

ghost use Rattle.std.specs.Prelude.{◌≡◌, length};
ghost use Rattle.kt_prog.specs.Rules.{rules_of, unknown_name};
ghost use Rattle.kt_prog.specs.Scope.{kind_of};
ghost use Rattle.kt_prog.specs.ForkRules.{wants_other, wants_one, wants_many, one_rule, many_rule, argument_rule};
ghost use Rattle.kt_prog.specs.Refusals.{noted};
ghost use Rattle.kt_prog.specs.declared.programs.Expr.{out-Expr};
ghost use Rattle.kt_check.specs.Sights.{scope_of, wants_span};

use crate::exprs::check_expr;
use crate::late::{is_argument_late, is_late};
use crate::least::{note, note_if};
use crate::names::{Sight, kind_at};
use kt_law::{Mode, P, Place, Refusal, hands_on};
use kt_prog::{Arg, ArgWhat, Expr, Kind, Name, Sort};

/// Notes the name where it isn't in sight.
#[tactic(auto, using(crate::proofs::Passing::denied_late))]
pub fn check_known(sight: &Sight, name: &Name, place: Place, found: &mut Option<Refusal>)
    ensures { found.new ≡ noted found.old
        (unknown_name (kind_of (scope_of sight.now) name.now) place) }
{
    if is_late(found, place) {
        return;
    }
    note_if(found, place, P::P6, kind_at(sight, name).is_none());
}

/// Notes the names of the expression that aren't in sight.
pub fn check_names(sight: &Sight, e: &Expr, found: &mut Option<Refusal>)
    ensures { found.new ≡ noted found.old ((rules_of e.now).unknown (scope_of sight.now)) }
{
    match e {
        Expr::Num(_) => {}
        Expr::Var(name, place) => {
            check_known(sight, name, *place, found);
        }
        Expr::Elem(name, place, at) => {
            check_known(sight, name, *place, found);
            check_names(sight, at.get(), found);
        }
        Expr::Bin(_, a, b) => {
            check_names(sight, a.get(), found);
            check_names(sight, b.get(), found);
        }
    }
}

fn note_other(found: &mut Option<Refusal>, at: Place, kind: Option<Kind>, place: Place)
    ensures { found.new ≡ noted found.old (wants_other at kind place) }
{
    match kind {
        None => note(found, place, P::P6),
        Some(_) => note(found, at, P::P8),
    }
}

fn note_one(found: &mut Option<Refusal>, at: Place, want: Mode, kind: Option<Kind>, place: Place)
    ensures { found.new ≡ noted found.old (wants_one at want kind place) }
{
    match kind {
        None => note(found, place, P::P6),
        Some(Kind::One(have)) => note_if(found, at, P::P9, !hands_on(have, want)),
        Some(_) => note(found, at, P::P8),
    }
}

fn note_many(found: &mut Option<Refusal>, at: Place, want: Mode, kind: Option<Kind>, place: Place)
    ensures { found.new ≡ noted found.old (wants_many at want kind place) }
{
    match kind {
        None => note(found, place, P::P6),
        Some(Kind::Many(have)) => note_if(found, at, P::P9, !hands_on(have, want)),
        Some(_) => note(found, at, P::P8),
    }
}

fn note_span(found: &mut Option<Refusal>, at: Place, sort: Sort, kind: Option<Kind>, place: Place)
    ensures { found.new ≡ noted found.old (wants_span at sort kind place) }
{
    match sort {
        Sort::Int => note_other(found, at, kind, place),
        Sort::One(_) => note_other(found, at, kind, place),
        Sort::Many(want) => note_many(found, at, want, kind, place),
    }
}

fn check_one(sight: &Sight, at: Place, want: Mode, e: &Expr, found: &mut Option<Refusal>)
    ensures { found.new ≡ noted found.old (one_rule at want (scope_of sight.now) (out-Expr e.now)) }
{
    match e {
        Expr::Num(_) => note(found, at, P::P8),
        Expr::Var(name, place) => note_one(found, at, want, kind_at(sight, name), *place),
        Expr::Elem(name, place, i) => {
            note_many(found, at, want, kind_at(sight, name), *place);
            check_expr(sight, i.get(), found);
        }
        Expr::Bin(_, a, b) => {
            note(found, at, P::P8);
            check_names(sight, a.get(), found);
            check_names(sight, b.get(), found);
        }
    }
}

fn check_many(sight: &Sight, at: Place, want: Mode, e: &Expr, found: &mut Option<Refusal>)
    ensures { found.new ≡ noted found.old
        (many_rule at want (scope_of sight.now) (out-Expr e.now)) }
{
    match e {
        Expr::Num(_) => note(found, at, P::P8),
        Expr::Var(name, place) => note_many(found, at, want, kind_at(sight, name), *place),
        Expr::Elem(name, place, i) => {
            note_other(found, at, kind_at(sight, name), *place);
            check_expr(sight, i.get(), found);
        }
        Expr::Bin(_, a, b) => {
            note(found, at, P::P8);
            check_names(sight, a.get(), found);
            check_names(sight, b.get(), found);
        }
    }
}

/// Notes what an argument breaks of the parameter's sort.
#[tactic(auto, using(crate::proofs::Passing::argument_is_late))]
pub fn check_argument(sight: &Sight, sort: Sort, arg: &Arg, found: &mut Option<Refusal>)
    ensures { found.new ≡ noted found.old
        (argument_rule arg.now.place sort (scope_of sight.now) arg.now.what) }
{
    if is_argument_late(found, arg) {
        return;
    }
    match &arg.what {
        ArgWhat::Value(e) => match sort {
            Sort::Int => check_expr(sight, e, found),
            Sort::One(want) => check_one(sight, arg.place, want, e, found),
            Sort::Many(want) => check_many(sight, arg.place, want, e, found),
        },
        ArgWhat::Span(name, place, a, b) => {
            let kind = kind_at(sight, name);
            note_span(found, arg.place, sort, kind, *place);
            check_expr(sight, a, found);
            check_expr(sight, b, found);
        }
    }
}
