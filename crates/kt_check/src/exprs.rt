// The rules of expressions.

ghost use Rattle.std.specs.Prelude.{◌≡◌};
ghost use Rattle.kt_law.specs.Modes.{may_load, is_owned};
ghost use Rattle.kt_prog.specs.Rules.{rules_of, number_rule, element_rule, at_index, load_rule};
ghost use Rattle.kt_prog.specs.Scope.{kind_of};
ghost use Rattle.kt_prog.specs.Refusals.{noted};
ghost use Rattle.kt_check.specs.Sights.{scope_of};

use crate::late::is_late;
use crate::least::{note, note_if};
use crate::names::{Sight, kind_at};
use kt_law::{Mode, P, Place, Refusal};
use kt_prog::{Expr, Kind, Name};

fn is_loaded(mode: Mode) -> bool
    ensures { result ≡ may_load mode }
{
    matches!(mode, Mode::R | Mode::X)
}

pub fn is_own(mode: Mode) -> bool
    ensures { result ≡ is_owned mode }
{
    matches!(mode, Mode::W | Mode::X)
}

/// Whether the expression is the bare name of the index.
pub fn is_index(sight: &Sight, e: &Expr) -> bool
    ensures { result ≡ at_index (scope_of sight.now) (rules_of e.now).bare }
{
    match e {
        Expr::Var(name, _) => match kind_at(sight, name) {
            Some(Kind::Index) => true,
            _ => false,
        },
        _ => false,
    }
}

fn note_number(found: &mut Option<Refusal>, kind: Option<Kind>, place: Place)
    ensures { found.new ≡ noted found.old (number_rule kind place) }
{
    match kind {
        None => note(found, place, P::P6),
        Some(Kind::One(_)) => note(found, place, P::P8),
        Some(Kind::Many(_)) => note(found, place, P::P8),
        Some(_) => {}
    }
}

#[tactic(auto, using(crate::proofs::Passing::number_late))]
fn check_number(sight: &Sight, name: &Name, place: Place, found: &mut Option<Refusal>)
    ensures { found.new ≡ noted found.old
        (number_rule (kind_of (scope_of sight.now) name.now) place) }
{
    if is_late(found, place) {
        return;
    }
    note_number(found, kind_at(sight, name), place);
}

/// Notes what a load of this element breaks of its name's rules.
#[tactic(auto, using(crate::proofs::Passing::load_late))]
fn check_load(sight: &Sight, name: &Name, place: Place, at: &Expr, found: &mut Option<Refusal>)
    ensures { found.new ≡ noted found.old
        (element_rule (load_rule (scope_of sight.now) (rules_of at.now).bare place)
        (kind_of (scope_of sight.now) name.now) place) }
{
    if is_late(found, place) {
        return;
    }
    let own = is_index(sight, at);
    match kind_at(sight, name) {
        None => note(found, place, P::P6),
        Some(Kind::One(mode)) => {
            note_if(found, place, P::P10, !is_loaded(mode));
            note_if(found, place, P::P11, sight.in_loop && is_own(mode) && !own);
        }
        Some(_) => note(found, place, P::P8),
    }
}

/// Notes what the expression breaks.
pub fn check_expr(sight: &Sight, e: &Expr, found: &mut Option<Refusal>)
    ensures { found.new ≡ noted found.old ((rules_of e.now).breaches (scope_of sight.now)) }
{
    match e {
        Expr::Num(_) => {}
        Expr::Var(name, place) => check_number(sight, name, *place, found),
        Expr::Elem(name, place, at) => {
            check_load(sight, name, *place, at.get(), found);
            check_expr(sight, at.get(), found);
        }
        Expr::Bin(_, a, b) => {
            check_expr(sight, a.get(), found);
            check_expr(sight, b.get(), found);
        }
    }
}
