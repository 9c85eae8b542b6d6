// The rules of statements.
ghost use Rattle.std.specs.Prelude.{◌≡◌, map};
ghost use Rattle.kt_law.specs.Modes.{may_fold, may_store};
ghost use Rattle.kt_prog.specs.Rules.{element_rule, fold_rule, rules_of, set_rule, store_rule};
ghost use Rattle.kt_prog.specs.StatementRules.{block_rules, rules_of_stmt, rules_of_what};
ghost use Rattle.kt_prog.specs.Scope.{kind_of};
ghost use Rattle.kt_prog.specs.Refusals.{noted};
ghost use Rattle.kt_check.specs.Sights.{scope_of};

use crate::exprs::{check_expr, is_index, is_own};
use crate::forks::check_fork;
use crate::late::is_late;
use crate::least::{note, note_if};
use crate::lets::Lets;
use crate::names::{Names, Sight, check_new_name, kind_at, names_behind};
use kt_law::{Mode, Op, P, Place, Refusal};
use kt_prog::{Expr, Kind, Name, Stmt, What};

fn is_stored(mode: Mode) -> bool
    ensures { result ≡ may_store mode }
{
    matches!(mode, Mode::W | Mode::X)
}

fn is_folded(op: Op, mode: Mode) -> bool
    ensures { result ≡ may_fold op mode }
{
    match mode {
        Mode::Cw(other) => op == other,
        _ => false,
    }
}

fn note_set(found: &mut Option<Refusal>, kind: Option<Kind>, place: Place)
    ensures { found.new ≡ noted found.old (set_rule kind place) }
{
    match kind {
        None => note(found, place, P::P6),
        Some(Kind::Variable) => {}
        Some(_) => note(found, place, P::P8),
    }
}

fn note_fold(found: &mut Option<Refusal>, op: Op, kind: Option<Kind>, place: Place)
    ensures { found.new ≡ noted found.old (element_rule (fold_rule op place) kind place) }
{
    match kind {
        None => note(found, place, P::P6),
        Some(Kind::One(mode)) => note_if(found, place, P::P10, !is_folded(op, mode)),
        Some(_) => note(found, place, P::P8),
    }
}

/// Notes what an assignment breaks of its name's rules.
#[tactic(auto, using(crate::proofs::Passing::set_late))]
fn check_set(sight: &Sight, name: &Name, place: Place, found: &mut Option<Refusal>)
    ensures { found.new ≡ noted found.old (set_rule (kind_of (scope_of sight.now) name.now) place) }
{
    if is_late(found, place) {
        return;
    }
    note_set(found, kind_at(sight, name), place);
}

/// Notes what a cumulation breaks of them.
#[tactic(auto, using(crate::proofs::Passing::fold_late))]
fn check_fold(sight: &Sight, op: Op, name: &Name, place: Place, found: &mut Option<Refusal>)
    ensures { found.new ≡ noted found.old
        (element_rule (fold_rule op place) (kind_of (scope_of sight.now) name.now) place) }
{
    if is_late(found, place) {
        return;
    }
    note_fold(found, op, kind_at(sight, name), place);
}

/// Notes what a write of this element breaks of its name's rules.
#[tactic(auto, using(crate::proofs::Passing::store_late))]
fn check_store(sight: &Sight, name: &Name, place: Place, at: &Expr, found: &mut Option<Refusal>)
    ensures { found.new ≡ noted found.old
        (element_rule (store_rule (scope_of sight.now) (rules_of at.now).bare place)
        (kind_of (scope_of sight.now) name.now) place) }
{
    if is_late(found, place) {
        return;
    }
    let own = is_index(sight, at);
    match kind_at(sight, name) {
        None => note(found, place, P::P6),
        Some(Kind::One(mode)) => {
            note_if(found, place, P::P10, !is_stored(mode));
            note_if(found, place, P::P11, sight.in_loop && is_own(mode) && !own);
        }
        Some(_) => note(found, place, P::P8),
    }
}

/// Notes what a statement breaks.
#[cycle(statements)]
fn check_what(sight: &Sight, at: Place, what: &What, found: &mut Option<Refusal>)
    ensures { found.new ≡ noted found.old
        (rules_of_what what.now at (scope_of sight.now)).breaches }
{
    match what {
        What::Let(name, place, e) => {
            check_new_name(sight, name, *place, found);
            check_expr(sight, e, found);
        }
        What::Set(name, place, e) => {
            check_set(sight, name, *place, found);
            check_expr(sight, e, found);
        }
        What::Store(name, place, i, e) => {
            check_store(sight, name, *place, i, found);
            check_expr(sight, i, found);
            check_expr(sight, e, found);
        }
        What::Fold(name, place, i, op, e) => {
            check_fold(sight, *op, name, *place, found);
            check_expr(sight, i, found);
            check_expr(sight, e, found);
        }
        What::If(test, then_do, else_do) => {
            check_expr(sight, test, found);
            check_block(sight, then_do.as_slice(), found);
            check_block(sight, else_do.as_slice(), found);
        }
        What::For(name, place, a, b, body) => {
            check_new_name(sight, name, *place, found);
            check_expr(sight, a, found);
            check_expr(sight, b, found);
            let inner = Names::Turn(sight.names, name);
            let within = Sight {
                names: &inner,
                ..*sight
            };
            check_block(&within, body.as_slice(), found);
        }
        What::Fork(name, place, len, args) => {
            note_if(found, at, P::P11, sight.in_loop);
            check_fork(sight, name, *place, len, args.as_slice(), found);
        }
    }
}

/// Notes what the statements of a block break, each with what is in sight behind those before it.
#[cycle(statements)]
pub fn check_block(sight: &Sight, stmts: &[Stmt], found: &mut Option<Refusal>)
    ensures { found.new ≡ noted found.old
        (block_rules (map rules_of_stmt stmts.now) (scope_of sight.now)) }
{
    let mut lets = Lets::new();
    for (i, stmt) in stmts.iter().enumerate() {
        let names = names_behind(sight.names, stmts, i, &lets);
        let behind = Sight {
            names: &names,
            ..*sight
        };
        check_what(&behind, stmt.place, &stmt.what, found);
        lets.keep(i, &stmt.what);
    }
}
