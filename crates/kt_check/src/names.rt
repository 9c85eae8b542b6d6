// The names in sight.
ghost use Rattle.std.specs.Prelude.{◌≡◌, ◌+◌, ◌++◌, ◌-◌, ◌<◌, ◌≤◌, [], ◌∷◌, length, map, take};
ghost use Rattle.kt_law.specs.declared.limits.TheConstants.{LOCALS};
ghost use Rattle.kt_prog.specs.Scope.{kind_of, kind_sort, known_of, known_param};
ghost use Rattle.kt_prog.specs.Rules.{new_name};
ghost use Rattle.kt_prog.specs.Refusals.{noted};
ghost use Rattle.kt_check.specs.Sights.{kind_index, lets_in, names_in, scope_of};
ghost use Rattle.kt_check.specs.Lets.{let_names, lets_at};
ghost use Rattle.kt_check.specs.declared.lets.TheConstants.{ROOM};
ghost use Rattle.kt_prog.specs.declared.programs.What.{out-What};
ghost use Rattle.kt_prog.specs.declared.sight.Kind.TheVariants.{Number};

use crate::directories::Directory;
use crate::late::is_late;
use crate::least::note_if;
use crate::lets::{Lets, is_let, let_kind_at};
use kt_law::{LOCALS, P, Place, Refusal};
use kt_prog::{Index, Kind, Name, Param, Sort, Stmt, Task, What};

/// The names of a body that are in sight. They take no memory: each is read where the text binds it.
#[derive(Clone, Copy)]
pub enum Names<'a> {
    /// None, as where `main` begins.
    Nothing,
    /// The index and the parameters of a task or loop.
    Head(&'a Task),
    /// With the `let` names of these statements, which stand at these places.
    Lets(&'a Names<'a>, &'a [Stmt], &'a [usize]),
    /// With the `let` names of these statements, which begin a block.
    Block(&'a Names<'a>, &'a [Stmt]),
    /// With a `for` name.
    Turn(&'a Names<'a>, &'a Name),
}

/// What is in sight behind so many statements of a block. Without room for their `let` names these are looked up in the
/// statements, which takes long; but then there are too many of them.
pub fn names_behind<'a>(
    outer: &'a Names<'a>,
    stmts: &'a [Stmt],
    count: usize,
    lets: &'a Lets,
) -> Names<'a>
    requires count { count ≤ length stmts.now }
    requires lets { length lets.now < ROOM
        → lets_at stmts.now lets.now ≡ let_names (take count stmts.now) }
    requires all { length lets.now < ROOM
        → length lets.now ≡ length (let_names (take count stmts.now)) }
    ensures names { names_in result ≡ names_in outer.now ++ let_names (take count stmts.now) }
    ensures lets { lets_in result ≡ lets_in outer.now + length (let_names (take count stmts.now)) }
{
    if lets.is_full() {
        Names::Block(outer, &stmts[..count])
    } else {
        Names::Lets(outer, stmts, lets.places())
    }
}

/// What is in sight at a place of a body.
#[derive(Clone, Copy)]
pub struct Sight<'a, 'p> {
    pub program: &'a Directory<'p>,
    pub in_main: bool,
    pub in_loop: bool,
    pub names: &'a Names<'a>,
}

pub fn index_kind(index: &Option<Index>, name: &Name) -> Option<Kind>
    ensures { result ≡ kind_index index.now name.now }
{
    match index {
        Some(index) if index.name.is(name) => Some(Kind::Index),
        _ => None,
    }
}

fn sort_kind(sort: Sort) -> Kind
    ensures { result ≡ kind_sort sort }
{
    match sort {
        Sort::Int => Kind::Number,
        Sort::One(mode) => Kind::One(mode),
        Sort::Many(mode) => Kind::Many(mode),
    }
}

pub fn param_kind(params: &[Param], name: &Name) -> Option<Kind>
    ensures { result ≡ known_of (map known_param params.now) name.now }
{
    for param in params {
        if param.name.is(name) {
            return Some(sort_kind(param.sort));
        }
    }
    None
}

fn let_kind(stmts: &[Stmt], name: &Name) -> Option<Kind>
    ensures { result ≡ known_of (let_names stmts.now) name.now }
{
    for stmt in stmts {
        if is_let(&stmt.what, name) {
            return Some(Kind::Variable);
        }
    }
    None
}

fn turn_kind(turn: &Name, name: &Name) -> Option<Kind>
    ensures { result ≡ known_of (record { name = turn.now; kind = Number } ∷ []) name.now }
{
    if turn.is(name) {
        Some(Kind::Number)
    } else {
        None
    }
}

fn known_kind(names: &Names, name: &Name) -> Option<Kind>
    ensures { result ≡ known_of (names_in names.now) name.now }
{
    match names {
        Names::Nothing => None,
        Names::Head(task) => match index_kind(&task.index, name) {
            Some(kind) => Some(kind),
            None => param_kind(task.params.as_slice(), name),
        },
        Names::Lets(outer, stmts, places) => match known_kind(outer, name) {
            Some(kind) => Some(kind),
            None => let_kind_at(stmts, places, name),
        },
        Names::Block(outer, stmts) => match known_kind(outer, name) {
            Some(kind) => Some(kind),
            None => let_kind(stmts, name),
        },
        Names::Turn(outer, other) => match known_kind(outer, name) {
            Some(kind) => Some(kind),
            None => turn_kind(other, name),
        },
    }
}

/// What the name is, if it is in sight.
pub fn kind_at(sight: &Sight, name: &Name) -> Option<Kind>
    ensures { result ≡ kind_of (scope_of sight.now) name.now }
{
    match known_kind(sight.names, name) {
        Some(kind) => Some(kind),
        None => {
            if sight.in_main {
                sight.program.family_kind(name)
            } else {
                None
            }
        }
    }
}

fn room_behind(room: usize, stmts: &[Stmt]) -> usize
    ensures { result ≡ room - length (let_names stmts.now) }
{
    let mut left = room;
    for stmt in stmts {
        if let What::Let(_, _, _) = &stmt.what {
            left = left.saturating_sub(1);
        }
    }
    left
}

fn lets_left(room: usize, places: &[usize]) -> usize
    ensures { result ≡ room - length places.now }
{
    room.saturating_sub(places.len())
}

/// How many more `let` and `for` names may be visible.
fn room(names: &Names) -> usize
    ensures { result ≡ LOCALS - lets_in names.now }
{
    match names {
        Names::Nothing => LOCALS as usize,
        Names::Head(_) => LOCALS as usize,
        Names::Lets(outer, _, places) => lets_left(room(outer), places),
        Names::Block(outer, stmts) => room_behind(room(outer), stmts),
        Names::Turn(outer, _) => room(outer).saturating_sub(1),
    }
}

/// Notes what a `let` or `for` name breaks.
#[tactic(auto, using(crate::proofs::Passing::new_late))]
pub fn check_new_name(sight: &Sight, name: &Name, place: Place, found: &mut Option<Refusal>)
    ensures { found.new ≡ noted found.old (new_name (scope_of sight.now) name.now place) }
{
    if is_late(found, place) {
        return;
    }
    note_if(found, place, P::P5, kind_at(sight, name).is_some());
    note_if(found, place, P::P12, room(sight.names) == 0);
}
