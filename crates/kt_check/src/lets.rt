// Where the `let` statements of a block stand.
ghost use Rattle.std.specs.Prelude.{◌≡◌, ◌<◌, ◌∷◌, ◌++◌, [], drop, false, is_some, length};
ghost use Rattle.kt_prog.specs.Scope.{known_of};
ghost use Rattle.kt_check.specs.Lets.{first_let, is_let_of, lets_at, place_of_let};
ghost use Rattle.kt_prog.specs.declared.programs.What.{out-What};
ghost use Rattle.kt_check.specs.declared.lets.TheConstants.{ROOM};

use kt_law::LOCALS;
use kt_prog::{Kind, Name, Stmt, What};
use std::marker::Model;

/// One more than an accepted program has in sight.
pub const ROOM: usize = LOCALS as usize + 1;

/// Where the `let` statements of a block stand, up to [`ROOM`] of them. It takes no memory.
#[derive(Drop)]
pub struct Lets {
    places: [usize; ROOM],
    len: usize,
}

impl Model for Lets {
    ghost use Rattle.std.specs.Prelude.{ℕ, ◌≤◌, List, take};
    ghost use Rattle.kt_check.specs.declared.lets.TheConstants.{ROOM};

    ghost Value = { List ℕ };

    ghost view = { λ lets. take lets.len lets.places };

    ghost invariant = { λ lets. lets.len ≤ ROOM };
}

impl Lets {
    pub fn new() -> Lets
        ensures { result ≡ [] }
    {
        Lets {
            places: [0; ROOM],
            len: 0,
        }
    }

    /// Whether there is no more room.
    pub fn is_full(&self) -> bool
        ensures { result ≡ false → length self.now < ROOM }
    {
        self.len == ROOM
    }

    /// Notes that this statement stands there, while there is room.
    pub fn keep(&mut self, place: usize, what: &What)
        ensures { length self.new < ROOM
            → self.new ≡ self.old ++ place_of_let place (out-What what.now) }
    {
        if let What::Let(_, _, _) = what {
            self.push(place);
        }
    }

    fn push(&mut self, place: usize)
        ensures { length self.new < ROOM → self.new ≡ self.old ++ place ∷ [] }
    {
        if self.len < ROOM {
            self.places[self.len] = place;
            self.len += 1;
        }
    }

    /// Where they stand.
    pub fn places(&self) -> &[usize]
        ensures { result.now ≡ self.now }
    {
        &self.places[..self.len]
    }
}

/// Whether the statement is a `let` of this name.
pub fn is_let(what: &What, name: &Name) -> bool
    ensures { result ≡ is_let_of (out-What what.now) name.now }
{
    match what {
        What::Let(other, _, _) => other.is(name),
        _ => false,
    }
}

fn is_let_at(stmts: &[Stmt], place: usize, name: &Name) -> bool
    ensures { result ≡ is_some (known_of (first_let (drop place stmts.now)) name.now) }
{
    if place < stmts.len() {
        is_let(&stmts[place].what, name)
    } else {
        false
    }
}

/// What the name is, if one of these statements binds it.
pub fn let_kind_at(stmts: &[Stmt], places: &[usize], name: &Name) -> Option<Kind>
    ensures { result ≡ known_of (lets_at stmts.now places.now) name.now }
{
    for place in places {
        if is_let_at(stmts, *place, name) {
            return Some(Kind::Variable);
        }
    }
    None
}
