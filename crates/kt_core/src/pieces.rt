// The pieces of a loop's indexes that are not taken.
ghost use Rattle.std.specs.Prelude.{◌≡◌, ◌+◌, ◌^◌, ◌<◌, IfErr, IfOk, length, true};
ghost use Rattle.kt_order.specs.Books.{cut, is_inside, take};
ghost use Rattle.kt_core.specs.Pieces.{begins_at, place_from, place_inside};
ghost use Rattle.kt_tables.specs.LoopRows.{can_take, has_inside};

use kt_law::NoMemory;
use std::marker::Model;

/// The indexes from one up to another, which is not among them.
#[derive(Drop)]
pub struct Piece {
    from: u32,
    to: u32,
}

impl Model for Piece {
    ghost use Rattle.kt_order.specs.Books as books;

    ghost Value = { books.Piece };

    ghost view = { λ s. record { from = s.from; to = s.to } };
}

impl Piece {
    /// The first indexes of a loop, so many.
    pub fn of_first(length: u32) -> Piece
        ensures { result ≡ record { from = 0; to = length } }
    {
        Piece {
            from: 0,
            to: length,
        }
    }

    fn has_inside(&self, at: u32) -> bool
        ensures { result ≡ is_inside at self.now }
    {
        self.from < at && at < self.to
    }

    /// The first index.
    pub fn from(&self) -> u32
        ensures { result ≡ self.now.from }
    {
        self.from
    }

    /// The index behind the last one.
    pub fn to(&self) -> u32
        ensures { result ≡ self.now.to }
    {
        self.to
    }

    fn set_from(&mut self, from: u32)
        ensures { self.new ≡ record { from = from; to = self.old.to } }
    {
        self.from = from;
    }

    fn set_to(&mut self, to: u32)
        ensures { self.new ≡ record { from = self.old.from; to = to } }
    {
        self.to = to;
    }

    fn begins_at(&self, at: u32) -> bool
        ensures { result ≡ begins_at at self.now }
    {
        self.from == at
    }
}

fn place_inside(pieces: &[Piece], at: u32) -> usize
    ensures { result ≡ place_inside at pieces.now }
{
    for place in 0..pieces.len() {
        if pieces[place].has_inside(at) {
            return place;
        }
    }
    pieces.len()
}

fn place_from(pieces: &[Piece], at: u32) -> usize
    ensures { result ≡ place_from at pieces.now }
{
    for place in 0..pieces.len() {
        if pieces[place].begins_at(at) {
            return place;
        }
    }
    pieces.len()
}

/// Whether a piece has the index strictly inside.
pub fn has_inside(pieces: &[Piece], at: u32) -> bool
    ensures { result ≡ has_inside at pieces.now }
{
    place_inside(pieces, at) < pieces.len()
}

/// Whether a piece begins at the index and has so many indexes.
pub fn can_take(pieces: &[Piece], at: u32, count: u32) -> bool
    ensures { result ≡ can_take at count pieces.now }
{
    let place = place_from(pieces, at);
    place < pieces.len() && u64::from(at) + u64::from(count) <= u64::from(pieces[place].to())
}

/// Cuts the piece in two that has the index inside, before it. Want of memory changes nothing.
pub fn cut(pieces: &mut Vec<Piece>, at: u32) -> Result<(), NoMemory>
    requires { has_inside at pieces.old.items ≡ true }
    ensures done { IfOk result (λ _. pieces.new.items ≡ cut at pieces.old.items) }
    ensures same { IfErr result (λ _. pieces.new.items ≡ pieces.old.items) }
{
    let place = place_inside(pieces.as_slice(), at);
    let to = pieces[place].to();
    pieces.insert(place + 1, Piece { from: at, to })?;
    pieces[place].set_to(at);
    Ok(())
}

/// Takes the first indexes of the piece that begins at this one.
pub fn take(pieces: &mut Vec<Piece>, at: u32, count: u32)
    requires { can_take at count pieces.old.items ≡ true }
    ensures { pieces.new.items ≡ take at count pieces.old.items }
{
    let place = place_from(pieces.as_slice(), at);
    let to = pieces[place].to();
    let from = at + count;
    if from < to {
        pieces[place].set_from(from);
    } else {
        pieces.remove(place);
    }
}
