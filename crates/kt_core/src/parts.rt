// What a loop has from its beginning on: its indexes, and which of them are not taken or not retired.
ghost use Rattle.std.specs.Prelude.{◌≡◌, ◌≤◌, ◌<◌, ◌-◌, ◌^◌, ◌+◌, ◌∷◌, [], IfErr, IfOk, Some, length, option_map, replicate, slice_get, true};
ghost use Rattle.kt_core.specs.Reads.{fault_at};
ghost use Rattle.kt_order.specs.Books.{one_piece};
ghost use Rattle.kt_prog.specs.declared.runs.Operation.TheVariants as operation_is;
ghost use Rattle.kt_tables.specs.LoopRows.{can_take, ends, has_inside, index_after, index_went_on, is_taken, is_under_way, part_indexed, part_retired, part_split, part_taken, take_indexes, taken_index};
ghost use Rattle.kt_tables.specs.Tables.{body_fault, no_loop, untaken_index, whole_loop};

use crate::pieces;
use crate::pieces::Piece;
use kt_law::{F, NoMemory};
use kt_prog::Operation;
use kt_tables::{BodyFault, Stand};
use std::alloc::Global;
use std::marker::Model;

/// An index of a loop.
#[derive(Drop)]
pub struct Index {
    stand: Stand,
    answers: Vec<u64>,
    done: u64,
    fault: Option<BodyFault>,
}

impl Model for Index {
    ghost use Rattle.std.specs.Prelude.{option_map};
    ghost use Rattle.kt_tables.specs.Tables.{IndexRow, body_fault};

    ghost Value = { IndexRow };

    ghost view = { λ v. record {
      stand = v.stand;
      answers = v.answers.items;
      done = v.done;
      fault = option_map body_fault v.fault;
    } };
}

impl Index {
    /// An index that nobody has taken.
    fn untaken(alloc: Global) -> Index
        ensures { result ≡ untaken_index }
    {
        Index {
            stand: Stand::Untaken,
            answers: Vec::new(alloc),
            done: 0,
            fault: None,
        }
    }

    fn is_taken(&self) -> bool
        ensures { result ≡ is_taken self.now.stand }
    {
        match self.stand {
            Stand::Taken => true,
            _ => false,
        }
    }

    fn take(&mut self)
        ensures { self.new ≡ taken_index self.old }
    {
        self.stand = Stand::Taken;
    }

    /// Does what an operation makes of its index. Want of memory, and of room in the count of operations, changes nothing.
    fn go_on(&mut self, operation: &Operation) -> Result<(), NoMemory>
        ensures done { IfOk result (λ _. self.new ≡ index_after operation.now self.old) }
        ensures same { IfErr result (λ _. self.new ≡ self.old) }
    {
        if self.done == u64::MAX {
            return Err(NoMemory);
        }
        match operation {
            Operation::Load(_, _, value) => self.hear(*value),
            Operation::Store(_, _, _) => {
                self.count();
                Ok(())
            }
            Operation::Fold(_, _, _, _) => {
                self.count();
                Ok(())
            }
            Operation::Fork(_) => {
                self.count();
                Ok(())
            }
            Operation::End => {
                self.end();
                Ok(())
            }
            Operation::Fault(law, line) => {
                self.fail(*law, *line);
                Ok(())
            }
        }
    }

    fn count(&mut self)
        requires { self.old.done < 2 ^ 64 - 1 }
        ensures { self.new ≡ index_went_on [] self.old }
    {
        self.done += 1;
    }

    fn hear(&mut self, value: u64) -> Result<(), NoMemory>
        requires { self.old.done < 2 ^ 64 - 1 }
        ensures done { IfOk result (λ _. self.new ≡ index_went_on (value ∷ []) self.old) }
        ensures same { IfErr result (λ _. self.new ≡ self.old) }
    {
        self.answers.push(value)?;
        self.done += 1;
        Ok(())
    }

    fn end(&mut self)
        requires { self.old.done < 2 ^ 64 - 1 }
        ensures { self.new ≡ index_after operation_is.End self.old }
    {
        self.stand = Stand::Over;
        self.done += 1;
    }

    fn fail(&mut self, law: F, line: u32)
        requires { self.old.done < 2 ^ 64 - 1 }
        ensures { self.new ≡ index_after (operation_is.Fault law line) self.old }
    {
        self.stand = Stand::Over;
        self.fault = Some(BodyFault { law, line });
        self.done += 1;
    }
}

/// What a loop has besides a task: nothing until it begins.
#[derive(Drop)]
pub struct Part {
    indexes: Vec<Index>,
    pieces: Vec<Piece>,
    unretired: u32,
    ended: u32,
}

impl Model for Part {
    ghost use Rattle.kt_tables.specs.Tables.{LoopPart};

    ghost Value = { LoopPart };

    ghost view = { λ l. record {
      indexes = l.indexes.items;
      pieces = l.pieces.items;
      unretired = l.unretired;
      ended = l.ended;
    } };
}

impl Part {
    pub fn none(alloc: Global) -> Part
        ensures { result ≡ no_loop }
    {
        Part {
            indexes: Vec::new(alloc),
            pieces: Vec::new(alloc),
            unretired: 0,
            ended: 0,
        }
    }

    /// So many indexes, none of them taken.
    pub fn whole(alloc: Global, length: u32) -> Result<Part, NoMemory>
        ensures { IfOk result (λ part. part ≡ whole_loop length) }
    {
        let indexes = untaken_indexes(alloc, length)?;
        let pieces = whole_piece(alloc, length)?;
        Ok(Part {
            indexes,
            pieces,
            unretired: length,
            ended: 0,
        })
    }

    /// How many indexes are not retired.
    pub fn unretired(&self) -> u32
        ensures { result ≡ self.now.unretired }
    {
        self.unretired
    }

    /// How many have ended that are not retired.
    pub fn ended(&self) -> u32
        ensures { result ≡ self.now.ended }
    {
        self.ended
    }

    pub fn pieces(&self) -> &[Piece]
        ensures { result.now ≡ self.now.pieces }
    {
        self.pieces.as_slice()
    }

    /// The fault that ended the body of an index.
    pub fn index_fault(&self, index: u32) -> Option<BodyFault>
        ensures { option_map body_fault result ≡ fault_at (slice_get self.now.indexes index) }
    {
        match self.indexes.get(index as usize) {
            Some(one) => one.fault,
            None => None,
        }
    }

    pub fn has_inside(&self, at: u32) -> bool
        ensures { result ≡ has_inside at self.now.pieces }
    {
        pieces::has_inside(self.pieces.as_slice(), at)
    }

    pub fn can_take(&self, at: u32, count: u32) -> bool
        ensures { result ≡ can_take at count self.now.pieces }
    {
        pieces::can_take(self.pieces.as_slice(), at, count)
    }

    /// Whether the index is taken and its body has not ended.
    pub fn is_under_way(&self, index: u32) -> bool
        ensures { result ≡ is_under_way (slice_get self.now.indexes index) }
    {
        match self.indexes.get(index as usize) {
            Some(one) => one.is_taken(),
            None => false,
        }
    }

    /// Want of memory changes nothing.
    pub fn split(&mut self, at: u32) -> Result<(), NoMemory>
        requires { has_inside at self.old.pieces ≡ true }
        ensures done { IfOk result (λ _. self.new ≡ part_split at self.old) }
        ensures same { IfErr result (λ _. self.new ≡ self.old) }
    {
        pieces::cut(&mut self.pieces, at)
    }

    pub fn take(&mut self, at: u32, count: u32)
        requires { can_take at count self.old.pieces ≡ true }
        ensures { self.new ≡ part_taken at count self.old }
    {
        take_indexes(&mut self.indexes, at, count);
        pieces::take(&mut self.pieces, at, count);
    }

    /// Does what an operation makes of an index that is under way. Want of memory, and of room in a count, changes nothing.
    pub fn go_on(&mut self, index: u32, operation: &Operation) -> Result<(), NoMemory>
        requires { is_under_way (slice_get self.old.indexes index) ≡ true }
        ensures done { IfOk result (λ _. self.new ≡ part_indexed index operation.now self.old) }
        ensures same { IfErr result (λ _. self.new ≡ self.old) }
    {
        if self.ended == u32::MAX {
            return Err(NoMemory);
        }
        self.indexes[index as usize].go_on(operation)?;
        self.ended += ends(operation);
        Ok(())
    }

    /// Retires so many of the indexes that have ended.
    pub fn retire(&mut self, count: u32)
        requires { count ≤ self.old.ended }
        ensures { self.new ≡ part_retired count self.old }
    {
        self.ended -= count;
        self.unretired = self.unretired.saturating_sub(count);
    }
}

/// 1 where the operation ends its body.
fn ends(operation: &Operation) -> u32
    ensures { result ≡ ends operation.now }
{
    match operation {
        Operation::End => 1,
        Operation::Fault(_, _) => 1,
        _ => 0,
    }
}

fn untaken_indexes(alloc: Global, length: u32) -> Result<Vec<Index>, NoMemory>
    ensures { IfOk result (λ rows. rows.items ≡ replicate length untaken_index) }
{
    let mut indexes = Vec::new(alloc);
    indexes.reserve(length as usize)?;
    for turn in 0..length {
        indexes.push(Index::untaken(alloc))?;
    }
    Ok(indexes)
}

/// All indexes of a loop as one piece, or none where it has none.
fn whole_piece(alloc: Global, length: u32) -> Result<Vec<Piece>, NoMemory>
    ensures { IfOk result (λ pieces. pieces.items ≡ one_piece length) }
{
    let mut pieces = Vec::new(alloc);
    if length > 0 {
        pieces.push(Piece::of_first(length))?;
    }
    Ok(pieces)
}

fn take_indexes(indexes: &mut Vec<Index>, at: u32, count: u32)
    ensures { indexes.new.items ≡ take_indexes at count indexes.old.items }
{
    for turn in 0..count {
        let place = at as usize + turn as usize;
        if place < indexes.len() {
            indexes[place].take();
        }
    }
}
