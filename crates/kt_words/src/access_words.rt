// Access words: which objects a task accesses, and how.
ghost use Rattle.std.specs.Prelude.{◌≡◌, ◌≢◌, IfSome, IfNone};
ghost use Rattle.kt_law.specs.Modes.{op_number};
ghost use Rattle.kt_words.specs.BitFields.{Unpacks};
ghost use Rattle.kt_words.specs.Words.{IsAccess, packed_access, mode_number, mode_op};

use crate::bits::{joined, split};
use kt_law::{Access, Mode, Op};

// The widths of the fields below the op, from bit 0 on; `lo` and `hi` have one width.
const OBJECT_BITS: u32 = 20;

const MODE_BITS: u32 = 3;

/// The word of an access.
#[tactic(auto, unfolding(crate::specs::Words::packed_access))]
pub fn pack_access(v: &Access) -> u64
    requires { IsAccess v.now }
    ensures { result ≡ packed_access v.now }
{
    let (mode, op) = numbers(v.mode);
    let above = joined(u64::from(v.hi), OBJECT_BITS, joined(mode, MODE_BITS, op));
    joined(u64::from(v.lo), OBJECT_BITS, above)
}

/// The access that a word says, none where the word is not packed from an access.
pub fn unpack_access(word: u64) -> Option<Access>
    ensures { Unpacks IsAccess packed_access word result }
{
    let (lo, rest) = split(word, OBJECT_BITS);
    let (hi, rest) = split(rest, OBJECT_BITS);
    let (number, op) = split(rest, MODE_BITS);
    if hi < lo {
        return None;
    }
    let mode = mode_with(number, op)?;
    Some(Access {
        lo: lo as u32,
        hi: hi as u32,
        mode,
    })
}

/// The number of a mode, and that of its op.
fn numbers(mode: Mode) -> (u64, u64)
    ensures mode { result.0 ≡ mode_number mode }
    ensures op { result.1 ≡ mode_op mode }
{
    match mode {
        Mode::R => (0, 0),
        Mode::W => (1, 0),
        Mode::X => (2, 0),
        Mode::Cw(op) => (3, number_of(op)),
        Mode::Rp => (4, 0),
        Mode::Wp => (5, 0),
        Mode::Xp => (6, 0),
        Mode::Cwp(op) => (7, number_of(op)),
    }
}

/// The mode with these numbers.
fn mode_with(number: u64, op: u64) -> Option<Mode>
    ensures found { IfSome result (λ mode. (mode_number mode ≡ number) × (mode_op mode ≡ op)) }
    ensures none { IfNone result ((mode : Mode) → mode_number mode ≡ number → mode_op mode ≢ op) }
{
    match number {
        0 if op == 0 => Some(Mode::R),
        1 if op == 0 => Some(Mode::W),
        2 if op == 0 => Some(Mode::X),
        3 => Some(Mode::Cw(op_with(op)?)),
        4 if op == 0 => Some(Mode::Rp),
        5 if op == 0 => Some(Mode::Wp),
        6 if op == 0 => Some(Mode::Xp),
        7 => Some(Mode::Cwp(op_with(op)?)),
        _ => None,
    }
}

fn number_of(op: Op) -> u64
    ensures { result ≡ op_number op }
{
    match op {
        Op::Add => 0,
        Op::Min => 1,
        Op::Max => 2,
        Op::And => 3,
        Op::Or => 4,
        Op::Xor => 5,
    }
}

fn op_with(number: u64) -> Option<Op>
    ensures found { IfSome result (λ op. op_number op ≡ number) }
    ensures none { IfNone result ((op : Op) → op_number op ≢ number) }
{
    match number {
        0 => Some(Op::Add),
        1 => Some(Op::Min),
        2 => Some(Op::Max),
        3 => Some(Op::And),
        4 => Some(Op::Or),
        5 => Some(Op::Xor),
        _ => None,
    }
}
