// Words that name an operation or a mode.
ghost use Rattle.std.specs.Prelude.{◌≡◌};
ghost use Rattle.kt_tokens.specs.Ahead.{next_of};
ghost use Rattle.kt_tokens.specs.Reading.{any, Answers};
ghost use Rattle.kt_read.specs.DeclarationParts.{Bracketed, Placed, named_in};
ghost use Rattle.kt_read.specs.Operators.{direct_of, op_of, postponed_of};
ghost use Rattle.kt_read.specs.Programs.{ReadsDirect, ReadsPostponed};
ghost use Rattle.kt_read.specs.Statements.{ReadsOp};

use kt_law::{Mode, Op, Place};
use kt_prog::Name;
use kt_tokens::{Mark, Source, Symbol, Unread, Word};

/// The operation of this name.
#[tactic(auto, unfolding(crate::specs::Operators::op_of))]
fn op_named(word: &Word<'_>) -> Option<Op>
    ensures { result ≡ op_of word.now }
{
    let text = word.as_bytes();
    if text == b"add".as_slice() {
        Some(Op::Add)
    } else if text == b"min".as_slice() {
        Some(Op::Min)
    } else if text == b"max".as_slice() {
        Some(Op::Max)
    } else if text == b"and".as_slice() {
        Some(Op::And)
    } else if text == b"or".as_slice() {
        Some(Op::Or)
    } else if text == b"xor".as_slice() {
        Some(Op::Xor)
    } else {
        None
    }
}

/// The direct mode of this name, but for `cw`.
#[tactic(auto, unfolding(crate::specs::Operators::direct_of))]
fn direct_named(word: &Word<'_>) -> Option<Mode>
    ensures { result ≡ direct_of word.now }
{
    let text = word.as_bytes();
    if text == b"r".as_slice() {
        Some(Mode::R)
    } else if text == b"w".as_slice() {
        Some(Mode::W)
    } else if text == b"x".as_slice() {
        Some(Mode::X)
    } else {
        None
    }
}

/// The postponed mode of this name, but for `cwp`.
#[tactic(auto, unfolding(crate::specs::Operators::postponed_of))]
fn postponed_named(word: &Word<'_>) -> Option<Mode>
    ensures { result ≡ postponed_of word.now }
{
    let text = word.as_bytes();
    if text == b"rp".as_slice() {
        Some(Mode::Rp)
    } else if text == b"wp".as_slice() {
        Some(Mode::Wp)
    } else if text == b"xp".as_slice() {
        Some(Mode::Xp)
    } else {
        None
    }
}

fn next_op(source: &Source<'_>) -> Option<Op>
    ensures { result ≡ named_in op_of (next_of source.now).symbol }
{
    match &source.next().symbol {
        Symbol::Name(name) => op_named(name),
        _ => None,
    }
}

/// The direct mode that the next word names, but for `cw`.
pub(crate) fn next_direct(source: &Source<'_>) -> Option<Mode>
    ensures { result ≡ named_in direct_of (next_of source.now).symbol }
{
    match &source.next().symbol {
        Symbol::Name(name) => direct_named(name),
        _ => None,
    }
}

fn next_postponed(source: &Source<'_>) -> Option<Mode>
    ensures { result ≡ named_in postponed_of (next_of source.now).symbol }
{
    match &source.next().symbol {
        Symbol::Name(name) => postponed_named(name),
        _ => None,
    }
}

/// `"add" | "min" | "max" | "and" | "or" | "xor"`
pub(crate) fn operation(source: &mut Source<'_>) -> Result<Op, Unread>
    ensures { Answers ReadsOp any source.old source.new result }
{
    match next_op(source) {
        Some(op) => {
            source.advance()?;
            Ok(op)
        }
        None => Err(Unread::Refused),
    }
}

/// `"(" op ")"`
fn bracketed(source: &mut Source<'_>) -> Result<Op, Unread>
    ensures { Answers Bracketed any source.old source.new result }
{
    source.expect(Mark::ParenOpen)?;
    let op = operation(source)?;
    source.expect(Mark::ParenClose)?;
    Ok(op)
}

/// A direct mode, and the place of its word.
pub(crate) fn direct(source: &mut Source<'_>) -> Result<(Mode, Place), Unread>
    ensures { Answers (Placed ReadsDirect) any source.old source.new result }
{
    match next_direct(source) {
        Some(mode) => {
            let place = source.next().place;
            source.advance()?;
            Ok((mode, place))
        }
        None => {
            let place = source.word(b"cw")?;
            let op = bracketed(source)?;
            Ok((Mode::Cw(op), place))
        }
    }
}

/// A postponed mode, and the place of its word.
pub(crate) fn postponed(source: &mut Source<'_>) -> Result<(Mode, Place), Unread>
    ensures { Answers (Placed ReadsPostponed) any source.old source.new result }
{
    match next_postponed(source) {
        Some(mode) => {
            let place = source.next().place;
            source.advance()?;
            Ok((mode, place))
        }
        None => {
            let place = source.word(b"cwp")?;
            let op = bracketed(source)?;
            Ok((Mode::Cwp(op), place))
        }
    }
}
