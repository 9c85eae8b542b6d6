// Parameters of tasks and loops.
ghost use Rattle.std.specs.Prelude.{◌≡◌, codes};
ghost use Rattle.kt_tokens.specs.Ahead.{next_of};
ghost use Rattle.kt_tokens.specs.Reading.{any, Answers};
ghost use Rattle.kt_read.specs.DeclarationParts.{DirectParam, IntParam, PostponedParam, Squares, begins_direct, closing, not_square, one_or_many};
ghost use Rattle.kt_read.specs.Programs.{ReadsMaybeParams, ReadsParam};

use crate::reader::operations::{direct, next_direct, postponed};
use kt_law::Mode;
use kt_prog::{Param, Sort};
use kt_tokens::{Mark, Source, Unread};
use sqlite_items::Items;
use std::alloc::Global;

/// `[ params ]`
pub(crate) fn params(alloc: Global, source: &mut Source<'_>) -> Result<Items<Param>, Unread>
    ensures { Answers ReadsMaybeParams closing source.old source.new result }
{
    let mut params = Items::new(alloc);
    if source.is(Mark::ParenClose) {
        return Ok(params);
    }
    let first = param(source)?;
    params.push(first)?;
    'each: while source.is(Mark::Comma) {
        source.expect(Mark::Comma)?;
        let next = param(source)?;
        params.push(next)?;
    }
    Ok(params)
}

/// `"int" NAME | direct NAME | postponed NAME [ "[" "]" ]`
fn param(source: &mut Source<'_>) -> Result<Param, Unread>
    ensures { Answers ReadsParam not_square source.old source.new result }
{
    if source.is_word(b"int") {
        return int_param(source);
    }
    if begins_direct(source) {
        return direct_param(source);
    }
    postponed_param(source)
}

/// Whether a direct mode is next.
fn begins_direct(source: &Source<'_>) -> bool
    ensures { result ≡ begins_direct (next_of source.now).symbol }
{
    next_direct(source).is_some() || source.is_word(b"cw")
}

fn int_param(source: &mut Source<'_>) -> Result<Param, Unread>
    ensures { Answers IntParam any source.old source.new result }
{
    let place = source.word(b"int")?;
    let (name, name_place) = source.name()?;
    Ok(Param {
        place,
        name,
        name_place,
        sort: Sort::Int,
    })
}

fn direct_param(source: &mut Source<'_>) -> Result<Param, Unread>
    ensures { Answers DirectParam any source.old source.new result }
{
    let (mode, place) = direct(source)?;
    let (name, name_place) = source.name()?;
    Ok(Param {
        place,
        name,
        name_place,
        sort: Sort::One(mode),
    })
}

fn postponed_param(source: &mut Source<'_>) -> Result<Param, Unread>
    ensures { Answers PostponedParam not_square source.old source.new result }
{
    let (mode, place) = postponed(source)?;
    let (name, name_place) = source.name()?;
    let many = squares(source)?;
    Ok(Param {
        place,
        name,
        name_place,
        sort: one_or_many(many, mode),
    })
}

fn one_or_many(many: bool, mode: Mode) -> Sort
    ensures { result ≡ one_or_many many mode }
{
    if many {
        Sort::Many(mode)
    } else {
        Sort::One(mode)
    }
}

/// `[ "[" "]" ]`: whether it is there.
fn squares(source: &mut Source<'_>) -> Result<bool, Unread>
    ensures { Answers Squares not_square source.old source.new result }
{
    if !source.is(Mark::SquareOpen) {
        return Ok(false);
    }
    source.expect(Mark::SquareOpen)?;
    source.expect(Mark::SquareClose)?;
    Ok(true)
}
