// What a fork hands on: the length of a loop, and the arguments.
ghost use Rattle.kt_tokens.specs.Reading.{Answers};
ghost use Rattle.kt_read.specs.ArgumentResiduals.{AfterArgName, AfterFirst, AfterSquare, Forked, MoreArgs, after_arguments};
ghost use Rattle.kt_read.specs.Follows.{after_expression};
ghost use Rattle.kt_read.specs.Statements.{ReadsArg, ReadsMaybeArgs};
ghost use Rattle.std.specs.Prelude.{[], ◌∷◌};

use crate::reader::expressions::{
    after_name, element, expression, expression_behind, expression_then,
};
use crate::reader::memory::add;
use kt_law::Place;
use kt_prog::{Arg, ArgWhat, Expr, Name};
use kt_tokens::{Mark, Source, Symbol, Unread};
use sqlite_items::Items;
use std::alloc::Global;

/// An argument.
fn argument(alloc: Global, source: &mut Source<'_>) -> Result<Arg, Unread>
    ensures { Answers ReadsArg after_expression source.old source.new result }
{
    let token = source.next();
    let place = token.place;
    match &token.symbol {
        Symbol::Name(_) => {
            let (name, place) = source.name()?;
            argument_behind_name(alloc, source, name, place)
        }
        _ => {
            let value = expression(alloc, source)?;
            Ok(Arg {
                place,
                what: ArgWhat::Value(value),
            })
        }
    }
}

/// What is left of an argument behind its name.
fn argument_behind_name(
    alloc: Global,
    source: &mut Source<'_>,
    name: Name,
    place: Place,
) -> Result<Arg, Unread>
    ensures { Answers (AfterArgName name place) after_expression source.old source.new result }
{
    if source.is(Mark::SquareOpen) {
        source.expect(Mark::SquareOpen)?;
        return argument_in_square(alloc, source, name, place);
    }
    let first = after_name(alloc, source, name, place)?;
    let value = expression_behind(alloc, source, first)?;
    Ok(Arg {
        place,
        what: ArgWhat::Value(value),
    })
}

/// What is left of an argument behind a name and its bracket.
fn argument_in_square(
    alloc: Global,
    source: &mut Source<'_>,
    name: Name,
    place: Place,
) -> Result<Arg, Unread>
    ensures { Answers (AfterSquare name place) after_expression source.old source.new result }
{
    let at = expression(alloc, source)?;
    if source.is(Mark::Dots) {
        source.expect(Mark::Dots)?;
        let end = expression_then(alloc, source, Mark::SquareClose)?;
        return Ok(Arg {
            place,
            what: ArgWhat::Span(name, place, at, end),
        });
    }
    source.expect(Mark::SquareClose)?;
    let first = element(alloc, name, place, at)?;
    let value = expression_behind(alloc, source, first)?;
    Ok(Arg {
        place,
        what: ArgWhat::Value(value),
    })
}

/// The arguments, of which the first was read.
fn arguments_behind(
    alloc: Global,
    source: &mut Source<'_>,
    first: Arg,
) -> Result<Items<Arg>, Unread>
    ensures { Answers (MoreArgs (first ∷ [])) after_arguments source.old source.new result }
{
    let mut args = Vec::new(alloc);
    add(&mut args, first)?;
    'more: while source.is(Mark::Comma) {
        source.expect(Mark::Comma)?;
        let arg = argument(alloc, source)?;
        add(&mut args, arg)?;
    }
    Ok(Items::from_vec(args))
}

/// `[ args ]`
fn arguments(alloc: Global, source: &mut Source<'_>) -> Result<Items<Arg>, Unread>
    ensures { Answers ReadsMaybeArgs after_arguments source.old source.new result }
{
    if source.is(Mark::ParenClose) {
        return Ok(Items::new(alloc));
    }
    let first = argument(alloc, source)?;
    arguments_behind(alloc, source, first)
}

/// What a fork hands on: the length of a loop if a `;` is behind the first expression, and the arguments.
pub(crate) fn forked(
    alloc: Global,
    source: &mut Source<'_>,
) -> Result<(Option<Expr>, Items<Arg>), Unread>
    ensures { Answers Forked after_arguments source.old source.new result }
{
    if source.is(Mark::ParenClose) {
        return Ok((None, Items::new(alloc)));
    }
    let first = argument(alloc, source)?;
    forked_behind(alloc, source, first)
}

/// The first one is the length of a loop if a `;` is next.
fn forked_behind(
    alloc: Global,
    source: &mut Source<'_>,
    first: Arg,
) -> Result<(Option<Expr>, Items<Arg>), Unread>
    ensures { Answers (AfterFirst first) after_arguments source.old source.new result }
{
    if !source.is(Mark::Semicolon) {
        let args = arguments_behind(alloc, source, first)?;
        return Ok((None, args));
    }
    let ArgWhat::Value(length) = first.what else {
        return Err(Unread::Refused);
    };
    source.expect(Mark::Semicolon)?;
    let args = arguments(alloc, source)?;
    Ok((Some(length), args))
}
