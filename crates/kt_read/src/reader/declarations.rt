// Declarations.
ghost use Rattle.std.specs.Prelude.{◌≡◌, None, Option, Some};
ghost use Rattle.kt_prog.specs.declared.programs.Index.{Index};
ghost use Rattle.kt_tokens.specs.Reading.{any, Answers};
ghost use Rattle.kt_read.specs.DeclarationParts.{LoopOf, Outset, ReadsDeclaration, Sized, TaskOf, not_square, not_word};
ghost use Rattle.kt_read.specs.Programs.{ReadsFamily, ReadsMain, ReadsMaybe};

use crate::reader::params::params;
use crate::reader::statements::block;
use kt_law::Place;
use kt_prog::{Family, Index, Main, Name, Stmt, Task};
use kt_tokens::{Mark, Source, Unread};
use std::alloc::Global;

/// A declaration. A loop is a task with an index.
#[derive(Debug, Drop)]
pub enum Declared {
    Family(Family),
    Task(Task),
    Main(Main),
}

/// `object | task | loop | main`
pub(crate) fn declaration(
    alloc: Global,
    source: &mut Source<'_>,
    stmts: &mut Vec<Stmt>,
) -> Result<Declared, Unread>
    ensures { Answers ReadsDeclaration any source.old source.new result }
{
    if source.is(Mark::Object) {
        return Ok(Declared::Family(family(source)?));
    }
    if source.is(Mark::Task) {
        return Ok(Declared::Task(task(alloc, source, stmts)?));
    }
    if source.is(Mark::Loop) {
        return Ok(Declared::Task(loop_task(alloc, source, stmts)?));
    }
    Ok(Declared::Main(main(alloc, source, stmts)?))
}

/// `"object" NAME [ "[" NUMBER "]" ] "of" NUMBER [ "input" ] [ "output" ] ";"`
fn family(source: &mut Source<'_>) -> Result<Family, Unread>
    ensures { Answers ReadsFamily any source.old source.new result }
{
    source.expect(Mark::Object)?;
    let (name, place) = source.name()?;
    let (many, members) = size(source)?;
    source.word(b"of")?;
    let elements = source.number()?;
    let input = optional(source, b"input")?;
    let output = optional(source, b"output")?;
    source.expect(Mark::Semicolon)?;
    Ok(Family {
        name,
        place,
        many,
        members,
        elements,
        input,
        output,
    })
}

/// `[ "[" NUMBER "]" ]`: whether it is there, and the number, or 1.
fn size(source: &mut Source<'_>) -> Result<(bool, u64), Unread>
    ensures { Answers Sized not_square source.old source.new result }
{
    if !source.is(Mark::SquareOpen) {
        return Ok((false, 1));
    }
    source.expect(Mark::SquareOpen)?;
    let members = source.number()?;
    source.expect(Mark::SquareClose)?;
    Ok((true, members))
}

/// Reads this word if it is next.
fn optional(source: &mut Source<'_>, word: &[u8]) -> Result<bool, Unread>
    ensures { Answers (ReadsMaybe word.now) (not_word word.now) source.old source.new result }
{
    if !source.is_word(word) {
        return Ok(false);
    }
    source.word(word)?;
    Ok(true)
}

/// `"task" NAME "(" [ params ] ")" block`
fn task(alloc: Global, source: &mut Source<'_>, stmts: &mut Vec<Stmt>) -> Result<Task, Unread>
    ensures { Answers TaskOf any source.old source.new result }
{
    source.expect(Mark::Task)?;
    let (name, place) = source.name()?;
    source.expect(Mark::ParenOpen)?;
    rest_of_task(alloc, source, stmts, name, place, None)
}

/// `"loop" NAME "(" NAME ";" [ params ] ")" block`
fn loop_task(alloc: Global, source: &mut Source<'_>, stmts: &mut Vec<Stmt>) -> Result<Task, Unread>
    ensures { Answers LoopOf any source.old source.new result }
{
    source.expect(Mark::Loop)?;
    let (name, place) = source.name()?;
    source.expect(Mark::ParenOpen)?;
    let (index, index_place) = source.name()?;
    source.expect(Mark::Semicolon)?;
    let index = Index {
        name: index,
        place: index_place,
    };
    rest_of_task(alloc, source, stmts, name, place, Some(index))
}

/// `[ params ] ")" block`
fn rest_of_task(
    alloc: Global,
    source: &mut Source<'_>,
    stmts: &mut Vec<Stmt>,
    name: Name,
    place: Place,
    index: Option<Index>,
) -> Result<Task, Unread>
    ensures { Answers (Outset (name, place) index) any source.old source.new result }
{
    let params = params(alloc, source)?;
    source.expect(Mark::ParenClose)?;
    let body = block(alloc, source, stmts)?;
    Ok(Task {
        name,
        place,
        index,
        params,
        body,
    })
}

/// `"main" block`
fn main(alloc: Global, source: &mut Source<'_>, stmts: &mut Vec<Stmt>) -> Result<Main, Unread>
    ensures { Answers ReadsMain any source.old source.new result }
{
    let place = source.expect(Mark::Main)?;
    let body = block(alloc, source, stmts)?;
    Ok(Main { place, body })
}
