// Statements by descent. The first token tells which one it is, and what stands behind a name tells assignments apart.
// Statements are large, so each is added to one list as soon as it is read, and at its end a block takes its own out of it.
ghost use Rattle.std.specs.Prelude.{◌≡◌, OnOk};
ghost use Rattle.kt_tokens.specs.Reading.{any, Adds, Answers};
ghost use Rattle.kt_read.specs.Residuals.{NameThen};
ghost use Rattle.kt_read.specs.StatementResiduals.{AfterElement, AfterStmtName, ForStmt, ForkStmt, IfStmt, LetStmt, NamedStmt, after_statement};
ghost use Rattle.kt_read.specs.Statements.{ReadsBlock, ReadsElse, ReadsStmt};

use crate::reader::arguments::forked;
use crate::reader::expressions::{expression, expression_then};
use crate::reader::memory::{add, taken};
use crate::reader::operations::operation;
use kt_law::Place;
use kt_prog::{Expr, Name, Stmt, What};
use kt_tokens::{Mark, Source, Unread};
use sqlite_items::Items;
use std::alloc::Global;

/// A name and a sign or a reserved word behind it.
pub(crate) fn name_then(source: &mut Source<'_>, mark: Mark) -> Result<(Name, Place), Unread>
    ensures { Answers (NameThen mark) any source.old source.new result }
{
    let (name, place) = source.name()?;
    source.expect(mark)?;
    Ok((name, place))
}

/// `"let" NAME "=" expr ";"`
fn let_statement(
    alloc: Global,
    source: &mut Source<'_>,
    stmts: &mut Vec<Stmt>,
) -> Result<(), Unread>
    ensures { Adds LetStmt any source.old source.new stmts.old.items stmts.new.items result }
{
    let place = source.expect(Mark::Let)?;
    let (name, name_place) = name_then(source, Mark::Becomes)?;
    let value = expression_then(alloc, source, Mark::Semicolon)?;
    add(
        stmts,
        Stmt {
            place,
            what: What::Let(name, name_place, value),
        },
    )?;
    Ok(())
}

/// `"fork" NAME "(" [ forked ] ")" ";"`
fn fork_statement(
    alloc: Global,
    source: &mut Source<'_>,
    stmts: &mut Vec<Stmt>,
) -> Result<(), Unread>
    ensures { Adds ForkStmt any source.old source.new stmts.old.items stmts.new.items result }
{
    let place = source.expect(Mark::Fork)?;
    let (name, name_place) = name_then(source, Mark::ParenOpen)?;
    let (length, args) = forked(alloc, source)?;
    source.expect(Mark::ParenClose)?;
    source.expect(Mark::Semicolon)?;
    add(
        stmts,
        Stmt {
            place,
            what: What::Fork(name, name_place, length, args),
        },
    )?;
    Ok(())
}

/// An assignment or a cumulation.
fn named_statement(
    alloc: Global,
    source: &mut Source<'_>,
    stmts: &mut Vec<Stmt>,
) -> Result<(), Unread>
    ensures { Adds NamedStmt any source.old source.new stmts.old.items stmts.new.items result }
{
    let (name, place) = source.name()?;
    statement_behind_name(alloc, source, stmts, name, place)
}

/// What is left of a statement behind the name that begins it.
fn statement_behind_name(
    alloc: Global,
    source: &mut Source<'_>,
    stmts: &mut Vec<Stmt>,
    name: Name,
    place: Place,
) -> Result<(), Unread>
    ensures { Adds (AfterStmtName name place) any source.old source.new stmts.old.items
        stmts.new.items result }
{
    if source.is(Mark::Becomes) {
        source.expect(Mark::Becomes)?;
        let value = expression_then(alloc, source, Mark::Semicolon)?;
        add(
            stmts,
            Stmt {
                place,
                what: What::Set(name, place, value),
            },
        )?;
        return Ok(());
    }
    source.expect(Mark::SquareOpen)?;
    let at = expression_then(alloc, source, Mark::SquareClose)?;
    statement_behind_element(alloc, source, stmts, name, place, at)
}

/// What is left of a statement behind the element that it stores to.
fn statement_behind_element(
    alloc: Global,
    source: &mut Source<'_>,
    stmts: &mut Vec<Stmt>,
    name: Name,
    place: Place,
    at: Expr,
) -> Result<(), Unread>
    ensures { Adds (AfterElement name place at) any source.old source.new stmts.old.items
        stmts.new.items result }
{
    if source.is(Mark::Becomes) {
        source.expect(Mark::Becomes)?;
        let value = expression_then(alloc, source, Mark::Semicolon)?;
        add(
            stmts,
            Stmt {
                place,
                what: What::Store(name, place, at, value),
            },
        )?;
        return Ok(());
    }
    let op = operation(source)?;
    source.expect(Mark::Becomes)?;
    let value = expression_then(alloc, source, Mark::Semicolon)?;
    add(
        stmts,
        Stmt {
            place,
            what: What::Fold(name, place, at, op, value),
        },
    )?;
    Ok(())
}

/// `"if" expr block [ "else" block ]`
#[cycle(statement)]
fn if_statement(alloc: Global, source: &mut Source<'_>, stmts: &mut Vec<Stmt>) -> Result<(), Unread>
    ensures { Adds IfStmt after_statement source.old source.new stmts.old.items stmts.new.items
        result }
{
    let place = source.expect(Mark::If)?;
    let test = expression(alloc, source)?;
    let then_do = block(alloc, source, stmts)?;
    let else_do = otherwise(alloc, source, stmts)?;
    add(
        stmts,
        Stmt {
            place,
            what: What::If(test, then_do, else_do),
        },
    )?;
    Ok(())
}

/// `[ "else" block ]`
#[cycle(statement)]
fn otherwise(
    alloc: Global,
    source: &mut Source<'_>,
    stmts: &mut Vec<Stmt>,
) -> Result<Items<Stmt>, Unread>
    ensures answers { Answers ReadsElse after_statement source.old source.new result }
    ensures kept { OnOk result (stmts.new.items ≡ stmts.old.items) }
{
    if !source.is(Mark::Else) {
        return Ok(Items::new(alloc));
    }
    source.expect(Mark::Else)?;
    block(alloc, source, stmts)
}

/// `"for" NAME "in" expr ".." expr block`
#[cycle(statement)]
fn for_statement(
    alloc: Global,
    source: &mut Source<'_>,
    stmts: &mut Vec<Stmt>,
) -> Result<(), Unread>
    ensures { Adds ForStmt any source.old source.new stmts.old.items stmts.new.items result }
{
    let place = source.expect(Mark::For)?;
    let (name, name_place) = name_then(source, Mark::In)?;
    let first = expression_then(alloc, source, Mark::Dots)?;
    let end = expression(alloc, source)?;
    let body = block(alloc, source, stmts)?;
    add(
        stmts,
        Stmt {
            place,
            what: What::For(name, name_place, first, end, body),
        },
    )?;
    Ok(())
}

#[cycle(statement)]
fn statement(alloc: Global, source: &mut Source<'_>, stmts: &mut Vec<Stmt>) -> Result<(), Unread>
    ensures { Adds ReadsStmt after_statement source.old source.new stmts.old.items stmts.new.items
        result }
{
    if source.is(Mark::Let) {
        return let_statement(alloc, source, stmts);
    }
    if source.is(Mark::If) {
        return if_statement(alloc, source, stmts);
    }
    if source.is(Mark::For) {
        return for_statement(alloc, source, stmts);
    }
    if source.is(Mark::Fork) {
        return fork_statement(alloc, source, stmts);
    }
    named_statement(alloc, source, stmts)
}

/// `"{" { stmt } "}"`. Its statements are read behind those of the blocks around it.
#[cycle(statement)]
pub(crate) fn block(
    alloc: Global,
    source: &mut Source<'_>,
    stmts: &mut Vec<Stmt>,
) -> Result<Items<Stmt>, Unread>
    ensures answers { Answers ReadsBlock any source.old source.new result }
    ensures kept { OnOk result (stmts.new.items ≡ stmts.old.items) }
{
    source.expect(Mark::BraceOpen)?;
    let begin = stmts.len();
    'each: while !source.is(Mark::BraceClose) {
        statement(alloc, source, stmts)?;
    }
    source.expect(Mark::BraceClose)?;
    let own = taken(alloc, stmts, begin)?;
    Ok(Items::from_vec(own))
}
