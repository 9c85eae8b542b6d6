// The parts of generated programs. Each has the place that it is given.
ghost use Rattle.std.specs.Prelude.{◌≡◌, [], ◌∷◌, None, Some, IfOk};
ghost use Rattle.kt_prog.specs.Names.{IsName};
ghost use Rattle.kt_prog.specs.declared.programs.Expr.TheVariants.{Bin, Num, Var};
ghost use Rattle.kt_gen.specs.Trees.{bare, below, each, fork, member, number, object, on, param, program, range, tile};

use kt_law::{BinOp, NoMemory, Place};
use kt_prog::{Arg, ArgWhat, Expr, Family, Main, Name, Param, Program, Sort, Stmt, Task, What};
use sqlite_items::{Boxed, Items};
use std::alloc::Global;

/// The first byte of a line.
pub(crate) fn first_of(line: u32) -> Place
    ensures { result ≡ on line }
{
    Place { line, column: 1 }
}

/// A list of one item.
pub(crate) fn one<T: Drop>(alloc: Global, item: T) -> Result<Items<T>, NoMemory>
    ensures { IfOk result (λ items. items ≡ item ∷ []) }
{
    let mut items = Items::new(alloc);
    items.push(item)?;
    Ok(items)
}

/// A list of two items.
pub(crate) fn two<T: Drop>(alloc: Global, first: T, second: T) -> Result<Items<T>, NoMemory>
    ensures { IfOk result (λ items. items ≡ first ∷ second ∷ []) }
{
    let mut items = one(alloc, first)?;
    items.push(second)?;
    Ok(items)
}

pub(crate) fn variable(at: Place, name: &[u8]) -> Expr
    requires { IsName name.now }
    ensures { result ≡ Var name.now at }
{
    Expr::Var(Name::new(name), at)
}

pub(crate) fn binary(alloc: Global, op: BinOp, left: Expr, right: Expr) -> Result<Expr, NoMemory>
    ensures { IfOk result (λ e. e ≡ Bin op left right) }
{
    Ok(Expr::Bin(op, Boxed::new(alloc, left)?, Boxed::new(alloc, right)?))
}

/// A number as an argument.
pub(crate) fn numeral(at: Place, n: u64) -> Arg
    ensures { result ≡ number at n }
{
    Arg {
        place: at,
        what: ArgWhat::Value(Expr::Num(n)),
    }
}

/// A bare name as an argument.
pub(crate) fn bare_name(at: Place, name: &[u8]) -> Arg
    requires { IsName name.now }
    ensures { result ≡ bare at name.now }
{
    Arg {
        place: at,
        what: ArgWhat::Value(variable(at, name)),
    }
}

/// The member of a range as an argument.
pub(crate) fn member_at(alloc: Global, at: Place, name: &[u8], index: Expr) -> Result<Arg, NoMemory>
    requires { IsName name.now }
    ensures { IfOk result (λ arg. arg ≡ member at name.now index) }
{
    let index = Boxed::new(alloc, index)?;
    Ok(Arg {
        place: at,
        what: ArgWhat::Value(Expr::Elem(Name::new(name), at, index)),
    })
}

/// The member `row * size + column` of a range as an argument.
pub(crate) fn tile_at(
    alloc: Global,
    at: Place,
    name: &[u8],
    row: &[u8],
    size: u64,
    column: &[u8],
) -> Result<Arg, NoMemory>
    requires name { IsName name.now }
    requires row { IsName row.now }
    requires column { IsName column.now }
    ensures { IfOk result (λ arg. arg ≡ tile at name.now row.now size column.now) }
{
    let before = binary(alloc, BinOp::Mul, variable(at, row), Expr::Num(size))?;
    let index = binary(alloc, BinOp::Add, before, variable(at, column))?;
    member_at(alloc, at, name, index)
}

/// A `for`.
pub(crate) fn for_each(at: Place, name: &[u8], from: Expr, to: Expr, body: Items<Stmt>) -> Stmt
    requires { IsName name.now }
    ensures { result ≡ each at name.now from to body }
{
    Stmt {
        place: at,
        what: What::For(Name::new(name), at, from, to, body),
    }
}

/// A `for` from 0 on with one statement in it.
pub(crate) fn for_below(
    alloc: Global,
    at: Place,
    name: &[u8],
    to: u64,
    inner: Stmt,
) -> Result<Stmt, NoMemory>
    requires { IsName name.now }
    ensures { IfOk result (λ stmt. stmt ≡ below at name.now to inner) }
{
    let body = one(alloc, inner)?;
    Ok(for_each(at, name, Expr::Num(0), Expr::Num(to), body))
}

/// The fork of a task, a loop or a kernel.
pub(crate) fn fork_of(at: Place, name: &[u8], length: Option<Expr>, args: Items<Arg>) -> Stmt
    requires { IsName name.now }
    ensures { result ≡ fork at name.now length args }
{
    Stmt {
        place: at,
        what: What::Fork(Name::new(name), at, length, args),
    }
}

/// A range of objects.
pub(crate) fn range_of(
    line: u32,
    name: &[u8],
    members: u64,
    elements: u64,
    input: bool,
    output: bool,
) -> Family
    requires { IsName name.now }
    ensures { result ≡ range (on line) name.now members elements input output }
{
    Family {
        name: Name::new(name),
        place: first_of(line),
        many: true,
        members,
        elements,
        input,
        output,
    }
}

/// A single object that is neither input nor output.
pub(crate) fn object_of(line: u32, name: &[u8], elements: u64) -> Family
    requires { IsName name.now }
    ensures { result ≡ object (on line) name.now elements }
{
    Family {
        name: Name::new(name),
        place: first_of(line),
        many: false,
        members: 1,
        elements,
        input: false,
        output: false,
    }
}

pub(crate) fn param_of(at: Place, name: &[u8], sort: Sort) -> Param
    requires { IsName name.now }
    ensures { result ≡ param at name.now sort }
{
    Param {
        place: at,
        name: Name::new(name),
        name_place: at,
        sort,
    }
}

/// A program with `main` in this line, and the word `data` in line `end`.
pub(crate) fn program_with(
    alloc: Global,
    families: Items<Family>,
    tasks: Items<Task>,
    main: u32,
    body: Items<Stmt>,
    end: u32,
) -> Result<Program, NoMemory>
    ensures { IfOk result (λ made. made ≡ program families tasks main body end) }
{
    let main = Main {
        place: first_of(main),
        body,
    };
    let mains = one(alloc, main)?;
    Ok(Program {
        families,
        tasks,
        mains,
        end: first_of(end),
    })
}
