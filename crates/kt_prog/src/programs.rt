// A program as it is read. It keeps no parentheses, and a missing `else` is an empty block.

use crate::names::Name;
use kt_law::{BinOp, Mode, Op, Place};
use sqlite_items::{Boxed, Items};

/// A whole program. Each of the three lists is in the order of the text.
#[derive(Debug, Drop)]
pub struct Program {
    pub families: Items<Family>,
    pub tasks: Items<Task>,
    pub mains: Items<Main>,
    /// The place of the word `data`.
    pub end: Place,
}

/// A declared object, or a range of them. The members of all families are numbered from 0 in the order of the text.
#[derive(Debug, Drop)]
pub struct Family {
    pub name: Name,
    /// The place of the name.
    pub place: Place,
    /// Whether it is a range; it is one with `[1]` too.
    pub many: bool,
    /// 1 where it is no range.
    pub members: u64,
    /// The elements of each member.
    pub elements: u64,
    pub input: bool,
    pub output: bool,
}

/// A task or a loop.
#[derive(Debug, Drop)]
pub struct Task {
    pub name: Name,
    /// The place of the name.
    pub place: Place,
    /// There exactly for a loop.
    pub index: Option<Index>,
    pub params: Items<Param>,
    pub body: Items<Stmt>,
}

/// The name of a loop's index.
#[derive(Debug, Drop)]
pub struct Index {
    pub name: Name,
    pub place: Place,
}

/// The body that is run first.
#[derive(Debug, Drop)]
pub struct Main {
    /// The place of the word `main`.
    pub place: Place,
    pub body: Items<Stmt>,
}

/// A parameter of a task or a loop.
#[derive(Debug, Drop)]
pub struct Param {
    /// The place of its first word.
    pub place: Place,
    pub name: Name,
    pub name_place: Place,
    pub sort: Sort,
}

/// What a parameter takes: a number, one object, or a range of objects.
#[derive(Clone, Copy, Debug, PartialEq, Eq)]
pub enum Sort {
    Int,
    One(Mode),
    Many(Mode),
}

/// A statement with the place of its first token.
#[cycle(stmt)]
#[derive(Debug, Drop)]
pub struct Stmt {
    pub place: Place,
    pub what: What,
}

/// The kinds of statement. The place behind a name is the name's.
#[cycle(stmt)]
#[derive(Debug, Drop)]
pub enum What {
    /// `let v = e;`
    Let(Name, Place, Expr),
    /// `v = e;`
    Set(Name, Place, Expr),
    /// `A[i] = e;`
    Store(Name, Place, Expr, Expr),
    /// `A[i] op= e;`
    Fold(Name, Place, Expr, Op, Expr),
    /// `if e { .. } else { .. }`
    If(Expr, Items<Stmt>, Items<Stmt>),
    /// `for v in a..b { .. }`
    For(Name, Place, Expr, Expr, Items<Stmt>),
    /// `fork t(..);`, or `fork l(n; ..);` with the length of a loop.
    Fork(Name, Place, Option<Expr>, Items<Arg>),
}

/// An argument of a fork with the place of its first token.
#[derive(Debug, Drop)]
pub struct Arg {
    pub place: Place,
    pub what: ArgWhat,
}

/// An expression, or the span `A[a..b]` of a range.
#[derive(Debug, Drop)]
pub enum ArgWhat {
    Value(Expr),
    Span(Name, Place, Expr, Expr),
}

/// An expression. The place behind a name is the name's.
#[derive(Debug, Drop)]
pub enum Expr {
    Num(u64),
    Var(Name, Place),
    Elem(Name, Place, Boxed<Expr>),
    Bin(BinOp, Boxed<Expr>, Boxed<Expr>),
}
