// Expressions by descent, a function for each level.
ghost use Rattle.std.specs.Prelude.{◌≡◌, MatchResult, true};
ghost use Rattle.kt_prog.specs.declared.programs.Expr.{Bin, Elem};
ghost use Rattle.kt_tokens.specs.declared.source.Unread.TheVariants.{NoMemory};
ghost use Rattle.kt_tokens.specs.declared.tokens.Symbol.TheVariants as S;
ghost use Rattle.kt_tokens.specs.Ahead.{next_of};
ghost use Rattle.kt_tokens.specs.Reading.{any, Answers};
ghost use Rattle.kt_read.specs.Expressions.{ReadsAtom, ReadsExpr, ReadsFactors, ReadsProduct, ReadsSum, ReadsTerms};
ghost use Rattle.kt_read.specs.Follows.{after_atom, after_expression, after_product, after_sum};
ghost use Rattle.kt_read.specs.Operators.{additive_of, comparison_of, function_of, multiplicative_of};
ghost use Rattle.kt_read.specs.Residuals.{AfterAtom, AfterName, AfterSum, ExprThen};

use crate::reader::memory::boxed;
use kt_law::{BinOp, Place};
use kt_prog::{Expr, Name};
use kt_tokens::{Mark, Source, Symbol, Unread};
use sqlite_items::Boxed;
use std::alloc::Global;

/// The comparison that is next.
fn comparison(source: &Source<'_>) -> Option<BinOp>
    ensures { result ≡ comparison_of (next_of source.now).symbol }
{
    match source.mark() {
        Some(Mark::Eq) => Some(BinOp::Eq),
        Some(Mark::Ne) => Some(BinOp::Ne),
        Some(Mark::Lt) => Some(BinOp::Lt),
        Some(Mark::Le) => Some(BinOp::Le),
        Some(Mark::Gt) => Some(BinOp::Gt),
        Some(Mark::Ge) => Some(BinOp::Ge),
        _ => None,
    }
}

/// The sign between the terms of a sum that is next.
fn additive(source: &Source<'_>) -> Option<BinOp>
    ensures { result ≡ additive_of (next_of source.now).symbol }
{
    match source.mark() {
        Some(Mark::Plus) => Some(BinOp::Add),
        Some(Mark::Minus) => Some(BinOp::Sub),
        _ => None,
    }
}

/// The sign between the factors of a product that is next.
fn multiplicative(source: &Source<'_>) -> Option<BinOp>
    ensures { result ≡ multiplicative_of (next_of source.now).symbol }
{
    match source.mark() {
        Some(Mark::Star) => Some(BinOp::Mul),
        Some(Mark::Slash) => Some(BinOp::Div),
        Some(Mark::Percent) => Some(BinOp::Rem),
        _ => None,
    }
}

/// Whether what is next carries no expression on.
fn ends_expression(source: &Source<'_>) -> bool
    ensures { result ≡ after_expression (next_of source.now).symbol }
{
    !matches!(
        source.mark(),
        Some(
            Mark::SquareOpen
                | Mark::ParenOpen
                | Mark::Star
                | Mark::Slash
                | Mark::Percent
                | Mark::Plus
                | Mark::Minus
                | Mark::Eq
                | Mark::Ne
                | Mark::Lt
                | Mark::Le
                | Mark::Gt
                | Mark::Ge
        )
    )
}

/// The function of this name.
#[tactic(auto, unfolding(crate::specs::Operators::function_of))]
fn function(name: &Name) -> Option<BinOp>
    ensures { result ≡ function_of name.now }
{
    let text = name.as_bytes();
    if text == b"satadd".as_slice() {
        Some(BinOp::SatAdd)
    } else if text == b"min".as_slice() {
        Some(BinOp::Min)
    } else if text == b"max".as_slice() {
        Some(BinOp::Max)
    } else if text == b"and".as_slice() {
        Some(BinOp::And)
    } else if text == b"or".as_slice() {
        Some(BinOp::Or)
    } else if text == b"xor".as_slice() {
        Some(BinOp::Xor)
    } else {
        None
    }
}

fn binary(
    alloc: Global,
    op: BinOp,
    left: Boxed<Expr>,
    right: Boxed<Expr>,
) -> Result<Boxed<Expr>, Unread>
    ensures { MatchResult result (λ e. e ≡ Bin op left right) (λ why. why ≡ NoMemory) }
{
    boxed(alloc, Expr::Bin(op, left, right))
}

/// A function of two arguments.
fn call(alloc: Global, op: BinOp, left: Expr, right: Expr) -> Result<Expr, Unread>
    ensures { MatchResult result (λ e. e ≡ Bin op left right) (λ why. why ≡ NoMemory) }
{
    let left = boxed(alloc, left)?;
    let right = boxed(alloc, right)?;
    Ok(Expr::Bin(op, left, right))
}

/// The element of an object at this index.
pub(crate) fn element(alloc: Global, name: Name, place: Place, at: Expr) -> Result<Expr, Unread>
    ensures { MatchResult result (λ e. e ≡ Elem name place at) (λ why. why ≡ NoMemory) }
{
    let at = boxed(alloc, at)?;
    Ok(Expr::Elem(name, place, at))
}

/// `sum [ comparison sum ]`
#[cycle(expression)]
pub(crate) fn expression(alloc: Global, source: &mut Source<'_>) -> Result<Expr, Unread>
    ensures { Answers ReadsExpr after_expression source.old source.new result }
{
    let first = atom(alloc, source)?;
    expression_behind(alloc, source, first)
}

/// What is left of an expression behind its first atom. Most expressions are one atom, so one test tells of those first.
#[cycle(expression)]
pub(crate) fn expression_behind(
    alloc: Global,
    source: &mut Source<'_>,
    first: Expr,
) -> Result<Expr, Unread>
    ensures { Answers (AfterAtom first) after_expression source.old source.new result }
{
    if ends_expression(source) {
        return Ok(first);
    }
    let operand = boxed(alloc, first)?;
    let product = factors(alloc, source, operand)?;
    let sum = terms(alloc, source, product)?;
    compared(alloc, source, sum)
}

/// An expression and a sign behind it.
#[cycle(expression)]
pub(crate) fn expression_then(
    alloc: Global,
    source: &mut Source<'_>,
    mark: Mark,
) -> Result<Expr, Unread>
    requires { after_expression (S.Mark mark) ≡ true }
    ensures { Answers (ExprThen mark) any source.old source.new result }
{
    let inner = expression(alloc, source)?;
    source.expect(mark)?;
    Ok(inner)
}

/// What is left of an expression behind its first sum.
#[cycle(expression)]
fn compared(alloc: Global, source: &mut Source<'_>, left: Boxed<Expr>) -> Result<Expr, Unread>
    ensures { Answers (AfterSum left) after_expression source.old source.new result }
{
    let Some(op) = comparison(source) else {
        return Ok(left.into_inner());
    };
    source.advance()?;
    let right = sum(alloc, source)?;
    Ok(Expr::Bin(op, left, right))
}

/// `product { additive product }`
#[cycle(expression)]
fn sum(alloc: Global, source: &mut Source<'_>) -> Result<Boxed<Expr>, Unread>
    ensures { Answers ReadsSum after_sum source.old source.new result }
{
    let first = product(alloc, source)?;
    terms(alloc, source, first)
}

/// What is left of a sum behind its first product.
#[cycle(expression)]
fn terms(alloc: Global, source: &mut Source<'_>, first: Boxed<Expr>) -> Result<Boxed<Expr>, Unread>
    ensures { Answers (ReadsTerms first) after_sum source.old source.new result }
{
    let mut left = first;
    'terms: while let Some(op) = additive(source) {
        source.advance()?;
        let right = product(alloc, source)?;
        left = binary(alloc, op, left, right)?;
    }
    Ok(left)
}

/// `atom { multiplicative atom }`
#[cycle(expression)]
fn product(alloc: Global, source: &mut Source<'_>) -> Result<Boxed<Expr>, Unread>
    ensures { Answers ReadsProduct after_product source.old source.new result }
{
    let first = operand(alloc, source)?;
    factors(alloc, source, first)
}

/// What is left of a product behind its first atom.
#[cycle(expression)]
fn factors(
    alloc: Global,
    source: &mut Source<'_>,
    first: Boxed<Expr>,
) -> Result<Boxed<Expr>, Unread>
    ensures { Answers (ReadsFactors first) after_product source.old source.new result }
{
    let mut left = first;
    'factors: while let Some(op) = multiplicative(source) {
        source.advance()?;
        let right = operand(alloc, source)?;
        left = binary(alloc, op, left, right)?;
    }
    Ok(left)
}

/// An atom that is part of a larger expression.
#[cycle(expression)]
fn operand(alloc: Global, source: &mut Source<'_>) -> Result<Boxed<Expr>, Unread>
    ensures { Answers ReadsAtom after_atom source.old source.new result }
{
    let read = atom(alloc, source)?;
    boxed(alloc, read)
}

#[cycle(expression)]
fn atom(alloc: Global, source: &mut Source<'_>) -> Result<Expr, Unread>
    ensures { Answers ReadsAtom after_atom source.old source.new result }
{
    match &source.next().symbol {
        Symbol::Number(_) => {
            let number = source.number()?;
            Ok(Expr::Num(number))
        }
        Symbol::Name(_) => {
            let (name, place) = source.name()?;
            after_name(alloc, source, name, place)
        }
        _ => {
            source.expect(Mark::ParenOpen)?;
            expression_then(alloc, source, Mark::ParenClose)
        }
    }
}

/// What is left of an atom behind a name.
#[cycle(expression)]
pub(crate) fn after_name(
    alloc: Global,
    source: &mut Source<'_>,
    name: Name,
    place: Place,
) -> Result<Expr, Unread>
    ensures { Answers (AfterName name place) after_atom source.old source.new result }
{
    if source.is(Mark::SquareOpen) {
        source.expect(Mark::SquareOpen)?;
        let at = expression_then(alloc, source, Mark::SquareClose)?;
        return element(alloc, name, place, at);
    }
    let Some(op) = function(&name) else {
        return Ok(Expr::Var(name, place));
    };
    if !source.is(Mark::ParenOpen) {
        return Ok(Expr::Var(name, place));
    }
    source.expect(Mark::ParenOpen)?;
    let left = expression_then(alloc, source, Mark::Comma)?;
    let right = expression_then(alloc, source, Mark::ParenClose)?;
    call(alloc, op, left, right)
}
