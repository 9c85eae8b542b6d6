// The words and signs of operators, and how tightly they bind.
ghost use Rattle.std.specs.Prelude.{◌≡◌};
ghost use Rattle.kt_print.specs.CanonicalExpressions.{left_grouped, level_of, right_grouped, sign_of};
ghost use Rattle.kt_print.specs.CanonicalWords.{op_word};

use kt_law::{BinOp, Op};

/// What an expression is to the grammar. Each level binds tighter than the one before it.
#[derive(Clone, Copy, Debug, PartialEq, Eq)]
pub enum Level {
    Comparison,
    Sum,
    Product,
    /// A number, a name, an element or a function.
    Atom,
}

pub fn operator_level(op: BinOp) -> Level
    ensures { result ≡ level_of op }
{
    match op {
        BinOp::Eq | BinOp::Ne | BinOp::Lt | BinOp::Le | BinOp::Gt | BinOp::Ge => Level::Comparison,
        BinOp::Add | BinOp::Sub => Level::Sum,
        BinOp::Mul | BinOp::Div | BinOp::Rem => Level::Product,
        BinOp::SatAdd | BinOp::Min | BinOp::Max | BinOp::And | BinOp::Or | BinOp::Xor =>
            Level::Atom,
    }
}

/// The sign of an infix operator, or the word of a function.
pub fn sign(op: BinOp) -> &'static str
    ensures { result.now ≡ sign_of op }
{
    match op {
        BinOp::Add => "+",
        BinOp::Sub => "-",
        BinOp::Mul => "*",
        BinOp::Div => "/",
        BinOp::Rem => "%",
        BinOp::SatAdd => "satadd",
        BinOp::Min => "min",
        BinOp::Max => "max",
        BinOp::And => "and",
        BinOp::Or => "or",
        BinOp::Xor => "xor",
        BinOp::Eq => "==",
        BinOp::Ne => "!=",
        BinOp::Lt => "<",
        BinOp::Le => "<=",
        BinOp::Gt => ">",
        BinOp::Ge => ">=",
    }
}

pub fn word(op: Op) -> &'static str
    ensures { result.now ≡ op_word op }
{
    match op {
        Op::Add => "add",
        Op::Min => "min",
        Op::Max => "max",
        Op::And => "and",
        Op::Or => "or",
        Op::Xor => "xor",
    }
}

/// Whether the left operand of an operator needs parentheses.
pub fn is_left_grouped(operator: Level, operand: Level) -> bool
    ensures { result ≡ left_grouped operator operand }
{
    match (operator, operand) {
        (_, Level::Comparison) | (Level::Product, Level::Sum) => true,
        _ => false,
    }
}

/// Whether the right operand of an operator needs parentheses.
pub fn is_right_grouped(operator: Level, operand: Level) -> bool
    ensures { result ≡ right_grouped operator operand }
{
    match (operator, operand) {
        (_, Level::Comparison) => true,
        (Level::Sum | Level::Product, Level::Sum) => true,
        (Level::Product, Level::Product) => true,
        _ => false,
    }
}
