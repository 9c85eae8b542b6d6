// The text of expressions.
ghost use Rattle.std.specs.Prelude.{◌≡◌, ◌++◌, OnOk, codes, string_bytes};
ghost use Rattle.kt_print.specs.CanonicalExpressions.{expr_text, operand_text, printed, sign_of};

use super::operators::{Level, is_left_grouped, is_right_grouped, operator_level, sign};
use kt_law::BinOp;
use kt_prog::Expr;
use std::alloc::AllocError;

fn expr_level(e: &Expr) -> Level
    ensures { result ≡ (printed e.now).level }
{
    match e {
        Expr::Bin(op, _, _) => operator_level(*op),
        _ => Level::Atom,
    }
}

/// Adds the sign with one blank on each side.
fn push_infix_sign(text: &mut String, op: BinOp) -> Result<(), AllocError>
    ensures { OnOk result (string_bytes text.new
        ≡ string_bytes text.old ++ (codes " " ++ (sign_of op ++ codes " "))) }
{
    let sign = sign(op);
    write!(text, " {sign} ")
}

#[cycle(expression)]
pub fn push_expr(text: &mut String, e: &Expr) -> Result<(), AllocError>
    ensures { OnOk result (string_bytes text.new ≡ string_bytes text.old ++ expr_text e.now) }
{
    match e {
        Expr::Num(number) => write!(text, "{number}"),
        Expr::Var(name, _) => text.push_str(name.as_str()),
        Expr::Elem(name, _, at) => {
            text.push_str(name.as_str())?;
            text.push('[')?;
            push_expr(text, at.get())?;
            text.push(']')
        }
        Expr::Bin(op, a, b) => match operator_level(*op) {
            Level::Atom => {
                text.push_str(sign(*op))?;
                text.push('(')?;
                push_expr(text, a.get())?;
                text.push_str(", ")?;
                push_expr(text, b.get())?;
                text.push(')')
            }
            level => {
                let left = a.get();
                let right = b.get();
                push_operand(text, is_left_grouped(level, expr_level(left)), left)?;
                push_infix_sign(text, *op)?;
                push_operand(text, is_right_grouped(level, expr_level(right)), right)
            }
        },
    }
}

#[cycle(expression)]
fn push_operand(text: &mut String, grouped: bool, e: &Expr) -> Result<(), AllocError>
    ensures { OnOk result (string_bytes text.new
        ≡ string_bytes text.old ++ operand_text grouped (expr_text e.now)) }
{
    if grouped {
        text.push('(')?;
        push_expr(text, e)?;
        text.push(')')
    } else {
        push_expr(text, e)
    }
}
