// The text of statements.
ghost use Rattle.std.specs.Prelude.{◌≡◌, ◌++◌, OnOk, codes, map, string_bytes};
ghost use Rattle.kt_print.specs.CanonicalExpressions.{expr_text};
ghost use Rattle.kt_print.specs.CanonicalStatements.{argument_text, arguments_text, block_text, element_text, else_text, forked_text, span_text, text_of_stmt, text_of_what};
ghost use Rattle.kt_print.specs.CanonicalWords.{blanks, op_word};

use super::expressions::push_expr;
use super::operators::word;
use kt_law::Op;
use kt_prog::{Arg, ArgWhat, Expr, Name, Stmt, What};
use std::alloc::AllocError;

fn push_blanks(text: &mut String, count: usize) -> Result<(), AllocError>
    ensures { OnOk result (string_bytes text.new ≡ string_bytes text.old ++ blanks count) }
{
    for _blank in 0..count {
        text.push(' ')?;
    }
    Ok(())
}

/// Adds `N[E]`.
fn push_element(text: &mut String, name: &Name, at: &Expr) -> Result<(), AllocError>
    ensures { OnOk result (string_bytes text.new
        ≡ string_bytes text.old ++ element_text name.now at.now) }
{
    text.push_str(name.as_str())?;
    text.push('[')?;
    push_expr(text, at)?;
    text.push(']')
}

/// Adds ` = E;` and the line's end.
fn push_value(text: &mut String, value: &Expr) -> Result<(), AllocError>
    ensures { OnOk result (string_bytes text.new
        ≡ string_bytes text.old ++ (codes " = " ++ (expr_text value.now ++ codes ";\n"))) }
{
    text.push_str(" = ")?;
    push_expr(text, value)?;
    text.push_str(";\n")
}

/// Adds `E..E`.
fn push_span(text: &mut String, from: &Expr, to: &Expr) -> Result<(), AllocError>
    ensures { OnOk result (string_bytes text.new
        ≡ string_bytes text.old ++ span_text from.now to.now) }
{
    push_expr(text, from)?;
    text.push_str("..")?;
    push_expr(text, to)
}

fn push_argument(text: &mut String, what: &ArgWhat) -> Result<(), AllocError>
    ensures { OnOk result (string_bytes text.new
        ≡ string_bytes text.old ++ argument_text what.now) }
{
    match what {
        ArgWhat::Value(e) => push_expr(text, e),
        ArgWhat::Span(name, _, from, to) => {
            text.push_str(name.as_str())?;
            text.push('[')?;
            push_span(text, from, to)?;
            text.push(']')
        }
    }
}

/// Adds the arguments, the first behind `lead` and the others each behind a comma.
fn push_arguments(text: &mut String, lead: &str, args: &[Arg]) -> Result<(), AllocError>
    ensures { OnOk result (string_bytes text.new
        ≡ string_bytes text.old ++ arguments_text lead.now args.now) }
{
    let mut before = lead;
    for arg in args {
        text.push_str(before)?;
        push_argument(text, &arg.what)?;
        before = ", ";
    }
    Ok(())
}

/// Adds what stands between the parentheses of a fork.
fn push_forked(text: &mut String, length: &Option<Expr>, args: &[Arg]) -> Result<(), AllocError>
    ensures { OnOk result (string_bytes text.new
        ≡ string_bytes text.old ++ forked_text length.now args.now) }
{
    match length {
        None => push_arguments(text, "", args),
        Some(length) => {
            push_expr(text, length)?;
            text.push(';')?;
            push_arguments(text, " ", args)
        }
    }
}

/// Adds `if E {` and the line's end.
fn push_test(text: &mut String, test: &Expr) -> Result<(), AllocError>
    ensures { OnOk result (string_bytes text.new
        ≡ string_bytes text.old ++ (codes "if " ++ (expr_text test.now ++ codes " {\n"))) }
{
    text.push_str("if ")?;
    push_expr(text, test)?;
    text.push_str(" {\n")
}

/// Adds `for v in E..E {` and the line's end.
fn push_turns(text: &mut String, name: &Name, from: &Expr, to: &Expr) -> Result<(), AllocError>
    ensures { OnOk result (string_bytes text.new
        ≡ string_bytes text.old ++ (codes "for " ++ (name.now
        ++ (codes " in " ++ (span_text from.now to.now ++ codes " {\n"))))) }
{
    let name = name.as_str();
    write!(text, "for {name} in ")?;
    push_span(text, from, to)?;
    text.push_str(" {\n")
}

/// Adds ` op= E;` and the line's end.
fn push_change(text: &mut String, op: Op, value: &Expr) -> Result<(), AllocError>
    ensures { OnOk result (string_bytes text.new
        ≡ string_bytes text.old ++ (codes " "
        ++ (op_word op ++ (codes "= " ++ (expr_text value.now ++ codes ";\n"))))) }
{
    let word = word(op);
    write!(text, " {word}= ")?;
    push_expr(text, value)?;
    text.push_str(";\n")
}

/// Adds the lines of a statement, the first behind `indent` blanks.
#[cycle(statement)]
fn push_what(text: &mut String, indent: usize, what: &What) -> Result<(), AllocError>
    ensures { OnOk result (string_bytes text.new
        ≡ string_bytes text.old ++ text_of_what what.now indent) }
{
    push_blanks(text, indent)?;
    match what {
        What::Let(name, _, value) => {
            let name = name.as_str();
            write!(text, "let {name}")?;
            push_value(text, value)
        }
        What::Set(name, _, value) => {
            text.push_str(name.as_str())?;
            push_value(text, value)
        }
        What::Store(name, _, at, value) => {
            push_element(text, name, at)?;
            push_value(text, value)
        }
        What::Fold(name, _, at, op, value) => {
            push_element(text, name, at)?;
            push_change(text, *op, value)
        }
        What::If(test, then_do, else_do) => {
            push_test(text, test)?;
            push_block(text, indent, then_do.as_slice())?;
            push_else(text, indent, else_do.as_slice())?;
            push_end(text, indent)
        }
        What::For(name, _, from, to, body) => {
            push_turns(text, name, from, to)?;
            push_block(text, indent, body.as_slice())?;
            push_end(text, indent)
        }
        What::Fork(name, _, length, args) => {
            let name = name.as_str();
            write!(text, "fork {name}(")?;
            push_forked(text, length, args.as_slice())?;
            text.push_str(");\n")
        }
    }
}

/// Adds the `else` block of an `if` up to its last statement, or nothing where it is empty.
#[cycle(statement)]
fn push_else(text: &mut String, indent: usize, body: &[Stmt]) -> Result<(), AllocError>
    ensures { OnOk result (string_bytes text.new
        ≡ string_bytes text.old ++ else_text (map text_of_stmt body.now) indent) }
{
    if body.is_empty() {
        return Ok(());
    }
    push_blanks(text, indent)?;
    text.push_str("} else {\n")?;
    push_block(text, indent, body)
}

/// Adds the line that ends a block.
pub fn push_end(text: &mut String, indent: usize) -> Result<(), AllocError>
    ensures { OnOk result (string_bytes text.new
        ≡ string_bytes text.old ++ (blanks indent ++ codes "}\n")) }
{
    push_blanks(text, indent)?;
    text.push_str("}\n")
}

/// Adds the statements of a block whose `{` stands on a line behind `indent` blanks.
#[cycle(statement)]
pub fn push_block(text: &mut String, indent: usize, body: &[Stmt]) -> Result<(), AllocError>
    ensures { OnOk result (string_bytes text.new
        ≡ string_bytes text.old ++ block_text (map text_of_stmt body.now) indent) }
{
    // so many blanks are more than memory holds
    let deeper = indent.checked_add(2).ok_or(AllocError)?;
    for stmt in body {
        push_what(text, deeper, &stmt.what)?;
    }
    Ok(())
}
