ghost use Rattle.kt_prog.specs.Names.{IsName};

use super::expressions::push_expr;
use crate::print_program;
use kt_law::{BinOp, Mode, Op, Place};
use kt_prog::{
    Arg, ArgWhat, Expr, Family, Index, Main, Name, Param, Program, Sort, Stmt, Task, What,
};
use sqlite_items::{Boxed, Items};
use std::alloc::{AllocError, Global};
use std::test::Fail;

const HERE: Place = Place { line: 1, column: 1 };

const WHOLE: &str = "object A of 3 input output;
object B[4] of 12;
task t(int a, cw(add) A) {
  let b = 7;
  b = a % 2;
  A[b] add= 1;
  for j in 0..b {
    if j == 0 {
      b = 1;
    }
    if j {
    } else {
      b = 2;
    }
  }
}
loop l(i; w A, cwp(xor) B, xp C[]) {
  A[i] = A[0];
}
loop n(i;) {
}
main {
  fork t(5, A);
  fork l(3; A, B[0], B[1..4]);
  fork n(10;);
}
data
";

fn bin(alloc: Global, op: BinOp, left: Expr, right: Expr) -> Result<Expr, AllocError> {
    let left = Boxed::new(alloc, left)?;
    let right = Boxed::new(alloc, right)?;
    Ok(Expr::Bin(op, left, right))
}

fn var(text: &[u8; 1]) -> Expr
    requires { IsName text.now }
{
    Expr::Var(Name::new(text), HERE)
}

#[test]
fn operands_are_grouped_where_the_grammar_needs_it(rt: HostRuntime) -> Result<(), Fail> {
    let alloc = rt.alloc();
    for (outer, inner, on_left, on_right) in [
        (BinOp::Mul, BinOp::Add, "(a + b) * c", "a * (b + c)"),
        (BinOp::Add, BinOp::Mul, "a * b + c", "a + b * c"),
        (BinOp::Sub, BinOp::Sub, "a - b - c", "a - (b - c)"),
        (BinOp::Div, BinOp::Rem, "a % b / c", "a / (b % c)"),
        (BinOp::Lt, BinOp::Eq, "(a == b) < c", "a < (b == c)"),
        (BinOp::Add, BinOp::Gt, "(a > b) + c", "a + (b > c)"),
        (BinOp::Ge, BinOp::Add, "a + b >= c", "a >= b + c"),
        (BinOp::Mul, BinOp::Min, "min(a, b) * c", "a * min(b, c)"),
        (
            BinOp::SatAdd,
            BinOp::Ne,
            "satadd(a != b, c)",
            "satadd(a, b != c)",
        ),
    ] {
        let inside = bin(alloc, inner, var(b"a"), var(b"b"))?;
        let mut text = String::new(alloc);
        push_expr(&mut text, &bin(alloc, outer, inside, var(b"c"))?)?;
        assert_eq!(rt; text.as_str(), on_left);
        let inside = bin(alloc, inner, var(b"b"), var(b"c"))?;
        let mut text = String::new(alloc);
        push_expr(&mut text, &bin(alloc, outer, var(b"a"), inside)?)?;
        assert_eq!(rt; text.as_str(), on_right);
    }
    Ok(())
}

fn family(name: Name, many: bool, members: u64, elements: u64, named: bool) -> Family {
    Family {
        name,
        place: HERE,
        many,
        members,
        elements,
        input: named,
        output: named,
    }
}

fn param(sort: Sort, name: Name) -> Param {
    Param {
        place: HERE,
        name,
        name_place: HERE,
        sort,
    }
}

fn stmt(what: What) -> Stmt {
    Stmt { place: HERE, what }
}

fn set(value: Expr) -> Stmt {
    stmt(What::Set(Name::new(b"b"), HERE, value))
}

fn argument(e: Expr) -> Arg {
    Arg {
        place: HERE,
        what: ArgWhat::Value(e),
    }
}

fn element(alloc: Global, name: Name, at: u64) -> Result<Expr, AllocError> {
    Ok(Expr::Elem(name, HERE, Boxed::new(alloc, Expr::Num(at))?))
}

fn turns(alloc: Global) -> Result<Stmt, AllocError> {
    let test = bin(alloc, BinOp::Eq, var(b"j"), Expr::Num(0))?;
    let first = Items::from_vec(vec![in alloc; set(Expr::Num(1))]?);
    let second = Items::from_vec(vec![in alloc; set(Expr::Num(2))]?);
    let body = vec![in alloc;
        stmt(What::If(test, first, Items::new(alloc))),
        stmt(What::If(var(b"j"), Items::new(alloc), second)),
    ]?;
    let body = Items::from_vec(body);
    Ok(stmt(What::For(Name::new(b"j"), HERE, Expr::Num(0), var(b"b"), body)))
}

fn task(alloc: Global) -> Result<Task, AllocError> {
    let params = vec![in alloc;
        param(Sort::Int, Name::new(b"a")),
        param(Sort::One(Mode::Cw(Op::Add)), Name::new(b"A")),
    ]?;
    let body = vec![in alloc;
        stmt(What::Let(Name::new(b"b"), HERE, Expr::Num(7))),
        set(bin(alloc, BinOp::Rem, var(b"a"), Expr::Num(2))?),
        stmt(What::Fold(Name::new(b"A"), HERE, var(b"b"), Op::Add, Expr::Num(1))),
        turns(alloc)?,
    ]?;
    Ok(Task {
        name: Name::new(b"t"),
        place: HERE,
        index: None,
        params: Items::from_vec(params),
        body: Items::from_vec(body),
    })
}

fn named_loop(name: Name, params: Items<Param>, body: Items<Stmt>) -> Task {
    Task {
        name,
        place: HERE,
        index: Some(Index {
            name: Name::new(b"i"),
            place: HERE,
        }),
        params,
        body,
    }
}

fn wide_loop(alloc: Global) -> Result<Task, AllocError> {
    let params = vec![in alloc;
        param(Sort::One(Mode::W), Name::new(b"A")),
        param(Sort::One(Mode::Cwp(Op::Xor)), Name::new(b"B")),
        param(Sort::Many(Mode::Xp), Name::new(b"C")),
    ]?;
    let value = element(alloc, Name::new(b"A"), 0)?;
    let body = vec![in alloc; stmt(What::Store(Name::new(b"A"), HERE, var(b"i"), value))]?;
    Ok(named_loop(
        Name::new(b"l"),
        Items::from_vec(params),
        Items::from_vec(body),
    ))
}

fn main(alloc: Global) -> Result<Main, AllocError> {
    let to_task = vec![in alloc; argument(Expr::Num(5)), argument(var(b"A"))]?;
    let span = Arg {
        place: HERE,
        what: ArgWhat::Span(Name::new(b"B"), HERE, Expr::Num(1), Expr::Num(4)),
    };
    let single = argument(element(alloc, Name::new(b"B"), 0)?);
    let to_loop = vec![in alloc; argument(var(b"A")), single, span]?;
    let body = vec![in alloc;
        stmt(What::Fork(Name::new(b"t"), HERE, None, Items::from_vec(to_task))),
        stmt(What::Fork(
            Name::new(b"l"),
            HERE,
            Some(Expr::Num(3)),
            Items::from_vec(to_loop)
        )),
        stmt(What::Fork(
            Name::new(b"n"),
            HERE,
            Some(Expr::Num(10)),
            Items::new(alloc)
        )),
    ]?;
    Ok(Main {
        place: HERE,
        body: Items::from_vec(body),
    })
}

#[test]
fn a_program_is_printed_whole(rt: HostRuntime) -> Result<(), Fail> {
    let alloc = rt.alloc();
    let families = vec![in alloc;
        family(Name::new(b"A"), false, 1, 3, true),
        family(Name::new(b"B"), true, 4, 12, false),
    ]?;
    let empty = named_loop(Name::new(b"n"), Items::new(alloc), Items::new(alloc));
    let program = Program {
        families: Items::from_vec(families),
        tasks: Items::from_vec(vec![in alloc; task(alloc)?, wide_loop(alloc)?, empty]?),
        mains: Items::from_vec(vec![in alloc; main(alloc)?]?),
        end: HERE,
    };
    let text = print_program(alloc, &program)?;
    assert_eq!(rt; text.as_slice(), WHOLE.as_bytes());
    Ok(())
}
