ghost use Rattle.std.specs.Prelude.{◌<◌};

use crate::{CheckRefusal, check, check_indexed};
use kt_law::{Mode, P, Place, Refusal};
use kt_prog::{Expr, Family, Index, Main, Name, Param, Program, Sort, Stmt, Task, What};
use sqlite_items::Items;
use std::alloc::{AllocError, Global};

fn at(column: u32) -> Place {
    Place { line: 1, column }
}

fn is_refused(program: &Program, code: P, column: u32) -> bool {
    match check(program) {
        Ok(()) => false,
        Err(refusal) => {
            refusal.code == code && refusal.place.line == 1 && refusal.place.column == column
        }
    }
}

fn without_main(alloc: Global, end: u32) -> Program {
    Program {
        families: Items::new(alloc),
        tasks: Items::new(alloc),
        mains: Items::new(alloc),
        end: at(end),
    }
}

fn add_main(alloc: Global, program: &mut Program, column: u32) -> Result<(), AllocError> {
    program.mains.push(Main {
        place: at(column),
        body: Items::new(alloc),
    })
}

fn add_object(program: &mut Program, column: u32, elements: u64) -> Result<(), AllocError> {
    program.families.push(Family {
        name: Name::new(b"A"),
        place: at(column),
        many: false,
        members: 1,
        elements,
        input: false,
        output: false,
    })
}

// `t` with the parameter `P` and the statement `P[0] = 1;`
fn add_task(
    alloc: Global,
    program: &mut Program,
    index: Option<Index>,
    mode: Mode,
    column: u32,
) -> Result<(), AllocError>
    requires { column < 1000 }
{
    let mut params = Items::new(alloc);
    params.push(Param {
        place: at(column),
        name: Name::new(b"P"),
        name_place: at(column + 2),
        sort: Sort::One(mode),
    })?;
    let mut body = Items::new(alloc);
    body.push(Stmt {
        place: at(column + 7),
        what: What::Store(Name::new(b"P"), at(column + 7), Expr::Num(0), Expr::Num(1)),
    })?;
    program.tasks.push(Task {
        name: Name::new(b"t"),
        place: at(column),
        index,
        params,
        body,
    })
}

fn fork(alloc: Global, column: u32) -> Result<Items<Stmt>, AllocError>
    requires { column < 1000 }
{
    let mut body = Items::new(alloc);
    body.push(Stmt {
        place: at(column),
        what: What::Fork(Name::new(b"t"), at(column + 5), None, Items::new(alloc)),
    })?;
    Ok(body)
}

#[test]
fn declarations_are_tested(rt: HostRuntime) -> Result<(), AllocError> {
    let alloc = rt.alloc();
    assert!(rt; is_refused(&without_main(alloc, 1), P::P13, 1));
    let mut twice = without_main(alloc, 39);
    add_object(&mut twice, 8, 1)?;
    add_object(&mut twice, 23, 1)?;
    add_main(alloc, &mut twice, 31)?;
    assert!(rt; is_refused(&twice, P::P5, 23));
    let mut wide = without_main(alloc, 27);
    add_object(&mut wide, 8, 4_097)?;
    add_main(alloc, &mut wide, 19)?;
    assert!(rt; is_refused(&wide, P::P12, 8));
    Ok(())
}

#[test]
fn bodies_are_tested(rt: HostRuntime) -> Result<(), AllocError> {
    let alloc = rt.alloc();
    for (mode, code, column) in [(Mode::R, P::P10, 27), (Mode::Wp, P::P10, 27)] {
        let mut program = without_main(alloc, 51);
        add_task(alloc, &mut program, None, mode, 20)?;
        add_main(alloc, &mut program, 43)?;
        assert!(rt; is_refused(&program, code, column));
    }
    let mut right = without_main(alloc, 51);
    add_task(alloc, &mut right, None, Mode::X, 20)?;
    add_main(alloc, &mut right, 43)?;
    assert!(rt; check(&right).is_ok());
    let mut shared = without_main(alloc, 41);
    let index = Index {
        name: Name::new(b"i"),
        place: at(8),
    };
    add_task(alloc, &mut shared, Some(index), Mode::X, 11)?;
    add_main(alloc, &mut shared, 33)?;
    assert!(rt; is_refused(&shared, P::P11, 18));
    Ok(())
}

#[test]
fn forks_are_tested(rt: HostRuntime) -> Result<(), AllocError> {
    let alloc = rt.alloc();
    let mut unknown = without_main(alloc, 20);
    unknown.mains.push(Main {
        place: at(1),
        body: fork(alloc, 8)?,
    })?;
    assert!(rt; is_refused(&unknown, P::P6, 13));
    let mut short = without_main(alloc, 34);
    add_task(alloc, &mut short, None, Mode::X, 6)?;
    short.mains.push(Main {
        place: at(20),
        body: fork(alloc, 20)?,
    })?;
    assert!(rt; is_refused(&short, P::P7, 25));
    Ok(())
}

#[test]
fn names_out_of_reach_are_found(rt: HostRuntime) -> Result<(), AllocError> {
    let alloc = rt.alloc();
    let mut right = without_main(alloc, 51);
    add_task(alloc, &mut right, None, Mode::X, 20)?;
    add_main(alloc, &mut right, 43)?;
    assert!(rt; check_indexed(alloc, &right).is_ok());
    let mut many = without_main(alloc, 60);
    many.mains.push(Main {
        place: at(1),
        body: fork(alloc, 8)?,
    })?;
    for line in 2..5_000 {
        many.tasks.push(Task {
            name: Name::new(b"u"),
            place: Place { line, column: 6 },
            index: None,
            params: Items::new(alloc),
            body: Items::new(alloc),
        })?;
    }
    // `t` is out of reach. Where it is found, the fork has an argument too few.
    add_task(alloc, &mut many, None, Mode::X, 40)?;
    assert!(rt;
        matches!(
            check_indexed(alloc, &many),
            Err(CheckRefusal::Refused(Refusal { code: P::P7, .. }))
        )
    );
    assert!(rt; is_refused(&many, P::P7, 13));
    Ok(())
}
