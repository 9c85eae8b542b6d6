ghost use Rattle.std.specs.Prelude.{◌≡◌, IfOk};
ghost use Rattle.kt_prog.specs.Objects.{elements_of};

use crate::{Line, line_bytes, rows_bytes};
use arrayvec::ArrayVec;
use kt_law::{F, P, Place, Refusal};
use kt_prog::{Family, FaultAt, Name, Program};
use sqlite_items::Items;
use std::alloc::{AllocError, Global};
use std::test::Fail;

const NOWHERE: Place = Place { line: 1, column: 1 };

// `object A of 1 input output; object C of 2 input; object B[2] of 2 output;`
fn three_families(alloc: Global) -> Result<Program, AllocError>
    ensures { IfOk result (λ p. elements_of p.families ≡ 7) }
{
    let mut families = Items::new(alloc);
    families.push(Family {
        name: Name::new(b"A"),
        place: NOWHERE,
        many: false,
        members: 1,
        elements: 1,
        input: true,
        output: true,
    })?;
    families.push(Family {
        name: Name::new(b"C"),
        place: NOWHERE,
        many: false,
        members: 1,
        elements: 2,
        input: true,
        output: false,
    })?;
    families.push(Family {
        name: Name::new(b"B"),
        place: NOWHERE,
        many: true,
        members: 2,
        elements: 2,
        input: false,
        output: true,
    })?;
    Ok(Program {
        families,
        tasks: Items::new(alloc),
        mains: Items::new(alloc),
        end: NOWHERE,
    })
}

#[test]
fn rows_are_lines_of_output_families(rt: HostRuntime) -> Result<(), Fail> {
    let program = three_families(rt.alloc())?;
    let text = rows_bytes(
        rt.alloc(),
        &program,
        &[42, 7, 8, 1, 2, 3, 18446744073709551615],
    )?;
    assert_eq!(rt;
        text.as_slice(),
        b"A[0] 42\nB[0] 1 2\nB[1] 3 18446744073709551615\n".as_slice()
    );
    Ok(())
}

#[test]
fn lines_tell_how_a_call_ended(rt: HostRuntime) -> Result<(), Fail> {
    let place = Place {
        line: 12,
        column: 7,
    };
    let refusal = Refusal { code: P::P9, place };
    for (line, text) in [
        (Line::Usage, "usage\n"),
        (Line::TooLong, "too long\n"),
        (Line::Refused(refusal), "refused P9 12:7\n"),
        (Line::BadNumber(place), "data B1 12:7\n"),
        (Line::TooFew(7, 9), "data B2 7 9\n"),
        (Line::TooMany(place), "data B3 12:7\n"),
        (Line::Limit, "limit\n"),
        (Line::Totals(3, 16, 5440), "tasks 3 indexes 16 sum 5440\n"),
    ] {
        assert_eq!(rt; line_bytes(rt.alloc(), &line)?.as_slice(), text.as_bytes());
    }
    Ok(())
}

#[test]
fn a_fault_tells_its_path(rt: HostRuntime) -> Result<(), Fail> {
    let whole = FaultAt {
        path: ArrayVec::new(),
        index: None,
        fault: F::F4,
        line: 3,
    };
    let text = line_bytes(rt.alloc(), &Line::Fault(whole))?;
    assert_eq!(rt; text.as_slice(), b"fault F4 main line 3\n".as_slice());
    let mut path = ArrayVec::new();
    path.push(1);
    path.push(3);
    path.push(2);
    let indexed = FaultAt {
        path,
        index: Some(17),
        fault: F::F2,
        line: 9,
    };
    let text = line_bytes(rt.alloc(), &Line::Fault(indexed))?;
    assert_eq!(rt;
        text.as_slice(),
        b"fault F2 1.3.2 index 17 line 9\n".as_slice()
    );
    Ok(())
}
