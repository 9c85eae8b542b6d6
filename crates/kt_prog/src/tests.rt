ghost use Rattle.std.specs.Prelude.{◌≡◌, ◌<◌, ◌^◌, IfOk};
ghost use Rattle.kt_prog.specs.Objects.{elements_of, objects_of};

use crate::{
    Family, FaultAt, NAMES, Name, PATH, Program, elements, first_element, inputs, objects, width,
};
use arrayvec::ArrayVec;
use kt_law::{F, Place};
use sqlite_items::Items;
use std::alloc::{AllocError, Global};

const NOWHERE: Place = Place { line: 1, column: 1 };

#[test]
fn a_name_is_its_bytes(rt: HostRuntime) {
    let name = Name::new(b"k_mul");
    assert_eq!(rt; name.as_str(), "k_mul");
    assert!(rt; name.is(&name.copied()));
    assert!(rt; !name.is(&Name::new(b"k_mu")));
}

#[test]
fn limits_are_those_of_the_language(rt: HostRuntime) {
    // 8 ints, 8 objects, an index, and 64 `let` and `for` names
    assert_eq!(rt; NAMES, 81);
    assert_eq!(rt; PATH, 32);
}

// `object A[4] of 3 input; object B of 2;`
fn two_families(alloc: Global) -> Result<Program, AllocError>
    ensures objects { IfOk result (λ p. objects_of p.families ≡ 5) }
    ensures elements { IfOk result (λ p. elements_of p.families ≡ 14) }
{
    let mut families = Items::new(alloc);
    families.push(Family {
        name: Name::new(b"A"),
        place: NOWHERE,
        many: true,
        members: 4,
        elements: 3,
        input: true,
        output: false,
    })?;
    families.push(Family {
        name: Name::new(b"B"),
        place: NOWHERE,
        many: false,
        members: 1,
        elements: 2,
        input: false,
        output: true,
    })?;
    Ok(Program {
        families,
        tasks: Items::new(alloc),
        mains: Items::new(alloc),
        end: NOWHERE,
    })
}

#[test]
fn members_are_numbered_in_the_order_of_the_text(rt: HostRuntime) -> Result<(), AllocError> {
    let program = two_families(rt.alloc())?;
    assert_eq!(rt; objects(&program), 5);
    assert_eq!(rt; elements(&program), 14);
    assert_eq!(rt; inputs(&program), 12);
    for (object, first, count) in [(0, 0, 3), (3, 9, 3), (4, 12, 2)] {
        assert_eq!(rt; first_element(&program, object), first);
        assert_eq!(rt; width(&program, object), count);
    }
    Ok(())
}

// of task 2, or of a child of it
fn fault(child: Option<u32>, index: Option<u32>) -> FaultAt {
    let mut path = ArrayVec::new();
    path.push(2);
    match child {
        Some(n) => path.push(n),
        None => {}
    }
    FaultAt {
        path,
        index,
        fault: F::F1,
        line: 7,
    }
}

#[test]
fn faults_come_by_path_and_then_by_index(rt: HostRuntime) {
    let here = fault(None, None);
    assert!(rt; here.is_before(&fault(None, Some(0))));
    assert!(rt; fault(None, Some(3)).is_before(&fault(Some(1), None)));
    assert!(rt; fault(Some(1), None).is_before(&fault(Some(2), None)));
    assert!(rt; !fault(Some(1), None).is_before(&here) && !here.is_before(&here));
}
