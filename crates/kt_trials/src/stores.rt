// The plain store.
use crate::jobs::opened;
use kt_law::Op;
use kt_prog::{inputs, laws, objects, width};
use kt_store::PlainStore;
use std::test::Fail;

const FAMILIES: &str =
    "object A[2] of 3 input output; object B of 1 output; object C of 2 input output; main {} data 1 2 3 4 5 6 7 8";

#[test]
fn acts_change_one_element(rt: HostRuntime) -> Result<(), Fail> {
    let alloc = rt.alloc();
    let (program, input) = opened(alloc, FAMILIES)?;
    laws::few_objects();
    let wanted = inputs(&program) as usize;
    assert!(rt; wanted == input.len());
    assert!(rt; wanted == 8);
    let mut store = PlainStore::open(alloc, &program, &input)?;
    assert!(rt; store.elements() == [1, 2, 3, 4, 5, 6, 0, 7, 8].as_slice());
    assert!(rt; store.program().families.len() == 3);
    let there = objects(&program) == 4 && width(&program, 1) == 3 && width(&program, 3) == 2;
    assert!(rt; there);
    assert!(rt; store.load(1, 2) == 6);
    store.store(1, 0, 40);
    store.fold(3, 1, Op::Add, 5);
    store.fold(3, 1, Op::Max, 9);
    assert!(rt; store.load(1, 0) == 40 && store.load(3, 1) == 13);
    let elements = store.into_elements();
    assert!(rt; elements.as_slice() == [1, 2, 3, 40, 5, 6, 0, 7, 13].as_slice());
    Ok(())
}
