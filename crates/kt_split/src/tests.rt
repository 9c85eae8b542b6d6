// Worked splits and chunks.
use crate::{Chunk, Division, split, take_chunk};
use kt_words::Pair;

fn interval(low: u32, high: u32) -> Pair {
    Pair { low, high }
}

/// Whether a split leaves this to the victim, and gives these pieces.
fn gives(division: &Division, left: Pair, pieces: &[Pair]) -> bool {
    match division {
        Division::Short(_) => false,
        Division::Cut(cut) => cut.left == left && cut.pieces.as_slice() == pieces,
    }
}

#[test]
fn ten_for_three_leave_three(rt: HostRuntime) {
    let pieces = [interval(3, 6), interval(6, 8), interval(8, 10)];
    assert!(rt; gives(&split(interval(0, 10), 3), interval(0, 3), &pieces));
}

#[test]
fn ten_for_two_leave_four(rt: HostRuntime) {
    let pieces = [interval(4, 7), interval(7, 10)];
    assert!(rt; gives(&split(interval(0, 10), 2), interval(0, 4), &pieces));
}

#[test]
fn six_for_one_leave_three(rt: HostRuntime) {
    let pieces = [interval(7, 10)];
    assert!(rt; gives(&split(interval(4, 10), 1), interval(4, 7), &pieces));
}

#[test]
fn two_for_three_leave_one(rt: HostRuntime) {
    let pieces = [interval(8, 9)];
    assert!(rt; gives(&split(interval(7, 9), 3), interval(7, 8), &pieces));
}

#[test]
fn the_greatest_positions_are_split(rt: HostRuntime) {
    let top = u32::MAX;
    let pieces = [interval(top - 1, top)];
    assert!(rt;
        gives(
            &split(interval(top - 2, top), 8),
            interval(top - 2, top - 1),
            &pieces
        )
    );
}

#[test]
fn one_is_short(rt: HostRuntime) {
    assert!(rt; matches!(split(interval(7, 8), 3), Division::Short(1)));
    assert!(rt; matches!(split(interval(8, 7), 8), Division::Short(0)));
}

#[test]
fn chunks_until_nothing_is_left(rt: HostRuntime) {
    let first = Chunk {
        taken: interval(0, 4),
        left: interval(4, 7),
    };
    let second = Chunk {
        taken: interval(4, 7),
        left: interval(7, 7),
    };
    assert!(rt; take_chunk(interval(0, 7), 4) == Some(first));
    assert!(rt; take_chunk(first.left, 8) == Some(second));
    assert!(rt; take_chunk(second.left, 8) == None);
}
