// What the calls of several workers answer on loops, word by word, all on one thread.

use crate::driven::Common;
use crate::loops::{play_four, play_pair};
use crate::recorders::Event;
use crate::scenes::room_for;
use crossbeam_utils::Backoff;
use kt_calls::{Answer, Begun, Claim, Lead, Published, Taken};
use kt_pool::Pool;
use kt_prog::{inputs, laws};
use kt_seat_trials::opened;
use kt_words::Pair;
use kt_worker::Scratch;
use std::test::Fail;

const LOOP: &str =
    "object A of 1 output;\nloop add(i; cw(add) P) { P[0] add= 1; }\nmain { fork add(10; A); }\ndata";

const LOOP_AND_TASK: &str =
    "object A of 1 output;\nloop add(i; cw(add) P) { P[0] add= 1; }\ntask rest() {}\nmain { fork add(10; A); fork rest(); }\ndata";

#[test]
fn an_interval_is_split_between_chunks(rt: HostRuntime) -> Result<(), Fail> {
    let alloc = rt.alloc();
    let (program, numbers) = opened(alloc, LOOP)?;
    laws::few_objects();
    let wanted = inputs(&program);
    assert!(rt; wanted as usize == numbers.len());
    let Scratch { tools: _, firsts } = Scratch::new(alloc, &program)?;
    let room = room_for(alloc, &program, 2)?;
    let pause = Backoff::new();
    let (pool, seats) = Pool::new(alloc, &program, numbers.as_slice(), 2)?;
    let common = Common {
        table: pool.table(),
        program: &program,
        firsts: firsts.as_slice(),
        pause: &pause,
    };
    let (first, second) = play_pair(&rt, common, seats, room);
    let zero = [
        Event::Claimed(0, Claim::Won),
        Event::Forked(Published::Published(1)),
        Event::Claimed(1, Claim::Won),
        Event::Began(Begun::Begun(0)),
        Event::Left(10),
        Event::Took(Taken::Got(Pair { low: 0, high: 4 })),
        Event::Folded(0, 1),
        Event::Folded(0, 1),
        Event::Folded(0, 1),
        Event::Folded(0, 1),
        Event::Retired(6),
        Event::Took(Taken::Got(Pair { low: 4, high: 7 })),
        Event::Folded(0, 1),
        Event::Folded(0, 1),
        Event::Folded(0, 1),
        Event::Retired(3),
        Event::Took(Taken::Empty),
        Event::Left(3),
        Event::Left(0),
        Event::Finished(1),
        Event::Finished(0),
    ];
    let one = [
        Event::Cut(1, Pair { low: 7, high: 10 }),
        Event::Held(1, Pair { low: 7, high: 10 }),
        Event::Took(Taken::Got(Pair { low: 7, high: 10 })),
        Event::Folded(0, 1),
        Event::Folded(0, 1),
        Event::Folded(0, 1),
        Event::Retired(0),
        Event::Took(Taken::Empty),
    ];
    assert!(rt; first.as_slice() == zero.as_slice());
    assert!(rt; second.as_slice() == one.as_slice());
    Ok(())
}

#[test]
fn one_serve_gives_a_task_and_pieces(rt: HostRuntime) -> Result<(), Fail> {
    let alloc = rt.alloc();
    let (program, numbers) = opened(alloc, LOOP_AND_TASK)?;
    laws::few_objects();
    let wanted = inputs(&program);
    assert!(rt; wanted as usize == numbers.len());
    let Scratch { tools: _, firsts } = Scratch::new(alloc, &program)?;
    let room = room_for(alloc, &program, 4)?;
    let pause = Backoff::new();
    let (pool, seats) = Pool::new(alloc, &program, numbers.as_slice(), 4)?;
    let common = Common {
        table: pool.table(),
        program: &program,
        firsts: firsts.as_slice(),
        pause: &pause,
    };
    let (first, second, third, fourth) = play_four(&rt, common, seats, room);
    let zero = [
        Event::Claimed(0, Claim::Won),
        Event::Forked(Published::Published(1)),
        Event::Forked(Published::Published(2)),
        Event::Claimed(1, Claim::Won),
        Event::Began(Begun::Begun(0)),
        Event::Took(Taken::Got(Pair { low: 0, high: 4 })),
        Event::Folded(0, 1),
        Event::Folded(0, 1),
        Event::Folded(0, 1),
        Event::Folded(0, 1),
        Event::Retired(0),
        Event::Took(Taken::Empty),
        Event::Left(0),
        Event::Finished(1),
        Event::Found(2, 8_388_740),
        Event::Finished(0),
    ];
    let one = [
        Event::Posted(0),
        Event::Looked(Answer::Task(2)),
        Event::Started(2),
        Event::Finished(2),
    ];
    let two = [
        Event::Posted(0),
        Event::Led(Lead::Won),
        Event::Gave(1, Answer::Task(2)),
        Event::Gave(2, Answer::Piece(1, Pair { low: 4, high: 7 })),
        Event::Gave(3, Answer::Piece(1, Pair { low: 7, high: 10 })),
        Event::Cut(1, Pair { low: 4, high: 7 }),
        Event::Cut(1, Pair { low: 7, high: 10 }),
        Event::Looked(Answer::Piece(1, Pair { low: 4, high: 7 })),
        Event::Held(1, Pair { low: 4, high: 7 }),
        Event::Took(Taken::Got(Pair { low: 4, high: 7 })),
        Event::Folded(0, 1),
        Event::Folded(0, 1),
        Event::Folded(0, 1),
        Event::Retired(7),
    ];
    let three = [
        Event::Posted(0),
        Event::Looked(Answer::Piece(1, Pair { low: 7, high: 10 })),
        Event::Held(1, Pair { low: 7, high: 10 }),
        Event::Took(Taken::Got(Pair { low: 7, high: 10 })),
        Event::Folded(0, 1),
        Event::Folded(0, 1),
        Event::Folded(0, 1),
        Event::Retired(4),
    ];
    assert!(rt; first.as_slice() == zero.as_slice());
    assert!(rt; second.as_slice() == one.as_slice());
    assert!(rt; third.as_slice() == two.as_slice());
    assert!(rt; fourth.as_slice() == three.as_slice());
    Ok(())
}
