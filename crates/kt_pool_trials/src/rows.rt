// What the calls of several workers answer, word by word, all on one thread.

use crate::crowds::play_eight;
use crate::driven::Common;
use crate::recorders::Event;
use crate::scenes::{play_one, play_two, room_for};
use crossbeam_utils::Backoff;
use kt_calls::{Answer, Claim, Lead, Published};
use kt_law::Stand;
use kt_pool::Pool;
use kt_prog::{inputs, laws};
use kt_seat_trials::opened;
use kt_tasks::Offer;
use kt_worker::Scratch;
use std::test::Fail;

const PUTS: &str =
    "object A of 1 output; object B of 1 output;\ntask put(int v, w P) { P[0] = v; }\ntask copy(r P, x Q) { Q[0] = P[0]; }\nmain { fork put(3, A); fork put(4, A); fork copy(A, B); }\ndata";

const FREE: &str = "task rest() {}\nmain { fork rest(); fork rest(); fork rest(); }\ndata";

#[test]
fn a_task_is_given_to_one_of_three(rt: HostRuntime) -> Result<(), Fail> {
    let alloc = rt.alloc();
    let (program, numbers) = opened(alloc, PUTS)?;
    laws::few_objects();
    let wanted = inputs(&program);
    assert!(rt; wanted as usize == numbers.len());
    let Scratch { tools: _, firsts } = Scratch::new(alloc, &program)?;
    let room = room_for(alloc, &program, 3)?;
    let pause = Backoff::new();
    let (pool, seats) = Pool::new(alloc, &program, numbers.as_slice(), 3)?;
    let common = Common {
        table: pool.table(),
        program: &program,
        firsts: firsts.as_slice(),
        pause: &pause,
    };
    let logs = play_one(&rt, common, seats, room);
    let zero = [
        Event::Claimed(0, Claim::Won),
        Event::Forked(Published::Published(1)),
        Event::Forked(Published::Published(2)),
        Event::Forked(Published::Published(3)),
        Event::Claimed(1, Claim::Stolen(Stand::Given(1))),
        Event::Claimed(1, Claim::Stolen(Stand::Running(1))),
        Event::Found(1, 8_388_676),
        Event::Claimed(2, Claim::Won),
        Event::Stored(0, 0),
        Event::Stored(0, 4),
        Event::Finished(2),
        Event::Claimed(3, Claim::Won),
        Event::Loaded(0, 4),
        Event::Stored(1, 4),
        Event::Finished(3),
        Event::Finished(0),
    ];
    let one = [
        Event::Found(1, 8_388_673),
        Event::Posted(0),
        Event::Led(Lead::Won),
        Event::Gave(1, Answer::Task(1)),
        Event::Looked(Answer::Task(1)),
        Event::Started(1),
        Event::Stored(0, 0),
        Event::Stored(0, 3),
        Event::Finished(1),
    ];
    let two = [
        Event::Found(1, 8_388_673),
        Event::Offered(1, Offer::Lost(8_388_682)),
        Event::Found(0, 4),
    ];
    assert!(rt; logs.zero.as_slice() == zero.as_slice());
    assert!(rt; logs.one.as_slice() == one.as_slice());
    assert!(rt; logs.two.as_slice() == two.as_slice());
    Ok(())
}

#[test]
fn one_serve_answers_two(rt: HostRuntime) -> Result<(), Fail> {
    let alloc = rt.alloc();
    let (program, numbers) = opened(alloc, FREE)?;
    laws::few_objects();
    let wanted = inputs(&program);
    assert!(rt; wanted as usize == numbers.len());
    let Scratch { tools: _, firsts } = Scratch::new(alloc, &program)?;
    let room = room_for(alloc, &program, 3)?;
    let pause = Backoff::new();
    let (pool, seats) = Pool::new(alloc, &program, numbers.as_slice(), 3)?;
    let common = Common {
        table: pool.table(),
        program: &program,
        firsts: firsts.as_slice(),
        pause: &pause,
    };
    let logs = play_two(&rt, common, seats, room);
    let zero = [
        Event::Claimed(0, Claim::Won),
        Event::Forked(Published::Published(1)),
        Event::Forked(Published::Published(2)),
        Event::Forked(Published::Published(3)),
        Event::Found(3, 8_388_801),
    ];
    let one = [
        Event::Posted(0),
        Event::Led(Lead::Won),
        Event::Gave(1, Answer::Task(1)),
        Event::Gave(2, Answer::Task(2)),
        Event::Looked(Answer::Task(1)),
    ];
    let two = [
        Event::Posted(0),
        Event::Led(Lead::Busy(1)),
        Event::Looked(Answer::NotYet),
        Event::Looked(Answer::Task(2)),
    ];
    assert!(rt; logs.zero.as_slice() == zero.as_slice());
    assert!(rt; logs.one.as_slice() == one.as_slice());
    assert!(rt; logs.two.as_slice() == two.as_slice());
    Ok(())
}

#[test]
fn one_serve_answers_seven(rt: HostRuntime) -> Result<(), Fail> {
    let alloc = rt.alloc();
    let (program, numbers) = opened(alloc, FREE)?;
    laws::few_objects();
    let wanted = inputs(&program);
    assert!(rt; wanted as usize == numbers.len());
    let Scratch { tools: _, firsts } = Scratch::new(alloc, &program)?;
    let room = room_for(alloc, &program, 8)?;
    let pause = Backoff::new();
    let (pool, seats) = Pool::new(alloc, &program, numbers.as_slice(), 8)?;
    let common = Common {
        table: pool.table(),
        program: &program,
        firsts: firsts.as_slice(),
        pause: &pause,
    };
    let crowd = play_eight(&rt, common, seats, room);
    let served = [
        Event::Posted(0),
        Event::Led(Lead::Won),
        Event::Gave(1, Answer::Task(1)),
        Event::Gave(2, Answer::Task(2)),
        Event::Gave(3, Answer::Task(3)),
        Event::Gave(4, Answer::Failed),
        Event::Gave(5, Answer::Failed),
        Event::Gave(6, Answer::Failed),
        Event::Gave(7, Answer::Failed),
        Event::Looked(Answer::Failed),
    ];
    let got = [
        Answer::Task(1),
        Answer::Task(2),
        Answer::Task(3),
        Answer::Failed,
        Answer::Failed,
        Answer::Failed,
    ];
    assert!(rt; crowd.leader.as_slice() == served.as_slice());
    for (log, answer) in crowd.others.iter().zip(got) {
        let asked = [Event::Posted(0), Event::Looked(answer)];
        assert!(rt; log.as_slice() == asked.as_slice());
    }
    Ok(())
}
