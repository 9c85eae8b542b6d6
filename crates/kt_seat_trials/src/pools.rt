// Pools that are closed at once.
ghost use Rattle.std.specs.Prelude.{◌≡◌, []};
ghost use Rattle.kt_rule.specs.declared.views.Setup.{Setup};
ghost use Rattle.kt_pool.specs.Exact.{joined_view};
ghost use Rattle.kt_pool.specs.Seats.{AreSeatsOf, HaveNotStepped, run_table};

use crate::jobs::opened;
use kt_pool::{Closed, Pool, Record};
use kt_prog::{inputs, laws};
use kt_rule::Seat;
use std::test::Fail;

const ONE_TASK: &str =
    "object A of 1 input output;\ntask inc(x P) { P[0] = P[0] + 1; }\nmain { fork inc(A); }\ndata 41";

// Closes a pool of whose seats none has made a step: the lists of its record are empty.
fn closed_at_once(pool: Pool, seats: Vec<Seat>) -> (Closed, Record)
    requires seats { (j : Setup) × AreSeatsOf j (run_table pool) seats.items
        × HaveNotStepped j seats.items }
    ensures claimed { (joined_view result.1).tasks.claimed ≡ [] }
    ensures ran { (joined_view result.1).tasks.ran ≡ [] }
{
    pool.close(seats)
}

#[test]
fn a_pool_is_closed_at_once(rt: HostRuntime) -> Result<(), Fail> {
    let alloc = rt.alloc();
    let (program, numbers) = opened(alloc, ONE_TASK)?;
    laws::few_objects();
    let wanted = inputs(&program);
    assert!(rt; wanted as usize == numbers.len());
    let (pool, seats) = Pool::new(alloc, &program, numbers.as_slice(), 3)?;
    let words = pool.table().table.word_count();
    let layout = pool.table().layout;
    let (closed, _record) = closed_at_once(pool, seats);
    assert!(rt; layout.workers == 3 && layout.objects == 1 && layout.elements == 1);
    assert!(rt; words == 1_032_222);
    assert!(rt; closed.rows.as_slice() == [41].as_slice());
    assert!(rt; closed.tasks == 1 && closed.indexes == 0 && !closed.limit);
    Ok(())
}

#[test]
fn one_worker_and_no_object(rt: HostRuntime) -> Result<(), Fail> {
    let alloc = rt.alloc();
    let (program, numbers) = opened(alloc, "main {} data")?;
    laws::few_objects();
    let wanted = inputs(&program);
    assert!(rt; wanted as usize == numbers.len());
    let (pool, seats) = Pool::new(alloc, &program, numbers.as_slice(), 1)?;
    let words = pool.table().table.word_count();
    let (closed, _record) = closed_at_once(pool, seats);
    assert!(rt; words == 344_076);
    assert!(rt; closed.rows.is_empty() && closed.tasks == 1 && !closed.limit);
    Ok(())
}
