// Three seats at one table.
ghost use Rattle.std.specs.Prelude.{◌≡◌, ◌<◌, ◌*◌, ℕ};
ghost use Rattle.kt_words.specs.declared.layouts.TheConstants.{RECORDS};
ghost use Rattle.kt_rule.specs.declared.views.Setup.{Setup};
ghost use Rattle.kt_pool.specs.Seats.{AreSeatsOf, HaveNotStepped, IsSeatOf, run_table};
ghost use Rattle.kt_seat_trials.specs.Trials.{IsMainsSeat};

use crate::jobs::opened;
use kt_law::Stand;
use kt_pool::{Closed, Pool};
use kt_prog::{inputs, laws};
use kt_rule::{RunTable, Seat};
use kt_tasks::{Claim, claim_own, stand};
use kt_words::StateWord;
use std::test::Fail;

const THREE_TASKS: &str =
    "object A of 1 output; object B of 1 output;\ntask put(int v, w P) { P[0] = v; }\ntask copy(r P, x Q) { Q[0] = P[0]; }\nmain { fork put(3, A); fork put(4, A); fork copy(A, B); }\ndata";

// What the three seats found.
#[derive(Drop)]
struct Found {
    first: Claim,
    second: Claim,
    main: StateWord,
    word: u64,
    next: StateWord,
}

// The seat of worker 0 claims main twice.
fn claimed_twice(t: &RunTable, s: &mut Seat) -> (Claim, Claim)
    requires { (j : Setup) × IsMainsSeat j t.now s.old }
    ensures { (j : Setup) → IsSeatOf j t.now 0 s.old → IsSeatOf j t.now 0 s.new }
{
    let first = claim_own(t, s, 0);
    let second = claim_own(t, s, 0);
    (first, second)
}

// The seat of a worker looks at a record.
fn looked_at(t: &RunTable, s: &mut Seat, at: u32) -> StateWord
    requires { (j : Setup) × (k : ℕ) × IsSeatOf j t.now k s.old × (at < RECORDS * j.workers) }
    ensures { (j : Setup) → (k : ℕ) → IsSeatOf j t.now k s.old → IsSeatOf j t.now k s.new }
{
    stand(t, s, at)
}

// Two claims of main by worker 0, and looks of the other two.
fn tried(t: &RunTable, mut seats: Vec<Seat>) -> (Vec<Seat>, Found)
    requires { (j : Setup) × AreSeatsOf j t.now seats.items × HaveNotStepped j seats.items
        × (j.workers ≡ 3) }
    ensures { (j : Setup) → AreSeatsOf j t.now seats.items → AreSeatsOf j t.now result.0.items }
{
    let mut zero = seats.remove(0);
    let mut one = seats.remove(0);
    let mut two = seats.remove(0);
    let (first, second) = claimed_twice(t, &mut zero);
    let main = looked_at(t, &mut one, 0);
    let word = one.word;
    let next = looked_at(t, &mut two, 1);
    seats.push_reserved(zero);
    seats.push_reserved(one);
    seats.push_reserved(two);
    let found = Found {
        first,
        second,
        main,
        word,
        next,
    };
    (seats, found)
}

// The same at the table of a pool, which is closed then.
fn tried_and_closed(pool: Pool, seats: Vec<Seat>) -> (Closed, Found)
    requires { (j : Setup) × AreSeatsOf j (run_table pool) seats.items
        × HaveNotStepped j seats.items × (j.workers ≡ 3) }
{
    let (seats, found) = tried(pool.table(), seats);
    let (closed, _record) = pool.close(seats);
    (closed, found)
}

#[test]
fn main_is_claimed_once(rt: HostRuntime) -> Result<(), Fail> {
    let alloc = rt.alloc();
    let (program, numbers) = opened(alloc, THREE_TASKS)?;
    laws::few_objects();
    let wanted = inputs(&program);
    assert!(rt; wanted as usize == numbers.len());
    let (pool, seats) = Pool::new(alloc, &program, numbers.as_slice(), 3)?;
    let (closed, found) = tried_and_closed(pool, seats);
    let running = Stand::Running(0);
    assert!(rt; found.first == Claim::Won && found.second == Claim::Stolen(running));
    assert!(rt; found.main.stand == running && found.word == 3);
    assert!(rt; found.next.stand == Stand::Empty);
    assert!(rt; closed.rows.as_slice() == [0, 0].as_slice());
    assert!(rt; closed.tasks == 1 && closed.indexes == 0 && !closed.limit);
    Ok(())
}
