//! The seats of a pool are made by the first one, and joined to it again at the close.
ghost use Rattle.std.specs.Prelude.{◌≡◌, ◌<◌, ◌≤◌, ◌+◌, ◌-◌, ◌≢◌, [], length, vec_capacity};
ghost use Rattle.kt_rule.specs.Close.{first_view};
ghost use Rattle.kt_rule.specs.Records.{layout_of};
ghost use Rattle.kt_rule.specs.declared.views.Setup.{Setup};
ghost use Rattle.kt_pool.specs.Seats.{AreSeatsOf, HaveNotStepped, all_together};

use atomic_table::{Join, Split};
use kt_rule::{RunTable, Seat, View};

struct Crew;

impl Split<View> for Crew {
    ghost use Rattle.kt_rule.specs.Close.{keeps_most, newcomer};

    ghost left = { keeps_most };

    ghost right = { newcomer };
}

impl Join<View> for Crew {
    ghost use Rattle.kt_rule.specs.Close.{together};
    ghost use Rattle.kt_rule.specs.Views.{spent};

    ghost both = { together };

    ghost spent = { spent };
}

/// The seats of all workers, made by the first one, in the order of their workers. The vector has room for them.
pub fn seats_of(
    t: &RunTable,
    mut first: atomic_table::Seat<(), View>,
    workers: u32,
    mut seats: Vec<Seat>,
) -> Vec<Seat>
    requires room { (seats.items ≡ []) × (workers ≤ vec_capacity seats) }
    requires seat { (first.table_id ≡ t.now.table.shared.table_id) × (first.me.1 ≡ []) }
    requires told { (j : Setup) × (first.me.0 ≡ first_view j) × (j.workers ≡ workers)
        × (layout_of j ≡ t.now.layout) × (0 < workers) }
    ensures seats { (j : Setup) → first.me.0 ≡ first_view j → AreSeatsOf j t.now result.items }
    ensures views { (j : Setup) → first.me.0 ≡ first_view j → HaveNotStepped j result.items }
{
    for worker in 1..workers {
        let token = t.table.shared.split_seat::<Crew>(&mut first);
        seats.push_reserved(Seat {
            token,
            worker,
            word: 0,
        });
    }
    seats.push_reserved(Seat {
        token: first,
        worker: 0,
        word: 0,
    });
    seats.as_mut_slice().rotate_right(1);
    seats
}

/// All seats joined to the first one.
pub fn gather(t: &RunTable, mut seats: Vec<Seat>) -> atomic_table::Seat<(), View>
    requires { (j : Setup) × AreSeatsOf j t.now seats.items }
    ensures seat { (result.table_id ≡ t.now.table.shared.table_id) × (result.me.1 ≡ []) }
    ensures joined { result.me.0 ≡ all_together seats.items }
    ensures told { (j : Setup) → AreSeatsOf j t.now seats.items → (result.me.0.setup ≡ Some j)
        × (result.me.0.parts ≡ j.workers) }
{
    let Seat {
        token: mut first,
        worker: _,
        word: _,
    } = seats.remove(0);
    while !seats.is_empty() {
        let Seat {
            token,
            worker: _,
            word: _,
        } = seats.remove(0);
        t.table.shared.join_seat::<Crew>(&mut first, token);
    }
    seats.destroy_empty();
    first
}
