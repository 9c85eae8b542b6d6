// Eight workers at one table.
ghost use Rattle.std.specs.Prelude.{◌≡◌, All, Some, length};
ghost use Rattle.kt_prog.specs.Accepted.{IsAccepted};
ghost use Rattle.kt_rule.specs.declared.views.Setup.{Setup};
ghost use Rattle.kt_pool.specs.Seats.{AreSeatsOf, HaveNotStepped};
ghost use Rattle.kt_intervals.specs.Programs.{HasFirsts};
ghost use Rattle.kt_pool_trials.specs.Driven.{IsRoomy, IsUnmoved};

use crate::driven::{Common, asks, begins, leads, left, looks, serves};
use crate::recorders::Log;
use crate::scenes::hires;
use kt_hands::Home;
use kt_rule::Seat;
use kt_worker::Tools;
use std::marker::Brand;
use std::sync::Wait;

/// The events of the worker that served, and of six others that asked.
#[derive(Drop)]
pub struct Crowd {
    pub leader: Log,
    pub others: [Log; 6],
}

// Workers 1 to 7 ask at worker 0, and worker 4 serves them.
fn hired_eight<'a, 't, H: Home, W: Wait>(
    rt: &W,
    common: Common<'a, 't>,
    mut seats: Vec<Seat>,
    mut room: Vec<Tools>,
) -> Crowd
    requires home { H.table ≡ Some common.table.now.table.shared.table_id }
    requires seats { All (IsUnmoved common.table.now common.program.now) seats.items
        × (length seats.items ≡ 8) }
    requires room { All (IsRoomy common.program.now) room.items × (length room.items ≡ 8) }
    requires accepted { IsAccepted common.program.now }
    requires firsts { HasFirsts common.program.now.families common.firsts.now }
{
    let zero = begins(rt, hires::<H>(common, &mut seats, &mut room));
    let one = asks(hires::<H>(common, &mut seats, &mut room));
    let two = asks(hires::<H>(common, &mut seats, &mut room));
    let three = asks(hires::<H>(common, &mut seats, &mut room));
    let four = asks(hires::<H>(common, &mut seats, &mut room));
    let five = asks(hires::<H>(common, &mut seats, &mut room));
    let six = asks(hires::<H>(common, &mut seats, &mut room));
    let seven = asks(hires::<H>(common, &mut seats, &mut room));
    let four = looks(serves(leads(four)));
    left(zero);
    Crowd {
        leader: left(four),
        others: [
            left(looks(one)),
            left(looks(two)),
            left(looks(three)),
            left(looks(five)),
            left(looks(six)),
            left(looks(seven)),
        ],
    }
}

/// The same at a table whose seats have made no step.
pub fn play_eight<W: Wait>(rt: &W, common: Common, seats: Vec<Seat>, room: Vec<Tools>) -> Crowd
    requires seats { (j : Setup) × AreSeatsOf j common.table.now seats.items
        × HaveNotStepped j seats.items × (j.workers ≡ 8) × (j.program ≡ common.program.now) }
    requires room { All (IsRoomy common.program.now) room.items × (length room.items ≡ 8) }
    requires accepted { IsAccepted common.program.now }
    requires firsts { HasFirsts common.program.now.families common.firsts.now }
{
    hired_eight::<Brand, W>(rt, common, seats, room)
}
