// Workers with loops at one table.
ghost use Rattle.std.specs.Prelude.{◌≡◌, All, Some, length};
ghost use Rattle.kt_intervals.specs.Programs.{HasFirsts};
ghost use Rattle.kt_pool.specs.Seats.{AreSeatsOf, HaveNotStepped};
ghost use Rattle.kt_pool_trials.specs.Driven.{IsRoomy, IsUnmoved};
ghost use Rattle.kt_prog.specs.Accepted.{IsAccepted};
ghost use Rattle.kt_rule.specs.declared.views.Setup.{Setup};

use crate::driven::{Common, asks, begins, leads, left, looks, runs, serves, starts};
use crate::entries::{claims, finishes, passes};
use crate::looping::{counts, holds, opens, retires, splits, takes};
use crate::recorders::Log;
use crate::scenes::hires;
use kt_hands::Home;
use kt_rule::Seat;
use kt_worker::Tools;
use std::marker::Brand;
use std::sync::Wait;

// Worker 1 splits the interval of worker 0 between two chunks of it, and both run what they have to the end.
fn hired_pair<'a, 't, H: Home, W: Wait>(
    rt: &W,
    common: Common<'a, 't>,
    mut seats: Vec<Seat>,
    mut room: Vec<Tools>,
) -> (Log, Log)
    requires home { H.table ≡ Some common.table.now.table.shared.table_id }
    requires seats { All (IsUnmoved common.table.now common.program.now) seats.items
        × (length seats.items ≡ 2) }
    requires room { All (IsRoomy common.program.now) room.items × (length room.items ≡ 2) }
    requires accepted { IsAccepted common.program.now }
    requires firsts { HasFirsts common.program.now.families common.firsts.now }
{
    let zero = begins(rt, hires::<H>(common, &mut seats, &mut room));
    let one = hires::<H>(common, &mut seats, &mut room);
    let zero = takes(counts(opens(claims(zero))), 4);
    let one = splits(one);
    let zero = takes(retires(zero), 8);
    let zero = finishes(takes(retires(zero), 8));
    let one = takes(retires(takes(holds(one), 8)), 8);
    let zero = finishes(finishes(zero));
    (left(zero), left(one))
}

/// The same at a table whose seats have made no step.
pub fn play_pair<W: Wait>(rt: &W, common: Common, seats: Vec<Seat>, room: Vec<Tools>) -> (Log, Log)
    requires seats { (j : Setup) × AreSeatsOf j common.table.now seats.items
        × HaveNotStepped j seats.items × (j.workers ≡ 2) × (j.program ≡ common.program.now) }
    requires room { All (IsRoomy common.program.now) room.items × (length room.items ≡ 2) }
    requires accepted { IsAccepted common.program.now }
    requires firsts { HasFirsts common.program.now.families common.firsts.now }
{
    hired_pair::<Brand, W>(rt, common, seats, room)
}

// Workers 1 to 3 ask at worker 0, who has a loop and a task behind it, and worker 2 serves all. Then the run goes on to its end.
fn hired_four<'a, 't, H: Home, W: Wait>(
    rt: &W,
    common: Common<'a, 't>,
    mut seats: Vec<Seat>,
    mut room: Vec<Tools>,
) -> (Log, Log, Log, Log)
    requires home { H.table ≡ Some common.table.now.table.shared.table_id }
    requires seats { All (IsUnmoved common.table.now common.program.now) seats.items
        × (length seats.items ≡ 4) }
    requires room { All (IsRoomy common.program.now) room.items × (length room.items ≡ 4) }
    requires accepted { IsAccepted common.program.now }
    requires firsts { HasFirsts common.program.now.families common.firsts.now }
{
    let zero = opens(claims(begins(rt, hires::<H>(common, &mut seats, &mut room))));
    let one = asks(hires::<H>(common, &mut seats, &mut room));
    let two = asks(hires::<H>(common, &mut seats, &mut room));
    let three = asks(hires::<H>(common, &mut seats, &mut room));
    let two = serves(leads(two));
    let one = finishes(runs(rt, starts(looks(one))));
    let two = retires(takes(holds(looks(two)), 8));
    let three = retires(takes(holds(looks(three)), 8));
    let zero = finishes(takes(retires(takes(zero, 8)), 8));
    let zero = finishes(passes(zero));
    (left(zero), left(one), left(two), left(three))
}

/// The same at a table whose seats have made no step.
pub fn play_four<W: Wait>(
    rt: &W,
    common: Common,
    seats: Vec<Seat>,
    room: Vec<Tools>,
) -> (Log, Log, Log, Log)
    requires seats { (j : Setup) × AreSeatsOf j common.table.now seats.items
        × HaveNotStepped j seats.items × (j.workers ≡ 4) × (j.program ≡ common.program.now) }
    requires room { All (IsRoomy common.program.now) room.items × (length room.items ≡ 4) }
    requires accepted { IsAccepted common.program.now }
    requires firsts { HasFirsts common.program.now.families common.firsts.now }
{
    hired_four::<Brand, W>(rt, common, seats, room)
}
