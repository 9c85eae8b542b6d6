// Some workers at one table, all on one thread.
ghost use Rattle.std.specs.Prelude.{◌≡◌, ◌<◌, ◌≤◌, ◌+◌, All, IfOk, Some, length};
ghost use Rattle.kt_prog.specs.Accepted.{IsAccepted};
ghost use Rattle.kt_law.specs.declared.limits.TheConstants.{WORKERS};
ghost use Rattle.kt_rule.specs.declared.views.Setup.{Setup};
ghost use Rattle.kt_pool.specs.Seats.{AreSeatsOf, HaveNotStepped};
ghost use Rattle.kt_intervals.specs.Programs.{HasFirsts};
ghost use Rattle.kt_pool_trials.specs.Driven.{IsDriven, IsRoomy, IsUnmoved};

use crate::driven::{
    Common, Driven, asks, begins, hired, leads, left, looks, runs, serves, starts,
};
use crate::entries::{claims, finishes, passes};
use crate::recorders::Log;
use crate::watching::{notes, offers, watches};
use kt_hands::Home;
use kt_law::NoMemory;
use kt_prog::Program;
use kt_rule::Seat;
use kt_worker::{Scratch, Tools};
use std::alloc::Global;
use std::marker::Brand;
use std::sync::Wait;

/// Room for so many workers.
pub fn room_for(alloc: Global, program: &Program, workers: u32) -> Result<Vec<Tools>, NoMemory>
    requires { IsAccepted program.now }
    ensures each { IfOk result (λ room. All (IsRoomy program.now) room.items) }
    ensures count { IfOk result (λ room. length room.items ≡ workers) }
{
    let mut room = Vec::new(alloc);
    for worker in 0..workers {
        let Scratch { tools, firsts: _ } = Scratch::new(alloc, program)?;
        room.push(tools)?;
    }
    Ok(room)
}

/// The worker of the next seat.
pub fn hires<'a, 't, H: Home>(
    common: Common<'a, 't>,
    seats: &mut Vec<Seat>,
    room: &mut Vec<Tools>,
) -> Driven<'a, 't, H>
    requires home { H.table ≡ Some common.table.now.table.shared.table_id }
    requires accepted { IsAccepted common.program.now }
    requires firsts { HasFirsts common.program.now.families common.firsts.now }
    requires seats { All (IsUnmoved common.table.now common.program.now) seats.old.items
        × (0 < length seats.old.items) }
    requires room { All (IsRoomy common.program.now) room.old.items × (0 < length room.old.items) }
    ensures driven { IsDriven result.worker.run.hand.seat.token.me.0 result.worker.program.now
        result.worker.firsts.now result.worker.tally result.tools result.stage }
    ensures seats { All (IsUnmoved common.entry.table.now common.entry.program.now) seats.new.items
        × (length seats.new.items + 1 ≡ length seats.old.items) }
    ensures room { All (IsRoomy common.entry.program.now) room.new.items
        × (length room.new.items + 1 ≡ length room.old.items) }
{
    let seat = seats.remove(0);
    let tools = room.remove(0);
    hired(common, seat, tools)
}

/// What three workers did and found.
#[derive(Drop)]
pub struct Logs {
    pub zero: Log,
    pub one: Log,
    pub two: Log,
}

// A task is given to worker 1, with worker 0 and 2 trying for it, and then the run goes on to its end.
fn hired_one<'a, 't, H: Home, W: Wait>(
    rt: &W,
    common: Common<'a, 't>,
    mut seats: Vec<Seat>,
    mut room: Vec<Tools>,
) -> Logs
    requires home { H.table ≡ Some common.table.now.table.shared.table_id }
    requires seats { All (IsUnmoved common.table.now common.program.now) seats.items
        × (length seats.items ≡ 3) }
    requires room { All (IsRoomy common.program.now) room.items × (length room.items ≡ 3) }
    requires accepted { IsAccepted common.program.now }
    requires firsts { HasFirsts common.program.now.families common.firsts.now }
{
    let zero = hires::<H>(common, &mut seats, &mut room);
    let one = hires::<H>(common, &mut seats, &mut room);
    let two = hires::<H>(common, &mut seats, &mut room);
    let zero = begins(rt, zero);
    let one = watches(one, 1);
    let two = notes(two, 1);
    let one = serves(leads(asks(one)));
    let zero = claims(zero);
    let two = offers(two);
    let one = starts(looks(one));
    let zero = claims(zero);
    let one = finishes(runs(rt, one));
    let zero = finishes(runs(rt, claims(passes(zero))));
    let zero = finishes(runs(rt, claims(zero)));
    let zero = finishes(zero);
    let two = watches(two, 0);
    Logs {
        zero: left(zero),
        one: left(one),
        two: left(two),
    }
}

/// The same at a table whose seats have made no step.
pub fn play_one<W: Wait>(rt: &W, common: Common, seats: Vec<Seat>, room: Vec<Tools>) -> Logs
    requires seats { (j : Setup) × AreSeatsOf j common.table.now seats.items
        × HaveNotStepped j seats.items × (j.workers ≡ 3) × (j.program ≡ common.program.now) }
    requires room { All (IsRoomy common.program.now) room.items × (length room.items ≡ 3) }
    requires accepted { IsAccepted common.program.now }
    requires firsts { HasFirsts common.program.now.families common.firsts.now }
{
    hired_one::<Brand, W>(rt, common, seats, room)
}

// Workers 1 and 2 ask, worker 1 serves both.
fn hired_two<'a, 't, H: Home, W: Wait>(
    rt: &W,
    common: Common<'a, 't>,
    mut seats: Vec<Seat>,
    mut room: Vec<Tools>,
) -> Logs
    requires home { H.table ≡ Some common.table.now.table.shared.table_id }
    requires seats { All (IsUnmoved common.table.now common.program.now) seats.items
        × (length seats.items ≡ 3) }
    requires room { All (IsRoomy common.program.now) room.items × (length room.items ≡ 3) }
    requires accepted { IsAccepted common.program.now }
    requires firsts { HasFirsts common.program.now.families common.firsts.now }
{
    let zero = hires::<H>(common, &mut seats, &mut room);
    let one = hires::<H>(common, &mut seats, &mut room);
    let two = hires::<H>(common, &mut seats, &mut room);
    let zero = begins(rt, zero);
    let one = asks(one);
    let two = asks(two);
    let one = leads(one);
    let two = looks(leads(two));
    let one = looks(serves(one));
    let two = looks(two);
    let zero = watches(zero, 3);
    Logs {
        zero: left(zero),
        one: left(one),
        two: left(two),
    }
}

/// The same at a table whose seats have made no step.
pub fn play_two<W: Wait>(rt: &W, common: Common, seats: Vec<Seat>, room: Vec<Tools>) -> Logs
    requires seats { (j : Setup) × AreSeatsOf j common.table.now seats.items
        × HaveNotStepped j seats.items × (j.workers ≡ 3) × (j.program ≡ common.program.now) }
    requires room { All (IsRoomy common.program.now) room.items × (length room.items ≡ 3) }
    requires accepted { IsAccepted common.program.now }
    requires firsts { HasFirsts common.program.now.families common.firsts.now }
{
    hired_two::<Brand, W>(rt, common, seats, room)
}
