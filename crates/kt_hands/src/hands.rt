//! The hand of a worker.
ghost use Rattle.std.specs.Prelude.{◌≡◌, ◌<◌, ◌≤◌, [], Some, option_map};
ghost use Rattle.kt_law.specs.declared.limits.TheConstants.{WORKERS};
ghost use Rattle.kt_rule.specs.Records.{layout_of};

use kt_rule::{RunTable, Seat};
use std::marker::{Brand, PhantomData};

/// Which table a hand is at. Whoever makes hands picks it.
pub trait Home {
    ghost use Rattle.std.specs.Prelude.{Option};
    ghost use Rattle.atomic_table.specs.Seated.{TableId};

    ghost table: { Option TableId };
}

impl Home for Brand {
    ghost use Rattle.std.specs.Prelude.{None};

    ghost table = { None };
}

/// A seat at its table.
pub struct Hand<'t, H: Home> {
    pub table: &'t RunTable,
    pub seat: Seat,
    pub of: PhantomData<H>,
    ghost here: { H.table ≡ Some table.now.table.shared.table_id },
    ghost seated: { H.table ≡ Some seat.token.table_id },
    ghost laid: { option_map layout_of seat.token.me.0.setup ≡ Some table.now.layout },
    ghost live: { 0 < seat.token.me.0.parts },
    ghost named: { seat.worker ≡ seat.token.me.0.worker },
    ghost slots: { seat.token.me.1 ≡ [] },
    ghost own: { seat.worker < table.now.layout.workers },
    ghost few: { table.now.layout.workers ≤ WORKERS },
}

impl<'t, H: Home> Hand<'t, H> {
    /// The seat alone.
    pub fn into_seat(self) -> Seat
        ensures seat { result ≡ self.entry.seat }
        ensures seated { H.table ≡ Some result.token.table_id }
        ensures slots { result.token.me.1 ≡ [] }
        ensures named { result.worker ≡ result.token.me.0.worker }
    {
        let Hand {
            table: _,
            seat,
            of: _,
        } = self;
        seat
    }
}
