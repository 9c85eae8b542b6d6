//! The pool.
ghost use Rattle.std.specs.Prelude.{◌≡◌, ◌≤◌, [], vec_capacity};

use crate::closing::{Closed, Record};
use crate::crews::{gather, seats_of};
use crate::openings::{layout_of, opening_words, told};
use atomic_table::Table;
use kt_law::NoMemory;
use kt_prog::Program;
use kt_rule::{RunTable, Seat};
use std::alloc::Global;

/// The table of a run, and the room for the rows that its close answers.
pub struct Pool {
    pub(crate) table: RunTable,
    pub(crate) rows: Vec<u64>,
    ghost none_yet: { rows.items ≡ [] },
    ghost room: { table.layout.elements ≤ vec_capacity rows },
}

impl Drop for Pool {
    fn drop(self) {
        let Pool {
            table: RunTable {
                table: _,
                layout: _,
            },
            rows: _,
        } = self;
    }
}

impl Pool {
    ghost use Rattle.std.specs.Prelude.{length, IfOk};
    ghost use Rattle.kt_law.specs.declared.limits.TheConstants.{WORKERS};
    ghost use Rattle.kt_prog.specs.Accepted.{IsAccepted};
    ghost use Rattle.kt_prog.specs.Objects.{inputs_of};
    ghost use Rattle.kt_rule.specs.Close.{IsOpening};
    ghost use Rattle.kt_rule.specs.Records.{layout_of};
    ghost use Rattle.kt_rule.specs.declared.views.Setup.{Setup};
    ghost use Rattle.kt_words.specs.Places.{total_of};
    ghost use Rattle.kt_pool.specs.Seats.{AreSeatsOf, HaveNotStepped, all_together, run_table, setup_of};
    ghost use Rattle.kt_pool.specs.Closing.{Closes, IsOfAll, IsReferenceRun, KnowsMain, Limits, SomeSeat};
    ghost use Rattle.kt_pool.specs.Exact.{joined_view, limit_of, workers_of};

    /// A pool for so many workers on this program and input, and the seats of the workers in their order. `main` waits for worker 0.
    pub fn new(
        alloc: Global,
        program: &Program,
        input: &[u64],
        workers: u32,
    ) -> Result<(Pool, Vec<Seat>), NoMemory>
        requires accepted { IsAccepted program.now }
        requires whole { length input.now ≡ inputs_of program.now.families }
        requires some { 1 ≤ workers }
        requires few { workers ≤ WORKERS }
        ensures layout { IfOk result (λ r. (run_table r.0).layout
            ≡ layout_of (setup_of program.now input.now workers)) }
        ensures words { IfOk result (λ r. (run_table r.0).table.shared.table_id.words
            ≡ total_of (run_table r.0).layout) }
        ensures opening { IfOk result (λ r. IsOpening (setup_of program.now input.now workers)
            (run_table r.0).table.shared.key.items) }
        ensures seats { IfOk result (λ r.
            AreSeatsOf (setup_of program.now input.now workers) (run_table r.0) r.1.items) }
        ensures views { IfOk result (λ r.
            HaveNotStepped (setup_of program.now input.now workers) r.1.items) }
    {
        let layout = layout_of(program, workers);
        let rows = Vec::with_capacity(alloc, layout.elements as usize)?;
        let words = opening_words(alloc, &layout, program, input)?;
        let (table, mut token) = Table::of_words(alloc, words.as_slice(), &words)?;
        told(&table.shared, &mut token, program, input, workers);
        let room = Vec::with_capacity(alloc, workers as usize)?;
        let table = RunTable { table, layout };
        let seats = seats_of(&table, token, workers, room);
        Ok((Pool { table, rows }, seats))
    }

    /// The table at which the seats make their steps.
    pub fn table(&self) -> &RunTable
        ensures { result.now ≡ run_table self.now }
    {
        &self.table
    }

    /// Ends the run: all seats come back, in the order of their workers, and no other step can be made. The record has what they did.
    pub fn close(self, seats: Vec<Seat>) -> (Closed, Record)
        requires { (j : Setup) × AreSeatsOf j (run_table self) seats.items }
        ensures count { length result.0.rows.items ≡ (run_table self).layout.elements }
        ensures joined { joined_view result.1 ≡ all_together seats.items }
        ensures lists { IsOfAll (joined_view result.1) seats.items }
        ensures workers { workers_of result.1 ≡ (run_table self).layout.workers }
        ensures limit { limit_of result.1 ≡ result.0.limit }
        ensures closes { (j : Setup) → AreSeatsOf j (run_table self) seats.items
            → Closes j result.0 (joined_view result.1) }
        ensures limited { (j : Setup) → AreSeatsOf j (run_table self) seats.items
            → Limits j result.0 seats.items }
        ensures whole { (j : Setup) → AreSeatsOf j (run_table self) seats.items
            → SomeSeat KnowsMain seats.items → IsReferenceRun j result.0 (joined_view result.1) }
    {
        let token = gather(&self.table, seats);
        let Pool {
            table: RunTable { table, layout },
            rows,
        } = self;
        Closed::of(table, layout, rows, token)
    }
}
