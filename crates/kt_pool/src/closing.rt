//! The close of a pool, and what it answers.
ghost use Rattle.std.specs.Prelude.{◌≡◌, ◌<◌, ◌≤◌, [], Some, length, vec_capacity};
ghost use Rattle.std.specs.Mem.Slots.{IsFull, slots_items, slots_len};
ghost use Rattle.kt_rule.specs.Records.{elements};
ghost use Rattle.kt_words.specs.Places.{total_of};

use atomic_table::{Perch, Seat, Table};
use kt_rule::{KaapiRule, View};
use kt_words::Layout;
use std::alloc::Global;

/// The words that a run leaves.
#[derive(Debug, Drop)]
pub struct Closed {
    /// All elements in the order of their numbers.
    pub rows: Vec<u64>,
    /// How many task numbers were drawn, that of `main` among them.
    pub tasks: u32,
    /// How many positions of loops were drawn.
    pub indexes: u32,
    /// Whether the run was stopped, since a count went over its limit.
    pub limit: bool,
}

/// What the seats of a closed pool did, of which contracts see the lists. Only a close makes one: it is a witness that the run was executed.
#[derive(Drop)]
pub struct Record {
    workers: u32,
    limit: bool,
    // No seat rests here. It keeps what the seat knew into which all were joined.
    kept: Perch<(), View>,
}

impl Closed {
    ghost use Rattle.kt_rule.specs.Records.{layout_of};
    ghost use Rattle.kt_rule.specs.declared.views.Setup.{Setup};
    ghost use Rattle.kt_pool.specs.Closing.{Closes};
    ghost use Rattle.kt_pool.specs.Exact.{joined_view, limit_of, workers_of};

    /// Reads the words of a table to which no seat is left but this one. There is room for the rows.
    pub(crate) fn of(
        table: Table<(), View, Vec<u64>, KaapiRule, Global>,
        layout: Layout,
        mut rows: Vec<u64>,
        token: Seat<(), View>,
    ) -> (Closed, Record)
        requires table { (total_of layout ≤ table.shared.table_id.words)
            × (table.shared.table_id.slots ≡ 0) }
        requires room { (rows.items ≡ []) × (layout.elements ≤ vec_capacity rows) }
        requires seat { token.table_id ≡ table.shared.table_id }
        requires told { (j : Setup) × (token.me.0.setup ≡ Some j) × (layout_of j ≡ layout)
            × (token.me.0.parts ≡ j.workers) × (0 < j.workers) }
        ensures count { length result.0.rows.items ≡ layout.elements }
        ensures joined { joined_view result.1 ≡ token.me.0 }
        ensures workers { workers_of result.1 ≡ layout.workers }
        ensures limit { limit_of result.1 ≡ result.0.limit }
        ensures closes { (j : Setup) → token.me.0.setup ≡ Some j
            → Closes j result.0 (joined_view result.1) }
    {
        let kept = Perch::new(&token, 0);
        let words = table.close_with(token);
        read_rows(&words, &layout, &mut rows);
        let tasks = words.word(layout.tasks_drawn()) as u32;
        let indexes = words.word(layout.positions_drawn()) as u32;
        let stop = words.word(layout.stop());
        let limit = stop == 1;
        words.free();
        let closed = Closed {
            rows,
            tasks,
            indexes,
            limit,
        };
        let record = Record {
            workers: layout.workers,
            limit,
            kept,
        };
        (closed, record)
    }
}

/// Puts the elements among the words into the rows.
fn read_rows(words: &atomic_table::Closed<(), Global>, layout: &Layout, rows: &mut Vec<u64>)
    requires words { IsFull words.now.words × (total_of layout.now ≤ slots_len words.now.words) }
    requires room { (rows.old.items ≡ []) × (layout.now.elements ≤ vec_capacity rows.old) }
    ensures read { rows.new.items ≡ elements layout.now (slots_items words.now.words) }
    ensures count { length rows.new.items ≡ layout.now.elements }
{
    for number in 0..layout.elements {
        rows.push_reserved(words.word(layout.element(number)));
    }
}
