//! The table of a run.
ghost use Rattle.std.specs.Prelude.{◌≡◌, ◌≤◌};
ghost use Rattle.kt_words.specs.Places.{total_of};

use crate::rules::KaapiRule;
use crate::views::View;
use atomic_table::Table;
use kt_words::Layout;
use std::alloc::Global;

/// The words that the workers of a run share, and where each stands.
#[derive(Drop)]
pub struct RunTable {
    pub table: Table<(), View, Vec<u64>, KaapiRule, Global>,
    pub layout: Layout,
    ghost wide: { total_of layout ≤ table.shared.table_id.words },
    ghost slots: { table.shared.table_id.slots ≡ 0 },
}
