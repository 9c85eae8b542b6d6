// What a core shows of its loops.
ghost use Rattle.std.specs.Prelude.{◌≡◌, ◌<◌, Some, length, slice_get};
ghost use Rattle.kt_core.specs.Reads.{fault_of_index};
ghost use Rattle.kt_tables.specs.LoopRows.{is_under_way};
ghost use Rattle.kt_tables.specs.Tables.{TaskRow};

use crate::pieces::Piece;
use crate::running::Core;
use kt_prog::FaultAt;

impl<'a> Core<'a> {
    /// The pieces of the indexes of a loop that are not taken.
    pub fn pieces(&self, task: u32) -> &[Piece]
        requires { task < length self.now.table.tasks }
        ensures { (r : TaskRow) → slice_get self.now.table.tasks task ≡ Some r
            → result.now ≡ r.loop.pieces }
    {
        self.tasks[task as usize].pieces()
    }

    /// Whether an index of a loop is taken and its body has not ended.
    pub fn is_under_way(&self, task: u32, index: u32) -> bool
        requires { task < length self.now.table.tasks }
        ensures { (r : TaskRow) → slice_get self.now.table.tasks task ≡ Some r
            → result ≡ is_under_way (slice_get r.loop.indexes index) }
    {
        self.tasks[task as usize].is_under_way(index)
    }

    /// How many indexes of a loop have ended that are not retired.
    pub fn ended(&self, task: u32) -> u32
        requires { task < length self.now.table.tasks }
        ensures { (r : TaskRow) → slice_get self.now.table.tasks task ≡ Some r
            → result ≡ r.loop.ended }
    {
        self.tasks[task as usize].ended()
    }

    /// The fault that ended the body of an index of a loop.
    pub fn index_fault(&self, task: u32, index: u32) -> Option<FaultAt>
        requires { task < length self.now.table.tasks }
        ensures { (r : TaskRow) → slice_get self.now.table.tasks task ≡ Some r
            → result ≡ fault_of_index r.path index (slice_get r.loop.indexes index) }
    {
        self.tasks[task as usize].index_fault(index)
    }
}
