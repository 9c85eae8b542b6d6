//! Laws of the operations of bodies. The functions do nothing; their contracts are the laws.
ghost use Rattle.kt_entries.specs.Entries.{BodiesHaveOneList, EntriesHaveOneList};
ghost use Rattle.kt_entries.specs.Loops.{LoopsZeroAndFork};

use kt_prog::laws::{bodies_keep, loop_is_zeroing};

/// What a body of an accepted program does in its tree is the list of its operations, whatever its loads find.
pub fn bodies_have_one_list()
    ensures { BodiesHaveOneList }
{
    bodies_keep();
}

/// What an entry of the reference run did is the list of operations of its call, or of its index, with the entry's answers.
pub fn entries_have_one_list()
    ensures { EntriesHaveOneList }
{
    bodies_keep();
}

/// The operations of a loop's call are its zeroing; behind these, and nowhere else, its body is left with the forks of its indexes
/// and its end alone.
pub fn loops_zero_and_fork()
    ensures { LoopsZeroAndFork }
{
    loop_is_zeroing();
}
