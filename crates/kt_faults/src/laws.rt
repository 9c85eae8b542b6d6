//! The laws of the first fault. The functions do nothing; their contracts are the laws.
ghost use Rattle.kt_faults.specs.Laws.{EarlierIsFirst, FirstIsAnswer, SameFaultsSameAnswer};

/// The earlier one of the first faults of two lists is the first of both.
pub fn earlier_is_first()
    ensures { EarlierIsFirst }
{}

/// The same faults come to the same, in whatever order they are listed.
pub fn same_faults_same_answer()
    ensures { SameFaultsSameAnswer }
{}

/// Whoever met which fault when, the first of them all is the answer.
pub fn first_is_answer()
    ensures { FirstIsAnswer }
{}
