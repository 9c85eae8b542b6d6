//! Laws of accepted programs. The functions do nothing; their contracts are the laws.
ghost use Rattle.kt_prog.specs.Laws.{BodiesKeep, FewObjects, LoopsAreDirect};
ghost use Rattle.kt_prog.specs.LastWriter.{LoadsFindLastWritten};
ghost use Rattle.kt_prog.specs.Next.{NextIsOnElement, NextIsRightful};
ghost use Rattle.kt_prog.specs.Zeroes.{LoopIsZeroing, ZeroingIsFirst};

/// The bodies of an accepted program keep to the rights of their calls, and nowhere in them is a rule broken.
pub fn bodies_keep()
    ensures { BodiesKeep }
{}

/// The accesses of a loop that has an index are direct.
pub fn loops_are_direct()
    ensures { LoopsAreDirect }
{}

/// An accepted program has no more objects and elements than the limits allow.
pub fn few_objects()
    ensures { FewObjects }
{}

/// Each load of the reference run finds what was written last: the value of the last store or the opening value, with
/// what was folded in since.
pub fn loads_find_last_written()
    ensures { LoadsFindLastWritten }
{}

/// What is next in a body of an accepted program keeps to the rights of its call.
pub fn next_is_rightful()
    ensures { NextIsRightful }
{}

/// What is next in a body of an accepted program is done to an element that the program has.
pub fn next_is_on_element()
    ensures { NextIsOnElement }
{}

/// Every call begins with its zeroing.
pub fn zeroing_is_first()
    ensures { ZeroingIsFirst }
{}

/// The call of a loop does its zeroing and nothing more: its indexes have bodies of their own.
pub fn loop_is_zeroing()
    ensures { LoopIsZeroing }
{}
