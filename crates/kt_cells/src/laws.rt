//! The law of operations of indexes. The function does nothing; its contract is the law. That of a running body is `act_enters` of `kt_steps`.
ghost use Rattle.kt_cells.specs.Laws.{IndexActEnters};

/// A step on an element for an index in hand enters an act of this index.
pub fn index_act_enters()
    ensures { IndexActEnters }
{}
