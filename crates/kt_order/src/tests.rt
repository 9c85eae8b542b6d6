ghost use Rattle.kt_order.specs.Body.{Stop};
ghost use Rattle.std.specs.Prelude.{None, true, ℕ};

use crate::{Program, laws, loops, paths};

/// A program of one call, whose body ends at once.
struct Idle;

impl Program for Idle {
    ghost machine = { record { Store = ℕ; Act = ℕ; Answer = ℕ; Call = Unit {0}; Fault = ℕ; after = λ p s. p; answer = λ p s. s; asks = λ p. true; none = 0; tree = λ c. Stop None; height = λ c. 0 } };

    ghost rights = { record { Fits = λ c. Unit {0}; Directly = λ c p. ⊥; MayDo = λ c p. ⊥; Handed = λ c d. ⊥; Apart = λ c d. Unit {0} } };
}

#[test]
fn laws_hold_of_a_program() {
    laws::opening_is_lawful::<Idle>();
    laws::event_keeps_lawful::<Idle>();
    laws::run_keeps_lawful::<Idle>();
    laws::finished_is_sequential::<Idle>();
    laws::some_event_is_enabled::<Idle>();
    laws::every_order_is_sequential::<Idle>();
    laws::tasks_begin_entries::<Idle>();
    laws::no_more_tasks::<Idle>();
    laws::tasks_weigh_no_more::<Idle>();
    laws::moves_left_fall::<Idle>();
    laws::side_by_side_are_apart::<Idle>();
    laws::upper_goes_past::<Idle>();
    laws::next_is_first::<Idle>();
    laws::done_stays::<Idle>();
}

#[test]
fn laws_of_loops_hold_of_a_program() {
    loops::loop_begins::<Idle>();
    loops::loop_splits::<Idle>();
    loops::loop_takes::<Idle>();
    loops::loop_index_goes::<Idle>();
    loops::loop_retires::<Idle>();
    loops::loop_finishes::<Idle>();
    loops::loop_goes_on::<Idle>();
    loops::loop_stays::<Idle>();
}

#[test]
fn laws_by_paths_hold_of_a_program() {
    paths::claim_at_path::<Idle>();
    paths::finish_at_path::<Idle>();
    paths::end_at_path::<Idle>();
    paths::act_at_path::<Idle>();
    paths::fork_at_path::<Idle>();
    paths::some_path_goes::<Idle>();
    paths::finished_by_paths::<Idle>();
    paths::path_begins_entry::<Idle>();
    paths::paths_weigh_no_more::<Idle>();
}
