//! Answering the held thieves.
ghost use Rattle.std.specs.Prelude.{◌≡◌, ℕ, ◌+◌, ◌-◌, ◌<◌, ◌≤◌, List, ◌∷◌, length, drop, slice_index};
ghost use Rattle.kt_rule.specs.declared.views.Share.{Share};
ghost use Rattle.kt_rule.specs.declared.views.View.{View};
ghost use Rattle.kt_request.specs.Reports.{IsSameSeat, deal, split_pieces, split_record};
ghost use Rattle.kt_request.specs.Serving.{Answering, Rising};
ghost use Rattle.kt_steps.specs.Told.{IsLiveOf};

use crate::served::THIEVES;
use arrayvec::ArrayVec;
use kt_loops::Divided;
use kt_posts::{Answer, answer_failed, answer_piece, answer_task};
use kt_rule::{RunTable, Seat};
use kt_words::Pair;

/// Answers all held thieves, in order: the first ones get the given records, and the next ones the pieces that a split gave.
pub(crate) fn answer_all(
    t: &RunTable,
    s: &mut Seat,
    held: &[u32],
    given: &[u32],
    cut: &Option<Divided>,
) -> ArrayVec<Answer, THIEVES>
    requires seat { s.old.token.table_id ≡ t.now.table.shared.table_id }
    requires live { IsLiveOf t.now.layout s.old.worker s.old.token.me.0 }
    requires held { (length held.now ≤ 8) × Rising held.now × Rising given.now
        × ((j : ℕ) → j < length held.now → slice_index held.now j < t.now.layout.workers) }
    requires answering { (others : List Share)
        × Answering held.now given.now (split_record cut.now) (split_pieces cut.now) others
        s.old.token.me.0 0 s.old.token.me.0 }
    ensures seat { IsSameSeat s.old s.new }
    ensures answering { (others : List Share)
        → Answering held.now given.now (split_record cut.now) (split_pieces cut.now) others
        s.old.token.me.0 0 s.old.token.me.0
        → Answering held.now given.now (split_record cut.now) (split_pieces cut.now) others
        s.old.token.me.0 (length held.now) s.new.token.me.0 }
    ensures answers { result.items
        ≡ deal held.now given.now (split_record cut.now) (split_pieces cut.now) }
{
    match cut {
        Some(Divided::Got(at, pieces)) => answer_each(t, s, held, given, *at, pieces.as_slice()),
        Some(Divided::Short(_)) => answer_each(t, s, held, given, 0, &[]),
        Some(Divided::Moved(_)) => answer_each(t, s, held, given, 0, &[]),
        None => answer_each(t, s, held, given, 0, &[]),
    }
}

/// Answers all held thieves, in order: the first ones get the given records, the next ones the pieces of the loop in the record `at`.
fn answer_each(
    t: &RunTable,
    s: &mut Seat,
    held: &[u32],
    given: &[u32],
    at: u32,
    pieces: &[Pair],
) -> ArrayVec<Answer, THIEVES>
    requires seat { s.old.token.table_id ≡ t.now.table.shared.table_id }
    requires live { IsLiveOf t.now.layout s.old.worker s.old.token.me.0 }
    requires held { (length held.now ≤ 8) × Rising held.now × Rising given.now
        × ((j : ℕ) → j < length held.now → slice_index held.now j < t.now.layout.workers) }
    requires answering { (others : List Share)
        × Answering held.now given.now at pieces.now others s.old.token.me.0 0 s.old.token.me.0 }
    ensures seat { IsSameSeat s.old s.new }
    ensures answering { (others : List Share)
        → Answering held.now given.now at pieces.now others s.old.token.me.0 0 s.old.token.me.0
        → Answering held.now given.now at pieces.now others
        s.old.token.me.0 (length held.now) s.new.token.me.0 }
    ensures answers { result.items ≡ deal held.now given.now at pieces.now }
{
    let mut answers = ArrayVec::new();
    for i in 0..held.len() {
        let answer = answer_one(t, s, held, given, at, pieces, i);
        answers.push(answer);
    }
    answers
}

/// Answers the held thief number `i`.
fn answer_one(
    t: &RunTable,
    s: &mut Seat,
    held: &[u32],
    given: &[u32],
    at: u32,
    pieces: &[Pair],
    i: usize,
) -> Answer
    requires seat { s.old.token.table_id ≡ t.now.table.shared.table_id }
    requires live { IsLiveOf t.now.layout s.old.worker s.old.token.me.0 }
    requires held { (i < length held.now) × Rising held.now × Rising given.now
        × ((j : ℕ) → j < length held.now → slice_index held.now j < t.now.layout.workers) }
    requires answering { (v0 : View) × (others : List Share)
        × Answering held.now given.now at pieces.now others v0 i s.old.token.me.0 }
    ensures seat { IsSameSeat s.old s.new }
    ensures answering { (v0 : View) (others : List Share)
        → Answering held.now given.now at pieces.now others v0 i s.old.token.me.0
        → Answering held.now given.now at pieces.now others v0 (i + 1) s.new.token.me.0 }
    ensures answer { deal (drop i held.now) (drop i given.now) at
        (drop (i - length given.now) pieces.now)
        ≡ result ∷ deal (drop (i + 1) held.now) (drop (i + 1) given.now) at
        (drop (i + 1 - length given.now) pieces.now) }
{
    if i < given.len() {
        answer_task(t, s, held[i], given[i]);
        return Answer::Task(given[i]);
    }
    let n = i - given.len();
    if n < pieces.len() {
        answer_piece(t, s, held[i], at, pieces[n]);
        return Answer::Piece(at, pieces[n]);
    }
    answer_failed(t, s, held[i]);
    Answer::Failed
}
