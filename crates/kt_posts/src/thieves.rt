//! What a worker does with its own post: it asks, looks and takes.
ghost use Rattle.std.specs.Prelude.{◌≡◌, ℕ, ◌<◌, true, false};
ghost use Rattle.kt_posts.specs.Answered.{Settled, Withdrew};
ghost use Rattle.kt_posts.specs.Desks.{gets_piece, is_answer, is_idle, posts, sees};
ghost use Rattle.kt_posts.specs.Told.{GetsPiece, Peeks, PostsAt, TakesBack, Took, Withdraws};
ghost use Rattle.kt_rule.specs.Steps.{Tells};
ghost use Rattle.kt_rule.specs.declared.views.View.{View};
ghost use Rattle.kt_steps.specs.Told.{IsLiveOf};
ghost use Rattle.kt_words.specs.Words.{IsPair, IsPost, packed_pair, packed_post};
ghost use Rattle.kt_words.specs.declared.posts.Post.TheVariants as P;
ghost use Rattle.kt_words.specs.declared.posts.Post.{Post};

use crate::answers::Answer;
use atomic_table::Play;
use kt_rule::{RunTable, Seat, View};
use kt_words::{Pair, Post, pack_post, unpack_pair, unpack_post};

struct Posting;

impl Play<(), View> for Posting {
    ghost then = { Tells PostsAt };
}

struct Peeking;

impl Play<(), View> for Peeking {
    ghost then = { Tells Peeks };
}

struct Getting;

impl Play<(), View> for Getting {
    ghost then = { Tells GetsPiece };
}

struct Taking;

impl Play<(), View> for Taking {
    ghost then = { Tells TakesBack };
}

struct Withdrawing;

impl Play<(), View> for Withdrawing {
    ghost then = { Tells Withdraws };
}

/// Asks a victim for work, which may be the seat's own worker.
pub fn post(t: &RunTable, s: &mut Seat, victim: u32)
    requires seat { s.old.token.table_id ≡ t.now.table.shared.table_id }
    requires live { IsLiveOf t.now.layout s.old.worker s.old.token.me.0 }
    requires inside { (s.old.worker < t.now.layout.workers) × (victim < t.now.layout.workers) }
    requires idle { s.old.token.me.0.desk.free ≡ true }
    ensures seat { (s.new.token.table_id ≡ s.old.token.table_id)
        × (s.new.token.me.1 ≡ s.old.token.me.1) × (s.new.worker ≡ s.old.worker)
        × (s.new.word ≡ s.old.word) }
    ensures posted { s.new.token.me.0 ≡ posts s.old.token.me.0 victim }
{
    let new = pack_post(&Post::Posted(victim));
    t.table
        .shared
        .store::<Posting>(&mut s.token, t.layout.post(s.worker), new);
}

/// Looks at the own post. An answer is taken from it: it is in hand, and the post is idle again.
pub fn look(t: &RunTable, s: &mut Seat) -> Answer
    requires seat { s.old.token.table_id ≡ t.now.table.shared.table_id }
    requires live { IsLiveOf t.now.layout s.old.worker s.old.token.me.0 }
    requires inside { s.old.worker < t.now.layout.workers }
    requires busy { s.old.token.me.0.desk.free ≡ false }
    ensures seat { (s.new.token.table_id ≡ s.old.token.table_id)
        × (s.new.token.me.1 ≡ s.old.token.me.1) × (s.new.worker ≡ s.old.worker)
        × (s.new.word ≡ s.old.word) }
    ensures looked { (o : Post) × IsPost o × (s.new.token.me.0.desk.word ≡ packed_post o)
        × Settled o s.old.token.me.0 s.new.token.me.0 result }
{
    let found = peek(t, s);
    settle(t, s, found)
}

/// Takes the request back where nobody holds it, and else looks.
pub fn withdraw(t: &RunTable, s: &mut Seat) -> Answer
    requires seat { s.old.token.table_id ≡ t.now.table.shared.table_id }
    requires live { IsLiveOf t.now.layout s.old.worker s.old.token.me.0 }
    requires inside { s.old.worker < t.now.layout.workers }
    requires busy { s.old.token.me.0.desk.free ≡ false }
    ensures seat { (s.new.token.table_id ≡ s.old.token.table_id)
        × (s.new.token.me.1 ≡ s.old.token.me.1) × (s.new.worker ≡ s.old.worker)
        × (s.new.word ≡ s.old.word) }
    ensures withdrew { (o : Post) × IsPost o × (s.new.token.me.0.desk.word ≡ packed_post o)
        × Withdrew o s.old.token.me.0 s.new.token.me.0 result }
{
    let found = peek(t, s);
    let Post::Posted(_) = found else {
        return settle(t, s, found);
    };
    let asked = pack_post(&found);
    let idle = pack_post(&Post::Idle);
    let word = t
        .table
        .shared
        .compare_exchange::<Withdrawing>(&mut s.token, t.layout.post(s.worker), asked, idle);
    if word == asked {
        return Answer::Withdrawn;
    }
    settle(t, s, post_in(word))
}

/// The post that a word says, where it says one.
fn post_in(word: u64) -> Post
    requires packed { (o : Post) × IsPost o × (word ≡ packed_post o) }
    ensures post { IsPost result × (packed_post result ≡ word) }
{
    match unpack_post(word) {
        Some(post) => post,
        None => unreachable!(),
    }
}

/// What the own post says.
fn peek(t: &RunTable, s: &mut Seat) -> Post
    requires seat { s.old.token.table_id ≡ t.now.table.shared.table_id }
    requires live { IsLiveOf t.now.layout s.old.worker s.old.token.me.0 }
    requires inside { s.old.worker < t.now.layout.workers }
    requires busy { s.old.token.me.0.desk.free ≡ false }
    ensures seat { (s.new.token.table_id ≡ s.old.token.table_id)
        × (s.new.token.me.1 ≡ s.old.token.me.1) × (s.new.worker ≡ s.old.worker)
        × (s.new.word ≡ s.old.word) }
    ensures found { IsPost result × (is_idle result ≡ false) }
    ensures asked { (victim : ℕ) → result ≡ P.Posted victim → victim ≡ s.old.token.me.0.desk.asked }
    ensures seen { s.new.token.me.0
        ≡ sees s.old.token.me.0 (packed_post result) (is_answer result) }
{
    let word = t
        .table
        .shared
        .load::<Peeking>(&mut s.token, t.layout.post(s.worker));
    post_in(word)
}

/// What the post says that was seen last; an answer is taken.
fn settle(t: &RunTable, s: &mut Seat, found: Post) -> Answer
    requires seat { s.old.token.table_id ≡ t.now.table.shared.table_id }
    requires live { IsLiveOf t.now.layout s.old.worker s.old.token.me.0 }
    requires inside { s.old.worker < t.now.layout.workers }
    requires found { IsPost found × (is_idle found ≡ false) }
    requires seen { (s.old.token.me.0.desk.saw ≡ is_answer found)
        × (s.old.token.me.0.desk.word ≡ packed_post found) }
    ensures seat { (s.new.token.table_id ≡ s.old.token.table_id)
        × (s.new.token.me.1 ≡ s.old.token.me.1) × (s.new.worker ≡ s.old.worker)
        × (s.new.word ≡ s.old.word) }
    ensures settled { (v : View) → s.old.token.me.0 ≡ sees v (packed_post found) (is_answer found)
        → Settled found v s.new.token.me.0 result }
{
    match found {
        Post::Idle | Post::Posted(_) | Post::Held(_) => Answer::NotYet,
        Post::Failed => {
            take(t, s, found);
            Answer::Failed
        }
        Post::Task(at) => {
            take(t, s, found);
            Answer::Task(at)
        }
        Post::Piece(at) => {
            let pair = piece(t, s);
            take(t, s, found);
            Answer::Piece(at, pair)
        }
    }
}

/// The pair in the own answer word, which stays there until the answer is taken.
fn piece(t: &RunTable, s: &mut Seat) -> Pair
    requires seat { s.old.token.table_id ≡ t.now.table.shared.table_id }
    requires live { IsLiveOf t.now.layout s.old.worker s.old.token.me.0 }
    requires inside { s.old.worker < t.now.layout.workers }
    requires saw { s.old.token.me.0.desk.saw ≡ true }
    ensures seat { (s.new.token.table_id ≡ s.old.token.table_id)
        × (s.new.token.me.1 ≡ s.old.token.me.1) × (s.new.worker ≡ s.old.worker)
        × (s.new.word ≡ s.old.word) }
    ensures got { IsPair result
        × (s.new.token.me.0 ≡ gets_piece s.old.token.me.0 (packed_pair result)) }
{
    let word = t
        .table
        .shared
        .load::<Getting>(&mut s.token, t.layout.answer(s.worker));
    match unpack_pair(word) {
        Some(pair) => pair,
        None => unreachable!(),
    }
}

/// Takes the answer that was seen.
fn take(t: &RunTable, s: &mut Seat, seen: Post)
    requires seat { s.old.token.table_id ≡ t.now.table.shared.table_id }
    requires live { IsLiveOf t.now.layout s.old.worker s.old.token.me.0 }
    requires inside { s.old.worker < t.now.layout.workers }
    requires saw { IsPost seen × (s.old.token.me.0.desk.saw ≡ true)
        × (s.old.token.me.0.desk.word ≡ packed_post seen) }
    ensures seat { (s.new.token.table_id ≡ s.old.token.table_id)
        × (s.new.token.me.1 ≡ s.old.token.me.1) × (s.new.worker ≡ s.old.worker)
        × (s.new.word ≡ s.old.word) }
    ensures took { Took seen s.old.token.me.0 s.new.token.me.0 }
{
    let answer = pack_post(&seen);
    let idle = pack_post(&Post::Idle);
    t.table
        .shared
        .compare_exchange::<Taking>(&mut s.token, t.layout.post(s.worker), answer, idle);
}
