//! What a worker does that leads the requests at a victim.
ghost use Rattle.std.specs.Prelude.{◌≡◌, ◌*◌, ◌<◌, [], true, false};
ghost use Rattle.kt_posts.specs.Answered.{Held, Led};
ghost use Rattle.kt_posts.specs.Desks.{answers_one, deals_one, gives_one, pair_of, releases_now, writes_one};
ghost use Rattle.kt_posts.specs.Told.{DealsAt, FailsAt, GivesAt, HoldsAt, LeadsAt, Releases, WritesAt};
ghost use Rattle.kt_rule.specs.Lists.{In};
ghost use Rattle.kt_rule.specs.Steps.{Tells};
ghost use Rattle.kt_rule.specs.declared.views.Promise.{Promise};
ghost use Rattle.kt_rule.specs.declared.views.Share.{Share};
ghost use Rattle.kt_words.specs.Words.{packed_pair};
ghost use Rattle.kt_steps.specs.Told.{IsLiveOf};

use crate::answers::Lead;
use atomic_table::Play;
use kt_rule::{RunTable, Seat, View};
use kt_words::{Pair, Post, pack_pair, pack_post};

struct Leading;

impl Play<(), View> for Leading {
    ghost then = { Tells LeadsAt };
}

struct Holding;

impl Play<(), View> for Holding {
    ghost then = { Tells HoldsAt };
}

struct Failing;

impl Play<(), View> for Failing {
    ghost then = { Tells FailsAt };
}

struct Giving;

impl Play<(), View> for Giving {
    ghost then = { Tells GivesAt };
}

struct Writing;

impl Play<(), View> for Writing {
    ghost then = { Tells WritesAt };
}

struct Dealing;

impl Play<(), View> for Dealing {
    ghost then = { Tells DealsAt };
}

struct Releasing;

impl Play<(), View> for Releasing {
    ghost then = { Tells Releases };
}

/// Tries to lead the requests at a victim, by one exchange. Nobody leads two at a time.
pub fn lead(t: &RunTable, s: &mut Seat, victim: u32) -> Lead
    requires seat { s.old.token.table_id ≡ t.now.table.shared.table_id }
    requires live { IsLiveOf t.now.layout s.old.worker s.old.token.me.0 }
    requires inside { victim < t.now.layout.workers }
    requires leads_none { s.old.token.me.0.desk.leads ≡ false }
    ensures seat { (s.new.token.table_id ≡ s.old.token.table_id)
        × (s.new.token.me.1 ≡ s.old.token.me.1) × (s.new.worker ≡ s.old.worker)
        × (s.new.word ≡ s.old.word) }
    ensures led { Led t.now.layout.workers victim s.old.token.me.0 s.new.token.me.0 result }
{
    let found = t.table.shared.compare_exchange::<Leading>(
        &mut s.token,
        t.layout.request(victim),
        0,
        u64::from(s.worker) + 1,
    );
    if found == 0 {
        return Lead::Won;
    }
    Lead::Busy((found - 1) as u32)
}

/// Holds a worker's request where it is posted to the victim that the seat leads, by one exchange, and answers whether it did.
pub fn hold(t: &RunTable, s: &mut Seat, victim: u32, thief: u32) -> bool
    requires seat { s.old.token.table_id ≡ t.now.table.shared.table_id }
    requires live { IsLiveOf t.now.layout s.old.worker s.old.token.me.0 }
    requires inside { thief < t.now.layout.workers }
    requires leads { (s.old.token.me.0.desk.leads ≡ true)
        × (s.old.token.me.0.desk.victim ≡ victim) }
    ensures seat { (s.new.token.table_id ≡ s.old.token.table_id)
        × (s.new.token.me.1 ≡ s.old.token.me.1) × (s.new.worker ≡ s.old.worker)
        × (s.new.word ≡ s.old.word) }
    ensures held { Held victim thief s.old.token.me.0 s.new.token.me.0 result }
{
    let old = pack_post(&Post::Posted(victim));
    let new = pack_post(&Post::Held(victim));
    let found = t
        .table
        .shared
        .compare_exchange::<Holding>(&mut s.token, t.layout.post(thief), old, new);
    found == old
}

/// Answers a held thief that there is nothing for it.
pub fn answer_failed(t: &RunTable, s: &mut Seat, thief: u32)
    requires seat { s.old.token.table_id ≡ t.now.table.shared.table_id }
    requires live { IsLiveOf t.now.layout s.old.worker s.old.token.me.0 }
    requires inside { thief < t.now.layout.workers }
    requires held { In thief s.old.token.me.0.desk.held }
    ensures seat { (s.new.token.table_id ≡ s.old.token.table_id)
        × (s.new.token.me.1 ≡ s.old.token.me.1) × (s.new.worker ≡ s.old.worker)
        × (s.new.word ≡ s.old.word) }
    ensures answered { s.new.token.me.0 ≡ answers_one s.old.token.me.0 thief }
{
    let new = pack_post(&Post::Failed);
    t.table
        .shared
        .store::<Failing>(&mut s.token, t.layout.post(thief), new);
}

/// Answers a held thief with the task of a record, which was claimed for it.
pub fn answer_task(t: &RunTable, s: &mut Seat, thief: u32, at: u32)
    requires seat { s.old.token.table_id ≡ t.now.table.shared.table_id }
    requires live { IsLiveOf t.now.layout s.old.worker s.old.token.me.0 }
    requires inside { thief < t.now.layout.workers }
    requires held { In thief s.old.token.me.0.desk.held }
    requires promised { (m : Promise) × In m s.old.token.me.0.tasks.promised × (m.thief ≡ thief)
        × (m.spot.berth.at ≡ at) }
    ensures seat { (s.new.token.table_id ≡ s.old.token.table_id)
        × (s.new.token.me.1 ≡ s.old.token.me.1) × (s.new.worker ≡ s.old.worker)
        × (s.new.word ≡ s.old.word) }
    ensures answered { s.new.token.me.0 ≡ gives_one s.old.token.me.0 thief at }
{
    let new = pack_post(&Post::Task(at));
    t.table
        .shared
        .store::<Giving>(&mut s.token, t.layout.post(thief), new);
}

/// Answers a held thief with a piece of the loop of a record, which is in hand: it is written in the thief's answer word first.
pub fn answer_piece(t: &RunTable, s: &mut Seat, thief: u32, at: u32, piece: Pair)
    requires seat { s.old.token.table_id ≡ t.now.table.shared.table_id }
    requires live { IsLiveOf t.now.layout s.old.worker s.old.token.me.0 }
    requires inside { thief < t.now.layout.workers }
    requires held { In thief s.old.token.me.0.desk.held }
    requires piece { (x : Share) × In x s.old.token.me.0.loops.pieces × (x.spot.berth.at ≡ at)
        × (pair_of x ≡ piece) }
    ensures seat { (s.new.token.table_id ≡ s.old.token.table_id)
        × (s.new.token.me.1 ≡ s.old.token.me.1) × (s.new.worker ≡ s.old.worker)
        × (s.new.word ≡ s.old.word) }
    ensures answered { s.new.token.me.0 ≡ deals_one s.old.token.me.0 thief at piece.low }
{
    write(t, s, thief, piece);
    deal(t, s, thief, at, piece);
}

/// Writes a piece in the answer word of a held thief.
fn write(t: &RunTable, s: &mut Seat, thief: u32, piece: Pair)
    requires seat { s.old.token.table_id ≡ t.now.table.shared.table_id }
    requires live { IsLiveOf t.now.layout s.old.worker s.old.token.me.0 }
    requires inside { thief < t.now.layout.workers }
    requires held { In thief s.old.token.me.0.desk.held }
    ensures seat { (s.new.token.table_id ≡ s.old.token.table_id)
        × (s.new.token.me.1 ≡ s.old.token.me.1) × (s.new.worker ≡ s.old.worker)
        × (s.new.word ≡ s.old.word) }
    ensures written { s.new.token.me.0 ≡ writes_one s.old.token.me.0 thief (packed_pair piece) }
{
    let new = pack_pair(&piece);
    t.table
        .shared
        .store::<Writing>(&mut s.token, t.layout.answer(thief), new);
}

/// Says in a held thief's post that a piece is written for it.
fn deal(t: &RunTable, s: &mut Seat, thief: u32, at: u32, piece: Pair)
    requires seat { s.old.token.table_id ≡ t.now.table.shared.table_id }
    requires live { IsLiveOf t.now.layout s.old.worker s.old.token.me.0 }
    requires inside { thief < t.now.layout.workers }
    requires written { In (record { thief = thief; piece = packed_pair piece })
        s.old.token.me.0.desk.wrote }
    requires piece { (x : Share) × In x s.old.token.me.0.loops.pieces × (x.spot.berth.at ≡ at)
        × (pair_of x ≡ piece) }
    ensures seat { (s.new.token.table_id ≡ s.old.token.table_id)
        × (s.new.token.me.1 ≡ s.old.token.me.1) × (s.new.worker ≡ s.old.worker)
        × (s.new.word ≡ s.old.word) }
    ensures answered { s.new.token.me.0 ≡ deals_one s.old.token.me.0 thief at piece.low }
{
    let new = pack_post(&Post::Piece(at));
    t.table
        .shared
        .store::<Dealing>(&mut s.token, t.layout.post(thief), new);
}

/// Gives up the lead at a victim, once all held thieves are answered.
pub fn release(t: &RunTable, s: &mut Seat, victim: u32)
    requires seat { s.old.token.table_id ≡ t.now.table.shared.table_id }
    requires live { IsLiveOf t.now.layout s.old.worker s.old.token.me.0 }
    requires inside { victim < t.now.layout.workers }
    requires leads { (s.old.token.me.0.desk.leads ≡ true)
        × (s.old.token.me.0.desk.victim ≡ victim) }
    requires answered { s.old.token.me.0.desk.held ≡ [] }
    ensures seat { (s.new.token.table_id ≡ s.old.token.table_id)
        × (s.new.token.me.1 ≡ s.old.token.me.1) × (s.new.worker ≡ s.old.worker)
        × (s.new.word ≡ s.old.word) }
    ensures released { s.new.token.me.0 ≡ releases_now s.old.token.me.0 }
{
    t.table
        .shared
        .store::<Releasing>(&mut s.token, t.layout.request(victim), 0);
}
