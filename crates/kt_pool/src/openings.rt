//! The words of an opening, and the first step.
ghost use Rattle.std.specs.Prelude.{◌≡◌, ◌<◌, ◌≤◌, length, IfOk, Option, Some, None};
ghost use Rattle.kt_law.specs.declared.limits.TheConstants.{WORKERS};
ghost use Rattle.kt_prog.specs.Accepted.{IsAccepted};
ghost use Rattle.kt_prog.specs.Objects.{inputs_of};
ghost use Rattle.kt_rule.specs.Close.{IsOpening, first_view};
ghost use Rattle.kt_rule.specs.Records.{layout_of};
ghost use Rattle.kt_rule.specs.Steps.{Tells};
ghost use Rattle.kt_rule.specs.Views.{blank_view};
ghost use Rattle.kt_rule.specs.declared.views.Setup.{Setup};
ghost use Rattle.kt_pool.specs.Openings.{OpensWith};
ghost use Rattle.kt_pool.specs.Seats.{setup_of};
ghost use Rattle.kt_words.specs.Places.{total_of};

use atomic_table::{Play, Seat, Shared};
use kt_law::{NoMemory, Stand};
use kt_prog::{Program, elements, laws, objects};
use kt_rule::{KaapiRule, View};
use kt_runs::laws::programs_meet_laws;
use kt_store::PlainStore;
use kt_words::fields::STATE;
use kt_words::{Layout, StateWord, pack_state};
use std::alloc::Global;
use std::marker::{Brand, PhantomData};

/// Where the words of a run of this program stand.
pub fn layout_of(program: &Program, workers: u32) -> Layout
    requires { IsAccepted program.now }
    ensures { (input : _) → result ≡ layout_of (setup_of program.now input workers) }
{
    laws::few_objects();
    Layout {
        workers,
        objects: objects(program),
        elements: elements(program),
    }
}

/// All words of a run that has not begun.
pub fn opening_words(
    alloc: Global,
    layout: &Layout,
    program: &Program,
    input: &[u64],
) -> Result<Vec<u64>, NoMemory>
    requires accepted { IsAccepted program.now }
    requires whole { length input.now ≡ inputs_of program.now.families }
    requires some { 1 ≤ layout.now.workers }
    requires few { layout.now.workers ≤ WORKERS }
    requires layout { layout.now ≡ layout_of (setup_of program.now input.now layout.now.workers) }
    ensures opening { IfOk result (λ words.
        IsOpening (setup_of program.now input.now layout.now.workers) words.items) }
    ensures count { IfOk result (λ words. length words.items ≡ total_of layout.now) }
{
    let store = PlainStore::open(alloc, program, input)?;
    let total = layout.total();
    let mut words = Vec::with_capacity(alloc, total)?;
    words.resize(
        total - layout.objects as usize - layout.elements as usize,
        0,
    )?;
    words[layout.tasks_drawn()] = 1;
    words[layout.field(0, STATE)] = pack_state(&StateWord {
        frame: 0,
        fork: 0,
        stand: Stand::Unclaimed,
    });
    words.extend_from_slice(store.elements())?;
    words.resize(total, 0)?;
    Ok(words)
}

/// Which setup a call speaks of. Each call picks it.
pub trait SetupIs {
    ghost use Rattle.kt_rule.specs.declared.views.Setup.{Setup};

    ghost setup: { Option Setup };
}

impl SetupIs for Brand {
    ghost setup = { None };
}

struct Opening<M> {
    of: PhantomData<M>,
}

impl<M: SetupIs> Play<(), View> for Opening<M> {
    ghost then = { Tells (OpensWith M.setup) };
}

/// Tells the one seat of a table the program and the input. Both are lent, and the table's rule knows its words alone.
fn tell<M: SetupIs>(
    t: &Shared<(), View, Vec<u64>, KaapiRule>,
    s: &mut Seat<(), View>,
    _program: &Program,
    _input: &[u64],
    _workers: u32,
)
    requires seat { s.old.table_id ≡ t.now.table_id }
    requires words { (0 < t.now.table_id.words) × (t.now.table_id.slots ≡ 0) }
    requires blank { s.old.me.0 ≡ blank_view }
    requires setup { (j : Setup) × (M.setup ≡ Some j) × IsAccepted j.program × (0 < j.workers)
        × (j.workers ≤ WORKERS) × IsOpening j t.now.key.items }
    ensures seat { (s.new.table_id ≡ s.old.table_id) × (s.new.me.1 ≡ s.old.me.1) }
    ensures told { (j : Setup) → M.setup ≡ Some j → s.new.me.0 ≡ first_view j }
{
    programs_meet_laws();
    t.load::<Opening<M>>(s, 0);
}

/// The first step of a table: its one seat knows the setup from then on.
pub fn told(
    t: &Shared<(), View, Vec<u64>, KaapiRule>,
    s: &mut Seat<(), View>,
    program: &Program,
    input: &[u64],
    workers: u32,
)
    requires seat { s.old.table_id ≡ t.now.table_id }
    requires words { (0 < t.now.table_id.words) × (t.now.table_id.slots ≡ 0) }
    requires blank { s.old.me.0 ≡ blank_view }
    requires accepted { IsAccepted program.now }
    requires few { (1 ≤ workers) × (workers ≤ WORKERS) }
    requires opening { IsOpening (setup_of program.now input.now workers) t.now.key.items }
    ensures seat { (s.new.table_id ≡ s.old.table_id) × (s.new.me.1 ≡ s.old.me.1) }
    ensures told { s.new.me.0 ≡ first_view (setup_of program.now input.now workers) }
{
    tell::<Brand>(t, s, program, input, workers);
}
