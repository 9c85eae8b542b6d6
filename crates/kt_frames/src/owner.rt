// What the owner's loop does the operations of bodies on: one plain store and the stack of frames.
ghost use Rattle.kt_prog.specs.declared.runs.Operation.TheVariants.{Load, Store, Fold, Fork};

use crate::frames::{Frames, Pushed};
use kt_body::{Got, Ops, Went};
use kt_law::Op;
use kt_prog::Call;
use kt_store::PlainStore;

/// The store and the tasks under way. `over` says that a task more was forked than there is room for, `indexes` counts the
/// indexes of the loops that were run.
#[derive(Drop)]
pub struct Owner<'a> {
    pub store: PlainStore<'a>,
    pub frames: Frames,
    pub over: bool,
    pub indexes: u32,
}

impl<'a> Ops for Owner<'a> {
    ghost use Rattle.kt_frames.specs.Owned.{Moves, Stands};

    ghost at = { λ owner program job answers count. Stands owner program };

    ghost goes = { Moves };

    ghost halted = { λ owner. ⊥ };

    fn load(&mut self, object: u32, element: u32) -> Got {
        Got::Value(self.store.load(object, element))
    }

    fn store(&mut self, object: u32, element: u32, value: u64) -> Went {
        self.store.store(object, element, value);
        Went::Went
    }

    fn fold(&mut self, object: u32, element: u32, op: Op, value: u64) -> Went {
        self.store.fold(object, element, op, value);
        Went::Went
    }

    fn fork(&mut self, child: &Call) -> Went {
        match self.frames.push(child) {
            Pushed::Pushed(_) => {}
            Pushed::Limit(_) => self.over = true,
        }
        Went::Went
    }
}
