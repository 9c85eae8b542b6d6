// The kernels, which are forked like tasks and aren't declared.
ghost use Rattle.std.specs.Prelude.{◌≡◌, Some, option_map};
ghost use Rattle.kt_prog.specs.Targets.{kernel_named, kernel_target};

use crate::names::Name;
use crate::programs::Sort;
use kt_law::{DEFINITIONS, Mode, Op};

/// A kernel, in the order of their numbers in a call.
#[derive(Clone, Copy, Debug, PartialEq, Eq)]
pub enum Kernel {
    Mul,
    Minplus,
    Stencil,
    Scan,
}

static MUL: [Sort; 6] = [
    Sort::Int,
    Sort::Int,
    Sort::Int,
    Sort::One(Mode::R),
    Sort::One(Mode::R),
    Sort::One(Mode::Cw(Op::Add)),
];

static MINPLUS: [Sort; 6] = [
    Sort::Int,
    Sort::Int,
    Sort::Int,
    Sort::One(Mode::R),
    Sort::One(Mode::R),
    Sort::One(Mode::Cw(Op::Min)),
];

static STENCIL: [Sort; 5] = [
    Sort::Int,
    Sort::One(Mode::R),
    Sort::One(Mode::R),
    Sort::One(Mode::R),
    Sort::One(Mode::W),
];

static SCAN: [Sort; 4] = [Sort::Int, Sort::Int, Sort::One(Mode::R), Sort::One(Mode::X)];

impl Kernel {
    /// The kernel that a forked name stands for, if it does.
    pub fn named(name: &Name) -> Option<Kernel>
        ensures { option_map kernel_target result ≡ kernel_named name.now }
    {
        let bytes = name.as_bytes();
        if b"k_mul".as_slice() == bytes {
            Some(Kernel::Mul)
        } else if b"k_minplus".as_slice() == bytes {
            Some(Kernel::Minplus)
        } else if b"k_stencil".as_slice() == bytes {
            Some(Kernel::Stencil)
        } else if b"k_scan".as_slice() == bytes {
            Some(Kernel::Scan)
        } else {
            None
        }
    }

    /// The name by which it is forked.
    pub fn name(self) -> Name
        ensures { kernel_named result ≡ Some (kernel_target self) }
    {
        match self {
            Kernel::Mul => Name::new(b"k_mul"),
            Kernel::Minplus => Name::new(b"k_minplus"),
            Kernel::Stencil => Name::new(b"k_stencil"),
            Kernel::Scan => Name::new(b"k_scan"),
        }
    }

    /// Its number in a call.
    pub fn number(self) -> u32
        ensures { result ≡ (kernel_target self).number }
    {
        match self {
            Kernel::Mul => DEFINITIONS + 1,
            Kernel::Minplus => DEFINITIONS + 2,
            Kernel::Stencil => DEFINITIONS + 3,
            Kernel::Scan => DEFINITIONS + 4,
        }
    }

    /// What its parameters take, in their order.
    pub fn sorts(self) -> &'static [Sort]
        ensures { result.now ≡ (kernel_target self).sorts }
    {
        match self {
            Kernel::Mul => &MUL,
            Kernel::Minplus => &MINPLUS,
            Kernel::Stencil => &STENCIL,
            Kernel::Scan => &SCAN,
        }
    }
}
