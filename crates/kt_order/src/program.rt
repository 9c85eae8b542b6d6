ghost use Rattle.kt_order.specs.Laws.{Rights};
ghost use Rattle.kt_order.specs.Machine.{Machine};

/// A program as the theory sees it. A crate that uses a law names its program by a type of its own.
pub trait Program {
    ghost machine: { Machine };

    ghost rights: { Rights machine };
}
