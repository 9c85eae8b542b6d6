ghost use Rattle.kt_rights.specs.Plan.{Plan};

/// A program of calls with accesses. A crate that uses a law names its program by a type of its own.
pub trait Source {
    ghost plan: { Plan };
}
