// Calls that clash.
ghost use Rattle.std.specs.Prelude.{◌≡◌};
ghost use Rattle.kt_law.specs.Accesses.{any_clash, clash_between};
ghost use Rattle.kt_runs.specs.Clash.{calls_clash};

use kt_law::{Access, clash};
use kt_prog::Call;

/// Whether an access of the one call clashes with an access of the other.
pub fn calls_clash(first: &Call, second: &Call) -> bool
    ensures { result ≡ calls_clash first.now second.now }
{
    clash_between(first.accesses.as_slice(), second.accesses.as_slice())
}

fn clash_between(firsts: &[Access], seconds: &[Access]) -> bool
    ensures { result ≡ clash_between firsts.now seconds.now }
{
    match firsts {
        [] => false,
        [first, firsts @ ..] => any_clash(first, seconds) || clash_between(firsts, seconds),
    }
}

fn any_clash(access: &Access, others: &[Access]) -> bool
    ensures { result ≡ any_clash access.now others.now }
{
    match others {
        [] => false,
        [other, others @ ..] => clash(access, other) || any_clash(access, others),
    }
}
