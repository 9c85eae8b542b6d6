// The earlier one of two faults.
ghost use Rattle.std.specs.Prelude.{◌≡◌};
ghost use Rattle.kt_faults.specs.First as defined;

use kt_prog::FaultAt;

/// The earlier one of two faults that there may be, by path and then by index; the one of two at one place.
pub fn earlier(one: Option<FaultAt>, other: Option<FaultAt>) -> Option<FaultAt>
    ensures { result ≡ defined.earlier one other }
{
    match (one, other) {
        (one, None) => one,
        (None, Some(fault)) => Some(fault),
        (Some(one), Some(other)) => {
            if other.is_before(&one) {
                Some(other)
            } else {
                Some(one)
            }
        }
    }
}
