// The order of faults.
ghost use Rattle.std.specs.Prelude.{◌≡◌};
ghost use Rattle.kt_prog.specs.Outcome.{fault_before, index_before, path_before};

use crate::runs::FaultAt;

impl FaultAt {
    /// Whether this fault is the earlier one: by the path, and at one path by the index.
    pub fn is_before(&self, other: &FaultAt) -> bool
        ensures { result ≡ fault_before self.now other.now }
    {
        let (a, b) = (self.path.as_slice(), other.path.as_slice());
        path_before(a, b) || !path_before(b, a) && index_before(self.index, other.index)
    }
}

fn path_before(first: &[u32], second: &[u32]) -> bool
    ensures { result ≡ path_before first.now second.now }
{
    match first {
        [] => match second {
            [] => false,
            [_, ..] => true,
        },
        [m, first @ ..] => match second {
            [] => false,
            [n, second @ ..] => {
                if m == n {
                    path_before(first, second)
                } else {
                    m < n
                }
            }
        },
    }
}

fn index_before(first: Option<u32>, second: Option<u32>) -> bool
    ensures { result ≡ index_before first second }
{
    match (first, second) {
        (_, None) => false,
        (None, Some(_)) => true,
        (Some(i), Some(j)) => i < j,
    }
}
