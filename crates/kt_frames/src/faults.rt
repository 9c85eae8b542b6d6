// The least fault of a run so far.
ghost use Rattle.std.specs.Prelude.{◌≡◌, ◌≤◌, ◌+◌, length};
ghost use Rattle.kt_frames.specs.Stack.{path_over};
ghost use Rattle.kt_frames.specs.Rest.{fault_of, least_with};

use crate::frames::Frames;
use kt_body::Ended;
use kt_faults::earlier;
use kt_prog::{FaultAt, PATH};

/// The least fault once the body of the task that runs, or of this index of the loop that runs, has ended so.
pub fn least_after(
    least: Option<FaultAt>,
    ended: Ended,
    frames: &Frames,
    index: Option<u32>,
) -> Option<FaultAt>
    requires { length frames.now.below ≤ PATH + 1 }
    ensures { result ≡ least_with least (path_over frames.now.below) index (fault_of ended) }
{
    match ended {
        Ended::Fault(fault, line) => {
            let path = frames.path();
            earlier(
                least,
                Some(FaultAt {
                    path,
                    index,
                    fault,
                    line,
                }),
            )
        }
        Ended::Done | Ended::Halted => least,
    }
}
