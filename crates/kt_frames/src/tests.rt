use crate::{Frames, Pushed};
use kt_prog::Call;
use std::test::Fail;

#[test]
fn frames_go_up_and_down(rt: HostRuntime) -> Result<(), Fail> {
    let mut frames = Frames::reserve(rt.alloc(), 2)?;
    assert!(rt; !frames.is_running());
    let main = frames.next();
    assert!(rt; main.is_some());
    assert!(rt; frames.is_running() && frames.path().is_empty());
    let child = Call::of_main();
    assert!(rt; frames.push(&child) == Pushed::Pushed(1));
    assert!(rt; frames.push(&child) == Pushed::Limit(3));
    assert!(rt; frames.tasks() == 2);
    Ok(())
}
