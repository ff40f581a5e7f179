//! How deep a thread's frames may be (JVMS 2.5.2): 256 frames.

use super::stands_at;
use model::turns::Turn;
use model::values::Value;
use model::views::ThreadState;
use scheduler::worlds::World;

/// A main that calls a method which calls itself, and handles the StackOverflowError.
pub const DEEP: &str =
    ".catch java/lang/StackOverflowError from Call to Called using Called\nnop\nnop\nnew A\nCall:\ninvokevirtual A/f()V\nCalled:\npop\nreturn\n.end method\n.method synchronized f()V\n.limit stack 1\n.limit locals 1\naload_0\ninvokevirtual A/f()V\nreturn\n";

/// How many frames thread 0 has.
fn depth(world: &World) -> usize {
    match world.thread(0) {
        Ok(Some(main)) => match &main.state {
            ThreadState::Live(frames) => frames.len(),
            ThreadState::Ended(_) => 0,
        },
        _ => 0,
    }
}

/// Four turns come to the first call's frame, and two to each of the others. The turn after them throws the error of
/// birth 2, and main alone is left.
pub fn the_call_past_256_frames_overflows(world: &mut World) -> bool {
    world.rounds(513, 0) == Turn::Done
        && depth(world) == 256
        && world.rounds(1, 0) == Turn::Done
        && stands_at(world, 8, &[Value::Ref(Some(2))])
}
