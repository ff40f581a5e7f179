//! The opening (JVMS 5.2, 5.5): thread 0 stands at the start of main, and claims main's class first where that is
//! unused.
ghost use Rattle.std.specs.Prelude.{◌≡◌, [], IfOk, OnOk, None, true};
ghost use Rattle.model.specs.Accepted.Refusals.{refusal_of};
ghost use Rattle.model.specs.Initialisation.{claimed_states, opening_frames, opening_states, state_if};
ghost use Rattle.model.specs.Worlds.{opening_fits};
ghost use Rattle.linking.specs.Initializers.{initializers, is_wanted_in};
ghost use Rattle.linking.specs.CanRun.{CanRun};

use crate::claims::{enter_initializers, has_room_for_claim, set_states, unused_classes};
use frames::Frames;
use loader::programs::Program;
use model::turns::{ClassState, Mark};
use std::alloc::{AllocError, Global};

/// The state in which a class of the program opens.
fn opening_state(program: &Program, class: usize) -> ClassState
    ensures { result ≡ state_if (is_wanted_in (initializers program.now) class) }
{
    if program.tables().initializers.wants_initialising(class) {
        ClassState::Unused
    } else {
        ClassState::Done
    }
}

/// The states in which the classes of a program, which can run, open. `AllocError` where memory runs out.
pub(crate) fn opening_states(
    alloc: Global,
    program: &Program,
) -> Result<Vec<ClassState>, AllocError>
    ensures states { IfOk result (λ states. states.items ≡ opening_states program.now) }
    ensures can_run { OnOk result (CanRun program.now) }
{
    let mut states = Vec::new(alloc);
    for class in 0..program.listings().len() {
        states.push(opening_state(program, class))?;
    }
    Ok(states)
}

/// Enters main, and the initializers of its class and of those above it where they are unused, which the thread claims.
/// Whether these frames lie within a thread's limits: else the program can't be run.
pub(crate) fn open(program: &Program, states: &mut Vec<ClassState>, frames: &mut Frames) -> bool
    requires accepted { refusal_of program.now ≡ None }
    requires unclaimed { states.old.items ≡ opening_states program.now }
    requires empty { frames.old ≡ [] }
    ensures fits { result ≡ opening_fits program.now }
    ensures frames { result ≡ true → frames.new ≡ opening_frames program.now }
    ensures states { result ≡ true → states.new.items ≡ claimed_states program.now }
{
    let (max_locals, max_stack) = program.main_limits();
    frames.enter(program.main(), max_locals, max_stack);
    let unused = unused_classes(program, states.as_slice(), 0);
    if unused.count == 0 {
        return true;
    }
    frames.set_mark(Mark::Waiting);
    if has_room_for_claim(program, frames, 0, unused.count) {
        enter_initializers(program, frames, 0, unused.count);
        set_states(program, states, 0, unused.count, ClassState::Running(0));
        true
    } else {
        false
    }
}
