//! Frames that are left (JVMS 2.6.4, 2.6.5, 2.11.10), by a return or a throwable.
ghost use Rattle.std.specs.Prelude.{◌≡◌, ◌≤◌, ◌<◌, ◌-◌, ◌∷◌, [], length, take};
ghost use Rattle.model.specs.declared.turns.ClassState.TheVariants.{Failed};
ghost use Rattle.model.specs.Frames.{callers, running_frame};
ghost use Rattle.model.specs.Initialisation.{is_initializer_if, with_states};
ghost use Rattle.model.specs.Programs.{method_at};
ghost use Rattle.instructions.specs.Leaving.{HasLeft, class_if, innermost};

use crate::machines::Machine;
use crate::methods::is_initializer;
use loader::programs::Program;
use model::places::MethodPlace;
use model::turns::ClassState;

/// The class of the initializer at a place, if a class initializer is there, comes into a state.
fn come_into(
    states: &mut Vec<ClassState>,
    program: &Program,
    method: MethodPlace,
    state: ClassState,
)
    ensures { let runs = is_initializer_if (method_at program.now method) in
        states.new.items ≡ with_states state (class_if runs method.class) states.old.items }
{
    if is_initializer(program, method) && method.class < states.len() {
        states[method.class] = state;
    }
}

impl Machine {
    /// Leaves the running frame: its monitor is given back, where the thread still owns it, and where it runs an
    /// initializer the class comes into this state.
    pub(crate) fn leave_frame(&mut self, program: &Program, state: ClassState)
        requires { 0 < length self.old.frames }
        ensures left { HasLeft program.now state (running_frame self.old.frames ∷ []) self.old self.new }
        ensures frames { self.new.frames ≡ callers self.old.frames }
    {
        self.heap.release(self.thread, self.frames.monitor());
        come_into(&mut self.states, program, self.frames.method(), state);
        self.frames.leave();
    }

    /// A throwable leaves so many frames, the innermost first, and the classes that they initialise have failed.
    pub(crate) fn leave_frames(&mut self, program: &Program, count: usize)
        requires { count ≤ length self.old.frames }
        ensures left { HasLeft program.now Failed (innermost count self.old.frames) self.old self.new }
        ensures frames { self.new.frames ≡ take (length self.old.frames - count) self.old.frames }
    {
        for _ in 0..count {
            self.leave_frame(program, ClassState::Failed);
        }
    }
}
