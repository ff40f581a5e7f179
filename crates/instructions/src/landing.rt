//! A throwable lands (JVMS 2.10): frames are left, and what becomes of the next one.
ghost use Rattle.std.specs.Prelude.{◌≡◌, ◌<◌, ◌≤◌, length, reverse, false, Some};
ghost use Rattle.model.specs.Frames.{running_frame, with_running};
ghost use Rattle.model.specs.Unwinding.{failing, handling, way_of};
ghost use Rattle.instructions.specs.Acting.{Keeps, Lands};
ghost use Rattle.instructions.specs.Heaps.{kind_held};
ghost use Rattle.instructions.specs.Shown.{kind_name};
ghost use Rattle.instructions.specs.Throwing.{IsWithin, is_full_at, way_as};

use crate::kinds::{Course, Kind};
use crate::machines::Machine;
use crate::objects::push_reference;
use crate::unwinding::Target;
use frames::Frames;
use loader::programs::Program;
use model::turns::Mark;

/// The running frame goes on at a handler, with a throwable alone on its stack.
fn handle(frames: &mut Frames, handler: u16, reference: u32)
    requires some { 0 < length frames.old }
    requires room { 1 ≤ (running_frame frames.old).room }
    ensures { frames.new ≡ with_running frames.old (handling reference handler (running_frame frames.old)) }
{
    frames.clear(handler);
    push_reference(frames, handler, reference);
}

/// The running frame, an initializer's, fails: its next turn throws an ExceptionInInitializerError.
fn fail(frames: &mut Frames)
    requires { 0 < length frames.old }
    ensures { frames.new ≡ with_running frames.old (failing (running_frame frames.old)) }
{
    let pc = frames.pc();
    frames.clear(pc);
    frames.set_mark(Mark::Failing);
}

impl Machine {
    /// A throwable lands: frames are left, and it is handled, or an initializer fails, or the thread ends.
    pub(crate) fn land(
        &mut self,
        program: &Program,
        reference: u32,
        kind: Kind,
        target: Target,
    ) -> Course
        requires kind { kind_held self.old.heap reference ≡ Some kind }
        requires way { way_of program.now (kind_name program.now kind) (reverse self.old.frames)
            ≡ way_as self.old.frames target }
        requires within { IsWithin self.old.frames target }
        requires room { is_full_at self.old.frames target ≡ false }
        ensures step { Lands program.now self.old self.new reference result }
        ensures keeps { Keeps program.now self.old self.new }
    {
        match target {
            Target::Handler(left, handler) => {
                self.leave_frames(program, left);
                handle(&mut self.frames, handler, reference);
                self.heap.shade(Some(reference));
                Course::Live
            }
            Target::Initializer(left) => {
                self.leave_frames(program, left);
                fail(&mut self.frames);
                Course::Live
            }
            Target::Nowhere => {
                let depth = self.frames.depth();
                self.leave_frames(program, depth);
                Course::Threw(Some(kind))
            }
        }
    }
}
