//! What is known of a thread's turn before it is made: whether it waits, and how much it prints.
ghost use Rattle.std.specs.Prelude.{◌≡◌, ◌≤◌, ◌<◌, ℕ, IfSome, List, None, false, length, true};
ghost use Rattle.std.specs.Option.{option_map};
ghost use Rattle.model.specs.Accepted.Refusals.{refusal_of};
ghost use Rattle.model.specs.Frames.{running, running_frame};
ghost use Rattle.instructions.specs.CallsByNumbers.{printed_by_call};
ghost use Rattle.instructions.specs.Operated.{may_wait, printed_at, standing, waits_at, waits_by};

use crate::first_turns::is_unmarked;
use crate::kinds::Course;
use crate::machines::Machine;
use crate::printing::{line_length, long_line_length};
use frames::Frames;
use linking::operations::Operation;
use loader::programs::Program;
use model::turns::Mark;

/// Whether an operation may wait: it uses a class, calls a method on an object, or enters a monitor.
#[inline(always)]
pub(crate) fn may_wait(operation: Operation) -> bool
    ensures { result ≡ may_wait operation }
{
    match operation {
        Operation::Getstatic(_) | Operation::Putstatic(_) | Operation::New(_) => true,
        Operation::Invokestatic(_, _)
        | Operation::Invokevirtual(_, _)
        | Operation::Invokespecial(_, _, _)
        | Operation::Monitorenter => true,
        _ => false,
    }
}

/// Whether the turn of a thread with these frames is known to wait for nobody, by the operation of its step alone.
#[inline(always)]
pub(crate) fn never_waits(program: &Program, frames: &Frames) -> bool
    ensures { result ≡ true → (courses : List Course) (m : Machine) (t : ℕ)
        → waits_at program.now courses m t (running frames.now) ≡ false }
{
    if !is_unmarked(frames) {
        return false;
    }
    let step = program.code(frames.method()).step(frames.pc());
    if may_wait(step.operation) {
        return false;
    }
    true
}

/// How many bytes an operation would print, its operand being right.
#[tactic(auto, using(crate::proofs::ReadinessLemmas::others))]
fn length_printed(frames: &Frames, operation: Operation) -> Option<usize>
    requires { 0 < length frames.now }
    ensures length { result ≡ option_map length (printed_by_call (running_frame frames.now) operation) }
    ensures short { IfSome result (λ n. n ≤ 41) }
{
    match operation {
        Operation::PrintInt => match frames.int() {
            Ok(number) => Some(line_length(number)),
            Err(_) => None,
        },
        Operation::PrintLong => match frames.long() {
            Ok(number) => Some(long_line_length(number)),
            Err(_) => None,
        },
        Operation::PutByte => match frames.int() {
            Ok(_) => Some(1),
            Err(_) => None,
        },
        _ => None,
    }
}

/// How many bytes the turn of a thread with these frames would print, its operand being right.
pub(crate) fn print_length(program: &Program, frames: &Frames) -> Option<usize>
    ensures length { result ≡ option_map length (printed_at program.now (running frames.now)) }
    ensures short { IfSome result (λ n. n ≤ 41) }
{
    if frames.depth() == 0 {
        return None;
    }
    match frames.mark() {
        Mark::Unmarked => {
            let step = program.step(frames.method(), frames.pc());
            length_printed(frames, step.operation)
        }
        Mark::Waiting | Mark::Failing => None,
    }
}

impl Machine {
    /// Whether the step of a thread's running frame waits for another thread: for its initialisation of a class, for a
    /// monitor, or for its end. Most steps are such that they never do.
    fn step_waits(&self, program: &Program, courses: &[Course], thread: u8, frames: &Frames) -> bool
        requires accepted { refusal_of program.now ≡ None }
        requires some { 0 < length frames.now }
        requires sized { length self.now.states.items ≡ length program.now }
        ensures { let f = running_frame frames.now in
            result ≡ waits_by program.now courses.now self.now thread f (standing program.now f).operation }
    {
        let step = program.step(frames.method(), frames.pc());
        if !may_wait(step.operation) {
            return false;
        }
        self.must_wait(program, thread, step.operation)
            || self.awaits_thread(program, courses, thread, frames, step.operation)
    }

    /// Whether a thread with these frames waits: below an initializer, or for another thread, the threads that were
    /// started being in these courses.
    pub(crate) fn waits(
        &self,
        program: &Program,
        courses: &[Course],
        thread: u8,
        frames: &Frames,
    ) -> bool
        requires accepted { refusal_of program.now ≡ None }
        requires sized { length self.now.states.items ≡ length program.now }
        ensures { result ≡ waits_at program.now courses.now self.now thread (running frames.now) }
    {
        if frames.depth() == 0 {
            return false;
        }
        match frames.mark() {
            Mark::Unmarked => self.step_waits(program, courses, thread, frames),
            Mark::Waiting => true,
            Mark::Failing => false,
        }
    }
}
