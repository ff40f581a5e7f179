//! What an instruction comes to (JVMS 2.6.4, 2.6.5), before it is known whether a cell that it asks for is free.
ghost use Rattle.std.specs.Prelude.{◌≡◌, ◌∷◌, [], ℕ, Ok, Some, IfOk};
ghost use Rattle.model.specs.Worlds.{World};
ghost use Rattle.model.specs.Completions.{raises, completes_abruptly, frames_in};
ghost use Rattle.model.specs.Frames.{running, replaced, replaced_if_room};
ghost use Rattle.ideal_run.specs.Completed.{reported, changed, completes_with, pops_in};
ghost use Rattle.ideal_run.specs.Reported.{frame_in};

use crate::frames::{Frame, Moved, replaced, replaced_if_room};
use crate::programs::Program;
use crate::worlds::{Monitor, Step, Thread, World};
use model::turns::{Abrupt, ClassState, Exception, Fault};
use model::values::Value;
use model::views::ContentsView;
use std::alloc::{AllocError, Global};
use std::marker::Model;

/// What changes beside the thread.
#[derive(Drop)]
pub enum Change {
    Nothing,
    /// a static field's value
    Slot(usize, Value),
    /// a word of an object
    Word(u32, usize, Value),
    /// an object's monitor
    Monitor(u32, Monitor),
    /// the hold of a frame that is left on its monitor, and the state of a class that its method initialised
    Left(Option<u32>, Option<usize>),
    /// the states of classes
    States(Vec<ClassState>),
}

/// What an instruction comes to.
#[derive(Drop)]
pub enum Completion {
    /// it goes on
    Goes(Change, Step),
    /// a thread begins on the object of a birth, and the running frame goes on
    Starts(u32, Frame, Thread),
    /// the running frame goes on once the bytes are printed
    Prints(Frame, Vec<u8>),
    /// a new object in place of so many values at the top of the running frame's stack, and on to the next instruction
    Creates(u16, usize, ContentsView),
    /// a throwable that is there
    Throws(u32),
    /// an exception that the machine makes, and for which it asks for a cell
    Raises(Exception),
    /// a class that can't be used: a NoClassDefFoundError, and the class states with it
    Denies(Vec<ClassState>),
    Faults(Fault),
    /// the thread waits, for a monitor, a thread's end or a class
    Waits,
}

/// A thread's turn as it begins: its running frame stands at an instruction, after which is the next.
#[derive(Drop)]
pub struct Site<'s, 'p> {
    pub alloc: Global,
    pub program: &'s Program<'p>,
    pub world: &'s World,
    pub thread: u8,
    pub frame: &'s Frame,
    pub next: u16,
}

impl<'s, 'p> Model for Site<'s, 'p> {
    ghost use Rattle.std.specs.Prelude.{◌≡◌, Some};
    ghost use Rattle.model.specs.Completions.{Site};
    ghost use Rattle.model.specs.Frames.{running};
    ghost use Rattle.model.specs.Worlds.{frames_at};

    ghost Value = { Site };

    ghost view = { λ a. record {
      program = a.program.now;
      world = a.world.now;
      thread = a.thread;
      frame = a.frame.now;
      next = a.next;
    } };

    ghost invariant = { λ a. running (frames_at a.world.now a.thread) ≡ Some a.frame.now };
}

impl<'s, 'p> Site<'s, 'p> {
    /// The allocator.
    pub fn alloc(&self) -> Global {
        self.alloc
    }

    /// The program.
    pub fn program(&self) -> &'s Program<'p>
        ensures { result.now ≡ self.now.program }
    {
        self.program
    }

    /// The world before the turn.
    pub fn world(&self) -> &'s World
        ensures { result.now ≡ self.now.world }
    {
        self.world
    }

    /// The thread's number.
    pub fn thread(&self) -> u8
        ensures { result ≡ self.now.thread }
    {
        self.thread
    }

    /// The running frame.
    pub fn frame(&self) -> &'s Frame
        ensures frame { result.now ≡ self.now.frame }
        ensures running { running (frames_in self.now) ≡ Some self.now.frame }
    {
        self.frame
    }

    /// The running frame's stack, top first.
    pub fn stack(&self) -> &'s [Value]
        ensures { result.now ≡ self.now.frame.stack }
    {
        let frame = self.frame;
        &frame.stack
    }

    /// The pc after the instruction.
    pub fn next(&self) -> u16
        ensures { result ≡ self.now.next }
    {
        self.next
    }

    /// The frames of the thread, outermost first.
    pub fn frames(&self) -> &'s [Frame]
        ensures { result.now ≡ frames_in self.now }
    {
        self.world.frames_at(self.thread)
    }

    /// An instruction that changes the running frame alone.
    pub fn completes(&self, moved: Moved) -> Completion
        ensures { reported self.now.world self.now.thread result ≡ completes_with self.now moved }
    {
        match moved {
            Ok(frame) => Completion::Goes(Change::Nothing, Step::Runs(frame)),
            Err(abrupt) => completes_abruptly(abrupt),
        }
    }

    /// A value in place of so many operands. `AllocError` where memory runs out.
    pub fn pushes(&self, n: usize, value: Value) -> Result<Completion, AllocError>
        ensures { IfOk result (λ c. reported self.now.world self.now.thread c
            ≡ completes_with self.now (Ok (replaced self.now.next self.now.frame n (value ∷ [])).frame)) }
    {
        let frame = replaced(self.alloc(), self.next(), self.frame(), n, &[value])?;
        Ok(self.completes(Ok(frame)))
    }

    /// The same where the value has room, else F2. `AllocError` where memory runs out.
    pub fn pushes_if_room(&self, n: usize, value: Value) -> Result<Completion, AllocError>
        ensures { IfOk result (λ c. reported self.now.world self.now.thread c
            ≡ completes_with self.now (frame_in (replaced_if_room self.now.next self.now.frame n (value ∷ [])))) }
    {
        let moved = replaced_if_room(self.alloc(), self.next(), self.frame(), n, &[value])?;
        Ok(self.completes(moved))
    }

    /// So many operands go, and something changes beside the thread. `AllocError` where memory runs out.
    pub fn pops(&self, n: usize, change: Change) -> Result<Completion, AllocError>
        ensures { IfOk result (λ c. reported self.now.world self.now.thread c
            ≡ pops_in self.now n (changed self.now.world self.now.thread change)) }
    {
        let frame = replaced(self.alloc(), self.next(), self.frame(), n, &[])?;
        Ok(Completion::Goes(change, Step::Runs(frame)))
    }
}

/// An exception that the machine makes. StackOverflowError was made before the run, with birth 2.
pub fn raises(exception: Exception) -> Completion
    ensures { (w : World) (t : ℕ) → reported w t result ≡ raises exception }
{
    match exception {
        Exception::StackOverflow => Completion::Throws(2),
        Exception::Arithmetic
        | Exception::NullPointer
        | Exception::ClassCast
        | Exception::NegativeArraySize
        | Exception::ArrayStore => Completion::Raises(exception),
        Exception::IllegalMonitorState
        | Exception::ArrayIndexOutOfBounds
        | Exception::IllegalThreadState
        | Exception::ExceptionInInitializer
        | Exception::NoClassDefFound => Completion::Raises(exception),
    }
}

/// What an instruction that completes abruptly comes to.
pub fn completes_abruptly(abrupt: Abrupt) -> Completion
    ensures { (w : World) (t : ℕ) → reported w t result ≡ completes_abruptly abrupt }
{
    match abrupt {
        Abrupt::Fault(fault) => Completion::Faults(fault),
        Abrupt::Throw(exception) => raises(exception),
    }
}
