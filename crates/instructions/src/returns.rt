//! Returns (JVMS 2.6.4, 6.5): the frame is left, and its caller goes on behind its call.
ghost use Rattle.std.specs.Prelude.{◌≡◌, ◌≤◌, ◌<◌, ◌+◌, ◌∷◌, [], ℕ, IfOk, IfSome, List, OnErr, Some, is_some, length};
ghost use Rattle.std.specs.Prelude.{true};
ghost use Rattle.std.specs.Option.{option_map};
ghost use Rattle.model.specs.declared.places.MethodPlace.{MethodPlace};
ghost use Rattle.model.specs.ClassListings.{ClassListing};
ghost use Rattle.model.specs.Frames.{callers, replaced, replaced_if_room, running, running_frame, with_running};
ghost use Rattle.model.specs.Table.Returns.{leaves_with, resumes, returned};
ghost use Rattle.model.specs.Values.{units_of as units_taken, units_of_all};
ghost use Rattle.frames.specs.Heads.{head_of};
ghost use Rattle.instructions.specs.Acting.{Keeps, Stays, Turns, site_at};
ghost use Rattle.instructions.specs.CallsByNumbers.{is_call};
ghost use Rattle.instructions.specs.FirstTurns.{goes_on_plainly};
ghost use Rattle.instructions.specs.PlainRuns.{AreStepsOf};
ghost use Rattle.instructions.specs.ReturnsByNumbers.{IsCaller, next_at, past};

use crate::acting::Turned;
use crate::kinds::Course;
use crate::machines::Machine;
use crate::methods::{gives, is_initializer};
use crate::pushes::reference_of;
use frames::Frames;
use frames::heads::FrameHead;
use linking::operations::Operation;
use loader::method_codes::MethodCode;
use loader::programs::{Program, Step};
use model::turns::{ClassState, Fault, Mark};
use model::values::{Kind, Value};

/// The caller of the running frame. `None` where that is the outermost.
#[inline(always)]
pub(crate) fn caller_of(frames: &Frames) -> Option<FrameHead>
    ensures { result ≡ option_map head_of (running (callers frames.now)) }
{
    let depth = frames.depth();
    if depth < 2 {
        return None;
    }
    frames.frame_at(depth - 2)
}

/// The pc after the instruction at which a frame stands. `None` where none begins there.
pub(crate) fn next_of(program: &Program, frame: FrameHead) -> Option<u16>
    ensures { result ≡ next_at program.now frame.method frame.pc }
{
    match program.placed(frame.method, frame.pc) {
        Some(placed) => Some(placed.next),
        None => None,
    }
}

/// Whether an operation calls a method that may have code.
#[inline(always)]
fn is_call(operation: Operation) -> bool
    ensures { result ≡ true → is_call operation ≡ true }
{
    if let Operation::Invokestatic(_, _) = operation {
        return true;
    }
    if let Operation::Invokevirtual(_, _) = operation {
        return true;
    }
    matches!(operation, Operation::Invokespecial(_, _, _))
}

/// The pc behind a call. `None` where the step is none.
#[inline(always)]
fn next_behind(step: &Step) -> Option<u16>
    ensures call { is_some result ≡ true → is_call step.now.operation ≡ true }
    ensures next { IfSome result (λ next. next ≡ step.now.next) }
{
    if is_call(step.operation) {
        Some(step.next)
    } else {
        None
    }
}

/// The pc behind the call at a pc of a method, by its steps. `None` where no call begins there.
#[inline(always)]
pub(crate) fn next_of_call(code: &MethodCode, pc: u16) -> Option<u16>
    ensures { IfSome result (λ next. (program : List ClassListing) → (method : MethodPlace)
        → AreStepsOf program method code.now → Some next ≡ next_at program method pc) }
{
    next_behind(code.step(pc))
}

/// The units that a value takes on a stack: 2 for a long, else 1 (JVMS 2.6.2).
#[inline(always)]
pub(crate) fn units_of(value: Value) -> usize
    ensures { result ≡ units_taken value }
{
    match value {
        Value::Int(_) | Value::Ref(_) => 1,
        Value::Long(_) => 2,
    }
}

/// A value on the stack, which has room for it, and on to this pc.
#[inline(always)]
pub(crate) fn put_result(frames: &mut Frames, next: u16, value: Value)
    requires some { 0 < length frames.old }
    requires room { units_taken value + units_of_all (running_frame frames.old).stack
        ≤ (running_frame frames.old).room }
    ensures { frames.new ≡ with_running frames.old (replaced next (running_frame frames.old) 0 (value ∷ [])).frame }
{
    match frames.replace_if_room(next, 0, value) {
        Ok(()) => {}
        Err(_) => unreachable!(),
    }
}

impl Machine {
    /// The running frame is left, and its caller goes on at a pc with a value on its stack; F2 where it has no room for
    /// it, and then nothing changes. What the value leads to is shaded (CACM 21(11)).
    fn go_on_with(
        &mut self,
        program: &Program,
        next: u16,
        caller: FrameHead,
        value: Value,
    ) -> Result<Turned, Fault>
        requires some { 0 < length self.old.frames }
        requires caller { IsCaller self.old.frames caller }
        ensures step { let below = running_frame (callers self.old.frames) in
            (n : ℕ) → Turns program.now self.old self.new result
            (λ w. resumes (site_at program.now self.old w n) (replaced_if_room next below 0 (value ∷ []))) }
        ensures kept { OnErr result (Stays self.old self.new) }
        ensures same { OnErr result (self.new ≡ self.old) }
        ensures plain { IfOk result (λ turned. turned ≡ goes_on_plainly) }
        ensures keeps { Keeps program.now self.old self.new }
    {
        if caller.room.saturating_sub(caller.taken) < units_of(value) {
            return Err(Fault::StackFull);
        }
        self.leave_frame(program, ClassState::Done);
        put_result(&mut self.frames, next, value);
        self.heap.shade(reference_of(value));
        Ok(Turned::to(Course::Live))
    }

    /// The running frame is left, and its caller goes on at a pc, with a value on its stack, if there is one; F2 where
    /// it has no room for it, and then nothing changes.
    fn go_on(
        &mut self,
        program: &Program,
        next: u16,
        caller: FrameHead,
        value: Option<Value>,
    ) -> Result<Turned, Fault>
        requires some { 0 < length self.old.frames }
        requires caller { IsCaller self.old.frames caller }
        ensures step { (n : ℕ) → Turns program.now self.old self.new result
            (λ w. resumes (site_at program.now self.old w n)
            (past (running_frame (callers self.old.frames)) value next)) }
        ensures kept { OnErr result (Stays self.old self.new) }
        ensures same { OnErr result (self.new ≡ self.old) }
        ensures plain { IfOk result (λ turned. turned ≡ goes_on_plainly) }
        ensures keeps { Keeps program.now self.old self.new }
    {
        match value {
            Some(value) => self.go_on_with(program, next, caller, value),
            None => {
                self.leave_frame(program, ClassState::Done);
                self.frames.go_to(next);
                Ok(Turned::to(Course::Live))
            }
        }
    }

    /// The running frame is left for its caller: what waits below an initializer tries its instruction again, and any
    /// other caller goes on behind its call. F5 where it stands at none, F2 where it has no room for the value, and
    /// then nothing changes.
    fn leave_to(
        &mut self,
        program: &Program,
        caller: FrameHead,
        value: Option<Value>,
    ) -> Result<Turned, Fault>
        requires some { 0 < length self.old.frames }
        requires caller { IsCaller self.old.frames caller }
        ensures step { (n : ℕ) → Turns program.now self.old self.new result
            (λ w. leaves_with (site_at program.now self.old w n) value) }
        ensures kept { OnErr result (Stays self.old self.new) }
        ensures same { OnErr result (self.new ≡ self.old) }
        ensures plain { IfOk result (λ turned. turned ≡ goes_on_plainly) }
        ensures keeps { Keeps program.now self.old self.new }
    {
        if is_initializer(program, self.frames.method()) {
            self.leave_frame(program, ClassState::Done);
            self.frames.set_mark(Mark::Unmarked);
            return Ok(Turned::to(Course::Live));
        }
        match next_of(program, caller) {
            Some(next) => self.go_on(program, next, caller, value),
            None => Err(Fault::NoInstruction),
        }
    }

    /// The running frame is left with a result, if there is one. The thread of the outermost frame ends.
    fn leave_with(&mut self, program: &Program, value: Option<Value>) -> Result<Turned, Fault>
        requires { 0 < length self.old.frames }
        ensures step { (n : ℕ) → Turns program.now self.old self.new result
            (λ w. leaves_with (site_at program.now self.old w n) value) }
        ensures kept { OnErr result (Stays self.old self.new) }
        ensures same { OnErr result (self.new ≡ self.old) }
        ensures plain { 1 < length self.old.frames → IfOk result (λ turned. turned ≡ goes_on_plainly) }
        ensures keeps { Keeps program.now self.old self.new }
    {
        match caller_of(&self.frames) {
            Some(caller) => self.leave_to(program, caller, value),
            None => {
                self.leave_frame(program, ClassState::Done);
                Ok(Turned::to(Course::Returned))
            }
        }
    }

    /// return, ireturn, lreturn, areturn: F7 where the method's result isn't of this kind, F1 and F3 where there is no
    /// such operand, F5 where the caller stands at no instruction, F2 where it has no room for the result, and then
    /// nothing changes.
    pub(crate) fn return_result(
        &mut self,
        program: &Program,
        kind: Option<Kind>,
    ) -> Result<Turned, Fault>
        requires { 0 < length self.old.frames }
        ensures step { (n : ℕ) → Turns program.now self.old self.new result
            (λ w. returned (site_at program.now self.old w n) kind) }
        ensures kept { OnErr result (Stays self.old self.new) }
        ensures same { OnErr result (self.new ≡ self.old) }
        ensures plain { 1 < length self.old.frames → IfOk result (λ turned. turned ≡ goes_on_plainly) }
        ensures keeps { Keeps program.now self.old self.new }
    {
        if !gives(program, self.frames.method(), kind) {
            return Err(Fault::WrongReturn);
        }
        match kind {
            None => self.leave_with(program, None),
            Some(kind) => match self.frames.operand(kind) {
                Ok(value) => self.leave_with(program, Some(value)),
                Err(fault) => Err(fault),
            },
        }
    }
}
