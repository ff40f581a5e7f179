//! Calls of methods (JVMS 6.5): the operands are tested, and go into the locals of a new frame.
ghost use Rattle.std.specs.Prelude.{◌≡◌, ◌≤◌, ◌<◌, OnErr, IfSome, IsTrue, None, Ok, Some, drop, false, is_some, length};
ghost use Rattle.std.specs.Prelude.{reverse, take, true};
ghost use Rattle.std.specs.Option.{option_copied, option_map_or};
ghost use Rattle.std.specs.Result.{result_err};
ghost use Rattle.model.specs.Frames.{has_room_for, running_frame};
ghost use Rattle.model.specs.Locals.{arguments_on, value_on};
ghost use Rattle.model.specs.Monitors.{is_full};
ghost use Rattle.model.specs.Table.Invokes.{fault_in_pops};
ghost use Rattle.model.specs.Values.{births_of, units_of_all};
ghost use Rattle.model.specs.Worlds.{free_monitor};
ghost use Rattle.instructions.specs.Acting.{Keeps, Ready, Stays, Turns, site_at};
ghost use Rattle.instructions.specs.CallsByNumbers.{called_static, enters, enters_frame, known_at, no_own, runs};
ghost use Rattle.instructions.specs.FirstTurns.{goes_on_plainly};
ghost use Rattle.instructions.specs.HeapMonitors.{monitor_held};
ghost use Rattle.instructions.specs.Heaps.{all_shaded, held};

use crate::acting::Turned;
use crate::heaps::{Heap, is_full};
use crate::kinds::Course;
use crate::machines::Machine;
use crate::pushes::reference_of;
use frames::Frames;
use linking::method_tables::{Body, MethodInfo};
use loader::programs::Program;
use model::places::MethodPlace;
use model::turns::{Exception, Fault};
use model::values::Kind;
use monitors::may_enter;

/// A method with code that is called: its place, its limits, how many operands it takes, and the monitor that is
/// entered with it.
#[derive(Clone, Copy)]
pub(crate) struct Called {
    pub(crate) place: MethodPlace,
    pub(crate) max_locals: u16,
    pub(crate) max_stack: u16,
    pub(crate) count: u16,
    pub(crate) monitor: Option<u32>,
}

/// The fault of the operand below so many values where one of a kind is sought (F1, F3).
#[inline(always)]
fn fault_below(frames: &Frames, kind: Kind, above: usize) -> Option<Fault>
    requires { 0 < length frames.now }
    ensures { result ≡ result_err (value_on kind (drop above (running_frame frames.now).stack)) }
{
    match frames.operand_below(kind, above) {
        Ok(_) => None,
        Err(fault) => Some(fault),
    }
}

/// The fault of the first argument, from the top on, that isn't there or isn't of its kind (F1, F3).
#[inline(always)]
pub(crate) fn argument_fault(frames: &Frames, kinds: &[Kind]) -> Option<Fault>
    requires { 0 < length frames.now }
    ensures { result ≡ fault_in_pops (reverse kinds.now) (running_frame frames.now).stack }
{
    for above in 0..kinds.len() {
        let kind = kinds[kinds.len() - 1 - above];
        let fault = fault_below(frames, kind, above);
        if fault.is_some() {
            return fault;
        }
    }
    None
}

/// Whether values of these kinds are at the top of the running frame's stack, the last one at the top.
#[inline(always)]
pub(crate) fn has_arguments(frames: &Frames, kinds: &[Kind]) -> bool
    requires { 0 < length frames.now }
    ensures { result ≡ true → fault_in_pops (reverse kinds.now) (running_frame frames.now).stack ≡ None }
{
    for above in 0..kinds.len() {
        let kind = kinds[kinds.len() - 1 - above];
        if fault_below(frames, kind, above).is_some() {
            return false;
        }
    }
    true
}

/// Shades what so many operands lead to, the lowest first.
#[inline(always)]
pub(crate) fn shade_operands(heap: &mut Heap, frames: &Frames, count: u16)
    requires some { 0 < length frames.now }
    requires there { count ≤ length (running_frame frames.now).stack }
    ensures { heap.new ≡ all_shaded heap.old (births_of (arguments_on count (running_frame frames.now).stack)) }
{
    for below in 0..count as usize {
        match frames.value(count as usize - 1 - below) {
            Ok(value) => heap.shade(reference_of(value)),
            Err(_) => unreachable!(),
        }
    }
}

impl Machine {
    /// A frame is entered with the operands, which go, as its first locals, and with its monitor.
    pub(crate) fn enter_frame(&mut self, program: &Program, next: u16, called: Called) -> Turned
        requires some { 0 < length self.old.frames }
        requires there { called.count ≤ length (running_frame self.old.frames).stack }
        requires enough { units_of_all (take called.count (running_frame self.old.frames).stack) ≤ called.max_locals }
        requires room { IsTrue (has_room_for self.old.frames called.max_locals called.max_stack) }
        requires object { IfSome called.monitor (λ r. is_some (held self.old.heap r) ≡ true) }
        requires limit { is_full (option_map_or (monitor_held self.old.heap) called.monitor free_monitor) ≡ false }
        ensures step { Turns program.now self.old self.new (Ok result)
            (λ w. enters_frame (site_at program.now self.old w next)
            called.place called.max_locals called.max_stack called.count called.monitor) }
        ensures plain { result ≡ goes_on_plainly }
        ensures keeps { Keeps program.now self.old self.new }
    {
        shade_operands(&mut self.heap, &self.frames, called.count);
        self.frames.call(
            called.place,
            called.max_locals,
            called.max_stack,
            called.count,
        );
        self.frames.set_monitor(called.monitor);
        self.heap.enter(self.thread, called.monitor);
        self.heap.shade(called.monitor);
        Turned::to(Course::Live)
    }

    /// The call of a method with code: the thread waits where its monitor is another's; StackOverflowError where there
    /// is no room for its frame, and F10 where the monitor was entered too often.
    pub(crate) fn enter(
        &mut self,
        program: &Program,
        next: u16,
        called: Called,
    ) -> Result<Turned, Fault>
        requires ready { Ready program.now self.old }
        requires there { called.count ≤ length (running_frame self.old.frames).stack }
        requires enough { units_of_all (take called.count (running_frame self.old.frames).stack) ≤ called.max_locals }
        requires object { IfSome called.monitor (λ r. is_some (held self.old.heap r) ≡ true) }
        ensures step { Turns program.now self.old self.new result (λ w. enters (site_at program.now self.old w next)
            called.place called.max_locals called.max_stack called.count called.monitor) }
        ensures kept { OnErr result (Stays self.old self.new) }
        ensures keeps { Keeps program.now self.old self.new }
    {
        let monitor = self.heap.monitor_if(called.monitor);
        if !may_enter(u32::from(self.thread), monitor) {
            return Ok(Turned::to(Course::Live));
        }
        if !self
            .frames
            .has_room_for(called.max_locals, called.max_stack)
        {
            return self.raise(program, Exception::StackOverflow);
        }
        if is_full(monitor) {
            return Err(Fault::MonitorLimit);
        }
        Ok(self.enter_frame(program, next, called))
    }

    /// A static method whose arguments were found: F9 where it has no code.
    fn run_static(
        &mut self,
        program: &Program,
        next: u16,
        place: MethodPlace,
        method: &MethodInfo,
    ) -> Result<Turned, Fault>
        requires ready { Ready program.now self.old }
        requires known { known_at program.now place ≡ Some method.now }
        requires arguments { fault_in_pops (reverse method.now.arguments) (running_frame self.old.frames).stack ≡ None }
        ensures step { Turns program.now self.old self.new result
            (λ w. runs no_own (site_at program.now self.old w next) place method.now None method.now.body) }
        ensures kept { OnErr result (Stays self.old self.new) }
        ensures keeps { Keeps program.now self.old self.new }
    {
        match method.body() {
            Body::NoCode => Err(Fault::NoMethod),
            Body::Own(_) => Err(Fault::NoInstruction),
            Body::Coded {
                max_locals,
                max_stack,
            } => {
                let called = Called {
                    place,
                    max_locals,
                    max_stack,
                    count: method.arguments().len() as u16, // an argument takes a unit of the locals at least
                    monitor: None,
                };
                self.enter(program, next, called)
            }
        }
    }

    /// invokestatic: a method of the program, by its class's number and its place there. F1 and F3 where its arguments
    /// aren't on the stack, F9 where there is no method.
    pub(crate) fn invoke_static(
        &mut self,
        program: &Program,
        next: u16,
        place: MethodPlace,
    ) -> Result<Turned, Fault>
        requires ready { Ready program.now self.old }
        ensures step { Turns program.now self.old self.new result
            (λ w. called_static (site_at program.now self.old w next) place (known_at program.now place)) }
        ensures kept { OnErr result (Stays self.old self.new) }
        ensures keeps { Keeps program.now self.old self.new }
    {
        match program.tables().methods.method(place) {
            Some(method) => match argument_fault(&self.frames, method.arguments()) {
                Some(fault) => Err(fault),
                None => self.run_static(program, next, place, method),
            },
            None => Err(Fault::NoMethod),
        }
    }
}
