//! monitorenter and monitorexit (JVMS 6.5).
ghost use Rattle.std.specs.Prelude.{◌≡◌, ◌≤◌, length, true, OnErr};
ghost use Rattle.model.specs.declared.instructions.MonitorOperation.TheVariants.{Enter, Exit};
ghost use Rattle.model.specs.Frames.{running_frame};
ghost use Rattle.model.specs.Table.Monitors.{operates};
ghost use Rattle.instructions.specs.Acting.{Keeps, Ready, Stays, Turns, site_at};
ghost use Rattle.instructions.specs.Heaps.{kind_held};
ghost use Rattle.instructions.specs.MonitorsByNumbers.{is_object, operated_by_monitors};

use crate::acting::Turned;
use crate::kinds::{Course, Kind};
use crate::machines::Machine;
use loader::programs::Program;
use model::turns::{Exception, Fault};
use monitors::{enter, exit, may_enter, owns};

/// Whether what is there is an Object.
pub(crate) fn is_object(program: &Program, kind: Option<Kind>) -> bool
    ensures { result ≡ is_object program.now kind }
{
    match kind {
        Some(Kind::Instance(class)) => {
            let object = program.listings().len();
            program.tables().classes.is_subtype(class as usize, object)
        }
        Some(Kind::Array(_)) => true,
        None => false,
    }
}

impl Machine {
    /// The thread enters the monitor of this object, or waits for it. F10 where it entered as often as one can.
    fn enter_object(
        &mut self,
        program: &Program,
        next: u16,
        reference: u32,
    ) -> Result<Turned, Fault>
        requires ready { Ready program.now self.old }
        requires there { 1 ≤ length (running_frame self.old.frames).stack }
        requires object { is_object program.now (kind_held self.old.heap reference) ≡ true }
        ensures step { Turns program.now self.old self.new result
            (λ w. operates (site_at program.now self.old w next) Enter reference) }
        ensures kept { OnErr result (Stays self.old self.new) }
        ensures keeps { Keeps program.now self.old self.new }
    {
        let thread = u32::from(self.thread);
        let monitor = self.heap.monitor(reference);
        if !may_enter(thread, monitor) {
            return Ok(Turned::to(Course::Live));
        }
        match enter(thread, monitor) {
            Ok(entered) => {
                self.heap.set_monitor(reference, entered);
                self.frames.discard(next, 1);
                Ok(Turned::to(Course::Live))
            }
            Err(fault) => Err(fault),
        }
    }

    /// The thread leaves the monitor of this object. IllegalMonitorStateException where another owns it, or nobody.
    fn exit_object(&mut self, program: &Program, next: u16, reference: u32) -> Result<Turned, Fault>
        requires ready { Ready program.now self.old }
        requires there { 1 ≤ length (running_frame self.old.frames).stack }
        requires object { is_object program.now (kind_held self.old.heap reference) ≡ true }
        ensures step { Turns program.now self.old self.new result
            (λ w. operates (site_at program.now self.old w next) Exit reference) }
        ensures kept { OnErr result (Stays self.old self.new) }
        ensures keeps { Keeps program.now self.old self.new }
    {
        let monitor = self.heap.monitor(reference);
        if !owns(u32::from(self.thread), monitor) {
            return self.raise(program, Exception::IllegalMonitorState);
        }
        self.heap.set_monitor(reference, exit(monitor));
        self.frames.discard(next, 1);
        Ok(Turned::to(Course::Live))
    }

    /// monitorenter: the monitor of the object at the top is entered. F1 and F3 where there is no reference, F6 where
    /// there is no object, F10; NullPointerException where the reference is null. The thread waits where another owns
    /// the monitor.
    pub(crate) fn enter_monitor(&mut self, program: &Program, next: u16) -> Result<Turned, Fault>
        requires ready { Ready program.now self.old }
        ensures step { Turns program.now self.old self.new result
            (λ w. operated_by_monitors (site_at program.now self.old w next) self.old.heap Enter) }
        ensures kept { OnErr result (Stays self.old self.new) }
        ensures keeps { Keeps program.now self.old self.new }
    {
        match self.frames.reference() {
            Ok(Some(reference)) => {
                if is_object(program, self.heap.kind(reference)) {
                    self.enter_object(program, next, reference)
                } else {
                    Err(Fault::WrongClass)
                }
            }
            Ok(None) => self.raise(program, Exception::NullPointer),
            Err(fault) => Err(fault),
        }
    }

    /// monitorexit: the monitor of the object at the top is left once. F1 and F3 where there is no reference, F6 where
    /// there is no object; NullPointerException where the reference is null, IllegalMonitorStateException where the
    /// thread doesn't own the monitor.
    pub(crate) fn exit_monitor(&mut self, program: &Program, next: u16) -> Result<Turned, Fault>
        requires ready { Ready program.now self.old }
        ensures step { Turns program.now self.old self.new result
            (λ w. operated_by_monitors (site_at program.now self.old w next) self.old.heap Exit) }
        ensures kept { OnErr result (Stays self.old self.new) }
        ensures keeps { Keeps program.now self.old self.new }
    {
        match self.frames.reference() {
            Ok(Some(reference)) => {
                if is_object(program, self.heap.kind(reference)) {
                    self.exit_object(program, next, reference)
                } else {
                    Err(Fault::WrongClass)
                }
            }
            Ok(None) => self.raise(program, Exception::NullPointer),
            Err(fault) => Err(fault),
        }
    }
}
