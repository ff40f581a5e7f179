//! Throwables: those that the machine makes, those that athrow throws, and what an instruction comes to that doesn't
//! complete (JVMS 2.6.5, 2.10).
ghost use Rattle.std.specs.Prelude.{◌≡◌, None, Some, OnErr};
ghost use Rattle.model.specs.declared.journals.Outcome.TheVariants.{NoRoom};
ghost use Rattle.model.specs.Accepted.Refusals.{refusal_of};
ghost use Rattle.model.specs.Completions.{completes_abruptly, raises};
ghost use Rattle.model.specs.Frames.{ref_on, running_frame};
ghost use Rattle.instructions.specs.Acting.{Keeps, Ready, Stays, Throws, Turns};
ghost use Rattle.instructions.specs.Heaps.{kind_held};
ghost use Rattle.instructions.specs.Throwing.{IsThrown, throws_kind, throws_operand};

use crate::acting::Turned;
use crate::heaps::exception_kind;
use crate::kinds::Kind;
use crate::machines::Machine;
use crate::unwinding::is_throwable;
use loader::programs::Program;
use model::journals::Outcome;
use model::turns::{Abrupt, Exception, Fault};

impl Machine {
    /// What a reference leads to is thrown. F2 where its handler has no room for it, and then nothing changes.
    pub(crate) fn throw(
        &mut self,
        program: &Program,
        reference: u32,
        kind: Kind,
        outcome: Outcome,
    ) -> Result<Turned, Fault>
        requires kind { kind_held self.old.heap reference ≡ Some kind }
        requires thrown { IsThrown program.now kind }
        requires accepted { refusal_of program.now ≡ None }
        ensures step { Throws program.now self.old self.new result reference outcome }
        ensures kept { OnErr result (Stays self.old self.new) }
        ensures keeps { Keeps program.now self.old self.new }
    {
        let target = self.target(program, kind);
        if self.is_full(target) {
            return Err(Fault::StackFull);
        }
        let course = self.land(program, reference, kind, target);
        Ok(Turned { course, outcome })
    }

    /// OutOfMemoryError, of birth 1, is thrown: no free cell has room.
    pub(crate) fn throw_memory_error(&mut self, program: &Program) -> Result<Turned, Fault>
        requires ready { Ready program.now self.old }
        ensures step { Throws program.now self.old self.new result 1 NoRoom }
        ensures kept { OnErr result (Stays self.old self.new) }
        ensures keeps { Keeps program.now self.old self.new }
    {
        let kind = self.heap.memory_error();
        self.throw(program, 1, kind, Outcome::NoRoom)
    }

    /// An exception that the machine makes: a new object where a free cell has room, else OutOfMemoryError of birth 1.
    /// StackOverflowError is birth 2. F2 where its handler has no room for it, and then nothing changes.
    pub(crate) fn raise(&mut self, program: &Program, exception: Exception) -> Result<Turned, Fault>
        requires ready { Ready program.now self.old }
        ensures step { Turns program.now self.old self.new result (λ w. raises exception) }
        ensures kept { OnErr result (Stays self.old self.new) }
        ensures keeps { Keeps program.now self.old self.new }
    {
        if exception == Exception::StackOverflow {
            let kind = self.heap.stack_error();
            return self.throw(program, 2, kind, Outcome::Done);
        }
        if !self.heap.has_room(0) {
            return self.throw_memory_error(program);
        }
        let kind = exception_kind(program, exception);
        let target = self.target(program, kind);
        if self.is_full(target) {
            return Err(Fault::StackFull);
        }
        match self.heap.create(kind, &[]) {
            Some(reference) => {
                let course = self.land(program, reference, kind, target);
                Ok(Turned {
                    course,
                    outcome: Outcome::Object,
                })
            }
            None => unreachable!(),
        }
    }

    /// The object of a reference is thrown. F6 where it is no Throwable, and where there is no object.
    fn throw_object(&mut self, program: &Program, reference: u32) -> Result<Turned, Fault>
        requires ready { Ready program.now self.old }
        ensures step { Turns program.now self.old self.new result
            (λ w. throws_kind program.now reference (kind_held self.old.heap reference)) }
        ensures kept { OnErr result (Stays self.old self.new) }
        ensures keeps { Keeps program.now self.old self.new }
    {
        let Some(kind) = self.heap.kind(reference) else {
            return Err(Fault::WrongClass);
        };
        if is_throwable(program, kind) {
            self.throw(program, reference, kind, Outcome::Done)
        } else {
            Err(Fault::WrongClass)
        }
    }

    /// athrow: the object at the top is thrown. F1 and F3 where there is no reference, F6 where its object is no
    /// Throwable; NullPointerException where the reference is null.
    pub(crate) fn throw_operand(&mut self, program: &Program) -> Result<Turned, Fault>
        requires ready { Ready program.now self.old }
        ensures step { Turns program.now self.old self.new result
            (λ w. throws_operand program.now self.old.heap (ref_on (running_frame self.old.frames).stack)) }
        ensures kept { OnErr result (Stays self.old self.new) }
        ensures keeps { Keeps program.now self.old self.new }
    {
        match self.frames.reference() {
            Ok(Some(reference)) => self.throw_object(program, reference),
            Ok(None) => self.raise(program, Exception::NullPointer),
            Err(fault) => Err(fault),
        }
    }

    /// What an instruction comes to that doesn't complete: a fault, or an exception.
    pub(crate) fn complete_abruptly(
        &mut self,
        program: &Program,
        abrupt: Abrupt,
    ) -> Result<Turned, Fault>
        requires ready { Ready program.now self.old }
        ensures step { Turns program.now self.old self.new result (λ w. completes_abruptly abrupt) }
        ensures kept { OnErr result (Stays self.old self.new) }
        ensures keeps { Keeps program.now self.old self.new }
    {
        match abrupt {
            Abrupt::Fault(fault) => Err(fault),
            Abrupt::Throw(exception) => self.raise(program, exception),
        }
    }
}
