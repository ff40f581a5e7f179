//! The initialisation of classes before operations that use them (JVMS 5.5), by the classes' numbers.
ghost use Rattle.std.specs.Prelude.{◌≡◌, ◌≤◌, ◌<◌, OnErr, IfSome, None, Some, length, slice_get};
ghost use Rattle.instructions.specs.Acting.{Keeps, Ready, Stays, Turns, site_at};
ghost use Rattle.instructions.specs.Initialising.{Initialises, MayUse, claims_so_many, denies_so_many};
ghost use Rattle.instructions.specs.InitialisingByNumbers.{AreClaimed, class_used_by, is_others, slot_class, waits_for};

use crate::acting::Turned;
use crate::claims::{enter_initializers, has_room_for_claim, set_states, unused_classes};
use crate::kinds::Course;
use crate::machines::Machine;
use linking::operations::Operation;
use linking::static_slots::Slot;
use loader::programs::{Program, Step};
use model::turns::{ClassState, Exception, Fault};

/// The class of a slot, if there is such a slot.
fn slot_class(slots: &[Slot], slot: u32) -> Option<usize>
    ensures { result ≡ slot_class (slice_get slots.now slot) }
{
    match slots.get(slot as usize) {
        Some(slot) => Some(slot.class),
        None => None,
    }
}

/// The class that an operation uses.
#[tactic(auto, using(crate::proofs::InitialisingLemmas::uses_no_class))]
fn class_used(program: &Program, operation: Operation) -> Option<usize>
    ensures { result ≡ class_used_by program.now operation }
{
    match operation {
        Operation::Getstatic(slot) => slot_class(program.tables().slots.slots(), slot),
        Operation::Putstatic(slot) => slot_class(program.tables().slots.slots(), slot),
        Operation::New(class) => Some(class as usize),
        Operation::Invokestatic(class, _) => Some(class as usize),
        _ => None,
    }
}

/// Whether a class is in the state that another thread initialises it.
fn is_others(state: ClassState, thread: u8) -> bool
    ensures { result ≡ is_others thread state }
{
    match state {
        ClassState::Running(running) => running != thread,
        ClassState::Unused | ClassState::Done | ClassState::Failed => false,
    }
}

impl Machine {
    /// The thread claims so many classes from one upwards: it runs their initializers, the last one first. Where their
    /// frames don't fit nothing is claimed, and a StackOverflowError is thrown.
    fn claim(
        &mut self,
        program: &Program,
        next: u16,
        class: usize,
        count: usize,
    ) -> Result<Turned, Fault>
        requires ready { Ready program.now self.old }
        requires claimed { AreClaimed program.now class count }
        requires some { 0 < count }
        requires few { count ≤ 280 }
        ensures step { Turns program.now self.old self.new result
            (λ w. claims_so_many (site_at program.now self.old w next) class count) }
        ensures kept { OnErr result (Stays self.old self.new) }
        ensures keeps { Keeps program.now self.old self.new }
    {
        if has_room_for_claim(program, &self.frames, class, count) {
            let state = ClassState::Running(self.thread);
            enter_initializers(program, &mut self.frames, class, count);
            set_states(program, &mut self.states, class, count, state);
            Ok(Turned::to(Course::Live))
        } else {
            self.raise(program, Exception::StackOverflow)
        }
    }

    /// So many classes from one upwards can't be used, as the initialisation of the one above failed: a
    /// NoClassDefFoundError is thrown, and they have failed with it.
    fn deny(
        &mut self,
        program: &Program,
        next: u16,
        class: usize,
        count: usize,
    ) -> Result<Turned, Fault>
        requires ready { Ready program.now self.old }
        ensures step { Turns program.now self.old self.new result
            (λ w. denies_so_many (site_at program.now self.old w next) class count) }
        ensures kept { OnErr result (Stays self.old self.new) }
        ensures keeps { Keeps program.now self.old self.new }
    {
        match self.raise(program, Exception::NoClassDefFound) {
            Ok(turned) => {
                set_states(program, &mut self.states, class, count, ClassState::Failed);
                Ok(turned)
            }
            Err(fault) => Err(fault),
        }
    }

    /// What comes before an operation that uses a class: the class and those above it that were never used are claimed,
    /// or denied where the class above these failed. `None` where the class may be used, and then nothing changes; nor
    /// where another thread initialises it, which is waited for.
    fn initialise(
        &mut self,
        program: &Program,
        next: u16,
        class: usize,
    ) -> Option<Result<Turned, Fault>>
        requires ready { Ready program.now self.old }
        requires sized { length self.old.states.items ≡ length program.now }
        ensures step { Initialises program.now self.old self.new next (Some class) result }
        ensures used { result ≡ None → MayUse program.now self.old next (Some class) }
        ensures same { result ≡ None → self.new ≡ self.old }
        ensures kept { IfSome result (λ r. OnErr r (Stays self.old self.new)) }
        ensures keeps { Keeps program.now self.old self.new }
    {
        let unused = unused_classes(program, self.states.as_slice(), class);
        if is_others(unused.above, self.thread) {
            return Some(Ok(Turned::to(Course::Live)));
        }
        match unused.above {
            ClassState::Failed => Some(self.deny(program, next, class, unused.count)),
            _ => {
                if unused.count == 0 {
                    None
                } else {
                    Some(self.claim(program, next, class, unused.count))
                }
            }
        }
    }

    /// What comes before a step whose operation uses a class, by the class's state. `None` where nothing does, and then
    /// nothing changes.
    pub(crate) fn initialise_first(
        &mut self,
        program: &Program,
        step: Step,
    ) -> Option<Result<Turned, Fault>>
        requires ready { Ready program.now self.old }
        requires sized { length self.old.states.items ≡ length program.now }
        ensures step { Initialises program.now self.old self.new step.next
            (class_used_by program.now step.operation) result }
        ensures used { result ≡ None → MayUse program.now self.old step.next
            (class_used_by program.now step.operation) }
        ensures same { result ≡ None → self.new ≡ self.old }
        ensures kept { IfSome result (λ r. OnErr r (Stays self.old self.new)) }
        ensures keeps { Keeps program.now self.old self.new }
    {
        match class_used(program, step.operation) {
            Some(class) => self.initialise(program, step.next, class),
            None => None,
        }
    }

    /// Whether an operation of a thread waits for another's initialisation of the class that it uses.
    pub(crate) fn must_wait(&self, program: &Program, thread: u8, operation: Operation) -> bool
        requires sized { length self.now.states.items ≡ length program.now }
        ensures { result ≡ waits_for program.now self.now.states.items thread (class_used_by program.now operation) }
    {
        match class_used(program, operation) {
            Some(class) => {
                let unused = unused_classes(program, self.states.as_slice(), class);
                is_others(unused.above, thread)
            }
            None => false,
        }
    }
}
