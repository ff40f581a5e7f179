//! What objects are of (JVMS 6.5: checkcast, instanceof), by the numbers of types.
ghost use Rattle.std.specs.Prelude.{OnErr};
ghost use Rattle.model.specs.Frames.{ref_on, running_frame};
ghost use Rattle.instructions.specs.Acting.{Keeps, Ready, Stays, Turns, site_at};
ghost use Rattle.instructions.specs.TypesByNumbers.{cast_by, tested_by};

use crate::acting::Turned;
use crate::machines::Machine;
use crate::types::is_object_of;
use linking::operations::TypeNumber;
use loader::programs::Program;
use model::turns::{Exception, Fault};
use values::slots::Slot;

impl Machine {
    /// checkcast: the reference at the top stays, where it is null or its object is of a type. F1 and F3 where there is
    /// no reference; ClassCastException where its object is of another type.
    pub(crate) fn check_cast(
        &mut self,
        program: &Program,
        next: u16,
        above: TypeNumber,
    ) -> Result<Turned, Fault>
        requires ready { Ready program.now self.old }
        ensures step { let f = running_frame self.old.frames in Turns program.now self.old self.new result
            (λ w. cast_by (site_at program.now self.old w next) self.old.heap above (ref_on f.stack)) }
        ensures kept { OnErr result (Stays self.old self.new) }
        ensures keeps { Keeps program.now self.old self.new }
    {
        match self.frames.reference() {
            Ok(Some(reference)) => {
                if is_object_of(program, &self.heap, reference, above) {
                    self.exchange(program, next, 1, Slot::Ref(reference))
                } else {
                    self.raise(program, Exception::ClassCast)
                }
            }
            Ok(None) => self.exchange(program, next, 1, Slot::Null),
            Err(fault) => Err(fault),
        }
    }

    /// instanceof: 1 in place of the reference at the top, where its object is of a type, else 0. F1 and F3 where there
    /// is no reference.
    pub(crate) fn test_type(
        &mut self,
        program: &Program,
        next: u16,
        above: TypeNumber,
    ) -> Result<Turned, Fault>
        requires ready { Ready program.now self.old }
        ensures step { let f = running_frame self.old.frames in Turns program.now self.old self.new result
            (λ w. tested_by (site_at program.now self.old w next) self.old.heap above (ref_on f.stack)) }
        ensures kept { OnErr result (Stays self.old self.new) }
        ensures keeps { Keeps program.now self.old self.new }
    {
        match self.frames.reference() {
            Ok(reference) => {
                let is = match reference {
                    Some(reference) => is_object_of(program, &self.heap, reference, above),
                    None => false,
                };
                self.exchange(program, next, 1, Slot::Int(i32::from(is)))
            }
            Err(fault) => Err(fault),
        }
    }
}
