//! Values that a turn puts on the stack in place of operands that take no less room (JVMS 2.6.2).
ghost use Rattle.std.specs.Prelude.{◌≤◌, ◌∷◌, [], OnErr, length, take};
ghost use Rattle.model.specs.Completions.{moves_in};
ghost use Rattle.model.specs.Frames.{replaced, running_frame};
ghost use Rattle.model.specs.Values.{units_of, units_of_all};
ghost use Rattle.values.specs.Slots.{value_of};
ghost use Rattle.instructions.specs.Acting.{Keeps, Ready, Stays, Turns, site_at};

use crate::acting::Turned;
use crate::kinds::Course;
use crate::machines::Machine;
use loader::programs::Program;
use model::turns::Fault;
use values::slots::{Slot, number_in};

impl Machine {
    /// The value of a slot in place of so many at the top of the stack, which take no less room, and on to the next
    /// instruction. What it leads to is shaded (CACM 21(11)).
    pub(crate) fn exchange(
        &mut self,
        program: &Program,
        next: u16,
        count: u8,
        slot: Slot,
    ) -> Result<Turned, Fault>
        requires ready { Ready program.now self.old }
        requires there { count ≤ length (running_frame self.old.frames).stack }
        requires room { units_of (value_of slot) ≤ units_of_all (take count (running_frame self.old.frames).stack) }
        ensures step { let f = running_frame self.old.frames in Turns program.now self.old self.new result
            (λ w. moves_in w (site_at program.now self.old w next) (replaced next f count (value_of slot ∷ []))) }
        ensures kept { OnErr result (Stays self.old self.new) }
        ensures keeps { Keeps program.now self.old self.new }
    {
        self.frames.replace_slot(next, count, slot);
        self.heap.shade(number_in(slot));
        Ok(Turned::to(Course::Live))
    }
}
