//! What an instruction leaves on the running frame's stack.
ghost use Rattle.std.specs.Prelude.{◌≡◌, ℕ, ◌+◌, ◌*◌, ◌<◌, ◌≤◌, [], ◌∷◌, length, take, drop, OnErr};
ghost use Rattle.model.specs.Frames.{running_frame, with_running, replaced, replaced_if_room, push_all};
ghost use Rattle.model.specs.Values.{units_of as units_taken, units_of_all};
ghost use Rattle.values.specs.Slots.{value_of};
ghost use Rattle.frames.specs.Reported.{reported, moved_on};

use crate::thread_frames::Frames;
use model::turns::{Abrupt, Fault};
use model::values::Value;
use values::slots::{Slot, slot_of, units_in, units_of};

impl Frames {
    /// How many units so many values at the top take.
    // The loop apart, so that nothing is looked at twice where the count is known.
    #[inline(always)]
    fn units_above(&self, count: u8) -> usize
        requires some { 0 < length self.now }
        requires there { count ≤ length (running_frame self.now).stack }
        ensures { result ≡ units_of_all (take count (running_frame self.now).stack) }
    {
        match count {
            0 => 0,
            1 => units_in(self.held(0)),
            2 => units_in(self.held(0)) + units_in(self.held(1)),
            3 => units_in(self.held(0)) + units_in(self.held(1)) + units_in(self.held(2)),
            _ => self.units_above_all(count),
        }
    }

    /// The same of any count.
    fn units_above_all(&self, count: u8) -> usize
        requires some { 0 < length self.now }
        requires there { count ≤ length (running_frame self.now).stack }
        ensures { result ≡ units_of_all (take count (running_frame self.now).stack) }
    {
        let mut units = 0;
        for above in 0..count {
            units += units_in(self.held(above as usize));
        }
        units
    }

    /// Goes to this pc, without so many values at the top.
    #[inline(always)]
    pub fn discard(&mut self, next: u16, count: u8)
        requires some { 0 < length self.old }
        requires there { count ≤ length (running_frame self.old).stack }
        ensures { self.new ≡ with_running self.old (replaced next (running_frame self.old) count []).frame }
    {
        let units = self.units_above(count);
        self.drop_values(next, count, units);
    }

    /// The same, where it is known how many units they take, so that nothing is looked at.
    #[inline(always)]
    pub fn discard_units(&mut self, next: u16, count: u8, units: usize)
        requires some { 0 < length self.old }
        requires there { count ≤ length (running_frame self.old).stack }
        requires sized { units ≡ units_of_all (take count (running_frame self.old).stack) }
        ensures { self.new ≡ with_running self.old (replaced next (running_frame self.old) count []).frame }
    {
        self.drop_values(next, count, units);
    }

    /// Goes to this pc, with a value in place of so many at the top, which are known to take so many units, no fewer
    /// than the value.
    #[inline(always)]
    pub fn replace_units(&mut self, next: u16, count: u8, units: usize, value: Value)
        requires some { 0 < length self.old }
        requires there { count ≤ length (running_frame self.old).stack }
        requires sized { units ≡ units_of_all (take count (running_frame self.old).stack) }
        requires room { units_taken value ≤ units }
        ensures { self.new ≡ with_running self.old (replaced next (running_frame self.old) count (value ∷ [])).frame }
    {
        self.drop_values(next, count, units);
        self.push(slot_of(value));
    }

    /// Goes to this pc, with the value of a slot in place of so many at the top, which take no less room.
    #[inline(always)]
    pub fn replace_slot(&mut self, next: u16, count: u8, slot: Slot)
        requires some { 0 < length self.old }
        requires there { count ≤ length (running_frame self.old).stack }
        requires room { units_taken (value_of slot) ≤ units_of_all (take count (running_frame self.old).stack) }
        ensures { self.new ≡ with_running self.old
            (replaced next (running_frame self.old) count (value_of slot ∷ [])).frame }
    {
        let units = self.units_above(count);
        self.drop_values(next, count, units);
        self.push(slot);
    }

    /// The same with a value.
    #[inline(always)]
    pub fn replace(&mut self, next: u16, count: u8, value: Value)
        requires some { 0 < length self.old }
        requires there { count ≤ length (running_frame self.old).stack }
        requires room { units_taken value ≤ units_of_all (take count (running_frame self.old).stack) }
        ensures { self.new ≡ with_running self.old (replaced next (running_frame self.old) count (value ∷ [])).frame }
    {
        self.replace_slot(next, count, slot_of(value));
    }

    /// Goes to this pc, with values, bottom first, in place of so many at the top, which take no less room.
    pub fn replace_all(&mut self, next: u16, count: u8, values: &[Value])
        requires some { 0 < length self.old }
        requires there { count ≤ length (running_frame self.old).stack }
        requires room { units_of_all values.now ≤ units_of_all (take count (running_frame self.old).stack) }
        ensures { self.new ≡ with_running self.old (replaced next (running_frame self.old) count values.now).frame }
    {
        let units = self.units_above(count);
        self.drop_values(next, count, units);
        self.push_all(values); // they fit
    }

    /// Goes to this pc, with the value of a slot in place of so many at the top; F2 where it has no room, and then
    /// nothing changes.
    #[inline(always)]
    pub fn replace_slot_if_room(&mut self, next: u16, count: u8, slot: Slot) -> Result<(), Abrupt>
        requires some { 0 < length self.old }
        requires there { count ≤ length (running_frame self.old).stack }
        ensures step { reported result self.new ≡ moved_on self.old
            (replaced_if_room next (running_frame self.old) count (value_of slot ∷ [])) }
        ensures kept { OnErr result (self.new ≡ self.old) }
    {
        let units = self.units_above(count);
        if self.free_units() + units < units_in(slot) {
            return Err(Abrupt::Fault(Fault::StackFull));
        }
        self.drop_values(next, count, units);
        self.push(slot);
        Ok(())
    }

    /// The same with a value.
    #[inline(always)]
    pub fn replace_if_room(&mut self, next: u16, count: u8, value: Value) -> Result<(), Abrupt>
        requires some { 0 < length self.old }
        requires there { count ≤ length (running_frame self.old).stack }
        ensures step { reported result self.new ≡ moved_on self.old
            (replaced_if_room next (running_frame self.old) count (value ∷ [])) }
        ensures kept { OnErr result (self.new ≡ self.old) }
    {
        self.replace_slot_if_room(next, count, slot_of(value))
    }

    /// Values, bottom first, on top of the running frame's stack.
    fn push_all(&mut self, values: &[Value])
        requires some { 0 < length self.old }
        requires room { units_of_all (push_all values.now (running_frame self.old).stack)
            ≤ (running_frame self.old).room }
        ensures { self.new ≡ with_running self.old
            (record (running_frame self.old) { stack = push_all values.now (running_frame self.old).stack }) }
    {
        for value in values {
            self.push(slot_of(*value));
        }
    }

    /// Goes to this pc, with values, bottom first, in place of so many at the top; F2 where they have no room, and then
    /// nothing changes.
    pub fn replace_all_if_room(
        &mut self,
        next: u16,
        count: u8,
        values: &[Value],
    ) -> Result<(), Abrupt>
        requires some { 0 < length self.old }
        requires there { count ≤ length (running_frame self.old).stack }
        ensures step { reported result self.new ≡ moved_on self.old
            (replaced_if_room next (running_frame self.old) count values.now) }
        ensures kept { OnErr result (self.new ≡ self.old) }
    {
        let units = self.units_above(count);
        if self.taken() - units + units_of_values(values) > self.room() {
            return Err(Abrupt::Fault(Fault::StackFull));
        }
        self.drop_values(next, count, units);
        self.push_all(values);
        Ok(())
    }
}

/// The units that values take on a stack.
pub(crate) fn units_of_values(values: &[Value]) -> usize
    ensures units { result ≡ units_of_all values.now }
    ensures few { result ≤ 2 * length values.now }
{
    let mut units = 0;
    for value in values {
        units += units_of(*value);
    }
    units
}
