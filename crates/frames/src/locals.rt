//! The running frame's locals (JVMS 2.6.1): a long takes two entries, and a store that covers one half of a long makes
//! its other half unset.
ghost use Rattle.std.specs.Prelude.{◌≡◌, ℕ, ◌+◌, ◌<◌, ◌≤◌, ◌^◌, drop, length, slice_set, take, IfOk, IsOk, OnErr};
ghost use Rattle.model.specs.Frames.{running_frame, with_running, as_int};
ghost use Rattle.model.specs.Values.{units_of as units_taken, units_of_all};
ghost use Rattle.model.specs.declared.values.Kind.TheVariants.{Int as IntKind};
ghost use Rattle.model.specs.Locals.{entries_of as width_of, has_local, value_on, local_at, freed, with_local, stored};
ghost use Rattle.model.specs.declared.values.Entry.TheVariants.{UpperHalf};
ghost use Rattle.values.specs.Slots.{entry_of};

use crate::thread_frames::Frames;
use model::turns::Fault;
use model::values::{Kind, Value};
use values::slots::{Slot, local_in, operand_in, slot_of};

#[tactic(auto, using(crate::proofs::RunningLemmas::changes))]
impl Frames {
    /// Whether the running frame has a local of this kind at this index.
    #[inline(always)]
    pub fn has_local(&self, kind: Kind, index: u16) -> bool
        requires { 0 < length self.now }
        ensures { result ≡ has_local kind (running_frame self.now).locals index }
    {
        index as usize + entries_of(kind) <= self.locals()
    }

    /// The value of this kind in a local. F4 where the local, of a long also its second entry, is out of range, or is
    /// the upper half of a long; F3 where it is unset or of another kind.
    #[inline(always)]
    pub fn load(&self, kind: Kind, index: u16) -> Result<Value, Fault>
        requires { 0 < length self.now }
        ensures { result ≡ local_at kind (running_frame self.now).locals index }
    {
        if !self.has_local(kind, index) {
            return Err(Fault::WrongLocal);
        }
        match self.local(index as usize) {
            Some(slot) => local_in(kind, slot),
            None => Err(Fault::WrongLocal),
        }
    }

    /// The int in a local; F4 and F3 as of `load`.
    #[inline(always)]
    pub fn local_int(&self, index: u16) -> Result<i32, Fault>
        requires { 0 < length self.now }
        ensures { result ≡ as_int (local_at IntKind (running_frame self.now).locals index) }
    {
        match self.load(Kind::Int, index)? {
            Value::Int(z) => Ok(z),
            Value::Long(_) | Value::Ref(_) => Err(Fault::WrongKind),
        }
    }

    /// The operand of this kind at the top of the stack; F1, F3.
    #[inline(always)]
    pub fn operand(&self, kind: Kind) -> Result<Value, Fault>
        requires { 0 < length self.now }
        ensures value { result ≡ value_on kind (running_frame self.now).stack }
        ensures deep { IsOk result → 1 ≤ length (running_frame self.now).stack }
        ensures wide { IfOk result (λ value. units_taken value ≡ units_of_all (take 1 (running_frame self.now).stack)) }
    {
        operand_in(kind, self.slot(0)?)
    }

    /// The operand of this kind below so many values; F1, F3.
    #[inline(always)]
    pub fn operand_below(&self, kind: Kind, above: usize) -> Result<Value, Fault>
        requires { 0 < length self.now }
        ensures { result ≡ value_on kind (drop above (running_frame self.now).stack) }
    {
        operand_in(kind, self.slot(above)?)
    }

    /// Makes the other half of a long unset whose one half stands at this index.
    #[inline(always)]
    fn free(&mut self, index: usize)
        requires some { 0 < length self.old }
        requires small { index < 2 ^ 32 }
        ensures { self.new ≡ with_running self.old
            (record (running_frame self.old) { locals = freed (running_frame self.old).locals index }) }
    {
        match self.local(index) {
            Some(Slot::Long(_)) => self.set_local(index + 1, Slot::Unset),
            Some(Slot::Upper) => self.set_local(index.saturating_sub(1), Slot::Unset),
            Some(Slot::Int(_) | Slot::Unset | Slot::Null | Slot::Ref(_)) | None => {}
        }
    }

    /// Puts a value into a local.
    #[inline(always)]
    fn put_local(&mut self, index: u16, value: Value)
        requires { 0 < length self.old }
        ensures { self.new ≡ with_running self.old
            (record (running_frame self.old) { locals = with_local (running_frame self.old).locals index value }) }
    {
        let index = index as usize;
        match value {
            Value::Int(_) => {
                self.free(index);
                self.set_local(index, slot_of(value));
            }
            Value::Ref(_) => {
                self.free(index);
                self.set_local(index, slot_of(value));
            }
            Value::Long(_) => self.put_long(index, slot_of(value)),
        }
    }

    /// Puts a long into two locals.
    // Over another long there is nothing to free but what is written.
    #[inline(always)]
    fn put_long(&mut self, index: usize, slot: Slot)
        requires some { 0 < length self.old }
        requires small { index < 2 ^ 16 }
        ensures { self.new ≡ with_running self.old
            (record (running_frame self.old) {
              locals = slice_set
                  (slice_set (freed (freed (running_frame self.old).locals index) (index + 1)) index (entry_of slot))
                  (index + 1) UpperHalf;
            }) }
    {
        match self.local(index) {
            Some(Slot::Long(_)) => self.set_two(index, slot),
            Some(Slot::Int(_) | Slot::Unset | Slot::Upper | Slot::Null | Slot::Ref(_)) | None => {
                self.free(index);
                self.free(index + 1);
                self.set_two(index, slot);
            }
        }
    }

    /// Puts an entry at this index, and the upper half of a long after it.
    #[inline(always)]
    fn set_two(&mut self, index: usize, slot: Slot)
        requires some { 0 < length self.old }
        requires small { index < 2 ^ 16 }
        ensures { self.new ≡ with_running self.old
            (record (running_frame self.old) {
              locals = slice_set
                  (slice_set (running_frame self.old).locals index (entry_of slot)) (index + 1) UpperHalf;
            }) }
    {
        self.set_local(index, slot);
        self.set_local(index + 1, Slot::Upper);
    }

    /// Goes to this pc, without so many values at the top, and with a value in a local.
    #[inline(always)]
    pub fn store(&mut self, next: u16, count: u8, index: u16, value: Value)
        requires some { 0 < length self.old }
        requires there { count ≤ length (running_frame self.old).stack }
        ensures { self.new ≡ with_running self.old (stored next (running_frame self.old) count index value).frame }
    {
        self.discard(next, count);
        self.put_local(index, value);
    }

    /// The same, where it is known how many units these values take.
    #[inline(always)]
    pub fn store_units(&mut self, next: u16, count: u8, units: usize, index: u16, value: Value)
        requires some { 0 < length self.old }
        requires there { count ≤ length (running_frame self.old).stack }
        requires sized { units ≡ units_of_all (take count (running_frame self.old).stack) }
        ensures { self.new ≡ with_running self.old (stored next (running_frame self.old) count index value).frame }
    {
        self.discard_units(next, count, units);
        self.put_local(index, value);
    }
}

/// The entries that a value of this kind takes.
#[inline(always)]
fn entries_of(kind: Kind) -> usize
    ensures { result ≡ width_of kind }
{
    match kind {
        Kind::Int | Kind::Ref => 1,
        Kind::Long => 2,
    }
}
