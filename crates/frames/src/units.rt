//! The array of units of a thread's frames.
ghost use Rattle.std.specs.Prelude.{◌≡◌, ◌+◌, ◌-◌, ◌<◌, ◌≤◌, ◌++◌, [], length, map, slice_index_or, slice_set, take};
ghost use Rattle.std.specs.Prelude.{drop, replicate, vec_capacity, vec_len, IfOk};
ghost use Rattle.model.specs.declared.values.Entry.TheVariants.{Unset};
ghost use Rattle.values.specs.Slots.{value_in as value_held};
ghost use Rattle.values.specs.Slots.{entry_of, value_of};
ghost use Rattle.values.specs.declared.slots.Slot.TheVariants.{Unset as UnsetSlot};
ghost use Rattle.register_code.specs.Within.{AreWithin};
ghost use Rattle.frames.specs.Windows.{RunsWithin};

use model::values::{Entry, Value};
use register_code::Memory;
use register_code::steps::Lends;
use std::alloc::{AllocError, Global};
use std::marker::Model;
use values::slots::{Slot, entry_in, value_in};

/// How many units a thread's frames may take.
pub(crate) const UNITS: usize = 4096;

/// Units, each with its entry: so many as were reached. The memory for all of them is there, and what isn't reached
/// isn't touched.
#[derive(Drop)]
pub struct Units {
    slots: Vec<Slot>,
}

impl Model for Units {
    ghost use Rattle.std.specs.Prelude.{◌≤◌, List, map, vec_capacity};
    ghost use Rattle.model.specs.declared.values.Entry.{Entry};
    ghost use Rattle.values.specs.Slots.{entry_of};

    ghost Value = { List Entry };

    ghost view = { λ a. map entry_of a.slots.items };

    ghost invariant = { λ a. 4096 ≤ vec_capacity a.slots };
}

#[tactic(auto, using(crate::proofs::SlotLemmas::slots))]
impl Units {
    /// None that was reached. `AllocError` where there is no memory for all.
    pub fn new(alloc: Global) -> Result<Self, AllocError>
        ensures { IfOk result (λ units. units ≡ []) }
    {
        Ok(Units {
            slots: Vec::with_capacity(alloc, UNITS)?,
        })
    }

    /// Reaches so many units at least. Those that come are unset. It takes no memory.
    // What a function keeps is made zero where it begins, so the growth has one of its own.
    #[inline(always)]
    pub fn reach(&mut self, count: usize)
        requires { count ≤ 4096 }
        ensures { self.new ≡ self.old ++ replicate (count - length self.old) Unset }
    {
        if self.slots.len() < count {
            grow(&mut self.slots, count);
        }
    }

    /// What stands in this unit.
    #[inline(always)]
    pub fn at(&self, place: usize) -> Slot
        requires { place < length self.now }
        ensures { entry_of result ≡ slice_index_or self.now place Unset }
    {
        self.slots[place]
    }

    /// Puts an entry into this unit.
    #[inline(always)]
    pub fn put(&mut self, place: usize, slot: Slot)
        requires { place < length self.old }
        ensures { self.new ≡ slice_set self.old place (entry_of slot) }
    {
        self.slots[place] = slot;
    }

    /// The slots in so many units, from this one on.
    #[inline(always)]
    pub fn held(&self, base: usize, count: usize) -> &[Slot]
        requires { base + count ≤ length self.now }
        ensures { map entry_of result.now ≡ take count (drop base self.now) }
    {
        &self.slots[base..base + count]
    }

    /// Makes so many units unset, from this one on.
    #[inline(always)]
    pub fn unset(&mut self, base: usize, count: usize)
        requires { base + count ≤ length self.old }
        ensures { self.new ≡ take base self.old ++ replicate count Unset ++ drop (base + count) self.old }
    {
        unset(&mut self.slots, base, count);
    }

    /// Carries out register code that is lent from a place on, so many steps at most, on so many units, from this one
    /// on, and on memory. Answers the place that is reached, which is one of the code, and how many steps are left: none,
    /// or some where the step at that place can't be carried out here.
    #[inline(always)]
    pub fn run<C, M: Memory<C>, K: Lends>(
        &mut self,
        memory: &mut M,
        context: &C,
        base: usize,
        span: usize,
        lender: &K,
        place: usize,
        most: u32,
    ) -> (usize, u32)
        requires there { base + span ≤ length self.old }
        requires start { place < length (K.steps lender.now) }
        requires within { AreWithin span (K.steps lender.now) }
        ensures ran { RunsWithin (M.acts context.now) base span (K.steps lender.now) place (most - result.1) result.1
            result.0 self.old memory.old self.new memory.new }
        ensures inside { result.0 < length (K.steps lender.now) }
        ensures left { result.1 ≤ most }
    {
        register_code::run(
            &mut self.slots[base..base + span],
            memory,
            context,
            lender,
            place,
            most,
        )
    }

    /// A copy of the entries of so many units, from this one on.
    pub fn entries(&self, base: usize, count: usize) -> Result<Vec<Entry>, AllocError>
        requires { base + count ≤ length self.now }
        ensures { IfOk result (λ entries. entries.items ≡ take count (drop base self.now)) }
    {
        entries_in(*self.slots.allocator(), &self.slots[base..base + count])
    }

    /// A copy of the values in so many units, from this one on.
    pub fn values(&self, base: usize, count: usize) -> Result<Vec<Value>, AllocError>
        requires { base + count ≤ length self.now }
        ensures { IfOk result (λ values. values.items ≡ map value_held (take count (drop base self.now))) }
    {
        values_in(*self.slots.allocator(), &self.slots[base..base + count])
    }
}

/// Has unset slots after these, up to so many. There is room for them.
#[inline(never)]
fn grow(slots: &mut Vec<Slot>, count: usize)
    requires some { vec_len slots.old < count }
    requires room { count ≤ vec_capacity slots.old }
    ensures items { slots.new.items ≡ slots.old.items ++ replicate (count - vec_len slots.old) UnsetSlot }
    ensures capacity { vec_capacity slots.old ≤ vec_capacity slots.new }
{
    for _place in slots.len()..count {
        match slots.push(Slot::Unset) {
            Ok(()) => {}
            Err(_) => unreachable!(),
        }
    }
}

/// Makes these slots unset.
#[inline(never)]
fn unset_all(slots: &mut [Slot])
    ensures { slots.new ≡ replicate (length slots.old) UnsetSlot }
{
    slots.fill(Slot::Unset);
}

/// Makes so many slots unset, from this one on.
#[inline(always)]
fn unset(slots: &mut Vec<Slot>, base: usize, count: usize)
    requires { base + count ≤ vec_len slots.old }
    ensures items { slots.new.items ≡ take base slots.old.items ++ replicate count UnsetSlot
        ++ drop (base + count) slots.old.items }
    ensures capacity { vec_capacity slots.new ≡ vec_capacity slots.old }
{
    if count > 0 {
        unset_all(&mut slots[base..base + count]);
    }
}

/// A copy of the entries in some slots.
fn entries_in(alloc: Global, slots: &[Slot]) -> Result<Vec<Entry>, AllocError>
    ensures { IfOk result (λ entries. entries.items ≡ map entry_of slots.now) }
{
    slots.iter().map(|slot| entry_in(*slot)).collect(alloc)
}

/// A copy of the values in some slots.
fn values_in(alloc: Global, slots: &[Slot]) -> Result<Vec<Value>, AllocError>
    ensures { IfOk result (λ values. values.items ≡ map value_of slots.now) }
{
    slots.iter().map(|slot| value_in(*slot)).collect(alloc)
}
