//! Words: the values that objects and static fields keep, each in a flat slot.
ghost use Rattle.std.specs.Prelude.{◌≡◌, ◌+◌, ◌<◌, ◌≤◌, ◌++◌, length, map, slice_get, slice_set, take, drop, replicate};
ghost use Rattle.std.specs.Prelude.{vec_len, IfOk};
ghost use Rattle.std.specs.Option.{option_map};
ghost use Rattle.values.specs.Slots.{value_of};

use crate::slots::{Slot, slot_of, value_in};
use model::values::Value;
use std::alloc::{AllocError, Global};
use std::marker::Model;

/// So many words. A contract sees their values.
#[derive(Drop)]
pub struct Words {
    slots: Vec<Slot>,
}

impl Model for Words {
    ghost use Rattle.std.specs.Prelude.{List, map};
    ghost use Rattle.model.specs.declared.values.Value.{Value as Held};
    ghost use Rattle.values.specs.Slots.{value_of};

    ghost Value = { List Held };

    ghost view = { λ a. map value_of a.slots.items };
}

impl Words {
    /// So many words, all the same. All the memory that they ever take is taken here: `AllocError` where there is not
    /// so much.
    pub fn new(alloc: Global, count: usize, value: Value) -> Result<Words, AllocError>
        ensures { IfOk result (λ words. words ≡ replicate count value) }
    {
        Ok(Words {
            slots: vec![in alloc; slot_of(value); count]?,
        })
    }

    /// Words that hold these values. `AllocError` as of `new`.
    pub fn of(alloc: Global, values: &[Value]) -> Result<Words, AllocError>
        ensures { IfOk result (λ words. words ≡ values.now) }
    {
        let mut words = Words::new(alloc, values.len(), Value::Ref(None))?;
        words.write(0, values);
        Ok(words)
    }

    /// How many there are.
    #[inline(always)]
    pub fn len(&self) -> usize
        ensures { result ≡ length self.now }
    {
        self.slots.len()
    }

    /// What a word holds. None where there is no such word.
    #[inline(always)]
    pub fn get(&self, place: usize) -> Option<Slot>
        ensures { option_map value_of result ≡ slice_get self.now place }
    {
        self.slots.get(place).copied()
    }

    /// Writes a word.
    #[inline(always)]
    pub fn put(&mut self, place: usize, value: Value)
        requires { place < length self.old }
        ensures { self.new ≡ slice_set self.old place value }
    {
        self.slots[place] = slot_of(value);
    }

    /// Makes so many words from one on the same.
    pub fn fill(&mut self, base: u32, count: u32, value: Value)
        requires { base + count ≤ length self.old }
        ensures { self.new ≡ take base self.old ++ replicate count value ++ drop (base + count) self.old }
    {
        fill(
            &mut self.slots,
            base as usize,
            count as usize,
            slot_of(value),
        );
    }

    /// Writes these words from one on.
    pub fn write(&mut self, base: u32, values: &[Value])
        requires { base + length values.now ≤ length self.old }
        ensures { self.new ≡ take base self.old ++ values.now ++ drop (base + length values.now) self.old }
    {
        for n in 0..values.len() {
            self.put(base as usize + n, values[n]);
        }
    }

    /// A copy of so many words from one on.
    pub fn values(&self, base: u32, count: u16) -> Result<Vec<Value>, AllocError>
        requires { base + count ≤ length self.now }
        ensures { IfOk result (λ values. values.items ≡ take count (drop base self.now)) }
    {
        values_in(
            *self.slots.allocator(),
            &self.slots[base as usize..base as usize + count as usize],
        )
    }
}

/// Makes so many slots from this one on the same.
fn fill(slots: &mut Vec<Slot>, base: usize, count: usize, slot: Slot)
    requires { base + count ≤ vec_len slots.old }
    ensures { slots.new.items ≡ take base slots.old.items ++ replicate count slot
        ++ drop (base + count) slots.old.items }
{
    slots[base..base + count].fill(slot);
}

/// A copy of the values in some slots.
fn values_in(alloc: Global, slots: &[Slot]) -> Result<Vec<Value>, AllocError>
    ensures { IfOk result (λ values. values.items ≡ map value_of slots.now) }
{
    slots.iter().map(|slot| value_in(*slot)).collect(alloc)
}
