//! Constant pools.

ghost use Rattle.std.specs.Prelude.{◌≡◌, ◌-◌, ◌<◌, ◌++◌, ℕ, List, false, None, Ok, IfOk, OnOk};
ghost use Rattle.std.specs.List.{flat_map, AllByRecursion};
ghost use Rattle.std.specs.Option.{option_copied, option_map};
ghost use Rattle.model.specs.declared.class_files.Entry.{Entry as AnEntry};
ghost use Rattle.model.specs.ClassFiles.Entries.{entry_bytes, EntryFits};
ghost use Rattle.model.specs.ClassFiles.Pools.{entry_at, pool_count, pool_bytes, PoolFits};
ghost use Rattle.model.specs.ClassFiles.References.{text_at, first_fault, AreSound};
ghost use Rattle.pool.specs.Checks.{fault_in};
ghost use Rattle.pool.specs.Kinds.{kind_of};
ghost use Rattle.pool.specs.Slots.{entries_in, AreSlots};
ghost use Rattle.pool.specs.Reading.Steps.{Gives};
ghost use Rattle.pool.specs.Reading.Pools.{is_long, slots_from, slots_after, entries_from, unless, pool_from};

use crate::entries::{entry_of, put_entry};
use crate::error::ReadError;
use crate::fields::u16_at;
use crate::kinds::{TextKind, kinds_of};
use model::class_files::{Entry, FormatFault};
use std::alloc::{AllocError, Global};
use std::marker::Model;

/// A constant pool. A contract sees the list of its entries, in the order of their numbers.
#[derive(Drop)]
pub struct Pool {
    /// what stands under each number; a long stands under the first of its two
    slots: Vec<Option<Entry>>,
    /// what the text under each number is good for
    kinds: Vec<Option<TextKind>>,
}

impl Model for Pool {
    ghost use Rattle.std.specs.Prelude.{List};
    ghost use Rattle.model.specs.declared.class_files.Entry.{Entry as AnEntry};
    ghost use Rattle.model.specs.ClassFiles.Pools.{PoolFits};
    ghost use Rattle.pool.specs.Kinds.{AreKinds};
    ghost use Rattle.pool.specs.Slots.{entries_in, AreSlots};

    ghost Value = { List AnEntry };

    ghost view = { λ a. entries_in a.slots.items };

    ghost invariant = { λ a. AreSlots a.slots.items × PoolFits (entries_in a.slots.items)
        × AreKinds a.slots.items a.kinds.items };
}

impl Pool {
    /// The entry under a number, if it is an entry's number.
    pub fn entry(&self, number: u16) -> Option<&Entry>
        ensures { option_copied result ≡ entry_at self.now number }
    {
        self.slots.get(usize::from(number))?.as_ref()
    }

    /// One more than the numbers that the entries take.
    pub fn count(&self) -> u16
        ensures { result ≡ pool_count self.now }
    {
        self.slots.as_slice().len() as u16
    }

    /// Reads a pool from the front of the bytes, after its count, and tests what its entries name. C3, C5, C6 or C7:
    /// the first fault from left to right, those of what is named after all others.
    pub fn read(alloc: Global, bytes: &[u8]) -> Result<(Pool, &[u8]), ReadError>
        // What is read is spelled so, and its entries name what they should.
        ensures found { IfOk result (λ x. PoolFits x.0 × AreSound x.0 × (bytes.now ≡ pool_bytes x.0 ++ x.1.now)) }
        // What is spelled so is read, unless memory runs out.
        ensures only { (pool : List AnEntry) (rest : List ℕ) → PoolFits pool → AreSound pool
            → bytes.now ≡ pool_bytes pool ++ rest → let read : List AnEntry × List ℕ = (pool, rest) in
            Gives (λ x. (x.0, x.1.now)) result (Ok read) }
        // Which fault it is.
        ensures exact { Gives (λ x. (x.0, x.1.now)) result (pool_from bytes.now) }
    {
        sound_pool(alloc, bytes)
    }

    /// Writes the pool at the end, after its count.
    pub fn write(&self, out: &mut Vec<u8>) -> Result<(), AllocError>
        ensures { OnOk result (out.new.items ≡ out.old.items ++ pool_bytes self.now) }
    {
        out.extend_from_slice(&self.count().to_be_bytes())?;
        put_entries(out, &self.slots)
    }

    /// Where the pool takes its memory.
    pub(crate) fn alloc(&self) -> Global {
        *self.slots.allocator()
    }

    /// What the text under a number is good for, if there is one.
    pub(crate) fn kind(&self, number: u16) -> Option<TextKind>
        ensures { result ≡ option_map kind_of (text_at self.now number) }
    {
        *self.kinds.get(usize::from(number))?
    }

    /// The pool of these slots.
    pub(crate) fn of_slots(slots: Vec<Option<Entry>>) -> Result<Pool, AllocError>
        requires slots { AreSlots slots.items }
        requires fits { PoolFits (entries_in slots.items) }
        ensures { IfOk result (λ pool. pool ≡ entries_in slots.items) }
    {
        let kinds = kinds_of(*slots.allocator(), &slots)?;
        Ok(Pool { slots, kinds })
    }

    /// The pool, if each entry names what it should; else the first fault.
    pub(crate) fn checked(self) -> Result<Pool, ReadError>
        ensures { Gives (λ pool. pool) result (unless (first_fault self self) self) }
    {
        match self.check() {
            Ok(()) => Ok(self),
            Err(fault) => Err(ReadError::Format(fault)),
        }
    }

    /// That each entry names what it should. The fault is that of the first that doesn't.
    pub fn check(&self) -> Result<(), FormatFault>
        ensures { fault_in result ≡ first_fault self.now self.now }
    {
        self.check_entries(&self.slots)
    }
}

/// Writes the entries among the slots at the end.
fn put_entries(out: &mut Vec<u8>, slots: &[Option<Entry>]) -> Result<(), AllocError>
    requires { AllByRecursion EntryFits (entries_in slots.now) }
    ensures { OnOk result (out.new.items ≡ out.old.items ++ flat_map entry_bytes (entries_in slots.now)) }
{
    for slot in slots {
        if let Some(entry) = slot {
            put_entry(out, entry)?;
        }
    }
    Ok(())
}

/// Whether an entry takes two numbers.
pub(crate) fn is_wide(entry: &Entry) -> bool
    ensures { result ≡ is_long entry.now }
{
    matches!(entry, Entry::Long(_))
}

/// What stands under the numbers below a count, and the bytes after the entries.
fn slots_of(
    alloc: Global,
    count: u16,
    bytes: &[u8],
) -> Result<(Vec<Option<Entry>>, &[u8]), ReadError>
    requires { 0 < count }
    ensures gives { Gives (λ x. (x.0.items, x.1.now)) result
        (slots_after None (slots_from false (count - 1) bytes.now)) }
    ensures slots { IfOk result (λ x. AreSlots x.0.items) }
    ensures fits { IfOk result (λ x. PoolFits (entries_in x.0.items)) }
{
    let mut slots = Vec::new(alloc);
    let mut rest = bytes;
    let mut second = false;
    slots.push(None)?;
    for number in 1..count {
        if second {
            slots.push(None)?;
            second = false;
            continue;
        }
        let (entry, after) = entry_of(alloc, count - number, rest)?;
        second = is_wide(&entry);
        slots.push(Some(entry))?;
        rest = after;
    }
    Ok((slots, rest))
}

/// The entries at the front of the bytes, after their count.
#[tactic(auto, unfolding(crate::specs::Reading::Pools::entries_from))]
fn entries_of(alloc: Global, bytes: &[u8]) -> Result<(Pool, &[u8]), ReadError>
    ensures { Gives (λ x. (x.0, x.1.now)) result (entries_from bytes.now) }
{
    let (count, rest) = u16_at(bytes)?;
    if count == 0 {
        return Err(ReadError::Format(FormatFault::Index));
    }
    let (slots, rest) = slots_of(alloc, count, rest)?;
    Ok((Pool::of_slots(slots)?, rest))
}

/// The entries at the front of the bytes, where each names what it should.
#[tactic(auto, unfolding(crate::specs::Reading::Pools::pool_from))]
fn sound_pool(alloc: Global, bytes: &[u8]) -> Result<(Pool, &[u8]), ReadError>
    ensures { Gives (λ x. (x.0, x.1.now)) result (pool_from bytes.now) }
{
    let (pool, rest) = entries_of(alloc, bytes)?;
    Ok((pool.checked()?, rest))
}
