//! Constant pools that are made entry by entry.

ghost use Rattle.std.specs.Prelude.{◌≡◌, ◌≤◌, ◌^◌, ◌++◌, ◌↔◌, [], true, false, Some, Ok, Err, IfOk, OnOk, OnErr};
ghost use Rattle.std.specs.Prelude.{MatchOption};
ghost use Rattle.model.specs.ClassFiles.Adding.{is_among, added};
ghost use Rattle.model.specs.ClassFiles.Entries as entries;
ghost use Rattle.model.specs.ClassFiles.Entries.{EntryFits};
ghost use Rattle.model.specs.ClassFiles.Pools.{under, entry_at, pool_count, PoolFits};
ghost use Rattle.model.specs.ClassFiles.References.{AreSound};
ghost use Rattle.pool.specs.Making as making;
ghost use Rattle.pool.specs.Making.{entries_fault};
ghost use Rattle.pool.specs.Reading.Pools.{unless};
ghost use Rattle.pool.specs.Reading.Steps.{Gives};
ghost use Rattle.pool.specs.declared.builder.AddError.TheVariants as error;

use crate::entries::is_text;
use crate::error::ReadError;
use crate::pools::{Pool, is_wide};
use indexmap::IndexMap;
use model::class_files::{Entry, FormatFault};
use std::alloc::{AllocError, AllocFailed, Global};
use std::marker::Model;

/// Why an entry could not be added.
#[derive(Clone, Copy, Debug, PartialEq, Eq)]
pub enum AddError {
    /// C9: the entry has no room. A pool's count, one more than the numbers taken, is at most 65,535.
    Full,
    /// C10: memory ran out.
    Memory,
}

impl<T: Drop> From<AllocFailed<T>> for AddError {
    ghost from_gives = { λ _ e. e ≡ error.Memory };

    fn from(_e: AllocFailed<T>) -> AddError {
        AddError::Memory
    }
}

/// A constant pool in the making, which keeps equal entries once. A contract sees the list of its entries, in the order
/// of their numbers.
#[derive(Drop)]
pub struct PoolBuilder {
    /// the number of each entry, in the order of the numbers
    numbers: IndexMap<Entry, u16>,
    /// the next entry's number
    next: u16,
}

impl Model for PoolBuilder {
    ghost use Rattle.std.specs.Prelude.{List, ◌≡◌, ◌<◌, ◌^◌};
    ghost use Rattle.model.specs.declared.class_files.Entry.{Entry as AnEntry};
    ghost use Rattle.model.specs.ClassFiles.Pools.{pool_count};
    ghost use Rattle.indexmap.specs.IndexMap.{keys};
    ghost use Rattle.pool.specs.Numbering.{numbered};

    ghost Value = { List AnEntry };

    ghost view = { λ a. keys a.numbers };

    ghost invariant = { λ a. (a.numbers.entries ≡ numbered 1 (keys a.numbers)) × (a.next ≡ pool_count (keys a.numbers))
        × (pool_count (keys a.numbers) < 2 ^ 16) };
}

impl PoolBuilder {
    /// A pool with no entry.
    pub fn new(alloc: Global) -> PoolBuilder
        ensures { result ≡ [] }
    {
        PoolBuilder {
            numbers: IndexMap::new(alloc),
            next: 1,
        }
    }

    /// The number of an entry that was added.
    pub fn number(&self, entry: &Entry) -> Option<u16>
        ensures { MatchOption result (is_among entry.now self.now
            ≡ false) (λ number. (is_among entry.now self.now ≡ true) × (entry_at self.now number ≡ Some entry.now)) }
    {
        self.numbers.get(entry).copied()
    }

    /// Adds an entry, unless an equal one is there, and answers its number. C9 where the entry is new and has no room.
    /// On an error the pool stays as it was.
    pub fn add(&mut self, entry: Entry) -> Result<u16, AddError>
        ensures added { IfOk result (λ number. (self.new ≡ added self.old entry)
            × (entry_at self.new number ≡ Some entry)) }
        ensures full { (result ≡ Err error.Full) ↔ (2 ^ 16 ≤ pool_count (added self.old entry)) }
        ensures kept { OnErr result (self.new ≡ self.old) }
    {
        if let Some(number) = self.number(&entry) {
            return Ok(number);
        }
        let number = self.next;
        let Some(next) = number.checked_add(numbers_of(&entry)) else {
            return Err(AddError::Full);
        };
        self.numbers.insert(entry, number)?;
        self.next = next;
        Ok(number)
    }

    /// The pool of the entries, where each names what it should. C7 where a text has a byte that isn't of the ASCII
    /// characters but NUL, or more than 65,535 bytes; then C6 or C7, as `Pool::check` tells it.
    pub fn finish(self) -> Result<Pool, ReadError>
        // The pool has the builder's entries, can be written, and its entries name what they should.
        ensures made { IfOk result (λ pool. (pool ≡ self) × PoolFits pool × AreSound pool) }
        // Entries of such a pool are refused for memory alone.
        ensures only { PoolFits self → AreSound self → Gives (λ pool. pool) result (Ok self) }
        // Which fault it is.
        ensures exact { Gives (λ pool. pool) result (unless (entries_fault self) self) }
    {
        let PoolBuilder { numbers, next: _ } = self;
        let mut slots = Vec::new(*numbers.allocator());
        slots.push(None)?;
        for (entry, _) in numbers {
            if !has_bytes(&entry) {
                return Err(ReadError::Format(FormatFault::Name));
            }
            push_entry(&mut slots, entry)?;
        }
        Pool::of_slots(slots)?.checked()
    }
}

/// How many numbers an entry takes: a long takes two.
fn numbers_of(entry: &Entry) -> u16
    ensures { result ≡ entries.numbers_of entry.now }
{
    match entry {
        Entry::Long(_) => 2,
        _ => 1,
    }
}

/// Whether an entry can be written: a text is of the ASCII characters but NUL, and has 65,535 bytes at most.
fn has_bytes(entry: &Entry) -> bool
    ensures { result ≡ making.has_bytes entry.now }
{
    match entry {
        Entry::Utf8(text) => text.as_bytes().len() <= 65535 && is_text(text.as_bytes()),
        _ => true,
    }
}

/// Puts an entry under the next number, or of a long the next two.
fn push_entry(slots: &mut Vec<Option<Entry>>, entry: Entry) -> Result<(), AllocError>
    ensures pushed { OnOk result (slots.new.items ≡ slots.old.items ++ under entry []) }
    ensures fits { making.has_bytes entry ≡ true → EntryFits entry }
{
    let wide = is_wide(&entry);
    slots.push(Some(entry))?;
    if wide {
        slots.push(None)?;
    }
    Ok(())
}
