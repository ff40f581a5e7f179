//! The free cells by size, each list first in, first out.
ghost use Rattle.std.specs.Prelude.{◌≡◌, ◌+◌, ◌<◌, ◌≤◌, ◌^◌, length, IfOk, IfNone};
ghost use Rattle.model.specs.Accounts.{Account, has_room};
ghost use Rattle.model.specs.Collector.Table.{with_free};

use crate::queues::{numbers, pop_if, push};
use circular_buffer::HeapCircularBuffer;
use model::journals::HeapShape;
use std::alloc::{AllocError, Global};

/// The numbers of the free cells of 4, of 32 and of 256 words, the next to be taken at the front.
#[derive(Drop)]
pub(crate) struct FreeLists {
    pub(crate) small: HeapCircularBuffer<u32>,
    pub(crate) medium: HeapCircularBuffer<u32>,
    pub(crate) large: HeapCircularBuffer<u32>,
}

impl FreeLists {
    ghost use Rattle.colours.specs.FreeLists.{all_free, listing, capacities, Takes};

    /// All cells of a heap are free, and each list has room for `cells`. `AllocError` where there is no memory.
    pub(crate) fn new(alloc: Global, shape: HeapShape, cells: usize) -> Result<Self, AllocError>
        requires all { shape.small + shape.medium + shape.large ≤ cells }
        requires fits { cells < 2 ^ 32 }
        ensures { IfOk result (λ free. free ≡ all_free shape cells) }
    {
        let small = numbers(alloc, 0, shape.small, cells)?;
        let medium = numbers(alloc, shape.small, shape.medium, cells)?;
        let large = numbers(alloc, shape.small + shape.medium, shape.large, cells)?;
        Ok(FreeLists {
            small,
            medium,
            large,
        })
    }

    /// Whether a cell of so many words is free.
    pub(crate) fn have_room(&self, words: u32) -> bool
        ensures { (a : Account) → result ≡ has_room (listing a self.now) words }
    {
        words <= 4 && !self.small.is_empty()
            || words <= 32 && !self.medium.is_empty()
            || words <= 256 && !self.large.is_empty()
    }

    /// Takes the front cell of the smallest size that has a free cell of so many words. `None` where there is none, and
    /// then the lists stay.
    pub(crate) fn take(&mut self, words: u32) -> Option<u32>
        ensures taken { Takes self.old words result self.new }
        ensures left { IfNone result (self.new ≡ self.old) }
        ensures room { capacities self.new ≡ capacities self.old }
    {
        if let Some(cell) = pop_if(words <= 4, &mut self.small) {
            return Some(cell);
        }
        if let Some(cell) = pop_if(words <= 32, &mut self.medium) {
            return Some(cell);
        }
        pop_if(words <= 256, &mut self.large)
    }

    /// Puts a cell at the end of the list of its size.
    pub(crate) fn give(&mut self, shape: HeapShape, cell: u32)
        requires small { length self.old.small.items < self.old.small.capacity }
        requires medium { length self.old.medium.items < self.old.medium.capacity }
        requires large { length self.old.large.items < self.old.large.capacity }
        ensures lists { (a : Account) → listing a self.new ≡ with_free shape (listing a self.old) cell }
        ensures room { capacities self.new ≡ capacities self.old }
    {
        if cell < shape.small {
            push(&mut self.small, cell);
        } else if u64::from(cell) < u64::from(shape.small) + u64::from(shape.medium) {
            push(&mut self.medium, cell);
        } else {
            push(&mut self.large, cell);
        }
    }
}
