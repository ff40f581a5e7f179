//! Lists of numbers, first in, first out, whose room is made once.
ghost use Rattle.std.specs.Prelude.{◌≡◌, ◌+◌, ◌<◌, ◌≤◌, ◌^◌, [], ◌∷◌, ◌++◌, length, slice_get, drop};
ghost use Rattle.std.specs.Prelude.{None, IfOk, if◌then◌else◌};
ghost use Rattle.circular_buffer.specs.Buffer.{buffer};
ghost use Rattle.model.specs.Accounts.{numbers_up};

use circular_buffer::HeapCircularBuffer;
use std::alloc::{AllocError, Global};

/// So many numbers from one on, rising, in a list with room for `capacity`. `AllocError` where there is no memory.
pub(crate) fn numbers(
    alloc: Global,
    first: u32,
    count: u32,
    capacity: usize,
) -> Result<HeapCircularBuffer<u32>, AllocError>
    requires room { count ≤ capacity }
    requires fits { first + count < 2 ^ 32 }
    ensures { IfOk result (λ list. list ≡ buffer (numbers_up first count) capacity) }
{
    let mut list = HeapCircularBuffer::with_capacity(alloc, capacity)?;
    for number in first..first + count {
        push(&mut list, number);
    }
    Ok(list)
}

/// Puts a number at the end of a list that has room.
pub(crate) fn push(list: &mut HeapCircularBuffer<u32>, number: u32)
    requires { length list.old.items < list.old.capacity }
    ensures { list.new ≡ buffer (list.old.items ++ number ∷ []) list.old.capacity }
{
    list.push_back(number);
}

/// Takes the front number off a list, if it is wanted and there is one.
pub(crate) fn pop_if(wanted: bool, list: &mut HeapCircularBuffer<u32>) -> Option<u32>
    ensures number { result ≡ (if wanted then slice_get list.old.items 0 else None) }
    ensures items { list.new ≡ (if wanted then buffer (drop 1 list.old.items) list.old.capacity else list.old) }
{
    if wanted { list.pop_front() } else { None }
}
