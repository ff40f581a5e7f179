//! Threads as plain data, with the birth in its cell in place of each reference.
ghost use Rattle.std.specs.Prelude.{◌≡◌, IfOk, map, slice_get};
ghost use Rattle.std.specs.Option.{option_map};
ghost use Rattle.model.specs.Naming.{named_entry, named_frame, named_ref, named_thread, named_value};
ghost use Rattle.join.specs.ReadBack.{birth_read};

use super::State;
use crate::heaps::Heap;
use crate::kinds::Course;
use crate::names::kind_name;
use model::values::{Entry, Value};
use model::views::{FrameView, ThreadState, ThreadView};
use std::alloc::{AllocError, Global};

fn named_reference(heap: &Heap, reference: Option<u32>) -> Option<u32>
    ensures { result ≡ named_ref (birth_read heap.now.account.cells) reference }
{
    match reference {
        Some(reference) => Some(heap.birth(reference)),
        None => None,
    }
}

pub(super) fn named_value(heap: &Heap, value: Value) -> Value
    ensures { result ≡ named_value (birth_read heap.now.account.cells) value }
{
    match value {
        Value::Ref(reference) => Value::Ref(named_reference(heap, reference)),
        Value::Int(_) | Value::Long(_) => value,
    }
}

fn named_entry(heap: &Heap, entry: Entry) -> Entry
    ensures { result ≡ named_entry (birth_read heap.now.account.cells) entry }
{
    match entry {
        Entry::Holds(value) => Entry::Holds(named_value(heap, value)),
        Entry::Unset | Entry::UpperHalf => entry,
    }
}

fn named_entries(alloc: Global, heap: &Heap, entries: &[Entry]) -> Result<Vec<Entry>, AllocError>
    ensures { IfOk result (λ named. named.items ≡ map (named_entry (birth_read heap.now.account.cells)) entries.now) }
{
    entries
        .iter()
        .map(|entry| named_entry(heap, *entry))
        .collect(alloc)
}

pub(super) fn named_values(
    alloc: Global,
    heap: &Heap,
    values: &[Value],
) -> Result<Vec<Value>, AllocError>
    ensures { IfOk result (λ named. named.items ≡ map (named_value (birth_read heap.now.account.cells)) values.now) }
{
    values
        .iter()
        .map(|value| named_value(heap, *value))
        .collect(alloc)
}

fn named_frame(alloc: Global, heap: &Heap, frame: &FrameView) -> Result<FrameView, AllocError>
    ensures { IfOk result (λ named. named ≡ named_frame (birth_read heap.now.account.cells) frame.now) }
{
    Ok(FrameView {
        method: frame.method,
        pc: frame.pc,
        locals: named_entries(alloc, heap, &frame.locals)?,
        stack: named_values(alloc, heap, &frame.stack)?,
        room: frame.room,
        monitor: named_reference(heap, frame.monitor),
        mark: frame.mark,
    })
}

fn named_frames(
    alloc: Global,
    heap: &Heap,
    frames: &[FrameView],
) -> Result<Vec<FrameView>, AllocError>
    ensures { IfOk result (λ named. named.items ≡ map (named_frame (birth_read heap.now.account.cells)) frames.now) }
{
    let mut named = Vec::with_capacity(alloc, frames.len())?;
    for frame in frames {
        named.push(named_frame(alloc, heap, frame)?)?;
    }
    Ok(named)
}

impl State {
    /// A copy of a thread: its frames, or that it has ended; none where it was never started. `AllocError` where memory
    /// runs out.
    pub fn thread(&self, thread: u8) -> Result<Option<ThreadView>, AllocError>
        ensures { IfOk result (λ view. view ≡ option_map (named_thread (birth_read self.now.machine.account.cells))
            (slice_get self.now.machine.world.threads thread)) }
    {
        let alloc = *self.machine.states.allocator();
        match self.threads.course(thread) {
            Some(Course::Live) => {
                let frames = self.frames(thread).views()?;
                let named = named_frames(alloc, &self.machine.heap, &frames)?;
                let state = ThreadState::Live(named);
                Ok(Some(ThreadView { state }))
            }
            Some(Course::Returned) => {
                let state = ThreadState::Ended(None);
                Ok(Some(ThreadView { state }))
            }
            Some(Course::Threw(kind)) => {
                let class = kind_name(alloc, &self.program, kind)?;
                let state = ThreadState::Ended(Some(class));
                Ok(Some(ThreadView { state }))
            }
            None => Ok(None),
        }
    }
}
