//! What a thread's turn works on.

use crate::heaps::Heap;
use crate::threads::Threads;
use frames::Frames;
use loader::programs::Program;
use model::turns::ClassState;
use std::alloc::{AllocError, Global};
use values::Words;

/// What a turn of a thread reads and changes: the thread's number and frames, the static fields, the states of the
/// classes, the heap and the output.
#[derive(Drop)]
pub(crate) struct Machine {
    pub(crate) thread: u8,
    pub(crate) frames: Frames,
    pub(crate) slots: Words,
    pub(crate) states: Vec<ClassState>,
    pub(crate) heap: Heap,
    pub(crate) output: Vec<u8>,
}

impl Machine {
    ghost use Rattle.std.specs.Prelude.{◌≡◌, ◌<◌, ◌^◌, suc, length, slice_get, is_some, IfOk, true};
    ghost use Rattle.model.specs.Collector.Reached.{is_reached};
    ghost use Rattle.model.specs.Worlds.{World};
    ghost use Rattle.cells.specs.Objects.{object_if};
    ghost use Rattle.instructions.specs.Heaps.{collected, looked_at};
    ghost use Rattle.instructions.specs.Threads.{all_shown};

    /// The collector's turn.
    pub(crate) fn collect(&mut self, program: &Program, threads: &Threads)
        requires few { length self.old.slots < 2 ^ 32 }
        requires running { self.old.thread < 64 }
        ensures heap { self.new.heap ≡ collected program.now
            (all_shown program.now threads.now self.old.thread self.old.frames) self.old.slots self.old.heap }
        ensures thread { self.new.thread ≡ self.old.thread }
        ensures frames { self.new.frames ≡ self.old.frames }
        ensures slots { self.new.slots ≡ self.old.slots }
        ensures states { self.new.states ≡ self.old.states }
        ensures output { self.new.output ≡ self.old.output }
    {
        let Machine {
            thread,
            frames,
            slots,
            states: _,
            heap,
            output: _,
        } = self;
        heap.collect(program, threads, *thread, frames, slots);
    }

    /// Whether a path from the threads' frames, the static fields and the two errors leads to the object in a cell, in
    /// which there is one. `AllocError` where memory runs out.
    pub(crate) fn is_reached(
        &self,
        alloc: Global,
        program: &Program,
        threads: &Threads,
        cell: u32,
    ) -> Result<bool, AllocError>
        requires few { length self.now.slots < 2 ^ 32 }
        requires running { self.now.thread < 64 }
        requires there { is_some (object_if (slice_get self.now.heap.objects cell)) ≡ true }
        ensures { let w : World = looked_at program.now
            (all_shown program.now threads.now self.now.thread self.now.frames) self.now.slots self.now.heap in
            IfOk result (λ reached. reached ≡ is_reached w (suc cell)) }
    {
        let marks = self.heap.reached(
            alloc,
            program,
            threads,
            self.thread,
            &self.frames,
            &self.slots,
        )?;
        Ok(marks[cell as usize + 1])
    }
}
