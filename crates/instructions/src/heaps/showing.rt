//! Where births are, what their cells hold, and which of these paths lead to: for those who look at a world from
//! outside.
ghost use Rattle.std.specs.Prelude.{◌≡◌, ◌+◌, ◌<◌, ◌≤◌, ◌^◌, ℕ, length, slice_get, is_some, IfOk, IfSome, Some, true};
ghost use Rattle.model.specs.Collector.Reached.{is_reached};
ghost use Rattle.model.specs.Collector.Table.{cell_at};
ghost use Rattle.model.specs.Worlds.{World};
ghost use Rattle.cells.specs.Objects.{object_if};
ghost use Rattle.join.specs.ReadBack.{cell_from, holds_birth};
ghost use Rattle.instructions.specs.Heaps.{looked_at};
ghost use Rattle.instructions.specs.HeldOnCells.{birth_if};
ghost use Rattle.instructions.specs.Threads.{all_shown};

use super::Heap;
use super::looking::Looked;
use crate::kinds::Kind;
use crate::threads::Threads;
use cells::Cells;
use collector::reached;
use frames::Frames;
use loader::programs::Program;
use model::colours::Cell;
use std::alloc::{AllocError, Global};
use values::Words;

impl Heap {
    /// Whether a cell holds a birth.
    fn holds(&self, cell: u32, birth: u32) -> bool
        ensures { result ≡ holds_birth birth (cell_at self.now.account.cells cell) }
    {
        match self.account.cell(cell) {
            Cell::Free => false,
            Cell::Taken {
                birth: held,
                colour: _,
            } => held == birth,
        }
    }

    /// The first cell that holds a birth.
    fn first_holding(&self, birth: u32) -> Option<u32>
        ensures { result ≡ cell_from 0 birth self.now.account.cells }
    {
        let count = self.account.cells() as u32;
        for cell in 0..count {
            if self.holds(cell, birth) {
                return Some(cell);
            }
        }
        None
    }

    /// The first cell that holds a birth, in which its object is.
    pub(crate) fn cell_of(&self, birth: u32) -> Option<u32>
        ensures cell { result ≡ cell_from 0 birth self.now.account.cells }
        ensures there { IfSome result (λ cell. is_some (object_if (slice_get self.now.objects cell)) ≡ true) }
    {
        let _account = &self.account;
        self.first_holding(birth)
    }

    /// How many cells there are.
    pub(crate) fn count(&self) -> u32
        ensures { result ≡ length self.now.account.cells }
    {
        self.account.cells() as u32
    }

    /// The birth that a cell holds, whose object is in it; none where it is free, and past the last one.
    pub(crate) fn birth_in(&self, cell: u32) -> Option<u32>
        ensures birth { result ≡ birth_if (cell_at self.now.account.cells cell) }
        ensures there { IfSome result (λ birth. is_some (object_if (slice_get self.now.objects cell)) ≡ true) }
    {
        match self.account.cell(cell) {
            Cell::Free => None,
            Cell::Taken { birth, colour: _ } => Some(birth),
        }
    }

    /// The objects in their cells.
    pub(crate) fn cells(&self) -> &Cells<Kind>
        ensures { result.now.objects ≡ self.now.objects }
    {
        &self.cells
    }

    /// For each reference whether a path from the threads' frames, the static fields and the two errors leads to it.
    /// `AllocError` where memory runs out.
    pub(crate) fn reached(
        &self,
        alloc: Global,
        program: &Program,
        threads: &Threads,
        running: u8,
        frames: &Frames,
        slots: &Words,
    ) -> Result<Vec<bool>, AllocError>
        requires few { length slots.now < 2 ^ 32 }
        requires running { running < 64 }
        ensures { let w : World = looked_at program.now
            (all_shown program.now threads.now running frames.now) slots.now self.now in
            IfOk result (λ marks. (r : ℕ) → r ≤ length self.now.objects
            → slice_get marks.items r ≡ Some (is_reached w r)) }
    {
        let looked = Looked {
            program,
            threads,
            running,
            frames,
            slots,
            cells: &self.cells,
        };
        reached(alloc, &looked, self.account.cells() as u32 + 1)
    }
}
