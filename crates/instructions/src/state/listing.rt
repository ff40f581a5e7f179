//! The lists of the heap's cells, for those who look at a world from outside.
ghost use Rattle.std.specs.Prelude.{◌≡◌, IfOk};
ghost use Rattle.instructions.specs.ListsShown.{lists_on};

use super::State;
use crate::lists::ListsView;
use std::alloc::AllocError;

impl State {
    /// The grey list and the free lists, in their order, with births in place of references. `AllocError` where memory
    /// runs out.
    pub fn lists(&self) -> Result<ListsView, AllocError>
        ensures { IfOk result (λ lists. lists ≡ lists_on self.now.machine) }
    {
        self.machine.heap.lists(*self.machine.states.allocator())
    }
}
