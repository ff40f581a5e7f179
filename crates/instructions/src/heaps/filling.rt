//! Arrays in the heap, by references.
ghost use Rattle.std.specs.Prelude.{◌≡◌, ◌+◌, ◌<◌, ◌^◌, length, replicate};
ghost use Rattle.model.specs.Accounts.{take_cell};
ghost use Rattle.instructions.specs.Heaps.{created, reference_taken, words_held};

use super::Heap;
use crate::kinds::Kind;
use model::values::Value;

impl Heap {
    /// A new object of so many words, all the same, grey, in the front cell of the smallest size that has a free cell
    /// for it: its reference. `None` exactly where no free cell has room, and then nothing changes.
    pub(crate) fn create_filled(&mut self, kind: Kind, count: u32, zero: Value) -> Option<u32>
        requires { self.old.births + 1 < 2 ^ 32 }
        ensures reference { result ≡ reference_taken (take_cell self.old.account count) }
        ensures heap { self.new ≡ created self.old kind (replicate count zero) (take_cell self.old.account count) }
    {
        if count > 256 {
            return None; // more than any cell has
        }
        let cell = self.account.create(count, self.births)?;
        self.cells.place(cell, kind, count, zero);
        self.births += 1;
        Some(cell + 1)
    }

    /// How many words the object of a reference has. 0 where there is no object.
    pub(crate) fn length(&self, reference: u32) -> u16
        ensures { result ≡ length (words_held self.now reference) }
    {
        match reference.checked_sub(1) {
            Some(cell) => self.cells.length(cell),
            None => 0,
        }
    }
}
