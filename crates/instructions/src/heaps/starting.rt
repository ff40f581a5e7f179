//! The threads that were started on objects, by references.
ghost use Rattle.std.specs.Prelude.{◌≡◌};
ghost use Rattle.instructions.specs.HeapThreads.{thread_held, with_thread_on};

use super::Heap;

impl Heap {
    /// The number of the thread that was started on the object of a reference. None where there is no object.
    pub(crate) fn thread(&self, reference: u32) -> Option<u32>
        ensures { result ≡ thread_held self.now reference }
    {
        match reference.checked_sub(1) {
            Some(cell) => self.cells.thread(cell),
            None => None,
        }
    }

    /// The object of a reference knows the thread that is started on it by this number. Where there is no object,
    /// nothing changes.
    pub(crate) fn set_thread(&mut self, reference: u32, thread: u32)
        ensures { self.new ≡ with_thread_on self.old reference thread }
    {
        if let Some(cell) = reference.checked_sub(1) {
            self.cells.set_thread(cell, Some(thread));
        }
    }
}
