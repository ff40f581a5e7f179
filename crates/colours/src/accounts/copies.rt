//! Copies of the lists of an account, for those who look at it from outside.
ghost use Rattle.std.specs.Prelude.{◌≡◌, IfOk};

use super::Account;
use std::alloc::{AllocError, Global};

impl Account {
    /// The references of the grey list, the next to be blackened first. `AllocError` where memory runs out, here and
    /// below.
    pub fn grey_references(&self, alloc: Global) -> Result<Vec<u32>, AllocError>
        ensures { IfOk result (λ references. references.items ≡ self.now.grey) }
    {
        self.grey.to_vec(alloc)
    }

    /// The free cells of 4 words, the next to be taken first.
    pub fn free_small(&self, alloc: Global) -> Result<Vec<u32>, AllocError>
        ensures { IfOk result (λ cells. cells.items ≡ self.now.small) }
    {
        self.free.small.to_vec(alloc)
    }

    /// The free cells of 32 words, the next to be taken first.
    pub fn free_medium(&self, alloc: Global) -> Result<Vec<u32>, AllocError>
        ensures { IfOk result (λ cells. cells.items ≡ self.now.medium) }
    {
        self.free.medium.to_vec(alloc)
    }

    /// The free cells of 256 words, the next to be taken first.
    pub fn free_large(&self, alloc: Global) -> Result<Vec<u32>, AllocError>
        ensures { IfOk result (λ cells. cells.items ≡ self.now.large) }
    {
        self.free.large.to_vec(alloc)
    }
}
