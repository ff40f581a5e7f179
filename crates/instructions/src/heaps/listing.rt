//! The lists of the heap's cells, copied.
ghost use Rattle.std.specs.Prelude.{◌≡◌, IfOk, map};
ghost use Rattle.join.specs.Joined.{named_account};
ghost use Rattle.join.specs.ReadBack.{birth_read};
ghost use Rattle.instructions.specs.ListsShown.{lists_of};

use super::Heap;
use crate::lists::ListsView;
use std::alloc::{AllocError, Global};

impl Heap {
    /// The births of the grey list, in its order. `AllocError` where memory runs out, here and below.
    fn grey_births(&self, alloc: Global) -> Result<Vec<u32>, AllocError>
        ensures { IfOk result (λ births. births.items ≡ map (birth_read self.now.account.cells) self.now.account.grey) }
    {
        let mut births = Vec::new(alloc);
        let references = self.account.grey_references(alloc)?;
        for reference in references.as_slice() {
            births.push(self.birth(*reference))?;
        }
        Ok(births)
    }

    /// The grey list and the free lists, in their order, with births in place of references.
    pub(crate) fn lists(&self, alloc: Global) -> Result<ListsView, AllocError>
        ensures { IfOk result (λ lists. lists
            ≡ lists_of (named_account (birth_read self.now.account.cells) self.now.account)) }
    {
        Ok(ListsView {
            grey: self.grey_births(alloc)?,
            small: self.account.free_small(alloc)?,
            medium: self.account.free_medium(alloc)?,
            large: self.account.free_large(alloc)?,
        })
    }
}
