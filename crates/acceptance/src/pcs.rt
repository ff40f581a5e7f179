//! The pcs of a method's instructions.
ghost use Rattle.std.specs.Prelude.{◌≡◌, ◌==◌, IfOk};
ghost use Rattle.std.specs.List.{list_any};
ghost use Rattle.model.specs.declared.listings.Placed.{Placed as PlacedAt};
ghost use Rattle.linking.specs.Offsets.{offset_in};

use linking::offsets::offsets_of;
use model::listings::Placed;
use std::alloc::{AllocError, Global};
use std::marker::Model;

/// The pcs at which the instructions of a method begin. A contract sees the instructions.
#[derive(Drop)]
pub struct Pcs<'a> {
    instructions: &'a [Placed],
    /// for each pc the place of its instruction, from 1; 0 where none begins
    offsets: Vec<usize>,
}

impl<'a> Model for Pcs<'a> {
    ghost use Rattle.std.specs.Prelude.{List, ℕ, ◌≡◌, slice_index_or};
    ghost use Rattle.model.specs.declared.listings.Placed.{Placed as PlacedAt};
    ghost use Rattle.linking.specs.Offsets.{offset_in};

    ghost Value = { List PlacedAt };

    ghost view = { λ a. a.instructions.now };

    ghost invariant = { λ a. (pc : ℕ) → slice_index_or a.offsets.items pc 0 ≡ offset_in a.instructions.now pc };
}

impl<'a> Pcs<'a> {
    /// The pcs of these instructions. `AllocError` where memory runs out.
    pub fn new(alloc: Global, instructions: &'a [Placed]) -> Result<Pcs<'a>, AllocError>
        ensures { IfOk result (λ pcs. pcs ≡ instructions.now) }
    {
        let offsets = offsets_of(alloc, instructions)?;
        Ok(Pcs {
            instructions,
            offsets,
        })
    }

    /// Whether an instruction begins at a pc.
    pub fn has(&self, pc: u16) -> bool
        ensures { result ≡ list_any (λ (i : PlacedAt). i.pc == pc) self.now }
    {
        self.offset(pc) > 0
    }

    /// The place of the instruction at a pc, from 1; 0 where none begins.
    fn offset(&self, pc: u16) -> usize
        ensures { result ≡ offset_in self.now pc }
    {
        self.offsets.get(pc as usize).copied().unwrap_or(0)
    }
}
