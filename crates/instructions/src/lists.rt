//! The lists of a heap's cells, in their order.

use std::marker::Model;

/// The births of the grey list, the next to be blackened first, and the numbers of the free cells of 4, of 32 and of
/// 256 words, the next to be taken first (CACM 21(11)).
#[derive(Drop)]
pub struct ListsView {
    pub grey: Vec<u32>,
    pub small: Vec<u32>,
    pub medium: Vec<u32>,
    pub large: Vec<u32>,
}

impl Model for ListsView {
    ghost use Rattle.instructions.specs.ListsShown.{CellLists};

    ghost Value = { CellLists };

    ghost view = { λ a. record {
      grey = a.grey.items;
      small = a.small.items;
      medium = a.medium.items;
      large = a.large.items;
    } };
}
