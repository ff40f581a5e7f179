//! Boards.
ghost use Rattle.std.specs.Prelude.{◌≡◌, ◌+◌, ◌<◌, ◌≤◌};

use crate::rule::CountsRule;
use crate::views::View;
use atomic_table::Table;
use std::alloc::Global;

/// A stop and a count for each of 1 to 9 workers. Word 0 is the stop, word w + 1 the count of worker w.
#[derive(Drop)]
pub struct Board {
    pub(crate) table: Table<u8, View, usize, CountsRule, Global>,
    pub(crate) workers: usize,
    pub ghost words_are: { table.shared.table_id.words ≡ workers + 1 },
    pub ghost key_is: { table.shared.key ≡ workers },
    pub ghost some: { 0 < workers },
    pub ghost few: { workers ≤ 9 },
}
