//! The objects of a heap, in cells of 4, 32 and 256 words. What the kind `K` of an object means is its caller's
//! business.
//!
//! A contract sees `Cells<K>` as a `CellsValue K` of `Rattle.cells.specs.Objects`: the heap's shape, and of each cell
//! the object that it holds, if any (its kind, the words that it uses, its monitor, and the thread that was started on
//! it). No call but `new` and `values` takes memory, and all but these, `place` and `place_all` take constant time.
//! With v for the value before the call:
//!
//! | call | what it ensures |
//! |---|---|
//! | `new(shape)` | `empty_cells shape`, under `ShapeFits` |
//! | `shape`, `len` | `v.shape`, `length v.objects` |
//! | `room(cell)` | `words_of_cell v.shape cell`, where there is such a cell |
//! | `kind(cell)`, `monitor(cell)`, `thread(cell)` | `kind_at v cell`, `monitor_at v cell`, `thread_at v cell` |
//! | `values(cell)`, `length(cell)` | a copy of `words_at v cell`, and its length |
//! | `word(cell, i)` | the slot of `slice_get (words_at v cell) i` |
//! | `place(cell, kind, n, zero)` | in a cell with nobody and room for n words: `with_object v cell (Some (new_object kind n zero))` |
//! | `place_all(cell, kind, words)` | in a cell with nobody and room for the words: `with_object v cell (Some (made_object kind words))` |
//! | `clear(cell)` | `with_object v cell None` |
//! | `put(cell, i, value)` | `with_word v cell i value`; true exactly where there is such a word |
//! | `set_monitor(cell, m)`, `set_thread(cell, t)` | `with_monitor v cell m`, `with_thread v cell t` |
//!
//! Inside, each cell has a header that says where its words begin in one array; each begins where the one before ends.
#![tactic(auto)]

mod cells;
mod headers;
mod monitors;

pub use cells::Cells;
pub use monitors::Monitor;
