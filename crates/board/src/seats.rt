//! A worker's seat at a board.
ghost use Rattle.std.specs.Prelude.{◌≡◌, ◌≢◌, ℕ, [], None, Some};
ghost use Rattle.board.specs.Marks.{mark_of};

use crate::views::View;
use atomic_table::Seat;

/// A worker's right to change its count, and what it has seen of the others. A contract speaks of its worker, its
/// count, what it has seen of each worker and whether it has seen the stop.
#[derive(Drop)]
pub struct BoardSeat {
    pub(crate) seat: Seat<u8, View>,
    pub(crate) worker: usize,
    pub(crate) count: u64,
    pub ghost no_slot: { seat.me.1 ≡ [] },
    pub ghost worker_is: { seat.me.0.worker ≡ worker },
    pub ghost own: { (mark_of seat.me.0.marks worker).own ≡ Some count },
    pub ghost no_other: { (w : ℕ) → w ≢ worker → (mark_of seat.me.0.marks w).own ≡ None },
}
