//! What boards and seats answer without a step.
ghost use Rattle.std.specs.Prelude.{◌≡◌};
ghost use Rattle.board.specs.Seats.{workers_of, worker_of, count_of};

use crate::boards::Board;
use crate::seats::BoardSeat;

impl Board {
    /// How many workers it has, 1 to 9.
    pub fn workers(&self) -> usize
        ensures { result ≡ workers_of self.now }
    {
        self.workers
    }
}

impl BoardSeat {
    /// The worker whose seat it is, from 0 on.
    pub fn worker(&self) -> usize
        ensures { result ≡ worker_of self.now }
    {
        self.worker
    }

    /// How often the seat has pulsed.
    pub fn count(&self) -> u64
        ensures { result ≡ count_of self.now }
    {
        self.count
    }
}
