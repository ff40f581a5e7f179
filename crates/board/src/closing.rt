//! The end of a board.
ghost use Rattle.std.specs.Prelude.{◌≡◌, ◌≤◌, ℕ, slice_index};
ghost use Rattle.board.specs.Seats.{AreAllSeats, AreCounts, ReachAllSeen, workers_of};
ghost use Rattle.board.specs.Gathering.{IsGathered};

use crate::boards::Board;
use crate::rule::{Gathers, Looks};
use crate::seats::BoardSeat;
use crate::views::View;
use atomic_table::Seat;

impl Board {
    /// Takes back all seats, in any order, and gives each worker's count, 0 past the last worker. No count is below
    /// what any seat has seen of it.
    pub fn close(self, seats: Vec<BoardSeat>) -> [u64; 9]
        requires { AreAllSeats self seats.items }
        ensures counts { AreCounts seats.items result }
        ensures seen { ReachAllSeen (workers_of self) seats.items result }
        ensures past { (w : ℕ) → workers_of self ≤ w → slice_index result w ≡ 0 }
    {
        let mut seat = self.gather(seats);
        let mut counts = [0u64; 9];
        for worker in 0..self.workers {
            counts[worker] = self.table.shared.load::<Looks>(&mut seat, worker + 1);
        }
        counts
    }

    // One seat with all that the seats know and own.
    fn gather(&self, mut seats: Vec<BoardSeat>) -> Seat<u8, View>
        requires { AreAllSeats self.now seats.items }
        ensures table { result.table_id ≡ self.now.table.shared.table_id }
        ensures all { IsGathered 0 seats.items result.me.0 }
    {
        let Some(BoardSeat { seat: mut all, .. }) = seats.pop() else {
            unreachable!()
        };
        while let Some(BoardSeat { seat, .. }) = seats.pop() {
            self.table.shared.join_seat::<Gathers>(&mut all, seat);
        }
        all
    }
}
