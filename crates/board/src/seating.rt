//! New boards with their seats.
ghost use Rattle.std.specs.Prelude.{◌≡◌, ◌≢◌, ◌<◌, ◌≤◌, ◌↔◌, ◌+◌, ℕ, [], IfOk, None, Some, IsErrOf, vec_len};
ghost use Rattle.board.specs.Seats.{IsNewSeat, AreNewSeats, IsNextSeat, workers_of};
ghost use Rattle.board.specs.Marks.{mark_of};

use crate::boards::Board;
use crate::error::BoardError;
use crate::rule::GivesSeat;
use crate::seats::BoardSeat;
use crate::views::View;
use atomic_table::{Seat, Table};
use std::alloc::{AllocError, Global};

const MOST_WORKERS: usize = 9;

// A worker's seat, from its right to step and its count.
fn seat_with(seat: Seat<u8, View>, worker: usize, count: u64) -> BoardSeat
    requires no_slot { seat.me.1 ≡ [] }
    requires worker { seat.me.0.worker ≡ worker }
    requires own { (mark_of seat.me.0.marks worker).own ≡ Some count }
    requires no_other { (w : ℕ) → w ≢ worker → (mark_of seat.me.0.marks w).own ≡ None }
    ensures { (result.seat ≡ seat) × (result.worker ≡ worker) × (result.count ≡ count) }
{
    BoardSeat {
        seat,
        worker,
        count,
    }
}

// A board with no stop and no counts, and the right to all its words.
fn unseated_board(alloc: Global, workers: usize) -> Result<(Board, Seat<u8, View>), AllocError>
    requires { (0 < workers) × (workers ≤ 9) }
    ensures board { IfOk result (λ made. workers_of made.0 ≡ workers) }
    ensures table { IfOk result (λ made. (made.1.table_id ≡ made.0.table.shared.table_id) × (made.1.me.1 ≡ [])) }
    ensures rights { IfOk result (λ made. IsNextSeat workers 0 made.1.me.0) }
{
    let words = vec![in alloc; 0u64; workers + 1]?;
    let (table, rights) = Table::of_words(alloc, words.as_slice(), &workers)?;
    Ok((Board { table, workers }, rights))
}

impl Board {
    /// A board for 1 to 9 workers, and a seat for each of them, in order: every count is 0, and no stop is set. B1
    /// exactly where the number of workers isn't 1 to 9, else B2 where memory runs out. No other call takes memory.
    pub fn new(alloc: Global, workers: usize) -> Result<(Board, Vec<BoardSeat>), BoardError>
        ensures workers { IfOk result (λ made. (workers_of made.0 ≡ workers) × (vec_len made.1 ≡ workers)) }
        ensures seats { IfOk result (λ made. AreNewSeats made.0 made.1.items) }
        ensures number { IsErrOf result BoardError.Workers ↔ (¬ ((0 < workers) × (workers ≤ 9))) }
    {
        if workers == 0 || workers > MOST_WORKERS {
            return Err(BoardError::Workers);
        }
        let (board, mut rights) = unseated_board(alloc, workers)?;
        let mut seats = Vec::with_capacity(alloc, workers)?;
        for worker in 0..workers {
            seats.push(board.next_seat(&mut rights, worker))?;
        }
        Ok((board, seats))
    }

    // The seat of the next worker, cut off from the right to all that is left.
    fn next_seat(&self, rights: &mut Seat<u8, View>, worker: usize) -> BoardSeat
        requires table { (rights.old.table_id ≡ self.now.table.shared.table_id) × (rights.old.me.1 ≡ []) }
        requires rights { IsNextSeat self.now.workers worker rights.old.me.0 }
        requires worker { worker < self.now.workers }
        ensures table { (rights.new.table_id ≡ rights.old.table_id) × (rights.new.me.1 ≡ []) }
        ensures rights { IsNextSeat self.now.workers (worker + 1) rights.new.me.0 }
        ensures seat { IsNewSeat self.now worker result }
    {
        seat_with(self.table.shared.split_seat::<GivesSeat>(rights), worker, 0)
    }
}
