//! The calls of one seat. Each is one atomic step.
ghost use Rattle.std.specs.Prelude.{◌≡◌, ◌<◌, ◌≤◌, ◌+◌, ◌^◌, ◌-◌, true};
ghost use Rattle.board.specs.Seats.{IsSeatOf, IsSameSeat, Remembers, seen_of, saw_stop};
ghost use Rattle.board.specs.Seats.{count_of, worker_of, workers_of};

use crate::boards::Board;
use crate::rule::{AsksStop, Looks, LooksForStop, Pulses};
use crate::seats::BoardSeat;

impl Board {
    /// The seat's count rises by one.
    pub fn pulse(&self, seat: &mut BoardSeat)
        requires mine { IsSeatOf self.now seat.old }
        requires room { count_of seat.old < 2 ^ 64 - 1 }
        ensures same { IsSameSeat seat.old seat.new }
        ensures kept { Remembers seat.old seat.new }
        ensures count { count_of seat.new ≡ count_of seat.old + 1 }
    {
        let BoardSeat {
            seat,
            worker,
            count,
        } = seat;
        self.table.shared.fetch_add::<Pulses>(seat, *worker + 1, 1);
        *count += 1;
    }

    /// A worker's count as it is now, which may have risen since the seat saw it last. Of the seat's own worker it is
    /// the seat's count.
    pub fn read(&self, seat: &mut BoardSeat, worker: usize) -> u64
        requires mine { IsSeatOf self.now seat.old }
        requires worker { worker < workers_of self.now }
        ensures same { IsSameSeat seat.old seat.new }
        ensures kept { Remembers seat.old seat.new }
        ensures count { count_of seat.new ≡ count_of seat.old }
        ensures later { seen_of seat.old worker ≤ result }
        ensures seen { seen_of seat.new worker ≡ result }
        ensures own { worker ≡ worker_of seat.old → result ≡ count_of seat.old }
    {
        let BoardSeat { seat, .. } = seat;
        self.table.shared.load::<Looks>(seat, worker + 1)
    }

    /// Asks all workers to stop. It can't be taken back.
    pub fn ask_stop(&self, seat: &mut BoardSeat)
        requires { IsSeatOf self.now seat.old }
        ensures same { IsSameSeat seat.old seat.new }
        ensures kept { Remembers seat.old seat.new }
        ensures count { count_of seat.new ≡ count_of seat.old }
        ensures stop { saw_stop seat.new ≡ true }
    {
        let BoardSeat { seat, .. } = seat;
        self.table.shared.fetch_or::<AsksStop>(seat, 0, 1);
    }

    /// Whether a stop was asked. Once it was true, or a stop was asked with this seat, it is true for good.
    pub fn stop_asked(&self, seat: &mut BoardSeat) -> bool
        requires { IsSeatOf self.now seat.old }
        ensures same { IsSameSeat seat.old seat.new }
        ensures kept { Remembers seat.old seat.new }
        ensures count { count_of seat.new ≡ count_of seat.old }
        ensures for_good { saw_stop seat.old ≡ true → result ≡ true }
        ensures seen { saw_stop seat.new ≡ result }
    {
        let BoardSeat { seat, .. } = seat;
        self.table.shared.load::<LooksForStop>(seat, 0) != 0
    }
}
