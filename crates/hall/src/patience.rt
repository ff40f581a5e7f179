//! Carriers wait for a collector whose turn comes first.
ghost use Rattle.board.specs.Seats.{IsSeatOf, IsSameSeat};

use crate::roles::Role;
use board::{Board, BoardSeat};
use std::thread;

// So often a carrier yields at most, until the collector has had a turn. Then it asks the hall again.
const YIELDS: u32 = 10_000;

// For whom a worker waits where its turn isn't ready, and how often that one had pulsed before.
#[derive(Clone, Copy)]
pub(crate) struct Patience {
    collector: Option<usize>,
    pulses: u64,
}

impl Patience {
    // Of a worker of this role. Only a carrier waits for the collector, if there is one.
    pub(crate) fn new(role: Role, collector: Option<usize>) -> Patience {
        let collector = match role {
            Role::Carrier => collector,
            Role::Collector | Role::Both { .. } => None,
        };
        Patience {
            collector,
            pulses: 0,
        }
    }

    // Called before each turn: a collector's turn that comes after this look is seen by the wait.
    pub(crate) fn look(&mut self, board: &Board, seat: &mut BoardSeat)
        requires { IsSeatOf board.now seat.old }
        ensures { IsSameSeat seat.old seat.new }
    {
        if let Some(collector) = self.collector {
            if collector < board.workers() {
                self.pulses = board.read(seat, collector);
            }
        }
    }

    // Called where a turn wasn't ready: yields, a carrier until the collector has had a turn or a stop is asked.
    pub(crate) fn wait(&self, board: &Board, seat: &mut BoardSeat)
        requires { IsSeatOf board.now seat.old }
        ensures { IsSameSeat seat.old seat.new }
    {
        thread::yield_now();
        if let Some(collector) = self.collector {
            for _look in 0..YIELDS {
                if is_over(board, seat, collector, self.pulses) {
                    return;
                }
                thread::yield_now();
            }
        }
    }
}

// Whether a worker has pulsed again, or a stop is asked.
fn is_over(board: &Board, seat: &mut BoardSeat, worker: usize, pulses: u64) -> bool
    requires { IsSeatOf board.now seat.old }
    ensures { IsSameSeat seat.old seat.new }
{
    if worker >= board.workers() || board.read(seat, worker) != pulses {
        return true;
    }
    board.stop_asked(seat)
}
