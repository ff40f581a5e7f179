//! A worker's turns, one after another.
ghost use Rattle.board.specs.Seats.{IsSeatOf, IsSameSeat};
ghost use Rattle.hall.specs.Homes.{IsLater};

use crate::halls::Hall;
use crate::patience::Patience;
use crate::shares::Share;
use board::{Board, BoardSeat};
use std::sync::Wait;
use std::sync::ledger::Ledger;

/// Who hears of each turn before it is taken, and may hold it up.
pub trait Gate {
    /// Called by a worker without the lock, before its turn of this number. Turns count from 1, and stay at the
    /// greatest number.
    fn before(&self, worker: usize, turn: u64);
}

/// Takes turns of the share's role, each after the gate and followed by a pulse where it was done, until a stop is
/// asked, or the world isn't running, or the turn was `OutputFull`, `StepLimit` or `Stopped`; in these last cases it
/// asks for a stop. After a thread's turn that was done it doesn't ask whether the world is running: where it isn't,
/// the next turn isn't done and tells it. Where its turn isn't ready it yields, a carrier until the collector has had
/// one. It takes no memory.
pub fn carry<L: Ledger, G: Gate, R: Wait>(
    rt: &R,
    hall: &Hall<L>,
    board: &Board,
    gate: &G,
    share: &mut Share<L>,
    seat: &mut BoardSeat,
)
    requires { IsSeatOf board.now seat.old }
    ensures share { IsLater share.old share.new }
    ensures seat { IsSameSeat seat.old seat.new }
{
    let mut turn: u64 = 1;
    let mut patience = Patience::new(share.role(), hall.collector());
    for _round in rt.forever() {
        gate.before(seat.worker(), turn);
        turn = turn.saturating_add(1);
        patience.look(board, seat);
        if is_last_turn(rt, hall, board, share, seat, patience) {
            break;
        }
    }
}

// Takes a turn, tells the board of it, and answers whether it was the worker's last.
#[inline(always)]
fn is_last_turn<L: Ledger, R: Wait>(
    rt: &R,
    hall: &Hall<L>,
    board: &Board,
    share: &mut Share<L>,
    seat: &mut BoardSeat,
    patience: Patience,
) -> bool
    requires { IsSeatOf board.now seat.old }
    ensures share { IsLater share.old share.new }
    ensures seat { IsSameSeat seat.old seat.new }
{
    let upshot = hall.turn_and_upshot(rt, share);
    if upshot.done {
        pulse(board, seat);
    }
    if upshot.over {
        board.ask_stop(seat);
        return true;
    }
    if !upshot.done {
        patience.wait(board, seat); // another worker's turn comes first
    }
    board.stop_asked(seat)
}

// A pulse, unless the seat's count is the greatest number.
fn pulse(board: &Board, seat: &mut BoardSeat)
    requires { IsSeatOf board.now seat.old }
    ensures { IsSameSeat seat.old seat.new }
{
    if seat.count() < u64::MAX {
        board.pulse(seat);
    }
}
