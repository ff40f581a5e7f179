//! Each call once, with seats of one thread. The counts are worked out by hand.
ghost use Rattle.std.specs.Prelude.{◌≡◌, IfOk};
ghost use Rattle.board.specs.Seats.{IsNewSeat, IsSeatOf, worker_of, workers_of};

use crate::{Board, BoardError, BoardSeat};
use std::alloc::{AllocError, Global};
use std::test::Fail;

/// A board for two workers with its seats, worker 0's first.
fn board_of_two(alloc: Global) -> Result<(Board, BoardSeat, BoardSeat), BoardError>
    ensures workers { IfOk result (λ made. workers_of made.0 ≡ 2) }
    ensures first { IfOk result (λ made. IsNewSeat made.0 0 made.1) }
    ensures second { IfOk result (λ made. IsNewSeat made.0 1 made.2) }
{
    let (board, mut seats) = Board::new(alloc, 2)?;
    let (Some(second), Some(first)) = (seats.pop(), seats.pop()) else {
        unreachable!()
    };
    Ok((board, first, second))
}

/// The counts with which a board for two workers ends. The seats come back in another order.
fn counts_of(
    alloc: Global,
    board: Board,
    first: BoardSeat,
    second: BoardSeat,
) -> Result<[u64; 9], AllocError>
    requires workers { workers_of board ≡ 2 }
    requires first { IsSeatOf board first }
    requires first_worker { worker_of first ≡ 0 }
    requires second { IsSeatOf board second }
    requires second_worker { worker_of second ≡ 1 }
{
    Ok(board.close(vec![in alloc; second, first]?))
}

/// For boards, which threads share.
fn is_shared<T: Sync>(_value: &T) {}

/// For seats, which threads take along.
fn is_sent<T: Send>(_value: &T) {}

#[test]
fn seats_see_each_other_without_meeting(rt: HostRuntime) -> Result<(), Fail> {
    let (board, mut first, mut second) = board_of_two(rt.alloc())?;
    board.pulse(&mut first);
    assert_eq!(rt; board.read(&mut second, 0), 1);
    assert!(rt; !board.stop_asked(&mut second));
    board.ask_stop(&mut first);
    assert!(rt; board.stop_asked(&mut second));
    board.pulse(&mut second);
    board.pulse(&mut second);
    assert_eq!(rt; board.read(&mut first, 1), 2);
    assert!(rt; board.stop_asked(&mut first));
    Ok(())
}

#[test]
fn seats_meet_and_the_board_is_closed(rt: HostRuntime) -> Result<(), Fail> {
    let (board, mut first, mut second) = board_of_two(rt.alloc())?;
    assert_eq!(rt;
        (board.workers(), first.worker(), second.worker()),
        (2, 0, 1)
    );
    board.pulse(&mut first);
    board.pulse(&mut first);
    board.pulse(&mut second);
    board.meet(&mut first, &mut second);
    assert_eq!(rt; (first.count(), second.count()), (2, 1));
    let counts = counts_of(rt.alloc(), board, first, second)?;
    assert_eq!(rt; counts, [2, 1, 0, 0, 0, 0, 0, 0, 0]);
    Ok(())
}

#[test]
fn one_to_nine_workers_have_a_board(rt: HostRuntime) -> Result<(), Fail> {
    for (workers, reported) in [(0, "B1"), (1, ""), (9, ""), (10, "B1")] {
        let answer = match Board::new(rt.alloc(), workers) {
            Ok(_) => "",
            Err(BoardError::Workers) => "B1",
            Err(BoardError::Memory) => "B2",
        };
        assert_eq!(rt; answer, reported);
    }
    assert_eq!(rt; BoardError::Workers.to_string(rt.alloc())?.as_str(), "B1");
    assert_eq!(rt; BoardError::Memory.to_string(rt.alloc())?.as_str(), "B2");
    Ok(())
}
