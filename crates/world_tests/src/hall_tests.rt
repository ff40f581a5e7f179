//! Each call once, on mains without a branch. What workers come to is worked out by hand from their roles.
ghost use Rattle.std.specs.Prelude.{◌≡◌, [], IfOk, All, length, vec_len};
ghost use Rattle.board.specs.Seats.{IsSeatOf};

use crate::mains::{ARRAYS, has_rows, nops, program, world_on};
use board::{Board, BoardSeat};
use hall::{Gate, Hall, HallError, Role, Share, drive};
use model::journals::{Limits, Outcome, Row};
use model::turns::{Actor, Status, Turn};
use scheduler::worlds::World;
use std::alloc::{AllocError, Global};
use std::marker::Brand;
use std::sync::ledger::{Blank, Ledger};
use std::sync::{Mutex, Wait};
use std::test::Fail;
use std::thread;
use std::thread::Threads;

/// A worker's turn, with what it is answered.
type Answer = (usize, Turn, Status);

/// A main with so much stack, its small cells and its limit of rows; the roles of its workers, their turns in order,
/// how many rows the first and the last of them have made then, and the journal's rows.
#[derive(Clone, Copy)]
struct Day {
    lines: &'static str,
    stack: u16,
    small: u32,
    steps: u32,
    roles: &'static [Role],
    turns: &'static [Answer],
    made: (u64, u64),
    rows: &'static [Row],
}

const MAIN: Row = Row {
    actor: Actor::Thread(0),
    outcome: Outcome::Done,
    worker: 0,
};

/// Main makes an object.
const MAKES: Row = Row {
    actor: Actor::Thread(0),
    outcome: Outcome::Object,
    worker: 0,
};

const FIRST_COLLECTS: Row = Row {
    actor: Actor::Collector,
    outcome: Outcome::Done,
    worker: 0,
};

const SECOND_COLLECTS: Row = Row {
    actor: Actor::Collector,
    outcome: Outcome::Done,
    worker: 1,
};

/// A carrier and a collector take turns.
const SHIFTS: Day = Day {
    lines: "nop\nreturn\n",
    stack: 0,
    small: 2,
    steps: 1000,
    roles: &[Role::Carrier, Role::Collector],
    turns: &[
        (1, Turn::Done, Status::Running),
        (1, Turn::NotReady, Status::Running),
        (0, Turn::Done, Status::Running),
        (0, Turn::Done, Status::Finished),
        (1, Turn::Done, Status::Finished),
        (0, Turn::NotReady, Status::Finished),
    ],
    made: (2, 2),
    rows: &[SECOND_COLLECTS, MAIN, MAIN, SECOND_COLLECTS],
};

/// A carrier waits where a collection is due: two cells of four are free, so that one object may be made before the
/// collector has its turn.
const DUE: Day = Day {
    lines: ARRAYS,
    stack: 1,
    small: 4,
    steps: 100,
    roles: &[Role::Carrier, Role::Collector],
    turns: &[
        (0, Turn::Done, Status::Running),
        (0, Turn::Done, Status::Running),
        (0, Turn::NotReady, Status::Running),
        (1, Turn::Done, Status::Running),
        (1, Turn::NotReady, Status::Running),
        (0, Turn::Done, Status::Running),
    ],
    made: (3, 1),
    rows: &[MAIN, MAKES, SECOND_COLLECTS, MAIN],
};

/// Collector turns follow a done turn while the world runs.
const ALONE: Day = Day {
    lines: "nop\nreturn\n",
    stack: 0,
    small: 2,
    steps: 1000,
    roles: &[Role::Both { gc: 2 }],
    turns: &[
        (0, Turn::Done, Status::Running),
        (0, Turn::Done, Status::Finished),
        (0, Turn::NotReady, Status::Finished),
    ],
    made: (4, 4),
    rows: &[MAIN, FIRST_COLLECTS, FIRST_COLLECTS, MAIN],
};

/// Whether workers are answered so.
fn are_answered<L: Ledger, R: Wait>(
    rt: &R,
    hall: &Hall<L>,
    shares: &mut [Share<L>],
    turns: &[Answer],
) -> bool {
    for (worker, turn, status) in turns {
        let Some(share) = shares.get_mut(*worker) else {
            return false;
        };
        if hall.turn_for(rt, share) != (*turn, *status) {
            return false;
        }
    }
    true
}

/// How many rows the first worker and the last one have made.
fn counts<L: Ledger>(shares: &[Share<L>]) -> Option<(u64, u64)> {
    Some((shares.first()?.count(), shares.last()?.count()))
}

/// Whether a world's journal is of so many workers and has these rows.
fn has_journal(world: &World, workers: usize, rows: &[Row]) -> bool {
    usize::from(world.journal().workers()) == workers && has_rows(world, rows)
}

/// Whether a day in a hall goes so.
fn goes_so<L: Ledger, R: Wait>(
    rt: &R,
    alloc: Global,
    blank: Blank,
    world: World,
    day: &Day,
) -> Result<bool, HallError>
    requires name { blank.name ≡ L.name }
    requires parts { (blank.parts ≡ L.parts) × (blank.parts ≡ length day.now.roles.now) }
    requires empty { world.journal.rows ≡ [] }
{
    let (hall, mut shares) = Hall::<L>::new(alloc, blank, world, day.roles)?;
    let is_reported = are_answered(rt, &hall, &mut shares, day.turns);
    let is_counted = counts(&shares) == Some(day.made);
    if shares.len() != day.roles.len() {
        return Ok(false);
    }
    let world = hall.close(shares)?;
    Ok(is_reported & is_counted & has_journal(&world, day.roles.len(), day.rows))
}

/// The world in which a day begins.
fn world_of(alloc: Global, day: &Day) -> Result<World, Fail>
    ensures { IfOk result (λ world. world.journal.rows ≡ []) }
{
    let limits = Limits {
        steps: day.steps,
        output: 0,
    };
    world_on(
        alloc,
        program(alloc, day.stack, day.lines)?,
        day.small,
        limits,
    )
}

#[test]
fn days_go_so(rt: HostRuntime) -> Result<(), Fail> {
    for day in [SHIFTS, DUE, ALONE] {
        let world = world_of(rt.alloc(), &day)?;
        let blank = Blank::new(day.roles.len() as u64);
        let goes = goes_so::<Brand, HostRuntime>(&rt, rt.alloc(), blank, world, &day)?;
        assert!(rt; goes, "{}", day.lines);
    }
    Ok(())
}

/// A world that has made no turn, whose main has so many instructions before its return.
fn world_of_nops(alloc: Global, count: usize, steps: u32) -> Result<World, Fail>
    ensures { IfOk result (λ world. world.journal.rows ≡ []) }
{
    let limits = Limits { steps, output: 0 };
    world_on(alloc, nops(alloc, count)?, 2, limits)
}

/// How many shares a hall for these roles has.
fn shares_for<L: Ledger>(
    alloc: Global,
    blank: Blank,
    world: World,
    roles: &[Role],
) -> Result<usize, HallError>
    requires name { blank.name ≡ L.name }
    requires parts { (blank.parts ≡ L.parts) × (blank.parts ≡ length roles.now) }
    requires empty { world.journal.rows ≡ [] }
{
    let (_hall, shares) = Hall::<L>::new(alloc, blank, world, roles)?;
    Ok(shares.len())
}

/// What is reported of these errors, one after another.
fn codes(alloc: Global) -> Result<String, AllocError> {
    let (roles, memory) = (HallError::Roles, HallError::Memory);
    let (thread, world) = (HallError::Thread, HallError::World);
    format!(in alloc; "{roles} {memory} {thread} {world}")
}

#[test]
fn one_to_nine_roles_have_a_hall(rt: HostRuntime) -> Result<(), Fail> {
    for (roles, reported) in [(0usize, "H1"), (1, ""), (9, ""), (10, "H1")] {
        let world = world_of_nops(rt.alloc(), 1, 1)?;
        let all = [Role::Carrier; 10];
        let roles = &all[..roles];
        let blank = Blank::new(roles.len() as u64);
        let answer = match shares_for::<Brand>(rt.alloc(), blank, world, roles) {
            Ok(shares) => {
                assert_eq!(rt; shares, roles.len());
                ""
            }
            Err(HallError::Roles) => "H1",
            Err(_) => "another",
        };
        assert_eq!(rt; answer, reported);
    }
    assert!(rt; codes(rt.alloc())?.as_str() == "H1 H2 H3 H4");
    Ok(())
}

/// What the workers have done, as a fourth one sees it: which have begun, and their counts on the board.
#[derive(Drop)]
struct Watch<'a> {
    board: &'a Board,
    seat: BoardSeat,
    begun: [bool; 3],
    gave_up: bool,
    ghost mine: { IsSeatOf board.now seat },
}

impl Watch<'_> {
    /// Whether a worker may take this turn: the first when all three have begun, the second when each has a count.
    fn may_go(&mut self, worker: usize, turn: u64) -> bool {
        if turn == 1 {
            if worker < 3 {
                self.begun[worker] = true;
            }
            return self.begun[0] && self.begun[1] && self.begun[2];
        }
        self.count(0) > 0 && self.count(1) > 0 && self.count(2) > 0
    }

    fn count(&mut self, worker: usize) -> u64 {
        if worker < self.board.workers() {
            self.board.read(&mut self.seat, worker)
        } else {
            0
        }
    }

    fn give_up(&mut self) {
        self.gave_up = true;
        self.board.ask_stop(&mut self.seat);
    }
}

/// Holds each worker's first two turns until the others have come as far.
#[derive(Drop)]
struct Meeting<'a, R: Wait> {
    rt: &'a R,
    watch: Mutex<Watch<'a>>,
}

impl<'a, R: Wait> Gate for Meeting<'a, R> {
    fn before(&self, worker: usize, turn: u64) {
        if turn > 2 {
            return;
        }
        for _look in 0..100_000_000u32 {
            if self.watch.lock(self.rt).may_go(worker, turn) {
                return;
            }
            thread::yield_now();
        }
        self.watch.lock(self.rt).give_up();
    }
}

/// A board with a seat for each worker.
fn board_of(alloc: Global, workers: usize) -> Result<(Board, Vec<BoardSeat>), HallError>
    ensures seats { IfOk result (λ made. All (λ seat. IsSeatOf made.0 seat) made.1.items) }
    ensures number { IfOk result (λ made. vec_len made.1 ≡ workers) }
{
    match Board::new(alloc, workers) {
        Ok(made) => Ok(made),
        Err(_) => Err(HallError::Memory),
    }
}

/// How many rows each of two carriers and a collector made, whether none gave up, and how many rows there are.
fn three_at_once<L: Ledger + Send + Sync, R: Threads + Wait + Sync>(
    rt: &R,
    alloc: Global,
    blank: Blank,
    world: World,
) -> Result<([u64; 3], bool, usize), HallError>
    requires name { blank.name ≡ L.name }
    requires parts { (blank.parts ≡ L.parts) × (blank.parts ≡ 3) }
    requires empty { world.journal.rows ≡ [] }
{
    let roles = [Role::Carrier, Role::Carrier, Role::Collector];
    let (hall, shares) = Hall::<L>::new(alloc, blank, world, roles.as_slice())?;
    let (board, mut seats) = board_of(alloc, 4)?;
    let Some(seat) = seats.pop() else {
        return Err(HallError::World);
    };
    let gate = Meeting {
        rt,
        watch: Mutex::new(Watch {
            board: &board,
            seat,
            begun: [false; 3],
            gave_up: false,
        }),
    };
    let (shares, _seats) = drive(rt, &hall, &board, &gate, shares, seats)?;
    let Meeting { watch, .. } = gate;
    let met = !watch.into_inner().gave_up;
    let counts = match shares.as_slice() {
        [a, b, c] => [a.count(), b.count(), c.count()],
        _ => [0; 3],
    };
    let world = hall.close(shares)?;
    Ok((counts, met, world.journal().rows().len()))
}

#[test]
fn workers_work_beside_each_other(rt: HostRuntime) -> Result<(), Fail> {
    let limits = Limits {
        steps: 100_000,
        output: 0,
    };
    let endless = program(rt.alloc(), 0, "Top:\ngoto Top\n")?;
    let world = world_on(rt.alloc(), endless, 2, limits)?;
    let blank = Blank::new(3);
    let (counts, met, rows) = three_at_once::<Brand, HostRuntime>(&rt, rt.alloc(), blank, world)?;
    let [first, second, collector] = counts;
    let all = first.saturating_add(second).saturating_add(collector);
    assert!(rt; met && first > 0 && second > 0 && collector > 0);
    assert!(rt; all == 100_000 && rows == 100_000);
    Ok(())
}
