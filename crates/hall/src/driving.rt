//! All workers at once, each in a thread.
ghost use Rattle.std.specs.Prelude.{◌≡◌, ◌++◌, ◌∷◌, [], All, IfOk, vec_len};
ghost use Rattle.board.specs.Seats.{IsSeatOf, IsSameSeat};
ghost use Rattle.hall.specs.Homes.{IsHome, IsLater, Pairwise};

use crate::carrying::{Gate, carry};
use crate::error::HallError;
use crate::halls::Hall;
use crate::shares::Share;
use board::{Board, BoardSeat};
use std::snapshot::Snapshot;
use std::sync::Wait;
use std::sync::ledger::Ledger;
use std::thread;
use std::thread::{Promise, PromisedHandle, Scope, Threads};

// What a worker takes along.
#[derive(Drop)]
struct Job<L: Ledger> {
    share: Share<L>,
    seat: BoardSeat,
}

// A promise to bring a job home.
#[derive(Drop)]
struct Return<L: Ledger>(Snapshot<Job<L>>);

impl<L: Ledger> Promise<Job<L>> for Return<L> {
    ghost kept_by = { λ p home. IsHome p.0.value.share home.share p.0.value.seat home.seat };
}

fn work<L: Ledger, G: Gate, R: Wait>(
    rt: &R,
    hall: &Hall<L>,
    board: &Board,
    gate: &G,
    job: Job<L>,
) -> Job<L>
    requires { IsSeatOf board.now job.seat }
    ensures { IsHome job.share result.share job.seat result.seat }
{
    let Job {
        mut share,
        mut seat,
    } = job;
    carry(rt, hall, board, gate, &mut share, &mut seat);
    Job { share, seat }
}

// Starts a thread for a worker.
fn start<'s, E, L: Ledger + Send + Sync, G: Gate + Sync, R: Threads + Wait + Sync>(
    scope: &Scope<'s, E>,
    rt: &'s R,
    hall: &'s Hall<L>,
    board: &'s Board,
    gate: &'s G,
    job: Job<L>,
) -> Result<PromisedHandle<Job<L>, Return<L>>, HallError>
    requires { IsSeatOf board.now job.seat }
    ensures { IfOk result (λ handle. handle.promise.0.value ≡ job) }
{
    let promise = Return(Snapshot::of(&job));
    let task = move || -> Job<L>
        requires { IsSeatOf board.now job.seat }
        ensures { IsHome job.share result.share job.seat result.seat }
    { work(rt, hall, board, gate, job) };
    match scope.spawn_with(promise, task) {
        Ok(handle) => Ok(handle),
        Err(_) => Err(HallError::Thread),
    }
}

// The shares and seats with those of one more worker.
fn with_job<L: Ledger>(
    mut shares: Vec<Share<L>>,
    mut seats: Vec<BoardSeat>,
    job: Job<L>,
) -> Result<(Vec<Share<L>>, Vec<BoardSeat>), HallError>
    ensures shares { IfOk result (λ all. all.0.items ≡ shares.items ++ job.share ∷ []) }
    ensures seats { IfOk result (λ all. all.1.items ≡ seats.items ++ job.seat ∷ []) }
{
    shares.push(job.share)?;
    seats.push(job.seat)?;
    Ok((shares, seats))
}

// Starts a thread for each worker of these shares and seats, does this thread's own job, and joins them all. Where a
// start is refused, the others are asked to stop.
fn work_all<'s, E, L: Ledger + Send + Sync, G: Gate + Sync, R: Threads + Wait + Sync>(
    scope: &Scope<'s, E>,
    rt: &'s R,
    hall: &'s Hall<L>,
    board: &'s Board,
    gate: &'s G,
    mut shares: Vec<Share<L>>,
    mut seats: Vec<BoardSeat>,
    mut own: Job<L>,
) -> Result<(Vec<Share<L>>, Vec<BoardSeat>, Job<L>), HallError>
    requires long { vec_len shares ≡ vec_len seats }
    requires seats { All (λ seat. IsSeatOf board.now seat) seats.items }
    requires own { IsSeatOf board.now own.seat }
    ensures shares { IfOk result (λ home. Pairwise IsLater shares.items home.0.items) }
    ensures seats { IfOk result (λ home. Pairwise IsSameSeat seats.items home.1.items) }
    ensures own { IfOk result (λ home. IsHome own.share home.2.share own.seat home.2.seat) }
{
    let Some(share) = shares.pop() else {
        return Ok((shares, seats, work(rt, hall, board, gate, own)));
    };
    let Some(seat) = seats.pop() else {
        unreachable!()
    };
    let Ok(handle) = start(scope, rt, hall, board, gate, Job { share, seat }) else {
        board.ask_stop(&mut own.seat);
        return Err(HallError::Thread);
    };
    let rest = work_all(scope, rt, hall, board, gate, shares, seats, own);
    let home = handle.join(rt);
    let (shares, seats, own) = rest?;
    let (shares, seats) = with_job(shares, seats, home)?;
    Ok((shares, seats, own))
}

/// Starts a thread for each share but the last, in which its worker carries, carries the last one's turns itself, and
/// joins them all. It gives back the shares and seats in their order. H3 where a thread couldn't be started, H2 where
/// memory runs out: the workers that were started were then asked to stop and joined, and shares and seats are gone.
pub fn drive<L: Ledger + Send + Sync, G: Gate + Sync, R: Threads + Wait + Sync>(
    rt: &R,
    hall: &Hall<L>,
    board: &Board,
    gate: &G,
    mut shares: Vec<Share<L>>,
    mut seats: Vec<BoardSeat>,
) -> Result<(Vec<Share<L>>, Vec<BoardSeat>), HallError>
    requires long { vec_len shares ≡ vec_len seats }
    requires seats { All (λ seat. IsSeatOf board.now seat) seats.items }
    ensures shares { IfOk result (λ home. Pairwise IsLater shares.items home.0.items) }
    ensures seats { IfOk result (λ home. Pairwise IsSameSeat seats.items home.1.items) }
    ensures all { IfOk result (λ home. vec_len home.0 ≡ vec_len shares) }
{
    let Some(share) = shares.pop() else {
        return Ok((shares, seats));
    };
    let Some(seat) = seats.pop() else {
        unreachable!()
    };
    let own = Job { share, seat };
    let (shares, seats, own) = thread::scope(
        thread::scope_env(),
        rt,
        move |scope| -> Result<(Vec<Share<L>>, Vec<BoardSeat>, Job<L>), HallError>
            requires long { vec_len shares ≡ vec_len seats }
            requires seats { All (λ seat. IsSeatOf board.now seat) seats.items }
            requires own { IsSeatOf board.now own.seat }
            ensures shares { IfOk result (λ home. Pairwise IsLater shares.items home.0.items) }
            ensures seats { IfOk result (λ home. Pairwise IsSameSeat seats.items home.1.items) }
            ensures own { IfOk result (λ home. IsHome own.share home.2.share own.seat home.2.seat) }
        { work_all(scope, rt, hall, board, gate, shares, seats, own) },
    )?;
    let (shares, seats) = with_job(shares, seats, own)?;
    Ok((shares, seats))
}
