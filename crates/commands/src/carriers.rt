//! Who makes the turns of a run: one carrier, or several and a collector beside them.
ghost use Rattle.std.specs.Prelude.{◌≡◌, ◌+◌, [], All, IfOk, length, vec_len};
ghost use Rattle.board.specs.Seats.{IsSeatOf};
ghost use Rattle.hall.specs.Heads.{head_of};
ghost use Rattle.commands.specs.Carrying.{IsCarried, IsShared};
ghost use Rattle.scheduler.specs.Replaying.{IsMade};
ghost use Rattle.scheduler.specs.Rounds.{after_rounds};
ghost use Rattle.scheduler.specs.Workers.{with_workers};

use board::{Board, BoardSeat};
use hall::{Burst, Gate, Hall, HallError, Role, drive};
use model::journals::HeapShape;
use scheduler::worlds::World;
use std::alloc::{AllocError, Global};
use std::marker::Brand;
use std::sync::Wait;
use std::sync::ledger::{Blank, Ledger};
use std::thread::Threads;

/// How many rounds a carrier makes at most after its first one, before it looks whether a collection is due.
const EXTRA: u32 = 255;

/// How many rounds it makes at most each time it has the lock, and how many turns the collector.
const ROUNDS: u32 = 16_384;

/// How many rounds a worker makes after its first one on a heap of this shape: on a small one a carrier looks sooner
/// whether a collection is due, so that it isn't full of garbage before.
fn burst_of(shape: HeapShape) -> Burst {
    let cells = shape
        .small
        .saturating_add(shape.medium)
        .saturating_add(shape.large);
    let extra = EXTRA.min(cells / 16).max(1);
    Burst {
        extra,
        again: ROUNDS / extra,
        sweep: ROUNDS,
    }
}

/// A gate that holds nobody up.
#[derive(Drop)]
struct Open;

impl Gate for Open {
    fn before(&self, _worker: usize, _turn: u64) {}
}

/// The roles of a run: so many carriers, and after them the collector.
fn roles_of(alloc: Global, carriers: u8) -> Result<Vec<Role>, AllocError>
    ensures { IfOk result (λ roles. vec_len roles ≡ carriers + 1) }
{
    let mut roles = Vec::new(alloc);
    for _carrier in 0..carriers {
        roles.push(Role::Carrier)?;
    }
    roles.push(Role::Collector)?;
    Ok(roles)
}

/// A board with a seat for each worker.
fn board_of(alloc: Global, workers: usize) -> Result<(Board, Vec<BoardSeat>), HallError>
    ensures seats { IfOk result (λ made. All (λ seat. IsSeatOf made.0 seat) made.1.items) }
    ensures number { IfOk result (λ made. vec_len made.1 ≡ workers) }
{
    match Board::new(alloc, workers) {
        Ok(made) => Ok(made),
        Err(_) => Err(HallError::Memory),
    }
}

/// The world after the turns of these roles, each in a thread and with this burst, until they end.
fn shared<L: Ledger + Send + Sync, R: Threads + Wait + Sync>(
    rt: &R,
    alloc: Global,
    blank: Blank,
    world: World,
    roles: &[Role],
    burst: Burst,
) -> Result<World, HallError>
    requires name { blank.name ≡ L.name }
    requires parts { (blank.parts ≡ L.parts) × (blank.parts ≡ length roles.now) }
    requires empty { world.journal.rows ≡ [] }
    ensures head { IfOk result (λ after. head_of after ≡ head_of (with_workers world (length roles.now))) }
    ensures made { IfOk result IsMade }
{
    let (hall, shares) = Hall::<L>::in_bursts(alloc, blank, world, roles, burst)?;
    let (board, seats) = board_of(alloc, roles.len())?;
    let (shares, _seats) = drive(rt, &hall, &board, &Open, shares, seats)?;
    hall.close(shares)
}

/// The world after the turns of so many carriers and a collector, each in a thread.
fn carried_together<R: Threads + Wait + Sync>(
    rt: &R,
    alloc: Global,
    world: World,
    carriers: u8,
) -> Result<World, HallError>
    requires empty { world.journal.rows ≡ [] }
    ensures { IfOk result (IsShared world carriers) }
{
    let roles = roles_of(alloc, carriers)?;
    let blank = Blank::new(roles.len() as u64);
    let burst = burst_of(world.journal().shape());
    shared::<Brand, R>(rt, alloc, blank, world, roles.as_slice(), burst)
}

/// As many rounds as the limit of steps allows, and one more.
fn all_rounds(world: &World) -> u32
    ensures { result ≡ world.now.journal.limits.steps + 1 }
{
    world.journal().limits().steps + 1
}

/// The world after so many rounds of the thread that is picked and the collector.
fn carried_alone(mut world: World, gc: u32) -> World
    ensures { result ≡ after_rounds world 0 gc (world.journal.limits.steps + 1) }
{
    let rounds = all_rounds(&world);
    let _ = world.rounds(rounds, gc);
    world
}

/// Makes the turns of a world that has made none, until it runs no more or its steps or its output are at their limit.
/// One carrier makes rounds of the thread that is picked and so many turns of the collector; several share the turns of
/// the threads, and one worker more makes the collector's, each in a thread of the system. The journal tells the worker
/// of each turn: the carriers by number from 0, the collector after them. H2 where memory runs out, H3 where a thread
/// couldn't be started.
pub fn carried<R: Threads + Wait + Sync>(
    rt: &R,
    alloc: Global,
    world: World,
    carriers: u8,
    gc: u32,
) -> Result<World, HallError>
    requires empty { world.journal.rows ≡ [] }
    ensures { IfOk result (IsCarried world carriers gc) }
{
    if 1 < carriers {
        carried_together(rt, alloc, world, carriers)
    } else {
        Ok(carried_alone(world, gc))
    }
}
