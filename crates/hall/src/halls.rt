//! Halls: a world under a lock, and the shares of its workers.
ghost use Rattle.std.specs.Prelude.{◌≡◌, ◌<◌, ◌≤◌, ◌↔◌, [], true, IfOk, IfSome, IsErrOf, length, vec_len, sum_by};
ghost use Rattle.scheduler.specs.Replaying.{IsMade};
ghost use Rattle.scheduler.specs.Workers.{with_workers};
ghost use Rattle.hall.specs.Heads.{head_of};
ghost use Rattle.hall.specs.Homes.{IsLater};
ghost use Rattle.hall.specs.Shares.{Counts, dealt};

use crate::dues::Upshot;
use crate::error::HallError;
use crate::roles::{Burst, Role, SINGLE};
use crate::shares::{Share, Shared};
use loader::programs::Program;
use model::journals::{HeapShape, Limits};
use model::turns::{Status, Turn};
use scheduler::worlds::World;
use std::alloc::{AllocError, Global};
use std::marker::Model;
use std::sync::ledger::{Blank, Ledger};
use std::sync::{Mutex, Wait, ledger};

const MOST_WORKERS: usize = 9;

/// A world that workers share under one lock. A contract sees what no turn changes of it: the program, the heap's
/// shape, the limits and the number of workers.
#[derive(Drop)]
pub struct Hall<L: Ledger> {
    lock: Mutex<Shared<L>>,
    program: Program,
    shape: HeapShape,
    limits: Limits,
    workers: u8,
    collector: Option<usize>,
}

impl<L: Ledger> Model for Hall<L> {
    ghost use Rattle.hall.specs.Heads.{Head};

    ghost Value = { Head };

    ghost view = { λ a. record { program = a.program; shape = a.shape; limits = a.limits; workers = a.workers } };
}

// A share for each role, worker by worker.
fn deal<L: Ledger>(
    alloc: Global,
    roles: &[Role],
    burst: Burst,
    mut all: ledger::Share<L>,
) -> Result<Vec<Share<L>>, AllocError>
    requires parts { all.parts ≡ length roles.now }
    requires none { all.amount ≡ 0 }
    requires few { length roles.now ≤ 9 }
    ensures { IfOk result (λ shares. shares.items ≡ dealt burst 0 roles.now) }
{
    let mut shares = Vec::with_capacity(alloc, roles.len())?;
    for worker in 0..roles.len() {
        shares.push(Share::new(worker as u8, roles[worker], burst, all.split_off(1, 0)))?;
    }
    Ok(shares)
}

// The first worker that collects and does nothing else, if there is one.
fn collector_in(roles: &[Role]) -> Option<usize> {
    roles
        .iter()
        .position(|role| matches!(role, Role::Collector))
}

// The parts of all shares as one.
fn gathered<L: Ledger>(mut shares: Vec<Share<L>>) -> Option<ledger::Share<L>>
    ensures parts { IfSome result (λ all. all.parts ≡ vec_len shares) }
    ensures amount { IfSome result (λ all. all.amount ≡ sum_by (λ s. s.count) shares.items) }
{
    let mut all = shares.pop()?.into_part();
    while let Some(share) = shares.pop() {
        all.merge(share.into_part());
    }
    Some(all)
}

impl<L: Ledger> Hall<L> {
    /// A hall for a world that has made no turn, which then has a worker for each role, and the workers' shares in the
    /// order of the roles, whose turns have one round each. The blank, a ledger that isn't open yet, has a part for
    /// each role. H1 exactly where the number of roles isn't 1 to 9, else H2 where memory runs out.
    pub fn new(
        alloc: Global,
        blank: Blank,
        world: World,
        roles: &[Role],
    ) -> Result<(Hall<L>, Vec<Share<L>>), HallError>
        requires name { blank.name ≡ L.name }
        requires parts { blank.parts ≡ L.parts }
        requires one_each { blank.parts ≡ length roles.now }
        requires empty { world.journal.rows ≡ [] }
        ensures hall { IfOk result (λ made. made.0 ≡ head_of (with_workers world (length roles.now))) }
        ensures shares { IfOk result (λ made. made.1.items
            ≡ dealt (record { extra = 0; again = 0; sweep = 0 }) 0 roles.now) }
        ensures number { IsErrOf result HallError.Roles ↔ (¬ ((0 < length roles.now) × (length roles.now ≤ 9))) }
    {
        Hall::in_bursts(alloc, blank, world, roles, SINGLE)
    }

    /// The same with shares whose turns may have more rounds after the first, so that a worker makes many rows each
    /// time it gets the lock.
    pub fn in_bursts(
        alloc: Global,
        blank: Blank,
        mut world: World,
        roles: &[Role],
        burst: Burst,
    ) -> Result<(Hall<L>, Vec<Share<L>>), HallError>
        requires name { blank.name ≡ L.name }
        requires parts { blank.parts ≡ L.parts }
        requires one_each { blank.parts ≡ length roles.now }
        requires empty { world.journal.rows ≡ [] }
        ensures hall { IfOk result (λ made. made.0 ≡ head_of (with_workers world (length roles.now))) }
        ensures shares { IfOk result (λ made. made.1.items ≡ dealt burst 0 roles.now) }
        ensures number { IsErrOf result HallError.Roles ↔ (¬ ((0 < length roles.now) × (length roles.now ≤ 9))) }
    {
        if roles.len() == 0 || roles.len() > MOST_WORKERS {
            return Err(HallError::Roles);
        }
        let workers = roles.len() as u8;
        world.set_workers(workers);
        let program = world.program().copy()?;
        let shape = world.journal().shape();
        let limits = world.journal().limits();
        let (book, all) = blank.open::<L>();
        let shares = deal(alloc, roles, burst, all)?;
        let collector = collector_in(roles);
        let hall = Hall {
            lock: Mutex::new(Shared::new(world, book, collector.is_some())),
            program,
            shape,
            limits,
            workers,
            collector,
        };
        Ok((hall, shares))
    }

    // The worker that collects, if one does nothing else.
    pub(crate) fn collector(&self) -> Option<usize> {
        self.collector
    }

    /// One turn of the share's role under the lock, for which it waits, and how the world stands then. The share counts
    /// the rows that the turn made.
    ///
    /// A turn may be held back: it is `NotReady` then, and makes no row. Only that of a share whose role is `Carrier`
    /// is, and only in a hall one of whose roles is `Collector`, while a collection is due: as many objects were made
    /// since the last cycle ended as an eighth of the cells that were free then. The collector's turns, which go on to
    /// the end of a cycle, let carriers go on. By the contract a turn that is held back leaves the share as it was;
    /// when one is, no contract says.
    pub fn turn_for<R: Wait>(&self, rt: &R, share: &mut Share<L>) -> (Turn, Status)
        ensures { Counts result.0 share.old share.new }
    {
        let mut shared = self.lock.lock(rt);
        let answer = shared.turn_if_not_due(share);
        (answer, shared.status())
    }

    // The same turn, and what it comes to for the worker.
    #[inline(always)]
    pub(crate) fn turn_and_upshot<R: Wait>(&self, rt: &R, share: &mut Share<L>) -> Upshot
        ensures { IsLater share.old share.new }
    {
        let mut shared = self.lock.lock(rt);
        shared.turn_and_upshot(share)
    }

    /// Takes back all shares, in any order, and gives the world. Its journal has as many rows as the shares counted
    /// together, and a run of its program made it: `replay` refuses it for want of memory alone. H4 where the world
    /// isn't of the hall's program, shape, limits and number of workers, which no call brings about.
    pub fn close(self, shares: Vec<Share<L>>) -> Result<World, HallError>
        requires { vec_len shares ≡ L.parts }
        ensures world { IfOk result (λ world. head_of world ≡ self) }
        ensures rows { IfOk result (λ world. length world.journal.rows ≡ sum_by (λ s. s.count) shares.items) }
        ensures made { IfOk result IsMade }
    {
        let Hall {
            lock,
            program,
            shape,
            limits,
            workers,
            ..
        } = self;
        let all = gathered(shares).ok_or(HallError::World)?;
        let world = lock.into_inner().into_world(all);
        world.is_made();
        if has_head(&world, &program, shape, limits, workers) {
            Ok(world)
        } else {
            Err(HallError::World)
        }
    }
}

// Whether a world is of this program, shape, limits and number of workers.
fn has_head(world: &World, program: &Program, shape: HeapShape, limits: Limits, workers: u8) -> bool
    ensures { result ≡ true → head_of world.now
        ≡ record { program = program.now; shape = shape; limits = limits; workers = workers } }
{
    let journal = world.journal();
    if !is_program(world.program(), program) || !is_shape(journal.shape(), shape) {
        return false;
    }
    if !are_limits(journal.limits(), limits) {
        return false;
    }
    journal.workers() == workers
}

fn is_program(a: &Program, b: &Program) -> bool
    ensures { result ≡ true → a.now ≡ b.now }
{
    a == b
}

fn is_shape(a: HeapShape, b: HeapShape) -> bool
    ensures { result ≡ true → a ≡ b }
{
    a == b
}

fn are_limits(a: Limits, b: Limits) -> bool
    ensures { result ≡ true → a ≡ b }
{
    a == b
}
