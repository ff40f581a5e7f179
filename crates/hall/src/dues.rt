//! When a collection is due, so that no carrier finds a heap full of garbage because the collector's thread comes late.
ghost use Rattle.std.specs.Prelude.{◌≡◌};
ghost use Rattle.hall.specs.Homes.{IsLater};
ghost use Rattle.hall.specs.Shares.{Counts};

use crate::roles::Role;
use crate::shares::{Share, Shared};
use model::turns::Turn;
use scheduler::rounds::is_done;
use scheduler::worlds::World;
use std::sync::ledger::Ledger;

// Between two collections one object may be made for so many cells that are free.
const CELLS: u32 = 8;

// How many cells of the heap are free.
fn free_cells(world: &World) -> u32 {
    let shape = world.journal().shape();
    let cells = shape
        .small
        .saturating_add(shape.medium)
        .saturating_add(shape.large);
    let mut free: u32 = 0;
    for cell in 0..cells {
        if is_free(world, cell) {
            free = free.saturating_add(1);
        }
    }
    free
}

fn is_free(world: &World, cell: u32) -> bool {
    match world.heap(cell) {
        Some(view) => view.held.is_none(),
        None => false,
    }
}

// From which birth on a collection is due, where one has ended: one object may be made at least.
pub(crate) fn due_in(world: &World) -> u32 {
    let objects = (free_cells(world) / CELLS).max(1);
    world.next_birth().saturating_add(objects)
}

// The answer of a turn that isn't taken.
#[tactic(auto, using(crate::proofs::Rows::counts_nothing))]
fn none_taken<L: Ledger>(share: &Share<L>) -> Turn
    ensures { Counts result share.now share.now }
{
    let _worker = share.worker();
    Turn::NotReady
}

// What a worker's turn comes to: whether it was done, and whether no worker has more to do.
#[derive(Clone, Copy)]
pub(crate) struct Upshot {
    pub(crate) done: bool,
    pub(crate) over: bool,
}

impl<L: Ledger> Shared<L> {
    // A turn of the share's role, but none of a carrier where a collection is due.
    #[inline(always)]
    pub(crate) fn turn_if_not_due(&mut self, share: &mut Share<L>) -> Turn
        ensures { Counts result share.old share.new }
    {
        match share.role() {
            Role::Both { .. } => self.turn_at_once(share),
            Role::Carrier => self.turn_unless_due(share),
            Role::Collector => self.turn_and_put_off(share),
        }
    }

    // A turn of the share's role.
    #[inline(always)]
    #[tactic(auto, using(crate::proofs::Rows::counted))]
    fn turn_at_once(&mut self, share: &mut Share<L>) -> Turn
        ensures { Counts result share.old share.new }
    {
        let due = self.due;
        self.turn_as(share, due)
    }

    // The same, or none where a collection is due.
    #[inline(always)]
    fn turn_unless_due(&mut self, share: &mut Share<L>) -> Turn
        ensures { Counts result share.old share.new }
    {
        if self.next_birth() < self.due {
            self.turn_at_once(share)
        } else {
            none_taken(share)
        }
    }

    // The same of a collector. After a turn that was done the next collection is due later.
    #[inline(never)]
    fn turn_and_put_off(&mut self, share: &mut Share<L>) -> Turn
        ensures { Counts result share.old share.new }
    {
        let answer = self.turn_at_once(share);
        if is_done(answer) {
            self.due = self.next_due();
        }
        answer
    }

    // Within a cycle the carriers may make one object more at least, else they and the collector would wait for each
    // other.
    fn next_due(&self) -> u32 {
        if self.is_idle() {
            due_in(&self.world)
        } else {
            self.due.max(self.next_birth().saturating_add(1))
        }
    }

    // A turn as `turn_if_not_due` makes it, and what it comes to. After a thread's turn that was done the world isn't
    // asked whether it runs: where it doesn't, the next turn isn't done, and then it is asked.
    #[inline(always)]
    pub(crate) fn turn_and_upshot(&mut self, share: &mut Share<L>) -> Upshot
        ensures { IsLater share.old share.new }
    {
        match self.turn_if_not_due(share) {
            Turn::Done => Upshot {
                done: true,
                over: self.is_over_after(share.role()),
            },
            Turn::NotReady | Turn::Fault(_) => Upshot {
                done: false,
                over: !self.is_running(),
            },
            Turn::Stopped | Turn::OutputFull | Turn::StepLimit => Upshot {
                done: false,
                over: true,
            },
        }
    }

    // Whether it is known after a turn of this role that was done that no worker has more to do.
    #[inline(always)]
    fn is_over_after(&self, role: Role) -> bool {
        match role {
            Role::Collector => !self.is_running(),
            Role::Both { .. } | Role::Carrier => false,
        }
    }
}
