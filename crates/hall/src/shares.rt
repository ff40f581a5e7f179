//! What a worker has, and what lies under the lock.
ghost use Rattle.std.specs.Prelude.{◌≡◌, ◌+◌, [], length};
ghost use Rattle.hall.specs.Shares.{counted_on, rows_by};

use crate::dues::due_in;
use crate::roles::{Burst, Role};
use model::turns::Turn;
use scheduler::worlds::World;
use std::marker::Model;
use std::sync::ledger;
use std::sync::ledger::{Book, Ledger};

/// A worker's share of the journal: its number, its role, which rounds it may make after the first one of a turn, and
/// how many rows it has made. A contract sees these four.
#[derive(Drop)]
pub struct Share<L: Ledger> {
    worker: u8,
    role: Role,
    burst: Burst,
    count: u64,
    part: ledger::Share<L>,
}

impl<L: Ledger> Model for Share<L> {
    ghost use Rattle.std.specs.Prelude.{◌≡◌};
    ghost use Rattle.hall.specs.Shares.{ShareValue};

    ghost Value = { ShareValue };

    ghost view = { λ a. record { worker = a.worker; role = a.role; burst = a.burst; count = a.count } };

    ghost invariant = { λ a. (a.part.parts ≡ 1) × (a.part.amount ≡ a.count) };
}

impl<L: Ledger> Share<L> {
    // The share of a worker that has made no row.
    pub(crate) fn new(worker: u8, role: Role, burst: Burst, part: ledger::Share<L>) -> Share<L>
        requires part { part.parts ≡ 1 }
        requires none { part.amount ≡ 0 }
        ensures { result ≡ record { worker = worker; role = role; burst = burst; count = 0 } }
    {
        Share {
            worker,
            role,
            burst,
            count: 0,
            part,
        }
    }

    /// The worker's number, from 0 on.
    pub fn worker(&self) -> u8
        ensures { result ≡ self.now.worker }
    {
        self.worker
    }

    /// What the worker does.
    pub fn role(&self) -> Role
        ensures { result ≡ self.now.role }
    {
        self.role
    }

    /// Which rounds it may make after the first one of a turn.
    pub fn burst(&self) -> Burst
        ensures { result ≡ self.now.burst }
    {
        self.burst
    }

    /// How many rows of the journal the worker has made.
    pub fn count(&self) -> u64
        ensures { result ≡ self.now.count }
    {
        self.count
    }

    // Counts the row of an actor's turn with this answer, if it made one, here and in the book. With it the journal has
    // so many rows.
    pub(crate) fn note(&mut self, book: &mut Book<L>, answer: Turn, rows: usize)
        requires { book.old.total + rows_by answer ≡ rows }
        ensures total { book.new.total ≡ rows }
        ensures share { self.new ≡ counted_on self.old (rows_by answer) }
    {
        match answer {
            Turn::Done | Turn::Fault(_) => self.note_rows(book, 1, rows),
            Turn::NotReady | Turn::Stopped | Turn::OutputFull | Turn::StepLimit => {}
        }
    }

    // Counts so many rows more. With them the journal has so many rows.
    pub(crate) fn note_rows(&mut self, book: &mut Book<L>, made: usize, rows: usize)
        requires { book.old.total + made ≡ rows }
        ensures total { book.new.total ≡ rows }
        ensures share { self.new ≡ counted_on self.old made }
    {
        let Share { count, part, .. } = self;
        book.audit(part);
        book.add(part, made as u64);
        *count += made as u64;
    }

    // The part of the ledger.
    pub(crate) fn into_part(self) -> ledger::Share<L>
        ensures part { result.parts ≡ 1 }
        ensures amount { result.amount ≡ self.count }
    {
        let Share { part, .. } = self;
        part
    }
}

/// The world under the lock, and the book of its rows. A contract sees the world.
#[derive(Drop)]
pub struct Shared<L: Ledger> {
    pub(crate) world: World,
    pub(crate) book: Book<L>,
    // from which birth on a collection is due
    pub(crate) due: u32,
}

impl<L: Ledger> Model for Shared<L> {
    ghost use Rattle.std.specs.Prelude.{◌≡◌, length};
    ghost use Rattle.model.specs.Machines.{Recorded};

    ghost Value = { Recorded };

    ghost view = { λ a. a.world };

    ghost invariant = { λ a. length a.world.journal.rows ≡ a.book.total };
}

impl<L: Ledger> Shared<L> {
    // A world that has made no turn, and a book that is empty. Collections come due where there is a collector.
    pub(crate) fn new(world: World, book: Book<L>, collects: bool) -> Shared<L>
        requires world { world.journal.rows ≡ [] }
        requires book { book.total ≡ 0 }
        ensures { result ≡ world }
    {
        let due = if collects { due_in(&world) } else { u32::MAX };
        Shared { world, book, due }
    }

    // The world. All parts of the ledger have counted its rows.
    pub(crate) fn into_world(self, mut all: ledger::Share<L>) -> World
        requires { all.parts ≡ L.parts }
        ensures world { result ≡ self }
        ensures rows { length self.journal.rows ≡ all.amount }
    {
        let Shared {
            world,
            mut book,
            ..
        } = self;
        book.audit(&mut all);
        world
    }
}
