//! The journal: the heap, the limits and the turns that a world has made, from which all else follows.
ghost use Rattle.std.specs.Prelude.{◌≡◌, ◌↔◌, ◌<◌, IsTrue, IfOk, length};
ghost use Rattle.model.specs.Limits.{ShapeFits, LimitsFit};

use crate::row_runs::{RowRuns, Rows};
use crate::turns::Actor;
use std::alloc::{AllocError, Global};
use std::marker::Model;

/// How many cells of 4, of 32 and of 256 words a heap has. Cells are numbered from 0 in this order.
#[derive(Clone, Copy, Debug, PartialEq, Eq)]
pub struct HeapShape {
    pub small: u32,
    pub medium: u32,
    pub large: u32,
}

impl HeapShape {
    /// Whether there are 2 to 65,535 cells with 1,048,576 words at most.
    pub fn is_in_range(&self) -> bool
        ensures { IsTrue result ↔ ShapeFits self.now.small self.now.medium self.now.large }
    {
        let small = u64::from(self.small);
        let medium = u64::from(self.medium);
        let large = u64::from(self.large);
        let cells = small + medium + large;
        2 <= cells && cells <= 65_535 && 4 * small + 32 * medium + 256 * large <= 1_048_576
    }
}

/// How many rows a journal may have, and how many bytes a world may print.
#[derive(Clone, Copy, Debug, PartialEq, Eq)]
pub struct Limits {
    pub steps: u32,
    pub output: u32,
}

impl Limits {
    /// Whether the steps are 1 to 16,777,215 and the bytes 1,048,576 at most.
    pub fn is_in_range(&self) -> bool
        ensures { IsTrue result ↔ LimitsFit self.now.steps self.now.output }
    {
        1 <= self.steps && self.steps <= 16_777_215 && self.output <= 1_048_576
    }
}

/// What came of a turn that made a row.
#[derive(Clone, Copy, Debug, PartialEq, Eq)]
pub enum Outcome {
    /// `d`: done; no cell was asked for.
    Done,
    /// `o`: done; a cell was asked for and taken.
    Object,
    /// `n`: a cell was asked for, and no free one had room.
    NoRoom,
    /// `f`: a fault.
    Fault,
}

/// One turn of the journal: who took it, what came of it, and the number of the worker that made it.
#[derive(Clone, Copy, Debug, PartialEq, Eq)]
pub struct Row {
    pub actor: Actor,
    pub outcome: Outcome,
    pub worker: u8,
}

/// A journal: the heap's shape, the limits, the number of workers (1 to 9) and the rows, one for each turn that was
/// done or at fault, in order. Its shape and limits are in range, each row's worker is below the number of workers, and
/// there is room for as many rows as the limit allows.
#[derive(Drop)]
pub struct Journal {
    shape: HeapShape,
    limits: Limits,
    workers: u8,
    runs: RowRuns,
}

impl Model for Journal {
    ghost use Rattle.std.specs.Prelude.{◌≤◌};
    ghost use Rattle.model.specs.Journals.{JournalValue, HeadFits, AreOfWorkers};

    ghost Value = { JournalValue };

    ghost view = { λ a. record { shape = a.shape; limits = a.limits; workers = a.workers; rows = a.runs.rows } };

    ghost invariant = { λ a. HeadFits a.shape a.limits a.workers × (a.limits.steps ≤ a.runs.room)
        × AreOfWorkers a.workers a.runs.rows };
}

impl Journal {
    ghost use Rattle.std.specs.Prelude.{◌≡◌, ◌+◌, ◌<◌, ◌≤◌, [], IfOk, MatchResult, length, replicate};
    ghost use Rattle.model.specs.Journals.{HeadFits, AreOfWorkers, blank, rows_of_rounds, with_row, with_rows};

    /// A journal with no row, and room for all that the limit allows. `AllocError` where there is no memory for them.
    pub fn new(
        alloc: Global,
        shape: HeapShape,
        limits: Limits,
        workers: u8,
    ) -> Result<Journal, AllocError>
        requires { HeadFits shape limits workers }
        ensures { IfOk result (λ journal. journal ≡ blank shape limits workers) }
    {
        Ok(Journal {
            shape,
            limits,
            workers,
            runs: RowRuns::with_room(alloc, limits.steps as usize)?,
        })
    }

    /// The heap's shape.
    pub fn shape(&self) -> HeapShape
        ensures value { result ≡ self.now.shape }
        ensures head { HeadFits self.now.shape self.now.limits self.now.workers }
    {
        self.shape
    }

    /// The limits.
    pub fn limits(&self) -> Limits
        ensures value { result ≡ self.now.limits }
        ensures head { HeadFits self.now.shape self.now.limits self.now.workers }
    {
        self.limits
    }

    /// How many workers there are, from 1 to 9.
    pub fn workers(&self) -> u8
        ensures value { result ≡ self.now.workers }
        ensures head { HeadFits self.now.shape self.now.limits self.now.workers }
    {
        self.workers
    }

    /// The rows in order.
    pub fn rows(&self) -> Rows<'_>
        ensures value { result ≡ self.now.rows }
        ensures workers { AreOfWorkers self.now.workers self.now.rows }
    {
        self.runs.rows()
    }

    /// Sets the number of workers, from 1 to 9, of a journal that has no row yet. It takes no memory.
    pub fn set_workers(&mut self, workers: u8)
        requires empty { self.old.rows ≡ [] }
        requires one { 1 ≤ workers }
        requires nine { workers ≤ 9 }
        ensures { self.new ≡ blank self.old.shape self.old.limits workers }
    {
        self.workers = workers;
    }

    /// Adds a row. It takes no memory.
    #[inline]
    pub fn note(&mut self, row: Row)
        requires room { length self.old.rows < self.old.limits.steps }
        requires worker { row.worker < self.old.workers }
        ensures { self.new ≡ with_row self.old row }
    {
        self.runs.note(row);
    }

    /// Adds a row so many times, in a time that grows with the runs of equal rows alone. It takes no memory.
    pub fn note_times(&mut self, row: Row, times: u32)
        requires room { 0 < times → length self.old.rows + times ≤ self.old.limits.steps }
        requires worker { row.worker < self.old.workers }
        ensures { self.new ≡ with_rows self.old (replicate times row) }
    {
        self.runs.note_times(row, times);
    }

    /// Adds the rows of so many rounds: in each a first row, and then a second one so many times. It takes no memory.
    pub fn note_rounds(&mut self, first: Row, second: Row, times: u32, rounds: u32)
        requires room { 0 < rounds → length self.old.rows + length (rows_of_rounds first second times rounds)
            ≤ self.old.limits.steps }
        requires first { first.worker < self.old.workers }
        requires second { second.worker < self.old.workers }
        ensures { self.new ≡ with_rows self.old (rows_of_rounds first second times rounds) }
    {
        self.runs.note_rounds(first, second, times, rounds);
    }

    /// Adds a row past the limit too, as a stored journal may have it. `AllocError` where there is no memory for it;
    /// the journal is then as it was.
    pub fn add(&mut self, row: Row) -> Result<(), AllocError>
        requires worker { row.worker < self.old.workers }
        ensures { MatchResult result (λ _. self.new ≡ with_row self.old row) (λ _. self.new ≡ self.old) }
    {
        self.runs.add(row)
    }
}
