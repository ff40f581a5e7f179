//! A journal that was stored and read.
ghost use Rattle.std.specs.Prelude.{◌≡◌};
ghost use Rattle.model.specs.Journals.{JournalValue, HeadFits, AreOfWorkers};

use crate::journals::{HeapShape, Limits};
use crate::row_runs::{RowRuns, Rows};
use std::marker::Model;

/// A journal that was read. Its value is that of a `Journal`, and it has no memory but that of its rows, so that a
/// short text with a large limit takes little; it takes no rows. It may have more of them than its limit allows.
#[derive(Drop)]
pub struct StoredJournal {
    shape: HeapShape,
    limits: Limits,
    workers: u8,
    runs: RowRuns,
}

impl Model for StoredJournal {
    ghost Value = { JournalValue };

    ghost view = { λ a. record { shape = a.shape; limits = a.limits; workers = a.workers; rows = a.runs.rows } };

    ghost invariant = { λ a. HeadFits a.shape a.limits a.workers × AreOfWorkers a.workers a.runs.rows };
}

impl StoredJournal {
    /// A journal of these parts. It takes no memory.
    pub fn new(shape: HeapShape, limits: Limits, workers: u8, runs: RowRuns) -> StoredJournal
        requires head { HeadFits shape limits workers }
        requires rows { AreOfWorkers workers runs.rows }
        ensures { result ≡ record { shape = shape; limits = limits; workers = workers; rows = runs.rows } }
    {
        StoredJournal {
            shape,
            limits,
            workers,
            runs,
        }
    }

    /// The heap's shape.
    pub fn shape(&self) -> HeapShape
        ensures value { result ≡ self.now.shape }
        ensures head { HeadFits self.now.shape self.now.limits self.now.workers }
    {
        self.shape
    }

    /// The limits.
    pub fn limits(&self) -> Limits
        ensures value { result ≡ self.now.limits }
        ensures head { HeadFits self.now.shape self.now.limits self.now.workers }
    {
        self.limits
    }

    /// How many workers there are, from 1 to 9.
    pub fn workers(&self) -> u8
        ensures value { result ≡ self.now.workers }
        ensures head { HeadFits self.now.shape self.now.limits self.now.workers }
    {
        self.workers
    }

    /// The rows in order.
    pub fn rows(&self) -> Rows<'_>
        ensures value { result ≡ self.now.rows }
        ensures workers { AreOfWorkers self.now.workers self.now.rows }
    {
        self.runs.rows()
    }
}
