//! What can be asked of a journal, whether it is being written or was read.
ghost use Rattle.std.specs.Prelude.{◌≡◌};
ghost use Rattle.model.specs.Journals.{JournalValue};

use crate::journals::{HeapShape, Journal, Limits};
use crate::row_runs::Rows;
use crate::stored_journals::StoredJournal;

/// The parts of a journal. Each call takes constant time and no memory.
pub trait JournalParts {
    /// the journal
    ghost journal_of: { Self → JournalValue };

    /// The heap's shape.
    fn shape(&self) -> HeapShape
        ensures { result ≡ (journal_of self.now).shape };

    /// The limits.
    fn limits(&self) -> Limits
        ensures { result ≡ (journal_of self.now).limits };

    /// How many workers there are.
    fn workers(&self) -> u8
        ensures { result ≡ (journal_of self.now).workers };

    /// The rows in order.
    fn rows(&self) -> Rows<'_>
        ensures { result ≡ (journal_of self.now).rows };
}

impl JournalParts for Journal {
    ghost journal_of = { λ j. j };

    fn shape(&self) -> HeapShape {
        Journal::shape(self)
    }

    fn limits(&self) -> Limits {
        Journal::limits(self)
    }

    fn workers(&self) -> u8 {
        Journal::workers(self)
    }

    fn rows(&self) -> Rows<'_> {
        Journal::rows(self)
    }
}

impl JournalParts for StoredJournal {
    ghost journal_of = { λ j. j };

    fn shape(&self) -> HeapShape {
        StoredJournal::shape(self)
    }

    fn limits(&self) -> Limits {
        StoredJournal::limits(self)
    }

    fn workers(&self) -> u8 {
        StoredJournal::workers(self)
    }

    fn rows(&self) -> Rows<'_> {
        StoredJournal::rows(self)
    }
}
