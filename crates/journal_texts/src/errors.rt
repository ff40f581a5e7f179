//! What may be wrong with a journal's text.
ghost use Rattle.std.specs.Prelude.{◌≡◌};
ghost use Rattle.journal_texts.specs.declared.errors.JournalError.TheVariants.{Memory};

use std::alloc::{AllocError, AllocFailed};
use thiserror::Error;

/// Why a journal is refused: the first fault in the file's order.
#[derive(Clone, Copy, Debug, PartialEq, Eq, Drop, Error)]
pub enum JournalError {
    /// N1: the first line names no version.
    #[error("N1")]
    Version,
    /// N2: the line of the heap or that of the limits, or their numbers are out of range.
    #[error("N2")]
    Head,
    /// N3: the form of a row, counted from 1. A worker that the journal doesn't have is such a fault.
    #[error("N3 at row {0}")]
    Row(usize),
    /// N4: the end line is wrong or missing, or bytes follow it.
    #[error("N4")]
    End,
    /// N6: memory ran out.
    #[error("N6")]
    Memory,
    /// N7: the line of the workers.
    #[error("N7")]
    Workers,
}

impl From<AllocError> for JournalError {
    ghost from_gives = { λ _ e. e ≡ Memory };

    fn from(_error: AllocError) -> JournalError {
        JournalError::Memory
    }
}

impl<T: Drop> From<AllocFailed<T>> for JournalError {
    ghost from_gives = { λ _ e. e ≡ Memory };

    fn from(_error: AllocFailed<T>) -> JournalError {
        JournalError::Memory
    }
}
