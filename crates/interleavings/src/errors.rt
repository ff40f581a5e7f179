//! Why the runs were given up.

use std::alloc::AllocError;
use thiserror::Error;

/// Why the runs were given up. The texts are the crate's own, so it isn't told which is wrong, and where.
#[derive(Clone, Copy, Debug, Error)]
pub enum RaceError {
    /// A text can't be read, or isn't one of the syntax.
    #[error("no text")]
    Text,
    /// A text doesn't assemble, or the texts are no program.
    #[error("no program")]
    Program,
    /// The program has no world, or no ideal run.
    #[error("no world")]
    World,
    /// A world's cells don't show its ideal run.
    #[error("run {run} differs after turn {turn}")]
    Differs { run: u64, turn: usize },
    /// Memory ran out.
    #[error("memory")]
    Memory,
}

impl From<AllocError> for RaceError {
    fn from(_error: AllocError) -> RaceError {
        RaceError::Memory
    }
}
