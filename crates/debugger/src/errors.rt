//! Why a session ended early.

use thiserror::Error;

/// Why a session ended before its last line.
#[derive(Clone, Copy, Debug, PartialEq, Eq, Drop, Error)]
pub enum DebugError {
    /// G1: a read failed. The world stands after all commands read.
    #[error("G1")]
    Read,
    /// G2: a write failed. The last command was carried out too, and a beginning of its answer was written.
    #[error("G2")]
    Write,
    /// G3: memory ran out. The last command changed nothing.
    #[error("G3")]
    Memory,
}
