//! Why there is no board.

ghost use Rattle.std.specs.Prelude.{◌≡◌};
ghost use Rattle.board.specs.declared.error.BoardError.TheVariants as error;

use std::alloc::{AllocError, AllocFailed};
use thiserror::Error;

/// Why there is no board. `Display` writes the codes that users see.
#[derive(Clone, Copy, Debug, PartialEq, Eq, Drop, Error)]
pub enum BoardError {
    /// The number of workers isn't 1 to 9.
    #[error("B1")]
    Workers,
    /// Memory ran out.
    #[error("B2")]
    Memory,
}

impl From<AllocError> for BoardError {
    ghost from_gives = { λ _ e. e ≡ error.Memory };

    fn from(_e: AllocError) -> BoardError {
        BoardError::Memory
    }
}

impl<T: Drop> From<AllocFailed<T>> for BoardError {
    ghost from_gives = { λ _ e. e ≡ error.Memory };

    fn from(_e: AllocFailed<T>) -> BoardError {
        BoardError::Memory
    }
}
