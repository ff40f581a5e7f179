//! Why a hall's call is refused.
ghost use Rattle.std.specs.Prelude.{◌≡◌};
ghost use Rattle.hall.specs.declared.error.HallError.TheVariants as error;

use std::alloc::{AllocError, AllocFailed};
use thiserror::Error;

/// Why there is no hall, or nothing comes back from it. `Display` writes the codes that users see.
#[derive(Clone, Copy, Debug, PartialEq, Eq, Drop, Error)]
pub enum HallError {
    /// The number of roles isn't 1 to 9.
    #[error("H1")]
    Roles,
    /// Memory ran out.
    #[error("H2")]
    Memory,
    /// A thread couldn't be started.
    #[error("H3")]
    Thread,
    /// The world under the lock isn't the one that the hall was made for. No call brings this about.
    #[error("H4")]
    World,
}

impl From<AllocError> for HallError {
    ghost from_gives = { λ _ e. e ≡ error.Memory };

    fn from(_e: AllocError) -> HallError {
        HallError::Memory
    }
}

impl<T: Drop> From<AllocFailed<T>> for HallError {
    ghost from_gives = { λ _ e. e ≡ error.Memory };

    fn from(_e: AllocFailed<T>) -> HallError {
        HallError::Memory
    }
}
