//! Why bytes are no code, or instructions have none.

ghost use Rattle.std.specs.Prelude.{◌≡◌};
ghost use Rattle.opcodes.specs.declared.error.OpError.TheVariants as error;

use std::alloc::{AllocError, AllocFailed};
use thiserror::Error;

/// Why bytes are no code, or instructions have none. `Display` writes the codes that users see.
#[derive(Clone, Copy, Debug, PartialEq, Eq, Error)]
pub enum OpError {
    /// No instruction of the profile begins so.
    #[error("O1")]
    Opcode,
    /// The bytes end within an instruction, or an operand has no room for the number that it is to hold.
    #[error("O2")]
    Operand,
    /// A branch leads to no instruction.
    #[error("O3")]
    Branch,
    /// A switch whose pad isn't zero, whose keys don't rise, or whose range is empty or ends past the greatest int.
    #[error("O4")]
    Switch,
    /// No byte, or more than 65,535.
    #[error("O5")]
    Length,
    /// Memory ran out.
    #[error("O6")]
    Memory,
}

impl From<AllocError> for OpError {
    ghost from_gives = { λ _ e. e ≡ error.Memory };

    fn from(_e: AllocError) -> OpError {
        OpError::Memory
    }
}

impl<T: Drop> From<AllocFailed<T>> for OpError {
    ghost from_gives = { λ _ e. e ≡ error.Memory };

    fn from(_e: AllocFailed<T>) -> OpError {
        OpError::Memory
    }
}
