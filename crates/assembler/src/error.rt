//! Why a tree has no class file.

ghost use Rattle.std.specs.Prelude.{◌≡◌};
ghost use Rattle.classfile.specs.declared.error.ClassError.TheVariants as class;
ghost use Rattle.opcodes.specs.declared.error.OpError.TheVariants as op;
ghost use Rattle.pool.specs.declared.builder.AddError.TheVariants as add;
ghost use Rattle.assembler.specs.declared.error.AsmError.TheVariants as error;

use classfile::ClassError;
use model::names::Name;
use opcodes::OpError;
use pool::AddError;
use std::alloc::{AllocError, AllocFailed};
use thiserror::Error;

/// Why a tree has no class file. `Display` writes the codes that users see.
#[derive(Debug, Drop, Error)]
pub enum AsmError {
    /// The code of this method is empty or has more than 65,535 bytes.
    #[error("A1 in method {name}{descriptor}")]
    Size { name: Name, descriptor: Name },
    /// In this method a branch offset is larger than its two bytes have room for.
    #[error("A2 in method {name}{descriptor}")]
    Branch { name: Name, descriptor: Name },
    /// The constant pool or another count would pass 65,535.
    #[error("A3")]
    Full,
    /// In this method the keys of a switch don't rise, or a table ends past the greatest int.
    #[error("A4 in method {name}{descriptor}")]
    Switch { name: Name, descriptor: Name },
    /// Memory ran out.
    #[error("A5")]
    Memory,
}

impl From<AllocError> for AsmError {
    ghost from_gives = { λ _ e. e ≡ error.Memory };

    fn from(_e: AllocError) -> AsmError {
        AsmError::Memory
    }
}

impl<T: Drop> From<AllocFailed<T>> for AsmError {
    ghost from_gives = { λ _ e. e ≡ error.Memory };

    fn from(_e: AllocFailed<T>) -> AsmError {
        AsmError::Memory
    }
}

impl From<AddError> for AsmError {
    ghost from_gives = { λ e reported. e ≡ add.Memory → reported ≡ error.Memory };

    fn from(e: AddError) -> AsmError {
        match e {
            AddError::Memory => AsmError::Memory,
            AddError::Full => AsmError::Full,
        }
    }
}

/// Instructions that have no bytes are reported as a pool without room.
impl From<OpError> for AsmError {
    ghost from_gives = { λ e reported. e ≡ op.Memory → reported ≡ error.Memory };

    fn from(e: OpError) -> AsmError {
        match e {
            OpError::Memory => AsmError::Memory,
            _ => AsmError::Full,
        }
    }
}

/// What the format refuses is reported as a pool without room.
impl From<ClassError> for AsmError {
    ghost from_gives = { λ e reported. e ≡ class.Memory → reported ≡ error.Memory };

    fn from(e: ClassError) -> AsmError {
        match e {
            ClassError::Memory => AsmError::Memory,
            _ => AsmError::Full,
        }
    }
}
