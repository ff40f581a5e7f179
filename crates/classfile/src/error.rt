//! Why a class file is refused.

ghost use Rattle.std.specs.Prelude.{◌≡◌};
ghost use Rattle.classfile.specs.declared.error.ClassError.TheVariants as error;
ghost use Rattle.classfile.specs.Reading.Answers.{shown};
ghost use Rattle.pool.specs.declared.builder.AddError.TheVariants as add;

use model::class_files::FormatFault;
use model::names::Name;
use opcodes::OpError;
use pool::{AddError, ReadError};
use std::alloc::{AllocError, AllocFailed};
use thiserror::Error;

/// Why a class file is refused. `Display` writes what users see: `C3`, or `O1 in method main()V`.
#[derive(Debug, Drop, Error)]
pub enum ClassError {
    /// C1 to C8 and C11: the first fault from left to right.
    #[error("{0}")]
    Format(FormatFault),
    /// The code of this method is faulty.
    #[error("{fault} in method {name}{descriptor}")]
    Code {
        name: Name,
        descriptor: Name,
        fault: OpError,
    },
    /// A pool that is made has no room for one more entry. Reading never tells it.
    #[error("C9")]
    PoolFull,
    /// Memory ran out.
    #[error("C10")]
    Memory,
}

impl From<AllocError> for ClassError {
    ghost from_gives = { λ _ e. e ≡ error.Memory };

    fn from(_e: AllocError) -> ClassError {
        ClassError::Memory
    }
}

impl<T: Drop> From<AllocFailed<T>> for ClassError {
    ghost from_gives = { λ _ e. e ≡ error.Memory };

    fn from(_e: AllocFailed<T>) -> ClassError {
        ClassError::Memory
    }
}

impl From<ReadError> for ClassError {
    ghost from_gives = { λ e reported. shown reported ≡ e };

    fn from(e: ReadError) -> ClassError {
        match e {
            ReadError::Format(fault) => ClassError::Format(fault),
            ReadError::Memory => ClassError::Memory,
        }
    }
}

impl From<AddError> for ClassError {
    ghost from_gives = { λ e reported. (e ≡ add.Full → reported ≡ error.PoolFull)
        × (e ≡ add.Memory → reported ≡ error.Memory) };

    fn from(e: AddError) -> ClassError {
        match e {
            AddError::Full => ClassError::PoolFull,
            AddError::Memory => ClassError::Memory,
        }
    }
}
