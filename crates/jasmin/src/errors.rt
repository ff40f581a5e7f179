//! What may be wrong with a text.

ghost use Rattle.std.specs.Prelude.{◌≡◌};
ghost use Rattle.jasmin.specs.declared.errors.Fault.TheVariants.{Memory};

use std::alloc::{AllocError, AllocFailed};
use thiserror::Error;

/// What is wrong with a line of a text. `Display` writes the code that users see.
#[derive(Clone, Copy, Debug, PartialEq, Eq, Error)]
pub enum Fault {
    /// A directive that is unknown, or a statement that is out of order or missing.
    #[error("J1")]
    Statement,
    /// An unknown mnemonic.
    #[error("J2")]
    Mnemonic,
    /// A wrong operand or form.
    #[error("J3")]
    Operand,
    /// A number out of its range.
    #[error("J4")]
    Range,
    /// A label that is given twice, or used and not given.
    #[error("J5")]
    Label,
    /// A method without its `.end method`.
    #[error("J6")]
    End,
    /// A method without one of its limits.
    #[error("J7")]
    Limit,
    /// A byte that may not stand in a text.
    #[error("J8")]
    Byte,
    /// Memory ran out.
    #[error("J9")]
    Memory,
}

impl Fault {
    /// The number after the J by which users know the fault, from 1 to 9.
    pub fn number(self) -> u8 {
        self as u8 + 1
    }

    /// Of two faults of a line the one with the lower number.
    pub fn or_lower(self, other: Fault) -> Fault {
        if other.number() < self.number() {
            other
        } else {
            self
        }
    }
}

impl From<AllocError> for Fault {
    ghost from_gives = { λ _ e. e ≡ Memory };

    fn from(_e: AllocError) -> Fault {
        Fault::Memory
    }
}

impl<T: Drop> From<AllocFailed<T>> for Fault {
    ghost from_gives = { λ _ e. e ≡ Memory };

    fn from(_e: AllocFailed<T>) -> Fault {
        Fault::Memory
    }
}

/// Why a text was refused: the least line that is at fault, counted from 1, and the first of its faults by number.
/// What is missing at the end is reported at the number of lines plus 1.
#[derive(Clone, Copy, Debug, PartialEq, Eq, Error)]
#[error("{fault} at line {line}")]
pub struct TextError {
    pub line: usize,
    pub fault: Fault,
}
