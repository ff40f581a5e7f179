//! Why a state can't be made.

use std::alloc::AllocError;

/// Why a program has no state to open with.
#[derive(Clone, Copy, Debug, PartialEq, Eq, Drop)]
pub enum StateError {
    /// There is no memory.
    Memory,
    /// The frames with which the first thread opens pass a thread's limits: 256 frames, and 4,096 units.
    Frames,
}

impl From<AllocError> for StateError {
    ghost use Rattle.std.specs.Prelude.{◌≡◌};
    ghost use Rattle.instructions.specs.declared.errors.StateError.TheVariants.{Memory};

    ghost from_gives = { λ _ e. e ≡ Memory };

    fn from(_error: AllocError) -> StateError {
        StateError::Memory
    }
}
