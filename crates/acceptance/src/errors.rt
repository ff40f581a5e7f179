//! Why a list of listings is no program, as users see it.

use model::names::Name;
use model::refusals::LoadRule;
use std::alloc::AllocError;
use thiserror::Error;

/// A refusal of listings.
#[derive(Debug, Drop, Error)]
pub enum LoadError {
    /// A rule is broken, and this is the first class in order that breaks it: `L6 in class X`.
    #[error("{rule} in class {class}")]
    InClass { rule: LoadRule, class: Name },
    /// A rule is broken by no class: `L9`, where there is none.
    #[error("{rule}")]
    InProgram { rule: LoadRule },
    /// Memory ran out.
    #[error("L12")]
    Memory(AllocError),
}
