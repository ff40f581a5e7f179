//! What objects are of.

use linking::operations::TypeNumber;

/// What an object is of: a class, by its number, or arrays of an element type.
#[derive(Clone, Copy, PartialEq, Eq)]
pub enum Kind {
    Instance(u16),
    Array(TypeNumber),
}

/// Whether a thread runs, or how it ended: by its last return, or by a throwable of this kind. What is no object has
/// none.
#[derive(Clone, Copy, PartialEq, Eq)]
pub enum Course {
    Live,
    Returned,
    Threw(Option<Kind>),
}
