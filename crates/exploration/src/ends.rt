//! How threads end.
use model::names::Name;

/// What a thread has come to.
#[derive(Debug, PartialEq, Eq, Drop)]
pub enum End {
    /// It lives.
    Lives,
    /// It has ended: normally, or by an exception of a class.
    Ended(Option<Name>),
}
