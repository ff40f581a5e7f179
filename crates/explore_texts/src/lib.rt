//! What `jvm explore` says: the report of an exploration, and the turns of a witness.
//!
//! A report goes to a `Sink`, piece by piece, so that it takes no memory: an exploration may have ended for want of it.
#![tactic(auto)]

pub mod reports;
pub mod witnesses;
