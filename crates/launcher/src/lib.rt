//! From the bytes of sources to a world, and from those of sources and a journal.
#![tactic(auto)]

pub mod launching;
pub mod laws;
pub mod loading;
pub mod replaying;
pub mod sources;
