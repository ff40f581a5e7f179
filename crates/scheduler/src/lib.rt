//! Worlds: a program, its heap's shape and limits, and the turns that it makes.
#![tactic(auto)]

pub mod replaying;
pub mod rounds;
pub mod worlds;
