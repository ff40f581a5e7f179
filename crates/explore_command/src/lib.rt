//! `jvm explore`: every schedule of the program of some files, or what can follow a run of it.
#![tactic(auto)]

mod beginnings;
pub mod commanding;
mod dividing;
mod witnesses;
