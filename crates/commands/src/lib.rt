//! What `jvm` does at a command: commands over files and streams, and who carries a run's turns.
#![tactic(auto)]

pub mod carriers;
mod debugging;
pub mod executing;
