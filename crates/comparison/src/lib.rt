//! A world beside the ideal run of its program: whether its cells show that run, and a whole run compared with it.
#![tactic(auto)]

pub mod checking;
mod comparing;
pub mod references;
mod showing;

pub use showing::{shows, shows_world};
