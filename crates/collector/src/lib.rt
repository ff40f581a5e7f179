//! The collector: one step at a time, beside the threads (Dijkstra, Lamport, Martin, Scholten and Steffens,
//! CACM 21(11), 1978).
#![tactic(auto)]

pub mod reaching;
pub mod references;
pub mod steps;
#[cfg(test)]
mod tests;

pub use reaching::{Reaching, reached};
pub use references::References;
pub use steps::{append_quickly, collect_step};
