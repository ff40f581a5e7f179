//! The command line of `jvm`: what its words say, how a command ends, and what codes mean.
#![tactic(auto)]

pub mod endings;
pub mod explaining;
pub mod options;
