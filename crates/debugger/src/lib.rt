//! The debugger: a session of command lines and answers with a world.
//!
//! Each command is a list of actors for the world, or a look at it. What the lines say and how answers read stands in
//! `debug_texts`.
#![tactic(auto)]

mod answering;
pub mod breakpoints;
pub mod carrying;
pub mod errors;
pub mod places;
pub mod runs;
pub mod sessions;
pub mod writing;

pub use sessions::debug;
