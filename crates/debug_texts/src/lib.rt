//! The debugger's language: command lines as they are read and what they say, and the text of each answer.
//!
//! Lines come from a `Source` and answers go to a `Sink`: a reader and a writer that count their failed calls. What a
//! world is, and what a command does to it, is not known here.
#![tactic(auto)]

pub mod answers;
pub mod commands;
pub mod counted;
pub mod frames;
pub mod heaps;
pub mod lines;
pub mod objects;
pub mod sinks;
pub mod sources;
pub mod values;
