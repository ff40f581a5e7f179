//! Reads Jasmin texts as trees.
//!
//! The syntax is that of the Jasmin assembler in this project's profile: one class, in statements of one line each.
#![tactic(auto)]

mod bodies;
mod catches;
mod errors;
mod fields;
mod flags;
mod heads;
mod instructions;
mod label_lines;
mod labels;
mod laws;
mod locals;
mod mnemonics;
mod notes;
mod operands;
mod reader;
mod shared_names;
mod signatures;
mod switches;
mod tables;
mod uses;
mod written_numbers;

pub use errors::{Fault, TextError};
pub use labels::Labels;
pub use laws::texts_are_spelled;
pub use mnemonics::word_of;
pub use reader::{read, read_watched};
