//! The disassembler: the text of a class's listing.
#![tactic(auto)]

mod classes;
mod code;
mod files;
mod instructions;
mod labels;
mod laws;
mod rereading;
mod words;

pub use classes::text;
pub use files::disassemble;
pub use laws::{class_files_are_spelled, programs_are_sayable, texts_come_back};
pub use rereading::{AgainError, TreeError, again, tree};
