//! Journals as texts: written in version 2, read in versions 1 and 2.
#![tactic(auto)]

pub mod errors;
mod heads;
pub mod reading;
mod row_lines;
pub mod words;
pub mod writing;
