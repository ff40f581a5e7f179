//! The vocabulary and the definitions of the machine: what every contract of the crates above speaks of.
//!
//! `src/` has the types that code and definitions share: names, access flags, values, instructions, listings, actors,
//! turns, journals; and the tests of names and descriptors, which all readers share. `specs/` has the definitions: the
//! instruction table, the ideal run, the heap's account, the text relation and the worked rows that compute.
#![tactic(auto)]

pub mod builtins;
pub mod bytecode;
pub mod class_files;
pub mod collector;
pub mod colours;
pub mod descriptors;
pub mod flags;
pub mod good_names;
pub mod instructions;
pub mod journal_parts;
pub mod journals;
pub mod listings;
pub mod mnemonics;
pub mod names;
pub mod places;
pub mod refusals;
pub mod row_runs;
pub mod stored_journals;
pub mod trees;
pub mod turns;
pub mod values;
pub mod views;
pub mod watching;
