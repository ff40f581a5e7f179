//! From listings to a program as the machine runs it: the steps of its methods, and their register code.
#![tactic(auto)]

mod call_entries;
mod heights;
mod known_calls;
pub mod method_codes;
mod prepared;
pub mod programs;
pub mod signatures;
mod step_lists;
mod translated_operations;
mod translation;
