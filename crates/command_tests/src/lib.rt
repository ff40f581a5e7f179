//! The tests of the commands, over files in memory; see text_tests.
#![tactic(auto)]

#[cfg(test)]
mod executing_tests;
#[cfg(test)]
mod memory_files;
