//! The tests of `exploring` and `explore_texts`, on small programs; see text_tests.
#![tactic(auto)]

#[cfg(test)]
mod exploring_tests;
#[cfg(test)]
mod parts_tests;
#[cfg(test)]
mod programs;
#[cfg(test)]
mod reports_tests;
