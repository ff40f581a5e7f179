//! The tests of the crates whose worlds run, on small mains; see text_tests.
#![tactic(auto)]

#[cfg(test)]
mod checking_tests;
#[cfg(test)]
mod debugger_tests;
#[cfg(test)]
mod hall_tests;
#[cfg(test)]
mod heap_tests;
#[cfg(test)]
mod mains;
#[cfg(test)]
mod scheduler_tests;
