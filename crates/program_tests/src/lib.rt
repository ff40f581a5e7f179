//! The tests of the crates that load programs and hold frames, cells and colours; see text_tests.
#![tactic(auto)]

#[cfg(test)]
mod cells_tests;
#[cfg(test)]
mod frames_tests;
#[cfg(test)]
mod ideal_run_tests;
#[cfg(test)]
mod loader_tests;
#[cfg(test)]
mod resolve_tests;
#[cfg(test)]
mod texts;
#[cfg(test)]
mod values_tests;
