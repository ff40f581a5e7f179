//! Calls that take memory, each as a test that tools/memory_refused.py runs once for each request; see text_tests.
#![tactic(auto)]

#[cfg(test)]
mod call_tests;
