//! Sessions of the page: a program and requests are read, and answered by what can be seen of its machine.
#![tactic(auto)]

pub mod asking;
pub mod held;
pub mod looking;
pub mod opening;
pub mod playing;
pub mod schedules;
