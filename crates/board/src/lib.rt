//! A board: how much each worker has done, and whether a stop was asked, for all to see without a lock.
//!
//! Each worker has a word with its count, which only its seat changes, and all have one word for the stop. A call is
//! one atomic step or a few: an addition to the own word, an or on the stop, a load. None of the calls on a made board
//! waits or takes memory.
#![tactic(auto)]

mod boards;
mod closing;
mod error;
mod meeting;
mod observers;
mod rule;
mod seating;
mod seats;
mod steps;
mod views;

pub use boards::Board;
pub use error::BoardError;
pub use seats::BoardSeat;

#[cfg(test)]
mod tests;
