//! A hall: workers, each in a thread of its own if need be, who share a world under one lock.
//!
//! What a worker does is its role. Its share counts the rows that it made in the journal, and the shares of all workers
//! together count all rows.
#![tactic(auto)]

mod carrying;
mod driving;
mod dues;
mod error;
mod halls;
mod patience;
mod roles;
mod shares;
mod turns;

pub use carrying::{Gate, carry};
pub use driving::drive;
pub use error::HallError;
pub use halls::Hall;
pub use roles::{Burst, Role};
pub use shares::{Share, Shared};
