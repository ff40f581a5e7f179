//! One exploration, shared out to threads of this machine by its parts, and the reports of the parts put together.
#![tactic(auto)]

mod merging;
mod outcomes;
mod together;

pub use together::explore_together;
