//! The states of a program that a search through its schedules finds: canonical forms of worlds, a set of them, in which
//! each is known by a chain of pieces, what the turns of a state lead to, and parts by which an exploration is shared out.
#![tactic(auto)]

ghost use Rattle.exploring.specs.States.{KeysTell};

mod ahead;
mod chains;
mod entered;
mod explored;
mod forms;
mod keys;
mod names;
mod origins;
mod outcomes;
mod parts;
mod pieces;
mod schedules;
mod search;
mod starts;
mod states;
mod walk;

pub use exploration::ends::End;
pub use explored::{Bounds, Cut, Explored, Found, Move, Outcome};
pub use forms::canonical;
pub use ideal_run::Choice;
pub use parts::{Part, split};
pub use schedules::{explore, explore_after};
pub use states::States;

/// Worlds that have one key are equal, whichever names the table has.
pub fn keys_tell()
    ensures { KeysTell }
{}
