//! What an exploration finds.
use exploration::ends::End;
use ideal_run::Choice;
use model::turns::{Fault, Status};
use std::alloc::AllocError;
use std::marker::Model;

/// How far a search goes.
#[derive(Clone, Copy, Debug, PartialEq, Eq)]
pub struct Bounds {
    /// how many states it may keep
    pub states: u32,
    /// whether each turn that asks for a cell is also made as if none were free
    pub no_room: bool,
}

/// Why a search was cut off.
#[derive(Clone, Copy, Debug, PartialEq, Eq)]
pub enum Cut {
    /// There are more states than it may keep.
    States,
    /// Memory ran out, or a number has no room.
    Memory,
    /// Some state is as many turns away from the opening as the limit of steps allows, and isn't known to be the last.
    Depth,
}

impl From<AllocError> for Cut {
    ghost use Rattle.std.specs.Prelude.{◌≡◌};
    ghost use Rattle.exploring.specs.declared.explored.Cut.TheVariants.{Memory};

    ghost from_gives = { λ _ e. e ≡ Memory };

    fn from(_error: AllocError) -> Cut {
        Cut::Memory
    }
}

/// A turn of a thread, and whether it finds a cell where it asks for one.
#[derive(Clone, Copy, Debug, PartialEq, Eq)]
pub struct Move {
    pub thread: u8,
    pub choice: Choice,
}

/// What is observed of a run in which no thread can go on: what it printed, the fault with its thread, what each thread
/// came to, in order, and the status. The status is `Running` where some thread is ready, and each that is would print
/// more than the limit of output allows.
#[derive(Drop)]
pub struct Outcome {
    pub output: Vec<u8>,
    pub fault: Option<(Fault, u8)>,
    pub ends: Vec<End>,
    pub status: Status,
}

impl Model for Outcome {
    ghost use Rattle.exploration.specs.Observations.{Observed};

    ghost Value = { Observed };

    ghost view = { λ a. record { output = a.output.items; fault = a.fault; ends = a.ends.items; status = a.status } };
}

/// An outcome, and the turns of a run that comes to it.
#[derive(Drop)]
pub struct Found {
    pub outcome: Outcome,
    pub witness: Vec<Move>,
}

impl Model for Found {
    ghost use Rattle.exploring.specs.Explorations.{Finding};

    ghost Value = { Finding };

    ghost view = { λ a. record { outcome = a.outcome; moves = a.witness.items } };
}

/// Outcomes in the order in which they were found, each once; how many states there are, and how many turns were made of
/// them; and why the search was cut off, if it was.
#[derive(Drop)]
pub struct Explored {
    pub found: Vec<Found>,
    pub states: u64,
    pub turns: u64,
    pub cut: Option<Cut>,
}

impl Model for Explored {
    ghost use Rattle.exploring.specs.Explorations.{Report};

    ghost Value = { Report };

    ghost view = { λ a. record { found = a.found.items; states = a.states; turns = a.turns; cut = a.cut } };
}
