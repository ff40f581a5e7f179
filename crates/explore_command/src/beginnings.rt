//! Where an exploration begins: at the opening, after the run of a journal, or after some turns.

use command_line::endings::{Ending, Exit};
use command_line::options::{ExploreOptions, WorldOptions};
use explore_texts::witnesses::turns_in;
use exploring::{Bounds, Choice, Move};
use ideal_run::{Ideal, Transitions};
use loader::programs::Program;
use model::journals::{Limits, Outcome};
use model::turns::Actor;
use model::watching::Unwatched;
use program_files::files::Files;
use program_files::launching::launched;
use program_files::stored_runs::{replayed_world, stored_in};
use program_files::whole_files::read_one;
use scheduler::worlds::World;
use std::alloc::{AllocError, Global};

/// The least world: what is refused as a program has none.
const LEAST: WorldOptions = WorldOptions {
    small: 2,
    medium: 0,
    large: 0,
    steps: 1,
    output: 0,
};

/// A program, the limits of its runs, and the turns that come first.
#[derive(Drop)]
pub struct Beginning {
    world: World,
    pub limits: Limits,
    pub first: Vec<Move>,
}

impl Beginning {
    /// The program.
    pub fn program(&self) -> &Program {
        self.world.program()
    }
}

/// Makes turns of a run until one is refused; how many were made.
fn made(run: &mut Ideal<'_>, turns: &[Move]) -> Result<usize, AllocError> {
    for (place, turn) in turns.iter().enumerate() {
        let before = run.world().rows();
        run.turn(Actor::Thread(turn.thread), turn.choice)?;
        if run.world().rows() == before {
            return Ok(place);
        }
    }
    Ok(turns.len())
}

/// How many turns of a program are made before one is refused.
fn made_first(
    alloc: Global,
    program: &Program,
    limits: Limits,
    turns: &[Move],
) -> Result<usize, AllocError> {
    match Ideal::new(alloc, program.listings(), limits)? {
        Some(mut run) => made(&mut run, turns),
        None => Ok(0),
    }
}

/// Whether a turn after some others is at fault if it finds a cell, or asks for none.
fn faults_with_room(
    alloc: Global,
    program: &Program,
    limits: Limits,
    earlier: &[Move],
    thread: u8,
) -> Result<bool, AllocError> {
    let Some(mut run) = Ideal::new(alloc, program.listings(), limits)? else {
        return Ok(true);
    };
    made(&mut run, earlier)?;
    run.turn(Actor::Thread(thread), Choice::NewObject)?;
    Ok(run.world().fault().is_some())
}

/// Whether the turn of a row found a cell, or asked for none, after some others. A row at fault doesn't tell: there was
/// one if the turn is at fault with it.
fn choice_of(
    alloc: Global,
    world: &World,
    earlier: &[Move],
    thread: u8,
    outcome: Outcome,
) -> Result<Choice, AllocError> {
    let finds = match outcome {
        Outcome::Done | Outcome::Object => true,
        Outcome::NoRoom => false,
        Outcome::Fault => {
            let limits = world.journal().limits();
            faults_with_room(alloc, world.program(), limits, earlier, thread)?
        }
    };
    Ok(if finds {
        Choice::NewObject
    } else {
        Choice::NoRoom
    })
}

/// The turns of the threads in a run. Those of the collector change nothing that an exploration sees.
fn turns_of(alloc: Global, world: &World) -> Result<Vec<Move>, AllocError> {
    let mut turns = Vec::new(alloc);
    for row in world.journal().rows() {
        if let Actor::Thread(thread) = row.actor {
            let choice = choice_of(alloc, world, &turns, thread, row.outcome)?;
            turns.push(Move { thread, choice })?;
        }
    }
    Ok(turns)
}

/// The beginning after the run of a journal, which is checked as by a replay. The limits are the journal's.
fn after_journal<F: Files>(
    alloc: Global,
    text: &[u8],
    names: &[String],
    files: &mut F,
) -> Result<Beginning, Ending> {
    let journal = stored_in(alloc, text)?;
    let world = replayed_world(alloc, &journal, names, files, &mut Unwatched)?;
    let first = turns_of(alloc, &world)?;
    Ok(Beginning {
        world,
        limits: journal.limits(),
        first,
    })
}

/// The beginning of a program after some turns.
fn after_turns<F: Files>(
    alloc: Global,
    first: Vec<Move>,
    options: &ExploreOptions,
    files: &mut F,
) -> Result<Beginning, Ending> {
    Ok(Beginning {
        world: launched(alloc, LEAST, &options.files, files)?,
        limits: options.limits,
        first,
    })
}

/// Where an exploration begins: at the opening, or after the turns of a text, or after the run of a journal.
pub fn begin<F: Files>(
    alloc: Global,
    options: &ExploreOptions,
    files: &mut F,
) -> Result<Beginning, Ending> {
    let Some(name) = &options.from else {
        return after_turns(alloc, Vec::new(alloc), options, files);
    };
    let text = read_one(alloc, files, name)?;
    match turns_in(alloc, &text)? {
        Some(first) => after_turns(alloc, first, options, files),
        None => after_journal(alloc, &text, &options.files, files),
    }
}

/// The transitions of a beginning's program.
pub fn transitions_of(alloc: Global, begun: &Beginning) -> Result<Transitions<'_>, Ending> {
    match Transitions::new(alloc, begun.program().listings(), begun.limits)? {
        Some(transitions) => Ok(transitions),
        None => Err(Ending::memory()),
    }
}

/// The end of an exploration after turns of which one is refused.
pub fn turn_refused(alloc: Global, begun: &Beginning) -> Ending {
    match made_first(alloc, begun.program(), begun.limits, &begun.first) {
        Ok(made) => {
            let row = made.saturating_add(1);
            Ending::reported(Exit::Refused, format!(in alloc; "turns N5 at row {row}"))
        }
        Err(_) => Ending::memory(),
    }
}

/// How far an exploration goes.
pub fn bounds_of(options: &ExploreOptions) -> Bounds {
    Bounds {
        states: options.states,
        no_room: options.no_room,
    }
}
