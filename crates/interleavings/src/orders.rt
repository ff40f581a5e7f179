//! All orders of nine turns.

use crate::errors::RaceError;
use crate::lists::{LISTS, ORDERED, advance, first_list};
use crate::races::Race;
use crate::sides::Sides;
use acceptance::accept;
use loader::programs::Program;
use model::listings::Listing;
use model::turns::Actor;
use std::alloc::Global;
use std::{fmt, fs, rt};

/// How much was run and compared.
#[derive(Clone, Copy)]
pub struct Counts {
    /// lists of actors, each from the beginning of its program
    pub runs: u64,
    /// turns that were asked for in them
    pub turns: u64,
    /// those that the world refused
    pub refused: u64,
    /// objects that were made
    pub objects: u64,
    /// times at which a world was compared with its ideal run
    pub comparisons: u64,
}

impl fmt::Display for Counts {
    fn fmt<W: fmt::Write>(&self, f: &mut fmt::Formatter<W>) -> fmt::Result {
        let Counts {
            runs,
            turns,
            refused,
            objects,
            comparisons,
        } = *self;
        write!(
            f,
            "{runs} runs, {turns} turns, {refused} refused, {objects} objects, {comparisons} comparisons"
        )
    }
}

/// Makes the turns of a list from the beginning of a program, and compares after each but those `shared` in front, which
/// the run before made and compared.
fn run(
    sides: &mut Sides<'_>,
    actors: &[Actor],
    shared: usize,
    counts: &mut Counts,
) -> Result<(), RaceError> {
    sides.reopen()?;
    for (place, actor) in actors.iter().enumerate() {
        if !sides.turn(*actor)? {
            counts.refused = counts.refused.saturating_add(1);
        }
        if shared <= place {
            if !sides.agree()? {
                let run = counts.runs;
                return Err(RaceError::Differs { run, turn: place });
            }
            counts.comparisons = counts.comparisons.saturating_add(1);
        }
        counts.turns = counts.turns.saturating_add(1);
    }
    counts.objects = counts.objects.saturating_add(sides.objects());
    counts.runs = counts.runs.saturating_add(1);
    Ok(())
}

/// Runs all lists that begin as the first one does.
fn runs_from(
    sides: &mut Sides<'_>,
    mut actors: Vec<Actor>,
    counts: &mut Counts,
) -> Result<(), RaceError> {
    let opening = actors.len().saturating_sub(ORDERED);
    let mut shared = 0;
    for _run in 0..LISTS {
        run(sides, &actors, shared, counts)?;
        shared = advance(&mut actors, opening);
    }
    Ok(())
}

/// What a text lists.
fn listed<R: rt::Files + AllocGlobal>(
    rt: &R,
    alloc: Global,
    name: &str,
) -> Result<Listing, RaceError> {
    let text = match fs::read(rt, name) {
        Ok(text) => text,
        Err(_) => return Err(RaceError::Text),
    };
    let tree = match jasmin::read(alloc, &text) {
        Ok(tree) => tree,
        Err(_) => return Err(RaceError::Text),
    };
    match assembler::listing(alloc, tree) {
        Ok(listing) => Ok(listing),
        Err(_) => Err(RaceError::Program),
    }
}

/// The program of some texts.
fn program<R: rt::Files + AllocGlobal>(
    rt: &R,
    alloc: Global,
    names: &[&str],
) -> Result<Program, RaceError> {
    let mut listings = Vec::new(alloc);
    for name in names {
        match listings.push(listed(rt, alloc, *name)?) {
            Ok(()) => {}
            Err(_) => return Err(RaceError::Memory),
        }
    }
    match accept(alloc, listings.as_slice()) {
        Ok(()) => Ok(Program::new(alloc, listings)?),
        Err(_) => Err(RaceError::Program),
    }
}

/// Runs all lists of a race, on what was made for them.
fn run_all(
    alloc: Global,
    race: &Race,
    sides: &mut Sides<'_>,
    counts: &mut Counts,
) -> Result<(), RaceError> {
    for sweeps in race.fewest..=race.most {
        let first = first_list(alloc, race.opening, sweeps)?;
        runs_from(sides, first, counts)?;
    }
    Ok(())
}

/// Runs all lists of a race on its program.
fn counted(alloc: Global, race: &Race, program: &Program) -> Result<Counts, RaceError> {
    let mut sides = Sides::new(alloc, program, race.cells)?;
    let mut counts = Counts {
        runs: 0,
        turns: 0,
        refused: 0,
        objects: 0,
        comparisons: 0,
    };
    run_all(alloc, race, &mut sides, &mut counts)?;
    Ok(counts)
}

/// Runs a program in all orders.
pub fn all_orders<R: rt::Files + AllocGlobal>(
    rt: &R,
    alloc: Global,
    race: &Race,
) -> Result<Counts, RaceError> {
    let program = program(rt, alloc, race.texts)?;
    counted(alloc, race, &program)
}
