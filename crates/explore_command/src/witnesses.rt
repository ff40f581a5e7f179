//! Witnesses in files: journals of runs, or lists of turns.

use command_line::endings::Ending;
use explore_texts::witnesses::turns_text;
use exploring::{Choice, Found, Move};
use loader::programs::Program;
use model::journals::{HeapShape, Limits, Outcome};
use model::turns::{Actor, Turn};
use program_files::files::Files;
use program_files::stored_runs::write_stored;
use program_files::whole_files::write_one;
use scheduler::worlds::World;
use std::alloc::Global;

/// A heap with cells of each size for as many births as any witness should need.
const ROOMY: HeapShape = HeapShape {
    small: 40_000,
    medium: 16_000,
    large: 1_400,
};

/// Whether a witness finds a cell whenever it asks for one.
fn finds_room(witness: &[Move]) -> bool {
    for turn in witness {
        if turn.choice == Choice::NoRoom {
            return false;
        }
    }
    true
}

/// Whether each turn of a world that asked for a cell took one.
fn found_room(world: &World) -> bool {
    for row in world.journal().rows() {
        if row.outcome == Outcome::NoRoom {
            return false;
        }
    }
    true
}

/// The world of a program on a heap of some shape after the turns of a witness; `None` where one of them is refused or
/// finds no cell.
fn led(
    alloc: Global,
    program: &Program,
    shape: HeapShape,
    limits: Limits,
    witness: &[Move],
) -> Result<Option<World>, Ending> {
    let Ok(copy) = program.copy() else {
        return Err(Ending::memory());
    };
    let Ok(mut world) = World::new(alloc, copy, shape, limits) else {
        return Err(Ending::memory());
    };
    for turn in witness {
        match world.turn(Actor::Thread(turn.thread)) {
            Turn::Done | Turn::Fault(_) => {}
            Turn::NotReady | Turn::Stopped | Turn::OutputFull | Turn::StepLimit => return Ok(None),
        }
    }
    if found_room(&world) {
        Ok(Some(world))
    } else {
        Ok(None)
    }
}

/// The cells of a world that hold something, by their sizes.
fn taken(world: &World) -> HeapShape {
    let mut shape = HeapShape {
        small: 0,
        medium: 0,
        large: 0,
    };
    for number in 0..world.cell_count() {
        match world.heap(number) {
            Some(cell) if cell.held.is_some() => match cell.words {
                4 => shape.small = shape.small.saturating_add(1),
                32 => shape.medium = shape.medium.saturating_add(1),
                _ => shape.large = shape.large.saturating_add(1),
            },
            _ => {}
        }
    }
    shape
}

/// The world after the turns of a witness, on a heap with just as many cells as they take; `None` where a cell has to be
/// missing, or no heap has as many.
fn witnessed(
    alloc: Global,
    program: &Program,
    limits: Limits,
    witness: &[Move],
) -> Result<Option<World>, Ending> {
    if !finds_room(witness) {
        return Ok(None);
    }
    match led(alloc, program, ROOMY, limits, witness)? {
        Some(world) => led(alloc, program, taken(&world), limits, witness),
        None => Ok(None),
    }
}

/// Writes the text of a witness's turns.
fn write_turns<F: Files>(
    alloc: Global,
    files: &mut F,
    name: &String,
    witness: &[Move],
) -> Result<(), Ending> {
    match turns_text(alloc, witness) {
        Ok(text) => write_one(alloc, files, name, text.as_slice()),
        Err(_) => Err(Ending::memory()),
    }
}

/// The name of a file in a folder.
fn path_of(alloc: Global, folder: &str, number: usize, kind: &str) -> Result<String, Ending> {
    match format!(in alloc; "{folder}/{number}.{kind}") {
        Ok(name) => Ok(name),
        Err(_) => Err(Ending::memory()),
    }
}

/// Writes the witness of an outcome into a folder: a journal, or the turns.
pub fn write_witness<F: Files>(
    alloc: Global,
    files: &mut F,
    program: &Program,
    limits: Limits,
    folder: &str,
    number: usize,
    witness: &[Move],
) -> Result<(), Ending> {
    match witnessed(alloc, program, limits, witness)? {
        Some(world) => {
            let name = path_of(alloc, folder, number, "journal")?;
            write_stored(alloc, files, &name, world.journal())
        }
        None => {
            let name = path_of(alloc, folder, number, "turns")?;
            write_turns(alloc, files, &name, witness)
        }
    }
}

/// Writes the witness of each outcome into a folder, by its number from 1.
pub fn write_witnesses<F: Files>(
    alloc: Global,
    files: &mut F,
    program: &Program,
    limits: Limits,
    folder: &str,
    found: &[Found],
) -> Result<(), Ending> {
    for (place, each) in found.iter().enumerate() {
        write_witness(
            alloc,
            files,
            program,
            limits,
            folder,
            place + 1,
            &each.witness,
        )?;
    }
    Ok(())
}
