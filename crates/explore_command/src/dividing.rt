//! Parts of an exploration, each in a file: runs after which others can begin.

use crate::beginnings::{Beginning, bounds_of, transitions_of, turn_refused};
use crate::witnesses::write_witness;
use command_line::endings::Ending;
use command_line::options::ExploreOptions;
use exploring::{Bounds, Cut, Move, Part, split};
use program_files::files::Files;
use program_files::whole_files::write_text;
use std::alloc::{AllocError, Global};
use std::io::Write;

/// The parts that there are, or how the command ends without them.
fn parted(
    alloc: Global,
    begun: &Beginning,
    parts: Result<Option<Vec<Part>>, Cut>,
) -> Result<Vec<Part>, Ending> {
    match parts {
        Ok(Some(parts)) => Ok(parts),
        Ok(None) => Err(turn_refused(alloc, begun)),
        Err(_) => Err(Ending::memory()),
    }
}

/// The parts into which an exploration is divided, at most so many; none where nothing that follows its beginning comes
/// to rest.
fn divided(
    alloc: Global,
    begun: &Beginning,
    bounds: Bounds,
    most: u32,
) -> Result<Vec<Part>, Ending> {
    let transitions = transitions_of(alloc, begun)?;
    let parts = split(alloc, &transitions, &begun.first, bounds, most);
    parted(alloc, begun, parts)
}

/// The one part that is all: what some turns lead to.
fn undivided(alloc: Global, first: &[Move]) -> Result<Vec<Part>, AllocError> {
    let mut parts = Vec::new(alloc);
    let moves = Vec::from_slice(alloc, first)?;
    parts.push(Part { moves })?;
    Ok(parts)
}

/// Writes each part of an exploration into a folder, by its number from 1, and how many there are to standard output.
fn write_parts<F: Files, W: Write>(
    alloc: Global,
    begun: &Beginning,
    parts: &[Part],
    folder: &str,
    files: &mut F,
    output: &mut W,
) -> Result<Ending, Ending> {
    for (place, part) in parts.iter().enumerate() {
        write_witness(
            alloc,
            files,
            begun.program(),
            begun.limits,
            folder,
            place + 1,
            &part.moves,
        )?;
    }
    let count = parts.len();
    let line = format!(in alloc; "parts {count}\n")?;
    write_text(alloc, line.as_bytes(), output)
}

/// Divides what can follow a beginning into at most so many parts, one at least, and writes them into the folder of
/// witnesses, or this one.
pub fn split_up<F: Files, W: Write>(
    alloc: Global,
    begun: &Beginning,
    options: &ExploreOptions,
    most: u32,
    files: &mut F,
    output: &mut W,
) -> Result<Ending, Ending> {
    let mut parts = divided(alloc, begun, bounds_of(options), most)?;
    if parts.is_empty() {
        parts = undivided(alloc, &begun.first)?;
    }
    let folder = match &options.witnesses {
        Some(folder) => folder.as_str(),
        None => ".",
    };
    write_parts(alloc, begun, &parts, folder, files, output)
}
