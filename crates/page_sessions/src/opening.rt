//! The world with which a session begins.

use launcher::launching::{LaunchError, launch};
use model::journals::{HeapShape, Limits};
use page_texts::settings::{heap, limits, source, sources_count};
use scheduler::worlds::{World, WorldError};
use std::alloc::{AllocError, Global};

/// The heap, the limits, and how many sources there are, with what stands after them.
#[derive(Drop)]
struct Head<'a> {
    shape: HeapShape,
    limits: Limits,
    sources: u32,
    rest: &'a [u8],
}

/// Why there is no world.
#[derive(Drop)]
pub enum OpeningError {
    /// What stands before the requests is not as it should be.
    Input,
    /// The program was refused, or the shape or the limits are out of range.
    Launch(LaunchError),
    /// Memory ran out.
    Memory,
}

impl From<AllocError> for OpeningError {
    fn from(_error: AllocError) -> OpeningError {
        OpeningError::Memory
    }
}

fn head_of(text: &[u8]) -> Option<Head<'_>> {
    let (shape, rest) = heap(text)?;
    let (limits, rest) = limits(rest)?;
    let (sources, rest) = sources_count(rest)?;
    Some(Head {
        shape,
        limits,
        sources,
        rest,
    })
}

/// Adds so many sources, with which a text begins, and answers what stands after them.
fn add_sources<'a>(
    alloc: Global,
    sources: &mut Vec<Vec<u8>>,
    count: u32,
    text: &'a [u8],
) -> Result<Option<&'a [u8]>, AllocError> {
    let mut rest = text;
    for _source in 0..count {
        match source(rest) {
            Some((bytes, following)) => {
                sources.push(Vec::from_slice(alloc, bytes)?)?;
                rest = following;
            }
            None => return Ok(None),
        }
    }
    Ok(Some(rest))
}

/// The world of what stands before the requests.
fn launched(alloc: Global, head: &Head<'_>, sources: Vec<Vec<u8>>) -> Result<World, OpeningError> {
    match launch(alloc, sources, head.shape, head.limits, &[]) {
        Ok(world) => Ok(world),
        Err(LaunchError::World(WorldError::Memory)) => Err(OpeningError::Memory),
        Err(error) => Err(OpeningError::Launch(error)),
    }
}

/// The world that an input begins with, and the requests after it.
pub fn opened<'a>(alloc: Global, input: &'a [u8]) -> Result<(World, &'a [u8]), OpeningError> {
    let Some(head) = head_of(input) else {
        return Err(OpeningError::Input);
    };
    let mut sources = Vec::new(alloc);
    match add_sources(alloc, &mut sources, head.sources, head.rest)? {
        Some(rest) => {
            let world = launched(alloc, &head, sources)?;
            Ok((world, rest))
        }
        None => Err(OpeningError::Input),
    }
}

/// What is told of a refusal.
pub fn refusal(alloc: Global, error: &OpeningError) -> Result<String, AllocError> {
    match error {
        OpeningError::Input => format!(in alloc; "refused input\n"),
        OpeningError::Memory => format!(in alloc; "refused memory\n"),
        OpeningError::Launch(LaunchError::Source { place, error }) => {
            format!(in alloc; "refused source {place} {error}\n")
        }
        OpeningError::Launch(LaunchError::Load(error)) => {
            format!(in alloc; "refused load {error}\n")
        }
        OpeningError::Launch(LaunchError::World(error)) => {
            format!(in alloc; "refused world {error}\n")
        }
    }
}
