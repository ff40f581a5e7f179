//! From the bytes of sources to a world.
ghost use Rattle.std.specs.Prelude.{◌≡◌, IfOk, IfErr, MatchResult, None};
ghost use Rattle.model.specs.Accepted.Refusals.{refusal_of};
ghost use Rattle.model.specs.declared.journals.HeapShape.{HeapShape};
ghost use Rattle.model.specs.declared.journals.Limits.{Limits};
ghost use Rattle.launcher.specs.Launching.{AreListings, Excuses, IsLaunched, bytes_of};

use crate::loading::load_listings;
use crate::sources::{SourceError, source_listing};
use acceptance::LoadError;
use loader::programs::Program;
use model::journals::{HeapShape, Limits};
use model::listings::Listing;
use model::turns::Actor;
use scheduler::worlds::{World, WorldError};
use std::alloc::Global;
use thiserror::Error;

/// Why there is no world of some sources.
#[derive(Debug, Drop, Error)]
pub enum LaunchError {
    /// A source was refused, by its place from 0.
    #[error("{error}")]
    Source { place: usize, error: SourceError },
    /// The listings are no program.
    #[error("{0}")]
    Load(LoadError),
    /// The shape or the limits are out of range.
    #[error("{0}")]
    World(WorldError),
}

/// The listings of some sources, in order; the first that has none is reported with its place.
fn read_sources(alloc: Global, sources: &[Vec<u8>]) -> Result<Vec<Listing>, LaunchError>
    ensures { MatchResult result (λ listings. AreListings (bytes_of sources.now) listings.items)
        (λ e. (shape : HeapShape) (limits : Limits) → Excuses (bytes_of sources.now) shape limits e) }
{
    let mut listings = Vec::new(alloc);
    for (place, source) in sources.iter().enumerate() {
        match source_listing(alloc, source.as_slice()) {
            Ok(listing) => match listings.push(listing) {
                Ok(()) => {}
                Err(_) => return Err(LaunchError::World(WorldError::Memory)),
            },
            Err(error) => return Err(LaunchError::Source { place, error }),
        }
    }
    Ok(listings)
}

/// The program of some sources: class files, which begin with cafebabe, and texts. The first refusal that is met is
/// reported: of the first source that has no listing, by its place; the first rule that the listings break. Want of
/// memory may come in place of any.
pub fn program_of(alloc: Global, sources: &[Vec<u8>]) -> Result<Program, LaunchError>
    ensures listings { IfOk result (λ program. AreListings (bytes_of sources.now) program) }
    ensures accepted { IfOk result (λ program. refusal_of program ≡ None) }
    ensures refused { IfErr result (λ e. (shape : HeapShape) (limits : Limits)
        → Excuses (bytes_of sources.now) shape limits e) }
{
    let listings = match read_sources(alloc, sources) {
        Ok(listings) => listings,
        Err(error) => return Err(error),
    };
    match load_listings(alloc, listings) {
        Ok(program) => Ok(program),
        Err(error) => Err(LaunchError::Load(error)),
    }
}

/// Reads class files and texts, makes a world of their classes, and lets the actors take their turns in it, one each. A
/// source that begins with cafebabe is a class file, every other one a text.
///
/// The first of these refusals that is met is reported: the first source that is no class file, or isn't in the text
/// relation or doesn't assemble, by its place; the first rule that the listings break; P1, P2, and P4 where the frames
/// that the program opens with pass a thread's limits. Want of memory may come in place of any.
pub fn launch(
    alloc: Global,
    sources: Vec<Vec<u8>>,
    shape: HeapShape,
    limits: Limits,
    actors: &[Actor],
) -> Result<World, LaunchError>
    ensures launched { IfOk result (IsLaunched (bytes_of sources.items) shape limits actors.now) }
    ensures refused { IfErr result (Excuses (bytes_of sources.items) shape limits) }
{
    let program = match program_of(alloc, sources.as_slice()) {
        Ok(program) => program,
        Err(error) => return Err(error),
    };
    match World::new(alloc, program, shape, limits) {
        Ok(mut world) => {
            world.run(actors);
            Ok(world)
        }
        Err(error) => Err(LaunchError::World(error)),
    }
}
