//! From the bytes of sources and a journal to a world.
ghost use Rattle.std.specs.Prelude.{IfOk, IfErr};
ghost use Rattle.launcher.specs.Launching.{bytes_of};
ghost use Rattle.launcher.specs.Replaying.{ExcusesReplayed, IsReplayed};

use crate::launching::{LaunchError, program_of};
use model::stored_journals::StoredJournal;
use model::watching::Watch;
use scheduler::replaying::{ReplayError, replay_watched};
use scheduler::worlds::World;
use std::alloc::Global;

/// Why there is no world of some sources and a journal.
#[derive(Drop)]
pub enum ReplayedError {
    /// A source was refused, or the listings are no program.
    Launch(LaunchError),
    /// The journal isn't one of a run of that program.
    Replay(ReplayError),
}

/// Reads class files and texts as `launch` does, and replays a journal on the program of their classes. A watch is told
/// as `replay_watched` does.
///
/// The first of these refusals that is met is reported: the first source that has no listing, by its place; the first
/// rule that the listings break; P4 where the frames that the program opens with pass a thread's limits; the first row
/// that isn't the one of its turn. Want of memory may come in place of any.
pub fn replayed<P: Watch>(
    alloc: Global,
    sources: Vec<Vec<u8>>,
    journal: &StoredJournal,
    watch: &mut P,
) -> Result<World, ReplayedError>
    ensures replayed { IfOk result (IsReplayed (bytes_of sources.items) journal.now) }
    ensures refused { IfErr result (ExcusesReplayed (bytes_of sources.items) journal.now) }
{
    let program = match program_of(alloc, sources.as_slice()) {
        Ok(program) => program,
        Err(error) => return Err(ReplayedError::Launch(error)),
    };
    match replay_watched(alloc, program, journal, watch) {
        Ok(world) => Ok(world),
        Err(error) => Err(ReplayedError::Replay(error)),
    }
}
