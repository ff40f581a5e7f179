//! Runs that are stored as journals, replayed from them, and journals that are upgraded.

use crate::files::Files;
use crate::launching::refused;
use crate::run_ends::{ended, write_output};
use crate::whole_files::{read_all, read_one, write_one};
use command_line::endings::{Ending, Exit};
use command_line::options::{ReplayOptions, UpgradeOptions};
use journal_texts::errors::JournalError;
use journal_texts::reading::read_journal;
use journal_texts::writing::write_journal;
use launcher::replaying::{ReplayedError, replayed};
use model::journal_parts::JournalParts;
use model::stored_journals::StoredJournal;
use model::watching::Watch;
use scheduler::replaying::ReplayError;
use scheduler::worlds::World;
use std::alloc::Global;
use std::io::Write;

/// Writes a journal into a file, in version 2.
pub fn write_stored<F: Files, J: JournalParts>(
    alloc: Global,
    files: &mut F,
    name: &String,
    journal: &J,
) -> Result<(), Ending> {
    match write_journal(alloc, journal) {
        Ok(text) => write_one(alloc, files, name, text.as_slice()),
        Err(_) => Err(Ending::memory()),
    }
}

/// The journal of a text, of either version.
pub fn stored_in(alloc: Global, text: &[u8]) -> Result<StoredJournal, Ending> {
    match read_journal(alloc, text) {
        Ok(journal) => Ok(journal),
        Err(JournalError::Memory) => Err(Ending::memory()),
        Err(error) => Err(Ending::reported(Exit::Refused, format!(in alloc; "journal {error}"))),
    }
}

/// The journal in a file, of either version.
fn read_stored<F: Files>(
    alloc: Global,
    files: &mut F,
    name: &String,
) -> Result<StoredJournal, Ending> {
    let text = read_one(alloc, files, name)?;
    stored_in(alloc, text.as_slice())
}

/// The end of a replay that has no world.
fn not_replayed(alloc: Global, names: &[String], error: &ReplayedError) -> Ending {
    match error {
        ReplayedError::Launch(error) => refused(alloc, names, error),
        ReplayedError::Replay(ReplayError::Memory) => Ending::memory(),
        ReplayedError::Replay(ReplayError::Frames) => {
            Ending::reported(Exit::Refused, format!(in alloc; "world: P4"))
        }
        ReplayedError::Replay(error) => Ending::reported(
            Exit::Refused,
            format!(in alloc; "journal {error}"),
        ),
    }
}

/// The world of a journal's run of the program of some files. A watch is told how many rows were made.
pub fn replayed_world<F: Files, P: Watch>(
    alloc: Global,
    journal: &StoredJournal,
    names: &[String],
    files: &mut F,
    watch: &mut P,
) -> Result<World, Ending> {
    let sources = read_all(alloc, files, names)?;
    match replayed(alloc, sources, journal, watch) {
        Ok(world) => Ok(world),
        Err(error) => Err(not_replayed(alloc, names, &error)),
    }
}

/// Replays a journal on the program of some files, and writes the output. The end is that of the run. A watch is told
/// how many rows were made.
pub fn replay<F: Files, W: Write, P: Watch>(
    alloc: Global,
    options: &ReplayOptions,
    files: &mut F,
    output: &mut W,
    watch: &mut P,
) -> Result<Ending, Ending> {
    let journal = read_stored(alloc, files, &options.journal)?;
    let world = replayed_world(alloc, &journal, &options.files, files, watch)?;
    write_output(alloc, &world, output)?;
    Ok(ended(alloc, &world))
}

/// Writes a journal of either version in version 2.
pub fn upgrade<F: Files>(
    alloc: Global,
    options: &UpgradeOptions,
    files: &mut F,
) -> Result<Ending, Ending> {
    let journal = read_stored(alloc, files, &options.journal)?;
    write_stored(alloc, files, &options.out, &journal)?;
    Ok(Ending::good())
}
