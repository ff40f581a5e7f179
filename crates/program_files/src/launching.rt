//! Worlds of programs in files, and how a command ends whose program is refused.
ghost use Rattle.std.specs.Prelude.{◌≡◌, [], IfOk};

use crate::files::Files;
use crate::whole_files::read_all;
use acceptance::LoadError;
use assembler::AsmError;
use classfile::ClassError;
use command_line::endings::{Ending, Exit};
use command_line::options::WorldOptions;
use jasmin::Fault as TextFault;
use launcher::launching::{LaunchError, launch};
use launcher::sources::SourceError;
use model::journals::{HeapShape, Limits};
use scheduler::worlds::{World, WorldError};
use std::alloc::Global;

/// The heap of some options.
pub fn shape_of(options: WorldOptions) -> HeapShape
    ensures { result ≡ record { small = options.small; medium = options.medium; large = options.large } }
{
    HeapShape {
        small: options.small,
        medium: options.medium,
        large: options.large,
    }
}

/// The limits of some options.
pub fn limits_of(options: WorldOptions) -> Limits
    ensures { result ≡ record { steps = options.steps; output = options.output } }
{
    Limits {
        steps: options.steps,
        output: options.output,
    }
}

/// The end of a command whose source of this name was refused.
pub fn source_refused(alloc: Global, name: &String, error: &SourceError) -> Ending {
    let lacks_memory = match error {
        SourceError::Text(error) => error.fault == TextFault::Memory,
        SourceError::Assembly(error) => matches!(error, AsmError::Memory),
        SourceError::Class(error) => matches!(error, ClassError::Memory),
        SourceError::Memory => true,
    };
    if lacks_memory {
        Ending::memory()
    } else {
        Ending::reported(Exit::Refused, format!(in alloc; "{name}: {error}"))
    }
}

/// The end of a command that has no world.
pub fn refused(alloc: Global, names: &[String], error: &LaunchError) -> Ending {
    match error {
        LaunchError::Source { place, error } => match names.get(*place) {
            Some(name) => source_refused(alloc, name, error),
            None => Ending::memory(),
        },
        LaunchError::Load(LoadError::Memory(_)) => Ending::memory(),
        LaunchError::Load(error) => Ending::reported(
            Exit::Refused,
            format!(in alloc; "load: {error}"),
        ),
        LaunchError::World(WorldError::Memory) => Ending::memory(),
        LaunchError::World(error) => Ending::reported(
            Exit::Refused,
            format!(in alloc; "world: {error}"),
        ),
    }
}

/// Launches the program of these files.
pub fn launched<F: Files>(
    alloc: Global,
    options: WorldOptions,
    names: &[String],
    files: &mut F,
) -> Result<World, Ending>
    ensures { IfOk result (λ world. world.journal.rows ≡ []) }
{
    let sources = match read_all(alloc, files, names) {
        Ok(sources) => sources,
        Err(ending) => return Err(ending),
    };
    match launch(alloc, sources, shape_of(options), limits_of(options), &[]) {
        Ok(world) => Ok(world),
        Err(error) => Err(refused(alloc, names, &error)),
    }
}
