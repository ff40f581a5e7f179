//! `jvm debug`: a session over an input and an output.

use command_line::endings::{Ending, Exit};
use command_line::options::DebugOptions;
use debug_texts::counted::Counted;
use debugger::debug;
use debugger::errors::DebugError;
use program_files::files::Files;
use program_files::launching::launched;
use std::alloc::Global;
use std::io::{BufReader, Read, Write};

/// The end of a session that ended early.
fn stopped(alloc: Global, error: DebugError) -> Ending {
    match error {
        DebugError::Read => Ending::reported(Exit::System, format!(in alloc; "cannot read -")),
        DebugError::Write => Ending::reported(Exit::System, format!(in alloc; "cannot write -")),
        DebugError::Memory => Ending::memory(),
    }
}

/// A session with the world of the options' files: commands come from the input, answers go to the output, each as it is
/// done.
pub fn debugged<F: Files, I: Read, W: Write>(
    alloc: Global,
    options: &DebugOptions,
    files: &mut F,
    input: &mut I,
    output: &mut W,
) -> Result<Ending, Ending> {
    let mut world = launched(alloc, options.world, &options.files, files)?;
    let mut source = match BufReader::new(alloc, input) {
        Ok(reader) => Counted::new(reader),
        Err(_) => return Err(Ending::memory()),
    };
    let mut sink = Counted::new(output);
    match debug(alloc, &mut world, &mut source, &mut sink) {
        Ok(()) => Ok(Ending::good()),
        Err(error) => Err(stopped(alloc, error)),
    }
}
