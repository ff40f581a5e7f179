//! Whole files, and standard output, with the end of a command where one can't be read or written.

use crate::files::{Files, ReadError};
use command_line::endings::{Ending, Exit};
use std::alloc::Global;
use std::io::Write;

/// A file's bytes.
pub fn read_one<F: Files>(alloc: Global, files: &mut F, name: &String) -> Result<Vec<u8>, Ending> {
    match files.read(alloc, name.as_str()) {
        Ok(bytes) => Ok(bytes),
        Err(ReadError::Memory) => Err(Ending::memory()),
        Err(ReadError::Failed) => Err(Ending::reported(
            Exit::System,
            format!(in alloc; "cannot read {name}"),
        )),
    }
}

/// The files' bytes, in order.
pub fn read_all<F: Files>(
    alloc: Global,
    files: &mut F,
    names: &[String],
) -> Result<Vec<Vec<u8>>, Ending> {
    let mut sources = Vec::new(alloc);
    for name in names {
        match sources.push(read_one(alloc, files, name)?) {
            Ok(()) => {}
            Err(_) => return Err(Ending::memory()),
        }
    }
    Ok(sources)
}

/// Writes a file with these bytes.
pub fn write_one<F: Files>(
    alloc: Global,
    files: &mut F,
    name: &String,
    bytes: &[u8],
) -> Result<(), Ending> {
    match files.write(name.as_str(), bytes) {
        Ok(()) => Ok(()),
        Err(_) => Err(Ending::reported(Exit::System, format!(in alloc; "cannot write {name}"))),
    }
}

/// Writes these bytes to standard output.
pub fn write_text<W: Write>(alloc: Global, bytes: &[u8], output: &mut W) -> Result<Ending, Ending> {
    match output.write_all(bytes) {
        Ok(()) => Ok(Ending::good()),
        Err(_) => Err(Ending::reported(Exit::System, format!(in alloc; "cannot write -"))),
    }
}
