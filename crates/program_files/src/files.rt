//! Files by name.

use std::alloc::Global;
use std::io::ErrorKind;
use std::{fs, rt};

/// Why a file was not read.
#[derive(Clone, Copy, Debug, PartialEq, Eq)]
pub enum ReadError {
    /// There was no memory for it.
    Memory,
    /// It can't be read.
    Failed,
}

/// A file was not written.
#[derive(Clone, Copy, Debug, PartialEq, Eq)]
pub struct WriteError;

/// Reads and writes whole files by name.
pub trait Files {
    /// The bytes of a file.
    fn read(&mut self, alloc: Global, name: &str) -> Result<Vec<u8>, ReadError>;

    /// Writes a file with these bytes, in the place of one that is there.
    fn write(&mut self, name: &str, bytes: &[u8]) -> Result<(), WriteError>;
}

/// The files of the system.
#[derive(Drop)]
pub struct SystemFiles<'a, R: rt::Files + AllocGlobal> {
    pub runtime: &'a R,
}

impl<R: rt::Files + AllocGlobal> Files for SystemFiles<'_, R> {
    fn read(&mut self, _alloc: Global, name: &str) -> Result<Vec<u8>, ReadError> {
        match fs::read(self.runtime, name) {
            Ok(bytes) => Ok(bytes),
            Err(error) => {
                if error.kind() == ErrorKind::OutOfMemory {
                    Err(ReadError::Memory)
                } else {
                    Err(ReadError::Failed)
                }
            }
        }
    }

    fn write(&mut self, name: &str, bytes: &[u8]) -> Result<(), WriteError> {
        match fs::write(self.runtime, name, bytes) {
            Ok(()) => Ok(()),
            Err(_) => Err(WriteError),
        }
    }
}
