//! Files and streams that stand in memory.

use program_files::files::{Files, ReadError, WriteError};
use std::alloc::{AllocError, Global};
use std::io;
use std::io::Write;

/// Files by name, the newest first.
#[derive(Drop)]
pub struct MemoryFiles {
    alloc: Global,
    files: Vec<(String, Vec<u8>)>,
}

impl MemoryFiles {
    /// No files.
    pub fn new(alloc: Global) -> MemoryFiles {
        MemoryFiles {
            alloc,
            files: Vec::new(alloc),
        }
    }

    /// Adds a file, which stands in the place of one of that name.
    pub fn add(&mut self, name: &str, bytes: &[u8]) -> Result<(), AllocError> {
        let name = String::from_str(self.alloc, name)?;
        let bytes = Vec::from_slice(self.alloc, bytes)?;
        self.files.push((name, bytes))?;
        Ok(())
    }

    /// The bytes of a file.
    pub fn get(&self, name: &str) -> Option<&[u8]> {
        for (other, bytes) in self.files.iter().rev() {
            if other.as_str() == name {
                return Some(bytes.as_slice());
            }
        }
        None
    }
}

impl Files for MemoryFiles {
    fn read(&mut self, alloc: Global, name: &str) -> Result<Vec<u8>, ReadError> {
        match self.get(name) {
            Some(bytes) => match Vec::from_slice(alloc, bytes) {
                Ok(bytes) => Ok(bytes),
                Err(_) => Err(ReadError::Memory),
            },
            None => Err(ReadError::Failed),
        }
    }

    fn write(&mut self, name: &str, bytes: &[u8]) -> Result<(), WriteError> {
        match self.add(name, bytes) {
            Ok(()) => Ok(()),
            Err(_) => Err(WriteError),
        }
    }
}

/// A stream that takes nothing, as a full disk does.
#[derive(Drop)]
pub struct FullStream;

impl Write for FullStream {
    fn write(&mut self, _buf: &[u8]) -> io::Result<usize> {
        Ok(0)
    }

    fn flush(&mut self) -> io::Result<()> {
        Ok(())
    }
}
