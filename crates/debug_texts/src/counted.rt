//! Readers and writers of std as sources and sinks.
ghost use Rattle.std.specs.Prelude.{◌≡◌};

use crate::sinks::{Sink, WriteFailed};
use crate::sources::{ReadFailed, Source};
use std::io::{Read, Write};

/// A reader or a writer, whose failed calls are counted. Of a reader it gives 2^64 - 1 bytes at most; a read after that
/// is a failed one.
#[derive(Drop)]
pub struct Counted<T> {
    inner: T,
    failures: u64,
    left: u64,
}

impl<T> Counted<T> {
    /// A reader or a writer of which no call has failed.
    pub fn new(inner: T) -> Counted<T>
        ensures inner { result.inner ≡ inner }
        ensures none { result.failures ≡ 0 }
    {
        Counted {
            inner,
            failures: 0,
            left: u64::MAX,
        }
    }

    /// How many calls have failed.
    pub fn failures(&self) -> u64
        ensures { result ≡ self.now.failures }
    {
        self.failures
    }

    /// The reader or writer itself.
    pub fn into_inner(self) -> T
        ensures { result ≡ self.inner }
    {
        let Counted {
            inner,
            failures: _,
            left: _,
        } = self;
        inner
    }
}

impl<R: Read> Source for Counted<R> {
    ghost remaining = { λ s. R.remaining s.inner };

    ghost failures = { λ s. s.failures };

    ghost patience = { λ s. s.left };

    fn next_byte(&mut self) -> Result<Option<u8>, ReadFailed> {
        if self.left == 0 {
            self.failures += 1;
            return Err(ReadFailed);
        }
        self.left -= 1;
        let mut byte = [0u8];
        match self.inner.read(&mut byte) {
            Ok(0) => Ok(None),
            Ok(_) => Ok(Some(byte[0])),
            Err(_) => {
                self.failures += 1;
                Err(ReadFailed)
            }
        }
    }
}

impl<W: Write> Sink for Counted<W> {
    ghost contents = { λ s. W.contents s.inner };

    ghost failures = { λ s. s.failures };

    fn put(&mut self, bytes: &[u8]) -> Result<(), WriteFailed> {
        let mut rest = bytes;
        'pieces: while !rest.is_empty() {
            match self.inner.write(rest) {
                Ok(count) if count > 0 => rest = rest.split_at(count).1,
                Ok(_) | Err(_) => {
                    self.failures += 1;
                    return Err(WriteFailed);
                }
            }
        }
        Ok(())
    }

    fn flush(&mut self) -> Result<(), WriteFailed> {
        match self.inner.flush() {
            Ok(()) => Ok(()),
            Err(_) => {
                self.failures += 1;
                Err(WriteFailed)
            }
        }
    }
}
