//! Standard input, with a prompt where a person types at a terminal.
use std::io::{Read, Result, Write};

/// An input, before each read of which a prompt is written to where errors go, if it is shown at all. A terminal gives a
/// line for each read.
#[derive(Drop)]
pub struct Prompted<I, E> {
    pub input: I,
    pub prompts: E,
    pub shown: bool,
}

impl<I: Read, E: Write> Read for Prompted<I, E> {
    fn read(&mut self, buf: &mut [u8]) -> Result<usize> {
        if self.shown {
            let _ = self.prompts.write_all(b"(jvm) ");
            let _ = self.prompts.flush();
        }
        self.input.read(buf)
    }
}
