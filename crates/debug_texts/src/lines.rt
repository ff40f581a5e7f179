//! Lines of commands, as they are read.
ghost use Rattle.std.specs.Prelude.{◌≡◌, ◌+◌, ◌-◌, ◌^◌, ◌<◌, ◌≤◌, ◌++◌, [], ◌∷◌, IfOk, OnErr, OnOk, List, ℕ, false, length, nat_eq, take};
ghost use Rattle.std.specs.Prelude.{true};
ghost use Rattle.std.specs.Io.KnownBytes.{Consumes, IsAtEnd};
ghost use Rattle.debug_texts.specs.Lines.{IsLine, ReadsLine};

use crate::sources::{ReadFailed, Source};
use std::marker::Model;

/// The bytes of a line that a command may have, and one more: a longer line is no command, whatever its length.
const ROOM: usize = 201;

/// A line, of which so many bytes are kept. A contract sees the list of these. It takes no memory.
#[derive(Drop)]
pub struct LineBuffer {
    bytes: [u8; 201],
    length: usize,
}

impl Model for LineBuffer {
    ghost use Rattle.std.specs.Prelude.{◌≤◌, ℕ, List, take};

    ghost Value = { List ℕ };

    ghost view = { λ a. take a.length a.bytes };

    ghost invariant = { λ a. a.length ≤ 201 };
}

impl LineBuffer {
    /// No line.
    pub fn new() -> LineBuffer
        ensures { result ≡ [] }
    {
        LineBuffer {
            bytes: [0; 201],
            length: 0,
        }
    }

    /// The bytes that are kept, 201 at most.
    pub fn bytes(&self) -> &[u8]
        ensures { result.now ≡ self.now }
    {
        &self.bytes[..self.length]
    }

    /// Whether none are kept.
    fn is_empty(&self) -> bool
        ensures { result ≡ nat_eq (length self.now) 0 }
    {
        self.length == 0
    }

    /// Forgets the line.
    fn clear(&mut self)
        ensures { self.new ≡ [] }
    {
        self.length = 0;
    }

    /// A byte more of the line.
    fn push(&mut self, byte: u8)
        ensures { self.new ≡ take 201 (self.old ++ byte ∷ []) }
    {
        if self.length < ROOM {
            self.bytes[self.length] = byte;
            self.length += 1;
        }
    }
}

/// Reads a line up to its newline, or up to the end where bytes stand before it; of a long one 201 bytes are kept.
/// Answers whether there was one.
pub fn read_line<S: Source>(source: &mut S, line: &mut LineBuffer) -> Result<bool, ReadFailed>
    requires { S.failures source.old < 2 ^ 64 - 1 }
    ensures line { IfOk result (λ some. some ≡ true → (text : List ℕ) × IsLine text × (line.new ≡ take 201 text)
        × ReadsLine (S.remaining source.old) (S.remaining source.new) text) }
    ensures end { IfOk result (λ some. some ≡ false → Consumes (S.remaining source.old) (S.remaining source.new) []
        × IsAtEnd (S.remaining source.new)) }
    ensures part { OnErr result ((text : List ℕ) × IsLine text
        × Consumes (S.remaining source.old) (S.remaining source.new) text) }
    ensures same { OnOk result (S.failures source.new ≡ S.failures source.old) }
    ensures failed { OnErr result (S.failures source.new ≡ S.failures source.old + 1) }
    ensures ends { IfOk result (λ some. some ≡ true → S.patience source.new < S.patience source.old) }
{
    line.clear();
    'bytes: loop {
        match source.next_byte() {
            Err(failed) => return Err(failed),
            Ok(None) => return Ok(!line.is_empty()),
            Ok(Some(byte)) => {
                if byte == b'\n' {
                    return Ok(true);
                }
                line.push(byte);
            }
        }
    }
}
