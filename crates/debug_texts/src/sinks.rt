//! Where a session's answers go.
ghost use Rattle.std.specs.Prelude.{◌≡◌, ◌+◌, ◌-◌, ◌^◌, ◌<◌, ℕ, List, Option, OnErr, OnOk};
ghost use Rattle.std.specs.Io.KnownBytes.{Appends, Keeps};
ghost use Rattle.debug_texts.specs.Streams.{AppendsPart};

/// A write failed.
#[derive(Clone, Copy, Debug, PartialEq, Eq)]
pub struct WriteFailed;

/// What bytes are written to, with a count of the writes that failed.
pub trait Sink {
    // the bytes that were written, where they are known
    ghost contents: { Self → Option (List ℕ) };

    // how many writes failed
    ghost failures: { Self → ℕ };

    /// Writes these bytes; where a write fails, a beginning of them was written.
    fn put(&mut self, bytes: &[u8]) -> Result<(), WriteFailed>
        requires { failures self.old < 2 ^ 64 - 1 }
        ensures whole { OnOk result (Appends (contents self.old) (contents self.new) bytes.now) }
        ensures part { OnErr result (AppendsPart (contents self.old) (contents self.new) bytes.now) }
        ensures same { OnOk result (failures self.new ≡ failures self.old) }
        ensures failed { OnErr result (failures self.new ≡ failures self.old + 1) };

    /// Lets what was written go out, to a person who waits for it.
    fn flush(&mut self) -> Result<(), WriteFailed>
        requires { failures self.old < 2 ^ 64 - 1 }
        ensures kept { Keeps (contents self.old) (contents self.new) }
        ensures same { OnOk result (failures self.new ≡ failures self.old) }
        ensures failed { OnErr result (failures self.new ≡ failures self.old + 1) };
}
