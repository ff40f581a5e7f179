//! Where a session's lines come from.
ghost use Rattle.std.specs.Prelude.{◌≡◌, ◌+◌, ◌-◌, ◌^◌, ◌<◌, ◌≤◌, ℕ, List, Option, IfOk, IsSome, OnErr, OnOk};
ghost use Rattle.std.specs.Io.KnownBytes.{Keeps};
ghost use Rattle.debug_texts.specs.Streams.{Gives};

/// A read failed.
#[derive(Clone, Copy, Debug, PartialEq, Eq)]
pub struct ReadFailed;

/// Bytes that are read one after another, with a count of the reads that failed. It ends: it gives so many bytes at
/// most.
pub trait Source {
    // the bytes that it will give from here on, where they are known
    ghost remaining: { Self → Option (List ℕ) };

    // how many reads failed
    ghost failures: { Self → ℕ };

    // how many bytes it gives at most from here on
    ghost patience: { Self → ℕ };

    /// The next byte; none at the end.
    fn next_byte(&mut self) -> Result<Option<u8>, ReadFailed>
        requires { failures self.old < 2 ^ 64 - 1 }
        ensures bytes { IfOk result (λ byte. Gives byte (remaining self.old) (remaining self.new)) }
        ensures kept { OnErr result (Keeps (remaining self.old) (remaining self.new)) }
        ensures same { OnOk result (failures self.new ≡ failures self.old) }
        ensures failed { OnErr result (failures self.new ≡ failures self.old + 1) }
        ensures waits { OnOk result (patience self.new ≤ patience self.old) }
        ensures ends { IfOk result (λ byte. IsSome byte → patience self.new < patience self.old) };
}
