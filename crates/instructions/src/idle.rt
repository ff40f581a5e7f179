//! Threads that are known not to be ready, so that none of them is asked again while many turns are made, and what is
//! told of a turn that was made.
ghost use Rattle.std.specs.Prelude.{◌≡◌, ◌≢◌, ◌<◌, ℕ, false};
ghost use Rattle.instructions.specs.Idle.{has_bit, thread_after};

use model::journals::Outcome;

/// Threads that were found not to be ready: they have ended, or wait.
#[derive(Clone, Copy)]
pub struct Idle {
    /// bit t for thread t
    pub bits: u64,
    /// those that were known so before, by their bits: they are likely to be so again
    pub before: u64,
}

/// A turn that was made.
#[derive(Clone, Copy)]
pub struct TurnMade {
    /// whose it was
    pub thread: u8,
    /// what came of the cell that it asked for, if it asked for one
    pub outcome: Outcome,
    /// whether every other thread is known to be ready where it was, and not where it wasn't
    pub alone: bool,
}

impl Idle {
    /// No thread at all.
    pub fn none() -> Idle
        ensures { result.bits ≡ 0 }
    {
        Idle { bits: 0, before: 0 }
    }

    /// None is known any more, since a turn was made that may have set any of them free.
    pub(crate) fn forgotten(self) -> Idle
        ensures { result.bits ≡ 0 }
    {
        Idle {
            bits: 0,
            before: self.before | self.bits,
        }
    }

    /// Whether a thread is one of them, or was known to be one before.
    #[inline(always)]
    pub(crate) fn concerns(self, thread: u8) -> bool
        requires { thread < 64 }
        ensures { result ≡ false → has_bit self.bits thread ≡ false }
    {
        ((self.bits | self.before) >> thread) & 1 == 1
    }

    /// Whether a thread is one of them.
    #[inline(always)]
    pub(crate) fn has(self, thread: u8) -> bool
        requires { thread < 64 }
        ensures { result ≡ has_bit self.bits thread }
    {
        (self.bits >> thread) & 1 == 1
    }

    /// With one thread more.
    // Not inlined, so that the loop of turns needn't have the thread's bit at hand.
    #[inline(never)]
    pub(crate) fn and(self, thread: u8) -> Idle
        requires { thread < 64 }
        ensures { (t : ℕ) → t ≢ thread → has_bit result.bits t ≡ has_bit self.bits t }
    {
        Idle {
            bits: self.bits | (1 << thread),
            before: self.before,
        }
    }
}

/// The thread after one in cyclic order, of so many.
#[inline(always)]
pub(crate) fn thread_after(count: u8, thread: u8) -> u8
    requires { thread < 64 }
    ensures { result ≡ thread_after count thread }
{
    if thread + 1 < count { thread + 1 } else { 0 }
}
