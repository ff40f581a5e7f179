//! Whether a thread is ready, by one look at its step.
ghost use Rattle.std.specs.Prelude.{◌≡◌, true};
ghost use Rattle.model.specs.Ready.{is_ready};

use super::State;
use crate::readiness::never_waits;

impl State {
    /// Whether a thread is known to be ready, by the operation of its step alone. Others may be ready too.
    #[inline(always)]
    pub fn is_known_ready(&self, thread: u8) -> bool
        ensures { result ≡ true → is_ready self.now.program self.now.machine.world thread ≡ true }
    {
        if self.fault.is_some() {
            return false;
        }
        if !self.is_live(thread) {
            return false;
        }
        never_waits(&self.program, self.frames(thread))
    }
}
