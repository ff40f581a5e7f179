//! The monitors of objects, by references (JVMS 2.11.10).
ghost use Rattle.std.specs.Prelude.{◌≡◌};
ghost use Rattle.instructions.specs.HeapMonitors.{monitor_held, monitored, released_in};

use super::Heap;
use cells::Monitor;
use monitors::{exit, owns};

impl Heap {
    /// The monitor of the object of a reference. Nobody's where there is no object.
    pub(crate) fn monitor(&self, reference: u32) -> Monitor
        ensures { result ≡ monitor_held self.now reference }
    {
        match reference.checked_sub(1) {
            Some(cell) => self.cells.monitor(cell),
            None => Monitor::free(),
        }
    }

    /// Gives the object of a reference another monitor. Where there is no object, nothing changes.
    pub(crate) fn set_monitor(&mut self, reference: u32, monitor: Monitor)
        ensures { self.new ≡ monitored self.old reference monitor }
    {
        if let Some(cell) = reference.checked_sub(1) {
            self.cells.set_monitor(cell, monitor);
        }
    }

    /// A thread leaves a frame that gives this object's monitor back: one entry less, where the thread still owns it.
    pub(crate) fn release(&mut self, thread: u8, reference: Option<u32>)
        ensures { self.new ≡ released_in self.old thread reference }
    {
        if let Some(reference) = reference {
            let monitor = self.monitor(reference);
            if owns(u32::from(thread), monitor) {
                self.set_monitor(reference, exit(monitor));
            }
        }
    }
}
