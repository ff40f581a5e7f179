//! Entry into the monitors of objects, by references (JVMS 2.11.10).
ghost use Rattle.std.specs.Prelude.{◌≡◌, Some, None, false};
ghost use Rattle.std.specs.Option.{option_map_or};
ghost use Rattle.model.specs.Monitors.{is_full};
ghost use Rattle.model.specs.Worlds.{free_monitor};
ghost use Rattle.instructions.specs.CallsByNumbers.{entered_in};
ghost use Rattle.instructions.specs.HeapMonitors.{monitor_held};

use super::Heap;
use cells::Monitor;
use monitors::enter;

/// Whether a monitor was entered as often as one can be.
pub(crate) fn is_full(monitor: Monitor) -> bool
    ensures { result ≡ is_full monitor }
{
    monitor.count == u16::MAX
}

impl Heap {
    /// The monitor of the object of a reference. Nobody's where there is no reference, or no object.
    pub(crate) fn monitor_if(&self, reference: Option<u32>) -> Monitor
        ensures { result ≡ option_map_or (monitor_held self.now) reference free_monitor }
    {
        match reference {
            Some(reference) => self.monitor(reference),
            None => Monitor::free(),
        }
    }

    /// A thread enters the monitor of this object once more.
    pub(crate) fn enter(&mut self, thread: u8, reference: Option<u32>)
        requires { is_full (option_map_or (monitor_held self.old) reference free_monitor) ≡ false }
        ensures { self.new ≡ entered_in self.old thread reference }
    {
        if let Some(reference) = reference {
            match enter(u32::from(thread), self.monitor(reference)) {
                Ok(monitor) => self.set_monitor(reference, monitor),
                Err(_) => unreachable!(),
            }
        }
    }
}
