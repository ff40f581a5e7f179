//! Entry into an object's monitor, and exit from it (JVMS 2.11.10).
//!
//! All is told of a monitor by itself: an owner, and how often the owner entered. Whose monitor it is, and what a
//! thread does that has to wait, is for others to say. No call takes memory.
#![tactic(auto)]

ghost use Rattle.std.specs.Prelude.{◌≡◌, Err, Ok, if◌then◌else◌};
ghost use Rattle.model.specs.declared.turns.Fault.TheVariants.{MonitorLimit};
ghost use Rattle.model.specs.Monitors.{entered, exited, is_full, is_owner, may_enter};

use cells::Monitor;
use model::turns::Fault;

/// Whether a thread owns a monitor.
pub fn owns(thread: u32, monitor: Monitor) -> bool
    ensures { result ≡ is_owner thread monitor.owner }
{
    match monitor.owner {
        Some(owner) => owner == thread,
        None => false,
    }
}

/// Whether a thread may enter a monitor: nobody's, or its own.
pub fn may_enter(thread: u32, monitor: Monitor) -> bool
    ensures { result ≡ may_enter thread monitor.owner }
{
    match monitor.owner {
        Some(owner) => owner == thread,
        None => true,
    }
}

/// The monitor once a thread that may enter it has done so. F10 where it was entered 65,535 times.
pub fn enter(thread: u32, monitor: Monitor) -> Result<Monitor, Fault>
    ensures { result ≡ (if is_full monitor then Err MonitorLimit else Ok (entered thread monitor)) }
{
    if monitor.count == u16::MAX {
        return Err(Fault::MonitorLimit);
    }
    Ok(Monitor {
        owner: Some(thread),
        count: monitor.count + 1,
    })
}

/// The monitor once its owner has left it: nobody's after as many exits as entries.
pub fn exit(monitor: Monitor) -> Monitor
    ensures { result ≡ exited monitor }
{
    if monitor.count <= 1 {
        Monitor::free()
    } else {
        Monitor {
            owner: monitor.owner,
            count: monitor.count - 1,
        }
    }
}

/// The monitor once a thread has left a frame that gives it back: as after an exit where the thread still owns it, else
/// as it was.
pub fn release(thread: u32, monitor: Monitor) -> Monitor
    ensures { result ≡ (if is_owner thread monitor.owner then exited monitor else monitor) }
{
    if owns(thread, monitor) {
        exit(monitor)
    } else {
        monitor
    }
}
