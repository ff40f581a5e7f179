//! The monitor of an object.

use std::marker::Model;

/// Who owns a monitor, by the thread's number, and how often it was entered (JVMS 2.11.10). Nobody's has a count of 0.
#[derive(Clone, Copy, Debug, PartialEq, Eq)]
pub struct Monitor {
    pub owner: Option<u32>,
    pub count: u16,
}

impl Model for Monitor {
    ghost use Rattle.model.specs.Worlds.{Monitor};

    ghost Value = { Monitor };

    ghost view = { λ a. record { owner = a.owner; count = a.count } };

    ghost inverse = { λ m. record { owner = m.owner; count = m.count } };
}

impl Monitor {
    ghost use Rattle.std.specs.Prelude.{◌≡◌};
    ghost use Rattle.model.specs.Worlds.{free_monitor};

    /// Nobody's monitor.
    pub fn free() -> Monitor
        ensures { result ≡ free_monitor }
    {
        Monitor {
            owner: None,
            count: 0,
        }
    }
}
