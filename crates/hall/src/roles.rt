//! What a worker does, and how long it keeps the lock.

/// What a worker does each time it has the lock.
#[derive(Clone, Copy, Debug, PartialEq, Eq)]
pub enum Role {
    /// A turn of the picked thread and, where that was done and the world is running, so many collector turns.
    Both { gc: u32 },
    /// A turn of the picked thread.
    Carrier,
    /// A collector turn, unless the journal's last row is the collector's.
    Collector,
}

/// How many rounds a worker makes after the first one of a turn, each time it has the lock.
#[derive(Clone, Copy, Debug, PartialEq, Eq)]
pub struct Burst {
    /// So many rounds after the first one, where the worker isn't a collector.
    pub extra: u32,
    /// So often a carrier makes as many again, each time only if all of the last ones were done and no collection is
    /// due.
    pub again: u32,
    /// So many turns of a collector after its first one, at most: a cycle's end is theirs.
    pub sweep: u32,
}

/// One round a turn.
pub const SINGLE: Burst = Burst {
    extra: 0,
    again: 0,
    sweep: 0,
};
