//! The roots of a machine for tests: four static slots, and two frames of one thread, each with two entries and a
//! method monitor. What leads somewhere is a number: a birth in the one heap, a reference in the other.

/// A frame's entries and its method monitor.
#[derive(Clone, Copy)]
pub(crate) struct FrameRoots {
    pub(crate) entries: [Option<u32>; 2],
    pub(crate) monitor: Option<u32>,
}

/// All roots.
#[derive(Clone, Copy)]
pub(crate) struct Roots {
    pub(crate) slots: [Option<u32>; 4],
    pub(crate) frames: [FrameRoots; 2],
}

impl Roots {
    /// Roots that lead nowhere.
    pub(crate) fn new() -> Roots {
        let frame = FrameRoots {
            entries: [None; 2],
            monitor: None,
        };
        Roots {
            slots: [None; 4],
            frames: [frame; 2],
        }
    }

    /// A static slot, if there is such a slot.
    pub(crate) fn slot(&self, slot: u32) -> Option<Option<u32>> {
        self.slots.get(slot as usize).copied()
    }

    /// An entry of a frame, if there is such an entry.
    pub(crate) fn entry(&self, frame: u32, entry: u32) -> Option<Option<u32>> {
        let frame = self.frames.get(frame as usize)?;
        frame.entries.get(entry as usize).copied()
    }

    /// The method monitor of a frame, if there is such a frame.
    pub(crate) fn monitor(&self, frame: u32) -> Option<Option<u32>> {
        let frame = self.frames.get(frame as usize)?;
        Some(frame.monitor)
    }

    /// The root of this number: four slots, four entries, two monitors.
    pub(crate) fn get(&self, root: u32) -> Option<u32> {
        let held = match root {
            0..=3 => self.slot(root),
            4..=7 => self.entry((root - 4) / 2, root % 2),
            _ => self.monitor(root.saturating_sub(8)),
        };
        match held {
            Some(held) => held,
            None => None,
        }
    }

    /// The root of this number leads elsewhere.
    pub(crate) fn set(&mut self, root: u32, leads: Option<u32>) {
        match root {
            0..=3 => self.slots[root as usize] = leads,
            4..=7 => self.frames[(root as usize - 4) / 2].entries[root as usize % 2] = leads,
            8..=9 => self.frames[root as usize - 8].monitor = leads,
            _ => {}
        }
    }
}
