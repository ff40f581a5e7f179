//! The heap that is tested: cells with their account, the collector, and roots, as the machine has them.
ghost use Rattle.std.specs.Prelude.{[], ◌∷◌, ◌≡◌, map, slice_get};
ghost use Rattle.std.specs.Option.{option_map};
ghost use Rattle.model.specs.Worlds.{frames_of};
ghost use Rattle.model.specs.Worlds.Thread.{Live};
ghost use Rattle.model.specs.Collector.Places.{ref_at};
ghost use Rattle.values.specs.Slots.{value_of};
ghost use Rattle.collector.specs.ListedWorlds.{frame_with, leads_of, listed_world};

use super::roots::{FrameRoots, Roots};
use crate::{References, collect_step};
use cells::Cells;
use colours::accounts::Account;
use model::colours::{Cell, Phase};
use model::journals::HeapShape;
use model::values::Value;
use std::alloc::{AllocError, Global};
use values::slots::{Slot, number_in, value_in};

pub(crate) const SHAPE: HeapShape = HeapShape {
    small: 8,
    medium: 4,
    large: 3,
};

/// The places that the collector looks at. What leads somewhere is a reference.
#[derive(Drop)]
pub(crate) struct Places {
    pub(crate) roots: Roots,
    cells: Cells<u8>,
}

impl References for Places {
    ghost world = { λ s. listed_world s.roots.slots
        (map (λ f. frame_with f.entries f.monitor) s.roots.frames) s.cells.objects };

    fn slots(&self) -> u32 {
        4
    }

    #[tactic(auto, using(crate::proofs::ListedLemmas::slot_is))]
    fn slot(&self, slot: u32) -> Option<u32> {
        held_at(&self.roots.slots, slot)
    }

    fn threads(&self) -> u32 {
        1
    }

    fn frames(&self, thread: u32) -> u32 {
        if thread == 0 { 2 } else { 0 }
    }

    fn entries(&self, thread: u32, frame: u32) -> u32 {
        match self.frame(thread, frame) {
            Some(frame) => frame.entries.len() as u32,
            None => 0,
        }
    }

    #[tactic(auto, unfolding(model::specs::Collector::Places::root_at))]
    fn entry(&self, thread: u32, frame: u32, entry: u32) -> Option<u32> {
        match self.frame(thread, frame) {
            Some(frame) => held_at(&frame.entries, entry),
            None => None,
        }
    }

    #[tactic(auto, unfolding(model::specs::Collector::Places::root_at))]
    fn method_monitor(&self, thread: u32, frame: u32) -> Option<u32> {
        match self.frame(thread, frame) {
            Some(frame) => frame.monitor,
            None => None,
        }
    }

    #[tactic(auto, using(crate::proofs::ListedLemmas::words_number))]
    fn words(&self, reference: u32) -> u32 {
        match reference.checked_sub(1) {
            Some(cell) => u32::from(self.cells.length(cell)),
            None => 0,
        }
    }

    fn word(&self, reference: u32, word: u32) -> Option<u32> {
        match reference.checked_sub(1) {
            Some(cell) => led_to(self.cells.word(cell, word)),
            None => None,
        }
    }
}

impl Places {
    /// A frame of the one thread, if there is such a frame.
    fn frame(&self, thread: u32, frame: u32) -> Option<FrameRoots>
        ensures { slice_get
            (frames_of (slice_get (Live (map (λ f. frame_with f.entries f.monitor) self.now.roots.frames) ∷ [])
            thread)) frame
            ≡ option_map (λ f. frame_with f.entries f.monitor) result }
    {
        if thread == 0 {
            self.roots.frames.get(frame as usize).copied()
        } else {
            None
        }
    }
}

/// Where the place of a list leads.
fn held_at(list: &[Option<u32>], place: u32) -> Option<u32>
    ensures { result ≡ ref_at list.now place }
{
    match list.get(place as usize).copied() {
        Some(held) => held,
        None => None,
    }
}

/// Where a slot leads, if there is one.
fn led_to(slot: Option<Slot>) -> Option<u32>
    ensures { result ≡ leads_of (option_map value_of slot) }
{
    match slot {
        Some(slot) => number_in(slot),
        None => None,
    }
}

/// The heap and its roots.
#[derive(Drop)]
pub(crate) struct RealHeap {
    pub(crate) account: Account,
    pub(crate) places: Places,
    pub(crate) births: u32,
}

impl RealHeap {
    /// Births 1 and 2 in the first two cells.
    pub(crate) fn new(alloc: Global) -> Result<RealHeap, AllocError> {
        let account = Account::new(alloc, SHAPE)?;
        let mut cells = Cells::new(alloc, SHAPE)?;
        place(&mut cells, 0, 0);
        place(&mut cells, 1, 0);
        Ok(RealHeap {
            account,
            places: Places {
                roots: Roots::new(),
                cells,
            },
            births: 3,
        })
    }

    /// A new object of so many words, grey: its reference. `None` where no free cell has room, or where somebody is in
    /// it.
    pub(crate) fn create(&mut self, words: u32) -> Option<u32> {
        let cell = self.account.create(words, self.births)?;
        self.births = self.births.saturating_add(1);
        if place(&mut self.places.cells, cell, words) {
            cell.checked_add(1)
        } else {
            None
        }
    }

    /// Shades what a reference leads to.
    pub(crate) fn shade(&mut self, reference: Option<u32>) {
        if let Some(reference) = reference {
            self.account.shade(reference);
        }
    }

    /// Where a word leads, if there is such a word.
    pub(crate) fn word(&self, reference: u32, word: u32) -> Option<Option<u32>> {
        match value_in(self.places.cells.word(reference.checked_sub(1)?, word)?) {
            Value::Ref(leads) => Some(leads),
            Value::Int(_) | Value::Long(_) => None,
        }
    }

    /// A word leads elsewhere, if there is such a word.
    pub(crate) fn put(&mut self, reference: u32, word: u32, leads: Option<u32>) {
        if let Some(cell) = reference.checked_sub(1) {
            self.places.cells.put(cell, word, Value::Ref(leads));
        }
    }

    /// The birth to which a reference leads.
    pub(crate) fn birth(&self, reference: u32) -> Option<u32> {
        match self.account.cell(reference.checked_sub(1)?) {
            Cell::Taken { birth, colour: _ } => Some(birth),
            Cell::Free => None,
        }
    }

    /// One step of the collector.
    pub(crate) fn collect(&mut self) {
        if let Some(cell) = collect_step(&mut self.account, &self.places, SHAPE) {
            self.places.cells.clear(cell);
        }
    }

    /// Where the collector stands.
    pub(crate) fn phase(&self) -> Phase {
        self.account.phase()
    }
}

/// Puts an object of so many words, which lead nowhere, into a cell. Whether nobody was there.
fn place(cells: &mut Cells<u8>, cell: u32, words: u32) -> bool {
    if cell as usize >= cells.len() || cells.kind(cell).is_some() {
        return false;
    }
    if words > u32::from(cells.room(cell)) {
        return false;
    }
    cells.place(cell, 0, words, Value::Ref(None));
    true
}
