//! A second heap, written from the rules alone and in the plainest way: objects in a map by birth, free cells in a map
//! by number, and no list. What is first in a list is found by a look at everything.

use super::roots::Roots;
use model::colours::{Cell, Colour, Phase};
use model::journals::HeapShape;
use std::alloc::{AllocError, Global};
use std::collections::BTreeMap;

/// An object: its cell, its colour, when it last turned grey, and where its words lead, by birth.
#[derive(Drop)]
struct Object {
    cell: u32,
    colour: Colour,
    since: u64,
    words: Vec<Option<u32>>,
}

/// The heap: the objects by birth, and of each free cell when it was given back.
#[derive(Drop)]
pub(crate) struct PlainHeap {
    alloc: Global,
    shape: HeapShape,
    objects: BTreeMap<u32, Object>,
    free: BTreeMap<u32, u64>,
    pub(crate) roots: Roots,
    pub(crate) births: u32,
    pub(crate) phase: Phase,
    time: u64,
}

impl PlainHeap {
    /// Births 1 and 2, white, in a heap whose other cells are free.
    pub(crate) fn new(alloc: Global, shape: HeapShape) -> Result<PlainHeap, AllocError> {
        let mut heap = PlainHeap {
            alloc,
            shape,
            objects: BTreeMap::new(alloc),
            free: BTreeMap::new(alloc),
            roots: Roots::new(),
            births: 1,
            phase: Phase::Idle,
            time: 0,
        };
        for cell in 0..heap.cells() {
            heap.free.insert(cell, 0)?;
        }
        heap.bear(0, Colour::White)?;
        heap.bear(0, Colour::White)?;
        Ok(heap)
    }

    /// How many cells there are.
    fn cells(&self) -> u32 {
        let shape = self.shape;
        shape
            .small
            .saturating_add(shape.medium)
            .saturating_add(shape.large)
    }

    /// A new object of so many words, which lead nowhere, in the cell that comes first. Whether there was one.
    fn bear(&mut self, words: u32, colour: Colour) -> Result<bool, AllocError> {
        let Some(cell) = self.first_free(words) else {
            return Ok(false);
        };
        let object = Object {
            cell,
            colour,
            since: self.tick(),
            words: vec![in self.alloc; None; words as usize]?,
        };
        self.free.remove(&cell);
        self.objects.insert(self.births, object)?;
        self.births = self.births.saturating_add(1);
        Ok(true)
    }

    /// A new object, grey, unless no free cell has room.
    pub(crate) fn create(&mut self, words: u32) -> Result<bool, AllocError> {
        self.bear(words, Colour::Grey)
    }

    /// The time, which goes on.
    fn tick(&mut self) -> u64 {
        self.time = self.time.saturating_add(1);
        self.time
    }

    /// Of the free cells with room for so many words, one of the smallest size; of these the one that is free the
    /// longest; of those that were never taken the one with the least number.
    fn first_free(&self, words: u32) -> Option<u32> {
        let mut first: Option<(u32, u64, u32)> = None;
        for (cell, time) in self.free.iter() {
            let place = (words_of(self.shape, *cell), *time, *cell);
            if place.0 >= words && is_before(place, first) {
                first = Some(place);
            }
        }
        match first {
            Some((_, _, cell)) => Some(cell),
            None => None,
        }
    }

    /// Whether a free cell has room.
    pub(crate) fn has_room(&self, words: u32) -> bool {
        self.first_free(words).is_some()
    }

    /// Which birth has been grey the longest.
    fn front(&self) -> Option<u32> {
        let mut first: Option<(u64, u32)> = None;
        for (birth, object) in self.objects.iter() {
            if object.colour == Colour::Grey && is_earlier(object.since, first) {
                first = Some((object.since, *birth));
            }
        }
        match first {
            Some((_, birth)) => Some(birth),
            None => None,
        }
    }

    /// The cell of the birth that has been grey the longest.
    pub(crate) fn front_cell(&self) -> Option<u32> {
        let birth = self.front()?;
        let object = self.objects.get(&birth)?;
        Some(object.cell)
    }

    /// The birth in a cell.
    fn birth_in(&self, cell: u32) -> Option<u32> {
        let mut found = None;
        for (birth, object) in self.objects.iter() {
            if object.cell == cell {
                found = Some(*birth);
            }
        }
        found
    }

    /// What a cell holds.
    pub(crate) fn cell(&self, cell: u32) -> Cell {
        let Some(birth) = self.birth_in(cell) else {
            return Cell::Free;
        };
        match self.objects.get(&birth) {
            Some(object) => Cell::Taken {
                birth,
                colour: object.colour,
            },
            None => Cell::Free,
        }
    }

    /// A white birth turns grey; no other changes.
    pub(crate) fn shade(&mut self, birth: Option<u32>) {
        let now = self.tick();
        let Some(birth) = birth else {
            return;
        };
        if let Some(object) = self.objects.get_mut(&birth) {
            if object.colour == Colour::White {
                object.colour = Colour::Grey;
                object.since = now;
            }
        }
    }

    /// A birth has another colour.
    fn paint(&mut self, birth: u32, colour: Colour) {
        if let Some(object) = self.objects.get_mut(&birth) {
            object.colour = colour;
        }
    }

    /// Where a word of a birth leads, if it has such a word.
    pub(crate) fn word(&self, birth: u32, word: u32) -> Option<Option<u32>> {
        let object = self.objects.get(&birth)?;
        object.words.get(word as usize).copied()
    }

    /// A word of a birth leads elsewhere, if it has such a word.
    pub(crate) fn put(&mut self, birth: u32, word: u32, leads: Option<u32>) {
        if let Some(object) = self.objects.get_mut(&birth) {
            if let Some(place) = object.words.get_mut(word as usize) {
                *place = leads;
            }
        }
    }

    /// One step of the collector, row by row of its table.
    pub(crate) fn collect(&mut self) -> Result<(), AllocError> {
        match self.phase {
            Phase::Idle => {
                self.shade(Some(1));
                self.shade(Some(2));
                self.phase = Phase::Statics { slot: 0 };
            }
            Phase::Statics { slot } => self.statics(slot),
            Phase::Frames {
                thread,
                frame,
                entry,
            } => self.frames(thread, frame, entry),
            Phase::Mark { word } => self.mark(word),
            Phase::Append { cell } => self.append(cell)?,
        }
        Ok(())
    }

    /// A static slot, or the frames where there is none.
    fn statics(&mut self, slot: u32) {
        match self.roots.slot(slot) {
            Some(held) => {
                self.shade(held);
                self.phase = Phase::Statics {
                    slot: slot.saturating_add(1),
                };
            }
            None => {
                self.phase = Phase::Frames {
                    thread: 0,
                    frame: 0,
                    entry: 0,
                };
            }
        }
    }

    /// An entry of a frame of the one thread, else its method monitor, else the next thread, else the marking.
    fn frames(&mut self, thread: u32, frame: u32, entry: u32) {
        if thread > 0 {
            self.phase = Phase::Mark { word: 0 };
        } else if let Some(held) = self.roots.entry(frame, entry) {
            self.shade(held);
            self.phase = Phase::Frames {
                thread,
                frame,
                entry: entry.saturating_add(1),
            };
        } else if let Some(held) = self.roots.monitor(frame) {
            self.shade(held);
            self.phase = Phase::Frames {
                thread,
                frame: frame.saturating_add(1),
                entry: 0,
            };
        } else {
            self.phase = Phase::Frames {
                thread: 1,
                frame: 0,
                entry: 0,
            };
        }
    }

    /// A word of what has been grey the longest; after its last word it turns black. Where nothing is grey, the
    /// appending.
    fn mark(&mut self, word: u32) {
        let Some(birth) = self.front() else {
            self.phase = Phase::Append { cell: 0 };
            return;
        };
        match self.word(birth, word) {
            Some(leads) => {
                self.shade(leads);
                self.phase = Phase::Mark {
                    word: word.saturating_add(1),
                };
            }
            None => {
                self.paint(birth, Colour::Black);
                self.phase = Phase::Mark { word: 0 };
            }
        }
    }

    /// A cell: what is white in it is given back, what is black turns white. After the last cell the cycle ends.
    fn append(&mut self, cell: u32) -> Result<(), AllocError> {
        if cell >= self.cells() {
            self.phase = Phase::Idle;
            return Ok(());
        }
        if let Cell::Taken { birth, colour } = self.cell(cell) {
            match colour {
                Colour::White => self.give_back(birth, cell)?,
                Colour::Black => self.paint(birth, Colour::White),
                Colour::Grey => {}
            }
        }
        self.phase = Phase::Append {
            cell: cell.saturating_add(1),
        };
        Ok(())
    }

    /// A birth is no more, and its cell is free from now on.
    fn give_back(&mut self, birth: u32, cell: u32) -> Result<(), AllocError> {
        let now = self.tick();
        self.objects.remove(&birth);
        self.free.insert(cell, now)?;
        Ok(())
    }
}

/// How many words a cell has.
fn words_of(shape: HeapShape, cell: u32) -> u32 {
    if cell < shape.small {
        4
    } else if cell < shape.small.saturating_add(shape.medium) {
        32
    } else {
        256
    }
}

/// Whether a cell, told by its words, its time and its number, comes before another one.
fn is_before(place: (u32, u64, u32), first: Option<(u32, u64, u32)>) -> bool {
    match first {
        None => true,
        Some(first) => place < first,
    }
}

/// Whether a time comes before another one.
fn is_earlier(time: u64, first: Option<(u64, u32)>) -> bool {
    match first {
        None => true,
        Some((first, _)) => time < first,
    }
}
