//! A hundred thousand turns by chance on two heaps: the one with cells, free lists and a grey list, and the plain one.

use super::plain_heap::PlainHeap;
use super::real_heap::{RealHeap, SHAPE};
use model::colours::Phase;
use std::alloc::{AllocError, Global};
use std::test::Fail;

/// Numbers by chance, the same in each run: Knuth's linear congruential generator (MMIX).
#[derive(Drop)]
struct Dice {
    state: u64,
}

impl Dice {
    /// A number below another one.
    fn below(&mut self, bound: u32) -> u32 {
        self.state = self
            .state
            .wrapping_mul(6_364_136_223_846_793_005)
            .wrapping_add(1_442_695_040_888_963_407);
        match u32::try_from(self.state >> 33) {
            Ok(number) => number.checked_rem(bound).unwrap_or(0),
            Err(_) => 0,
        }
    }
}

/// Both heaps, on which the same is done, and how often no cell had room, and how often a cycle began.
#[derive(Drop)]
struct TwoHeaps {
    dice: Dice,
    real: RealHeap,
    plain: PlainHeap,
    refused: u32,
    cycles: u32,
}

impl TwoHeaps {
    fn new(alloc: Global) -> Result<TwoHeaps, AllocError> {
        Ok(TwoHeaps {
            dice: Dice { state: 1978 },
            real: RealHeap::new(alloc)?,
            plain: PlainHeap::new(alloc, SHAPE)?,
            refused: 0,
            cycles: 0,
        })
    }

    /// A turn by chance: half of them are the collector's.
    fn turn(&mut self) -> Result<(), AllocError> {
        match self.dice.below(16) {
            0 | 1 => self.create()?,
            2 => self.load(),
            3 | 4 => self.store(),
            5 => self.copy(),
            6 | 7 => self.forget(),
            _ => self.collect()?,
        }
        Ok(())
    }

    /// How many words a new object has: mostly few, now and then more than any cell.
    fn words(&mut self) -> u32 {
        match self.dice.below(16) {
            0..=8 => self.dice.below(5),
            9..=12 => self.dice.below(33),
            13..=14 => self.dice.below(60),
            _ => self.dice.below(300),
        }
    }

    /// A root leads to a new object, if a cell has room.
    fn create(&mut self) -> Result<(), AllocError> {
        let words = self.words();
        let root = self.dice.below(10);
        let birth = self.plain.births;
        let real = self.real.create(words);
        if self.plain.create(words)? {
            self.plain.roots.set(root, Some(birth));
            self.real.places.roots.set(root, real);
        } else {
            self.refused = self.refused.saturating_add(1);
        }
        Ok(())
    }

    /// A root leads where a word of another one leads.
    fn load(&mut self) {
        let (from, to, word) = (self.dice.below(10), self.dice.below(10), self.dice.below(5));
        if let Some(birth) = self.plain.roots.get(from) {
            if let Some(leads) = self.plain.word(birth, word) {
                self.plain.roots.set(to, leads);
                self.plain.shade(leads);
            }
        }
        if let Some(reference) = self.real.places.roots.get(from) {
            if let Some(leads) = self.real.word(reference, word) {
                self.real.places.roots.set(to, leads);
                self.real.shade(leads);
            }
        }
    }

    /// A word of a root leads where another root does.
    fn store(&mut self) {
        let (from, to, word) = (self.dice.below(10), self.dice.below(10), self.dice.below(5));
        if let Some(birth) = self.plain.roots.get(to) {
            let leads = self.plain.roots.get(from);
            self.plain.put(birth, word, leads);
            self.plain.shade(leads);
        }
        if let Some(reference) = self.real.places.roots.get(to) {
            let leads = self.real.places.roots.get(from);
            self.real.put(reference, word, leads);
            self.real.shade(leads);
        }
    }

    /// A root leads where another one does.
    fn copy(&mut self) {
        let (from, to) = (self.dice.below(10), self.dice.below(10));
        let birth = self.plain.roots.get(from);
        self.plain.roots.set(to, birth);
        self.plain.shade(birth);
        let reference = self.real.places.roots.get(from);
        self.real.places.roots.set(to, reference);
        self.real.shade(reference);
    }

    /// A root leads nowhere.
    fn forget(&mut self) {
        let root = self.dice.below(10);
        self.plain.roots.set(root, None);
        self.real.places.roots.set(root, None);
    }

    /// A step of the collector.
    fn collect(&mut self) -> Result<(), AllocError> {
        if self.plain.phase == Phase::Idle {
            self.cycles = self.cycles.saturating_add(1);
        }
        self.real.collect();
        self.plain.collect()
    }

    /// Whether both heaps are the same, as far as they can be seen.
    fn agree(&self) -> bool {
        self.agree_on_lists() && self.agree_on_cells() && self.agree_on_roots()
    }

    /// The next birth, the phase, the front of the grey list, and which sizes have a free cell.
    fn agree_on_lists(&self) -> bool {
        let front = match self.real.account.front() {
            Some(reference) => reference.checked_sub(1),
            None => None,
        };
        self.real.births == self.plain.births
            && self.real.phase() == self.plain.phase
            && front == self.plain.front_cell()
            && self.agree_on_room(4)
            && self.agree_on_room(32)
            && self.agree_on_room(256)
    }

    /// Whether a free cell has room.
    fn agree_on_room(&self, words: u32) -> bool {
        self.real.account.has_room(words) == self.plain.has_room(words)
    }

    /// The births in the cells, and their colours.
    fn agree_on_cells(&self) -> bool {
        for cell in 0..16 {
            if self.real.account.cell(cell) != self.plain.cell(cell) {
                return false;
            }
        }
        true
    }

    /// The births to which the roots lead.
    fn agree_on_roots(&self) -> bool {
        for root in 0..10 {
            let birth = match self.real.places.roots.get(root) {
                Some(reference) => self.real.birth(reference),
                None => None,
            };
            if birth != self.plain.roots.get(root) {
                return false;
            }
        }
        true
    }
}

/// Thousands of objects come and go in fifteen cells, now and then no cell has room, and the collector goes round.
#[test]
fn two_heaps_agree(rt: HostRuntime) -> Result<(), Fail> {
    let mut heaps = TwoHeaps::new(rt.alloc())?;
    for _ in 0..100_000 {
        heaps.turn()?;
        assert!(rt; heaps.agree());
    }
    let (births, refused, cycles) = (heaps.plain.births, heaps.refused, heaps.cycles);
    assert!(rt;
        births > 1_000 && refused > 1_000 && cycles > 100,
        "{births} {refused} {cycles}"
    );
    Ok(())
}
