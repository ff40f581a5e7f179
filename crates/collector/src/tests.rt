//! Two cycles over a heap to which nothing leads but its two errors, by hand.
ghost use Rattle.std.specs.Prelude.{[], None};
ghost use Rattle.model.specs.Worlds.{World};

mod plain_heap;
mod real_heap;
mod roots;
mod two_heaps;

use crate::{References, collect_step, reached};
use colours::accounts::Account;
use model::colours::{Cell, Phase};
use model::journals::HeapShape;
use std::process::Abort;
use std::test::Fail;

/// A machine without static slots, threads and words.
struct Nothing;

impl References for Nothing {
    ghost world = { λ s. record {
      threads = [];
      statics = record { fields = []; states = [] };
      output = [];
      objects = [];
      fault = None;
      rows = 0;
    } };

    fn slots(&self) -> u32 {
        0
    }

    #[tactic(auto, unfolding(model::specs::Collector::Places::root_at))]
    fn slot(&self, _slot: u32) -> Option<u32> {
        None
    }

    fn threads(&self) -> u32 {
        0
    }

    fn frames(&self, _thread: u32) -> u32 {
        0
    }

    fn entries(&self, _thread: u32, _frame: u32) -> u32 {
        0
    }

    #[tactic(auto, unfolding(model::specs::Collector::Places::root_at))]
    fn entry(&self, _thread: u32, _frame: u32, _entry: u32) -> Option<u32> {
        None
    }

    #[tactic(auto, unfolding(model::specs::Collector::Places::root_at))]
    fn method_monitor(&self, _thread: u32, _frame: u32) -> Option<u32> {
        None
    }

    fn words(&self, _reference: u32) -> u32 {
        0
    }

    #[tactic(auto, unfolding(model::specs::Collector::Places::word_at))]
    fn word(&self, _reference: u32, _word: u32) -> Option<u32> {
        None
    }
}

/// Birth 3 is new, so the first cycle (1 step from Idle, 1 over no slot, 1 over no thread, 3 that blacken, 1 that finds
/// nothing grey, 3 that whiten, 1 past the last cell) keeps it. The second blackens births 1 and 2 alone: its eighth
/// step stands at cell 2, and the ninth gives that back.
#[test]
fn the_second_cycle_frees(rt: HostRuntime) -> Result<(), Fail> {
    let shape = HeapShape {
        small: 3,
        medium: 0,
        large: 0,
    };
    let mut account = Account::new(rt.alloc(), shape)?;
    assert!(rt; account.create(0, 3) == Some(2));
    for _ in 0..19 {
        assert!(rt; collect_step(&mut account, &Nothing, shape) == None);
    }
    assert!(rt; account.phase() == Phase::Append { cell: 2 });
    assert!(rt; collect_step(&mut account, &Nothing, shape) == Some(2));
    assert!(rt; account.cell(2) == Cell::Free && account.cell(1) != Cell::Free);
    Ok(())
}

/// Nothing leads anywhere, so birth 1 and 2 are reached and no other.
#[test]
fn the_errors_alone_are_reached(rt: HostRuntime) -> Result<(), Fail> {
    let marks = reached(rt.alloc(), &Nothing, 4)?;
    assert!(rt; marks.as_slice() == [false, true, true, false].as_slice());
    Ok(())
}
