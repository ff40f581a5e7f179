//! Objects in cells, their account and their monitors: each call with ample memory, on a heap of two small cells, a
//! medium one and a large one. Words and rooms are worked out by hand: 4, 4, 32 and 256.
//!
//! What is found is joined by `&`, which is no way out: calls that want a cell in range are made where the heap is
//! made.

use cells::{Cells, Monitor};
use colours::accounts::Account;
use model::colours::{Cell, Colour, Phase};
use model::journals::HeapShape;
use model::turns::Fault;
use model::values::Value;
use monitors::{enter, exit, may_enter, owns, release};
use std::alloc::AllocError;
use values::slots::value_in;

const SHAPE: HeapShape = HeapShape {
    small: 2,
    medium: 1,
    large: 1,
};

/// The value of a word.
fn word(cells: &Cells<char>, cell: u32, index: u32) -> Option<Value> {
    match cells.word(cell, index) {
        Some(slot) => Some(value_in(slot)),
        None => None,
    }
}

/// An object is placed, written and read, and the cell before it keeps its words.
#[test]
fn keeps_words_apart(rt: HostRuntime) -> Result<(), AllocError> {
    let mut cells = Cells::new(rt.alloc(), SHAPE)?;
    let rooms = (cells.len(), cells.room(1), cells.room(2), cells.room(3));
    cells.place(0, 'a', 4, Value::Int(0));
    cells.place(1, 'b', 3, Value::Ref(None));
    let is_put = cells.put(1, 0, Value::Int(7)) & !cells.put(1, 3, Value::Int(8));
    let is_read = (word(&cells, 0, 3) == Some(Value::Int(0)))
        & (word(&cells, 1, 0) == Some(Value::Int(7)))
        & (word(&cells, 1, 3) == None);
    let is_reported = (cells.length(1) == 3) & (cells.kind(0) == Some('a'));
    assert!(rt; (rooms == (4, 4, 32, 256)) & is_put & is_read & is_reported);
    Ok(())
}

/// A new object in a cell that was cleared has nothing of the one before.
#[test]
fn places_again(rt: HostRuntime) -> Result<(), AllocError> {
    let mut cells = Cells::new(rt.alloc(), SHAPE)?;
    cells.place(2, 'a', 5, Value::Int(0));
    let is_put = cells.put(2, 1, Value::Long(9));
    cells.set_monitor(
        2,
        Monitor {
            owner: Some(1),
            count: 2,
        },
    );
    cells.set_thread(2, Some(1));
    let is_set = (cells.monitor(2).owner == Some(1)) & (cells.thread(2) == Some(1));
    cells.clear(2);
    let is_clear = (cells.kind(2) == None) & (cells.length(2) == 0);
    cells.place(2, 'b', 2, Value::Ref(None));
    let is_new = (word(&cells, 2, 1) == Some(Value::Ref(None)))
        & (cells.monitor(2) == Monitor::free())
        & (cells.thread(2) == None);
    assert!(rt; is_put & is_set & is_clear & is_new);
    Ok(())
}

/// An object is placed with words of its own.
#[test]
fn places_words(rt: HostRuntime) -> Result<(), AllocError> {
    let mut cells = Cells::new(rt.alloc(), SHAPE)?;
    cells.place_all(1, 'a', [Value::Int(5), Value::Long(6)].as_slice());
    let words = (cells.length(1), word(&cells, 1, 0), word(&cells, 1, 1));
    assert!(rt; words == (2, Some(Value::Int(5)), Some(Value::Long(6))));
    Ok(())
}

/// Births 1 and 2 take the small cells, so birth 3 finds the medium one, birth 4 of 40 words the large one, and birth 5
/// none.
fn creates(account: &mut Account) -> bool {
    let is_new = (account.cells() == 4) & (account.front() == None);
    let is_third = (account.create(4, 3) == Some(2)) & account.has_room(256);
    let is_fourth = (account.create(40, 4) == Some(3)) & (account.create(0, 5) == None);
    let large = Cell::Taken {
        birth: 4,
        colour: Colour::Grey,
    };
    let is_reported = (account.front() == Some(3))
        & (account.colour(1) == Some(Colour::White))
        & (account.colour(4) == None)
        & (account.cell(3) == large);
    is_new & is_third & is_fourth & is_reported
}

/// Cell 0 is shaded and blackened, so appending keeps birth 1, and gives back cell 1, which birth 3 then finds.
fn gives_back(account: &mut Account) -> bool {
    account.shade(1);
    account.shade(0);
    let is_grey = account.front() == Some(1);
    account.blacken();
    let is_black = (account.front() == None) & (account.colour(0) == Some(Colour::Black));
    account.set_phase(Phase::Append { cell: 0 });
    account.append(SHAPE, 0);
    account.append(SHAPE, 1);
    let is_given = (account.phase() == Phase::Append { cell: 2 })
        & (account.colour(0) == Some(Colour::White))
        & (account.cell(1) == Cell::Free);
    account.append(SHAPE, 4);
    let is_over = (account.phase() == Phase::Idle) & (account.create(0, 3) == Some(1));
    is_grey & is_black & is_given & is_over
}

#[test]
fn accounts(rt: HostRuntime) -> Result<(), AllocError> {
    let mut account = Account::new(rt.alloc(), SHAPE)?;
    assert!(rt; creates(&mut account), "creates");
    let mut account = Account::new(rt.alloc(), SHAPE)?;
    assert!(rt; gives_back(&mut account), "gives back");
    Ok(())
}

/// A monitor is entered twice and left.
fn enters_and_leaves() -> Result<bool, Fault> {
    let once = enter(3, Monitor::free())?;
    let twice = enter(3, once)?;
    let is_owned = owns(3, once) & !owns(4, once);
    let is_open = may_enter(3, once) & !may_enter(4, once) & may_enter(4, Monitor::free());
    let is_left = (exit(twice) == once) & (exit(once) == Monitor::free());
    let is_released = (release(3, once) == Monitor::free()) & (release(4, once) == once);
    Ok(is_owned & is_open & is_left & is_released)
}

/// The last entry is the 65,535th.
fn is_full() -> Result<bool, Fault> {
    let nearly = Monitor {
        owner: Some(0),
        count: 65_534,
    };
    let full = enter(0, nearly)?;
    Ok((full.count == 65_535) & (enter(0, full) == Err(Fault::MonitorLimit)))
}

#[test]
fn monitors_by_hand(rt: HostRuntime) {
    assert!(rt; enters_and_leaves() == Ok(true) && is_full() == Ok(true));
}
