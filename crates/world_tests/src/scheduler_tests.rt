//! Each call once, on small mains that are run as worlds. What they come to is worked out by hand from the JVMS (6.5).
//!
//! A story is a function that borrows a world, which one function makes and drops: a test that owns a world and asks it
//! eight things takes minutes to prove. What is reported of journals' texts, and which replay, stands in
//! examples/answers.txt; which shapes and limits have no world in examples/sessions.txt.

mod depths;
mod objects;
mod rounds;

use crate::mains::{ARRAY, DIVISION, WRAPPING_SUM, has_rows, program, world_on};
use depths::{DEEP, the_call_past_256_frames_overflows};
use model::colours::{Colour, Phase};
use model::journals::{HeapShape, Limits, Outcome, Row};
use model::turns::{Actor, ClassState, Fault, Status, Turn};
use model::values::Value;
use model::views::{CellView, ThreadState, ThreadView};
use objects::{an_array_is_shown, an_array_that_was_popped_is_not_shown};
use rounds::rounds_end_with_their_thread;
use scheduler::worlds::{World, WorldError};
use std::alloc::{AllocError, Global};
use std::test::Fail;

const TWO_CELLS: HeapShape = HeapShape {
    small: 2,
    medium: 0,
    large: 0,
};

const MAIN: Actor = Actor::Thread(0);

fn row(actor: Actor, outcome: Outcome) -> Row {
    Row {
        actor,
        outcome,
        worker: 0,
    }
}

/// Whether turns are answered so.
fn answers(world: &mut World, turns: &[(Actor, Turn)]) -> bool {
    for (actor, wanted) in turns {
        if world.turn(*actor) != *wanted {
            return false;
        }
    }
    true
}

/// The status, the thread that is picked, whether the output is full, and the fault with its thread.
fn reported(world: &World) -> (Status, Option<u8>, bool, Option<(Fault, u8)>) {
    (
        world.status(),
        world.pick(),
        world.output_full(),
        world.fault(),
    )
}

/// Whether the journal has these rows, and the output these bytes.
fn has(world: &World, rows: &[Row], output: &[u8]) -> bool {
    has_rows(world, rows) && world.output() == output
}

/// Whether a thread has one frame, which stands at this pc with these values on its stack, bottom first.
fn is_at(thread: &ThreadView, pc: u16, stack: &[Value]) -> bool {
    match &thread.state {
        ThreadState::Live(frames) => match frames.as_slice() {
            [frame] => frame.pc == pc && frame.stack.as_slice() == stack,
            _ => false,
        },
        ThreadState::Ended(_) => false,
    }
}

/// Whether main is such a thread.
fn stands_at(world: &World, pc: u16, stack: &[Value]) -> bool {
    match world.thread(0) {
        Ok(Some(main)) => is_at(&main, pc, stack),
        _ => false,
    }
}

/// Whether a thread has ended, by an exception of this class or by none.
fn is_over(thread: &ThreadView, by: Option<&str>) -> bool {
    match &thread.state {
        ThreadState::Ended(Some(name)) => by.is_some_and(|class| name.is(class)),
        ThreadState::Ended(None) => by.is_none(),
        ThreadState::Live(_) => false,
    }
}

/// Whether main is such a thread.
fn has_ended(world: &World, by: Option<&str>) -> bool {
    match world.thread(0) {
        Ok(Some(main)) => is_over(&main, by),
        _ => false,
    }
}

fn a_sum_wraps(world: &mut World) -> bool {
    world.run(&[MAIN; 3]);
    stands_at(world, 4, &[Value::Int(-2_147_483_648)])
        && reported(world) == (Status::Running, Some(0), false, None)
}

fn twelve_bytes_take_the_sum(world: &mut World) -> bool {
    world.run(&[MAIN; 5]);
    has(world, &[row(MAIN, Outcome::Done); 5], b"-2147483648\n")
        && reported(world) == (Status::Finished, None, false, None)
        && has_ended(world, None)
}

fn a_thread_that_ended_has_no_turn(world: &mut World) -> bool {
    world.run(&[MAIN; 5]);
    answers(world, &[(MAIN, Turn::NotReady)])
        && world.program().listings().len() == 1
        && world.class_state("A") == Some(ClassState::Done)
}

fn eleven_bytes_do_not_take_the_sum(world: &mut World) -> bool {
    world.run(&[MAIN; 4]);
    answers(world, &[(MAIN, Turn::OutputFull)])
        && has(world, &[row(MAIN, Outcome::Done); 3], b"")
        && reported(world) == (Status::Running, Some(0), true, None)
}

fn a_missing_operand_is_a_fault(world: &mut World) -> bool {
    let turns = [
        (MAIN, Turn::Done),
        (MAIN, Turn::Fault(Fault::StackEmpty)),
        (MAIN, Turn::Stopped),
    ];
    let rows = [row(MAIN, Outcome::Done), row(MAIN, Outcome::Fault)];
    let fault = Some((Fault::StackEmpty, 0));
    answers(world, &turns)
        && has(world, &rows, b"")
        && reported(world) == (Status::Faulted, None, false, fault)
        && stands_at(world, 1, &[Value::Int(1)])
}

fn a_main_without_a_return_is_a_fault(world: &mut World) -> bool {
    world.run(&[MAIN; 3]);
    let rows = [row(MAIN, Outcome::Done), row(MAIN, Outcome::Fault)];
    has(world, &rows, b"") && world.fault() == Some((Fault::NoInstruction, 0))
}

fn a_push_past_the_stack_is_a_fault(world: &mut World) -> bool {
    answers(world, &[(MAIN, Turn::Fault(Fault::StackFull))])
        && has(world, &[row(MAIN, Outcome::Fault)], b"")
}

fn steps_are_limited(world: &mut World) -> bool {
    let turns = [(MAIN, Turn::StepLimit), (Actor::Thread(1), Turn::StepLimit)];
    if world.journal().workers() != 1 {
        return false;
    }
    world.turn_by(MAIN, 0) == Turn::Done
        && answers(world, &turns)
        && has(world, &[row(MAIN, Outcome::Done)], b"")
}

fn only_main_was_started(world: &mut World) -> bool {
    let turns = [
        (Actor::Thread(1), Turn::NotReady),
        (Actor::Thread(255), Turn::NotReady),
    ];
    answers(world, &turns)
        && has(world, &[], b"")
        && matches!(world.thread(1), Ok(None))
        && (world.journal().shape(), world.journal().workers()) == (TWO_CELLS, 1)
}

/// The collector's turn is done and has its row; the thread that is picked is the one after the last thread's row.
fn the_collector_has_a_row(world: &mut World) -> bool {
    world.run(&[Actor::Collector, MAIN, Actor::Collector]);
    let collected = row(Actor::Collector, Outcome::Done);
    let rows = [collected, row(MAIN, Outcome::Done), collected];
    has(world, &rows, b"") && world.pick() == Some(0)
}

/// A cell of four words that holds this birth in this colour.
fn held(birth: u32, colour: Colour) -> Option<CellView> {
    Some(CellView {
        words: 4,
        held: Some((birth, colour)),
    })
}

/// Its first step shades births 1 and 2.
fn the_collector_begins(world: &mut World) -> bool {
    answers(world, &[(Actor::Collector, Turn::Done)])
        && world.phase() == Phase::Statics { slot: 0 }
        && (world.heap(1), world.heap(2)) == (held(2, Colour::Grey), None)
        && world.next_birth() == 3
}

fn no_free_cell_is_out_of_memory(world: &mut World) -> bool {
    world.run(&[MAIN; 3]);
    world.loses_nothing();
    let done = row(MAIN, Outcome::Done);
    has(world, &[done, done, row(MAIN, Outcome::NoRoom)], b"")
        && has_ended(world, Some("java/lang/OutOfMemoryError"))
        && world.next_birth() == 3
}

/// A story, its main's lines and stack, its small cells, and the limits of steps and of output.
type Story = (&'static str, &'static str, u16, u32, u32, u32);

const STORIES: &[Story] = &[
    ("wraps", WRAPPING_SUM, 2, 2, 1_000_000, 12),
    ("twelve bytes", WRAPPING_SUM, 2, 2, 1_000_000, 12),
    ("no turn", WRAPPING_SUM, 2, 2, 1_000_000, 12),
    ("eleven bytes", WRAPPING_SUM, 2, 2, 1_000_000, 11),
    ("no operand", "iconst_1\niadd\n", 2, 2, 1_000_000, 65_536),
    ("no return", "nop\n", 0, 2, 1_000_000, 65_536),
    ("no stack", "iconst_0\nreturn\n", 0, 2, 1_000_000, 65_536),
    ("one step", WRAPPING_SUM, 2, 2, 1, 65_536),
    ("only main", WRAPPING_SUM, 2, 2, 1_000_000, 65_536),
    ("collected", WRAPPING_SUM, 2, 2, 1_000_000, 65_536),
    ("begins", WRAPPING_SUM, 2, 2, 1_000_000, 65_536),
    ("no cell", DIVISION, 2, 2, 1_000_000, 0),
    ("rounds", WRAPPING_SUM, 2, 2, 1_000_000, 12),
    ("array", ARRAY, 1, 3, 9, 0),
    ("popped array", ARRAY, 1, 3, 9, 0),
    ("deepest", DEEP, 1, 3, 1_000, 0),
];

/// Whether a story goes as it is to, on its world.
fn goes_well(world: &mut World, story: &str) -> bool {
    match story {
        "wraps" => a_sum_wraps(world),
        "twelve bytes" => twelve_bytes_take_the_sum(world),
        "no turn" => a_thread_that_ended_has_no_turn(world),
        "eleven bytes" => eleven_bytes_do_not_take_the_sum(world),
        "no operand" => a_missing_operand_is_a_fault(world),
        "no return" => a_main_without_a_return_is_a_fault(world),
        "no stack" => a_push_past_the_stack_is_a_fault(world),
        "one step" => steps_are_limited(world),
        "only main" => only_main_was_started(world),
        "collected" => the_collector_has_a_row(world),
        "begins" => the_collector_begins(world),
        "no cell" => no_free_cell_is_out_of_memory(world),
        "rounds" => rounds_end_with_their_thread(world),
        "array" => an_array_is_shown(world),
        "popped array" => an_array_that_was_popped_is_not_shown(world),
        "deepest" => the_call_past_256_frames_overflows(world),
        _ => false,
    }
}

/// The same, with a world of its own.
fn is_so(alloc: Global, story: &Story) -> Result<bool, Fail> {
    let (name, lines, stack, small, steps, output) = *story;
    let limits = Limits { steps, output };
    let mut world = world_on(alloc, program(alloc, stack, lines)?, small, limits)?;
    Ok(goes_well(&mut world, name))
}

#[test]
fn stories_go_well(rt: HostRuntime) -> Result<(), Fail> {
    for story in STORIES {
        assert!(rt; is_so(rt.alloc(), story)?, "{}", story.0);
    }
    Ok(())
}

/// Whether these errors, one after another, are reported by their codes.
fn is_reported(alloc: Global) -> Result<bool, AllocError> {
    let (shape, limits, memory) = (WorldError::Shape, WorldError::Limits, WorldError::Memory);
    Ok(format!(in alloc; "{shape} {limits} {memory}")?.as_str() == "P1 P2 P3")
}

#[test]
fn refusals_have_codes(rt: HostRuntime) {
    assert!(rt; is_reported(rt.alloc()) == Ok(true));
}
