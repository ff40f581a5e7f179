//! Worlds beside the ideal runs of their programs: after each turn, and after whole runs.

use crate::mains::{ARRAYS, DIVISION, program, world_on};
use comparison::checking::{difference, first_difference};
use comparison::references::Reference;
use comparison::shows;
use ideal_run::worlds::World as IdealWorld;
use ideal_run::{Choice, Ideal};
use loader::programs::Program;
use model::journals::{Limits, Row};
use model::turns::Actor;
use model::watching::Unwatched;
use scheduler::worlds::World;
use std::alloc::{AllocError, Global};
use std::test::Fail;

const LIMITS: Limits = Limits {
    steps: 200,
    output: 12,
};

/// Is at fault where it prints.
const PRINT: &str = "nop\ninvokestatic vm/Sys/print(I)V\n";

/// Mains, the small cells of a heap, and the collector's turns after each of the thread's: with room for both arrays,
/// for one of them unless its cell is used again, and with none.
const RUNS: [(&str, u32, u32); 6] = [
    (ARRAYS, 4, 1),
    (ARRAYS, 3, 0),
    (ARRAYS, 3, 20),
    (DIVISION, 3, 2),
    (DIVISION, 2, 0),
    (PRINT, 2, 1),
];

/// Whether a world shows the ideal run once both have made a turn of the actor, each of so many times, and not while
/// the world is a turn ahead.
fn shows_each(
    world: &mut World,
    run: &mut Ideal<'_>,
    actor: Actor,
    turns: u8,
) -> Result<bool, AllocError> {
    for _turn in 0..turns {
        let _ = world.turn(actor);
        if shows(world, run)? {
            return Ok(false);
        }
        run.turn(actor, Choice::NewObject)?;
        if !shows(world, run)? {
            return Ok(false);
        }
    }
    Ok(true)
}

/// Whether a world of `ARRAYS` shows the ideal run at first, and after each turn until both arrays were made.
fn follows(world: &mut World, run: &mut Ideal<'_>) -> Result<bool, AllocError> {
    if !shows(world, run)? {
        return Ok(false);
    }
    for (actor, turns) in [
        (Actor::Thread(0), 3u8),
        (Actor::Collector, 25),
        (Actor::Thread(0), 4),
    ] {
        if !shows_each(world, run, actor, turns)? {
            return Ok(false);
        }
    }
    Ok(world.next_birth() == 5)
}

/// Whether a world follows the ideal run of its program.
fn follows_program(
    alloc: Global,
    world: &mut World,
    program: &Program,
) -> Result<bool, AllocError> {
    match Ideal::new(alloc, program.listings(), LIMITS)? {
        Some(mut run) => follows(world, &mut run),
        None => Ok(false),
    }
}

fn follows_on(alloc: Global, program: &Program, small: u32) -> Result<bool, Fail> {
    let mut world = world_on(alloc, program.copy()?, small, LIMITS)?;
    Ok(follows_program(alloc, &mut world, program)?)
}

/// An array is made and popped, marked or not, and its cell is used again for the second one.
#[test]
fn a_world_shows_its_ideal_run(rt: HostRuntime) -> Result<(), Fail> {
    let program = program(rt.alloc(), 1, ARRAYS)?;
    assert!(rt; follows_on(rt.alloc(), &program, 3)?);
    Ok(())
}

/// Whether no row of a run differs from the ideal run.
fn is_the_same(alloc: Global, lines: &str, small: u32, gc: u32) -> Result<bool, Fail> {
    let mut world = world_on(alloc, program(alloc, 2, lines)?, small, LIMITS)?;
    let _ = world.rounds(100, gc);
    Ok(first_difference(alloc, &world)?.is_none())
}

#[test]
fn no_row_of_a_run_differs(rt: HostRuntime) -> Result<(), Fail> {
    for (lines, small, gc) in RUNS {
        assert!(rt; is_the_same(rt.alloc(), lines, small, gc)?, "{lines}");
    }
    Ok(())
}

/// A reference that is wrong on purpose: it leaves out the turn of one row.
#[derive(Drop)]
struct Missing<'a> {
    run: Ideal<'a>,
    /// how many rows come before that one
    before: u8,
}

impl<'a> Reference for Missing<'a> {
    ghost shown = { λ s. s.run.world };

    ghost beside = { λ s v. Unit {0} };

    fn world(&self) -> &IdealWorld {
        self.run.world()
    }

    fn follow(&mut self, _world: &World, row: Row) -> Result<(), AllocError> {
        if self.before == 0 {
            return Ok(());
        }
        self.before -= 1;
        self.run.turn(row.actor, Choice::NewObject)
    }
}

/// Whether the row that such a reference leaves out is told.
fn tells_missing(alloc: Global, world: &World, row: u8) -> Result<bool, AllocError> {
    match Ideal::new(alloc, world.program().listings(), LIMITS)? {
        Some(run) => {
            let before = row.saturating_sub(1);
            let mut reference = Missing { run, before };
            let mut watch = Unwatched;
            let first = difference(alloc, world, &mut reference, &mut watch)?;
            Ok(first == Some(row as usize))
        }
        None => Ok(false),
    }
}

fn tells_each_missing(alloc: Global, lines: &str) -> Result<bool, Fail> {
    let mut world = world_on(alloc, program(alloc, 2, lines)?, 4, LIMITS)?;
    let _ = world.rounds(100, 1);
    for row in [1u8, 2, 3] {
        if !tells_missing(alloc, &world, row)? {
            return Ok(false);
        }
    }
    Ok(true)
}

/// The reference misses a turn of the thread, one of the collector, and one that makes an object.
#[test]
fn the_row_that_a_wrong_reference_leaves_out_is_told(rt: HostRuntime) -> Result<(), Fail> {
    assert!(rt; tells_each_missing(rt.alloc(), ARRAYS)?);
    Ok(())
}
