//! Programs that make objects: births, cells, colours and rows after turns of threads and the collector. What they come
//! to is worked out by hand from the collector's step (CACM 21(11)) and the JVMS (6.5).

use crate::mains::{program_of, world_on};
use model::colours::{Colour, Phase};
use model::journals::{Limits, Outcome};
use model::turns::{Actor, Turn};
use scheduler::worlds::World;
use std::alloc::{AllocError, Global};
use std::test::Fail;

const MAIN: Actor = Actor::Thread(0);

const GC: Actor = Actor::Collector;

const ONE_OBJECT: &str =
    ".class K\n.super java/lang/Object\n.field x I\n.method static main()V\n.limit stack 2\n.limit locals 1\nnew K\nastore_0\naload_0\nbipush 5\nputfield K/x I\naload_0\ngetfield K/x I\ninvokestatic vm/Sys/print(I)V\nreturn\n.end method\n";

const LINKED: &str =
    ".class N\n.super java/lang/Object\n.field x I\n.field next LN;\n.method static main()V\n.limit stack 3\n.limit locals 2\nnew N\nastore_0\nnew N\nastore_1\naload_1\nbipush 7\nputfield N/x I\naload_0\naload_1\nputfield N/next LN;\naconst_null\nastore_1\naload_0\ngetfield N/next LN;\naload_0\naconst_null\nputfield N/next LN;\ngetfield N/x I\ninvokestatic vm/Sys/print(I)V\nreturn\n.end method\n";

const DROPPED: &str =
    ".class K\n.super java/lang/Object\n.field x I\n.method static main()V\n.limit stack 1\n.limit locals 0\nnew K\npop\nreturn\n.end method\n";

/// So many turns of an actor, and what is seen then.
type Step = (u8, Actor, &'static str);

fn colour_name(colour: Colour) -> &'static str {
    match colour {
        Colour::White => "white",
        Colour::Grey => "grey",
        Colour::Black => "black",
    }
}

/// Where the collector stands, of its places those that the steps tell.
fn phase_name(phase: Phase) -> &'static str {
    match phase {
        Phase::Idle => ", idle",
        Phase::Mark { word: 0 } => ", marking",
        _ => "",
    }
}

/// The birth that a cell holds, its colour, and where the collector stands.
fn seen(alloc: Global, world: &World, cell: u32) -> Result<String, AllocError> {
    let phase = phase_name(world.phase());
    match world.heap(cell) {
        Some(view) => match view.held {
            Some((birth, colour)) => {
                let colour = colour_name(colour);
                format!(in alloc; "{birth} {colour}{phase}")
            }
            None => format!(in alloc; "free{phase}"),
        },
        None => format!(in alloc; "no cell"),
    }
}

/// Makes the turns of these steps; whether this is seen of a cell after each.
fn follows(
    alloc: Global,
    world: &mut World,
    cell: u32,
    steps: &[Step],
) -> Result<bool, AllocError> {
    for (turns, actor, wanted) in steps {
        for _turn in 0..*turns {
            let _ = world.turn(*actor);
        }
        if seen(alloc, world, cell)?.as_str() != *wanted {
            return Ok(false);
        }
    }
    Ok(true)
}

/// The object takes its cell while the collector marks, grey; the collector blackens it in this cycle, and it is shaded
/// as it is stored.
const MARKED: &[Step] = &[
    (8, GC, "free, marking"),
    (1, MAIN, "3 grey, marking"),
    (2, GC, "3 black, marking"),
    (5, GC, "3 white, idle"),
    (8, MAIN, "3 grey, idle"),
];

/// The object takes its cell while the collector appends, and stays grey into the next cycle.
const APPENDED: &[Step] = &[
    (9, GC, "free"),
    (1, MAIN, "3 grey"),
    (4, GC, "3 grey, idle"),
    (8, MAIN, "3 grey, idle"),
];

/// The only reference to an object moves from a field that the collector hasn't looked at to a stack that it has: what
/// getfield reads is shaded, so that the object stays.
const LOADED: &[Step] = &[
    (12, MAIN, "4 grey, idle"),
    (28, GC, "4 white, marking"),
    (2, MAIN, "4 grey, marking"),
    (3, MAIN, "4 grey, marking"),
    (14, GC, "4 white, idle"),
    (3, MAIN, "4 white, idle"),
];

/// An object to which nothing leads is gone in the second cycle.
const FREED: &[Step] = &[
    (2, MAIN, "3 grey, idle"),
    (14, GC, "3 white, idle"),
    (11, GC, "free"),
    (1, GC, "free, idle"),
];

/// A program, its small cells and one of them, its steps, and then the row that takes this cell, how many rows there
/// are, and what is printed.
type Run = (
    &'static str,
    u32,
    u32,
    &'static [Step],
    usize,
    usize,
    &'static str,
);

const RUNS: &[Run] = &[
    (ONE_OBJECT, 3, 2, MARKED, 8, 24, "5\n"),
    (ONE_OBJECT, 3, 2, APPENDED, 9, 22, "5\n"),
    (LINKED, 4, 3, LOADED, 2, 62, "7\n"),
    (DROPPED, 3, 2, FREED, 0, 28, ""),
];

const LIMITS: Limits = Limits {
    steps: 1000,
    output: 100,
};

/// Whether a world has printed this, and its journal has so many rows, of which this one takes a cell.
fn has(world: &World, taking: usize, rows: usize, output: &str) -> bool {
    let row = world.journal().rows().nth(taking);
    row.is_some_and(|row| row.outcome == Outcome::Object)
        && world.journal().rows().len() == rows
        && world.output() == output.as_bytes()
}

fn goes_so(alloc: Global, run: &Run) -> Result<bool, Fail> {
    let (text, small, cell, steps, taking, rows, output) = *run;
    let mut world = world_on(alloc, program_of(alloc, text)?, small, LIMITS)?;
    Ok(follows(alloc, &mut world, cell, steps)? && has(&world, taking, rows, output))
}

#[test]
fn objects_have_cells_and_colours(rt: HostRuntime) -> Result<(), Fail> {
    for run in RUNS {
        assert!(rt; goes_so(rt.alloc(), run)?, "{} {}", run.0, run.5);
    }
    Ok(())
}

/// Makes ten thousand objects, each of which is garbage at once.
const TEN_THOUSAND: &str =
    ".class G\n.super java/lang/Object\n.method static main()V\n.limit stack 2\n.limit locals 1\niconst_0\nistore_0\nTop:\nnew G\npop\niinc 0 1\niload_0\nsipush 10000\nif_icmplt Top\nreturn\n.end method\n";

/// The limit of steps, and how many turns the collector makes after each of the thread's; then the next birth, how many
/// rows there are, and what the last turn answers.
type Rounds = (u32, u32, u32, usize, Turn);

const ROUNDS: &[Rounds] = &[
    (3_000_000, 40, 10_003, 2_460_083, Turn::NotReady),
    (1_000_000, 0, 9, 39, Turn::NotReady),
    (10, 0, 5, 10, Turn::StepLimit),
];

fn ends_so(world: &mut World, rounds: &Rounds) -> bool {
    let (_, gc, birth, rows, answer) = *rounds;
    world.rounds(u32::MAX, gc) == answer
        && world.next_birth() == birth
        && world.journal().rows().len() == rows
}

fn is_run(alloc: Global, rounds: &Rounds) -> Result<bool, Fail> {
    let limits = Limits {
        steps: rounds.0,
        output: 0,
    };
    let mut world = world_on(alloc, program_of(alloc, TEN_THOUSAND)?, 8, limits)?;
    Ok(ends_so(&mut world, rounds))
}

#[test]
fn ten_thousand_objects_pass_through_six_cells(rt: HostRuntime) -> Result<(), Fail> {
    for rounds in ROUNDS {
        assert!(rt; is_run(rt.alloc(), rounds)?, "{} steps", rounds.0);
    }
    Ok(())
}
