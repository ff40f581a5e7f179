//! The run of a small program, turn by turn: what it prints was worked out by hand.

use crate::texts::classes;
use ideal_run::{Choice, Ideal};
use model::journals::Limits;
use model::listings::Listing;
use model::turns::Actor;
use std::alloc::{AllocError, Global};
use std::test::Fail;

const SUM: &str = "class A|main:|iconst_2|iconst_3|iadd|invokestatic vm/Sys/print(I)V|return|end";

const LIMITS: Limits = Limits {
    steps: 100,
    output: 100,
};

/// So many turns of thread 0.
fn turns(run: &mut Ideal<'_>, count: u8) -> Result<(), AllocError> {
    for _ in 0..count {
        run.turn(Actor::Thread(0), Choice::NewObject)?;
    }
    Ok(())
}

/// Whether the sum is printed by the fourth turn. The fifth ends the thread, and what refuses a turn isn't counted.
fn prints_sum(run: &mut Ideal<'_>) -> Result<bool, AllocError> {
    turns(run, 3)?;
    run.turn(Actor::Collector, Choice::NewObject)?;
    let is_empty = run.world().output().is_empty();
    turns(run, 9)?;
    let world = run.world();
    let is_done = !world.is_live(0) && world.rows() == 6;
    Ok(is_empty && is_done && world.output() == b"5\n".as_slice())
}

/// The same of the run of a program.
fn run_prints_sum(alloc: Global, program: &[Listing]) -> Result<bool, AllocError> {
    match Ideal::new(alloc, program, LIMITS)? {
        Some(mut run) => prints_sum(&mut run),
        None => Ok(false),
    }
}

#[test]
fn sum_is_printed(rt: HostRuntime) -> Result<(), Fail> {
    let classes = classes(rt.alloc(), SUM)?;
    assert!(rt; run_prints_sum(rt.alloc(), &classes)?);
    Ok(())
}
