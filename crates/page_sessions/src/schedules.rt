//! Every schedule of a program, explored and told.
ghost use Rattle.std.specs.Prelude.{◌≡◌, ◌++◌, ◌-◌, ◌^◌, ◌<◌, IfOk};
ghost use Rattle.std.specs.List.{flat_map};
ghost use Rattle.debugger.specs.Breakpoints.{Breakpoints};
ghost use Rattle.debugger.specs.Sessions.{Carries, Counts, debugged};
ghost use Rattle.explore_texts.specs.Reports.{report_text};
ghost use Rattle.exploring.specs.Explorations.{Report};
ghost use Rattle.page_sessions.specs.Playing.{Explores, IsExploration};
ghost use Rattle.page_sessions.specs.Texts.{exploration_text, witness_text};

use debug_texts::counted::Counted;
use debug_texts::sinks::Sink;
use debugger::errors::DebugError;
use debugger::writing::put_text;
use explore_texts::reports::put_report;
use explore_texts::witnesses::turns_text;
use exploring::{Bounds, Explored, Found, explore};
use ideal_run::Transitions;
use model::watching::Unwatched;
use page_texts::whole_texts::whole_answer;
use scheduler::worlds::World;
use std::alloc::{AllocError, Global};

/// What an exploration finds under the limits of a world.
fn explored(alloc: Global, world: &World, bounds: Bounds) -> Result<Explored, AllocError>
    ensures { IfOk result (IsExploration world.now bounds.no_room) }
{
    let limits = world.journal().limits();
    match Transitions::new(alloc, world.program().listings(), limits)? {
        Some(transitions) => Ok(explore(alloc, &transitions, bounds, &mut Unwatched)),
        None => unreachable!(),
    }
}

/// The report of an exploration.
fn report_of(alloc: Global, explored: &Explored) -> Result<Vec<u8>, AllocError>
    ensures { IfOk result (λ text. text.items ≡ report_text explored.now) }
{
    let mut sink = Counted::new(Vec::new(alloc));
    match put_report(&mut sink, explored) {
        Ok(()) => Ok(sink.into_inner()),
        Err(_) => Err(AllocError),
    }
}

/// Adds the turns that lead to an outcome.
fn write_witness(alloc: Global, text: &mut Vec<u8>, found: &Found) -> Result<(), AllocError>
    ensures { IfOk result (λ _. text.new.items ≡ text.old.items ++ witness_text found.now) }
{
    let turns = turns_text(alloc, &found.witness)?;
    let told = whole_answer(alloc, b"witness", turns.as_slice())?;
    text.extend_from_slice(&told)
}

/// Adds the turns that lead to each outcome.
fn write_witnesses(alloc: Global, text: &mut Vec<u8>, found: &[Found]) -> Result<(), AllocError>
    ensures { IfOk result (λ _. text.new.items ≡ text.old.items ++ flat_map witness_text found.now) }
{
    for each in found {
        write_witness(alloc, text, each)?;
    }
    Ok(())
}

/// The text of an exploration: its report, and then the turns that lead to each outcome.
fn exploration_of(alloc: Global, world: &World, bounds: Bounds) -> Result<Vec<u8>, AllocError>
    ensures { IfOk result (λ text. (r : Report) × IsExploration world.now bounds.no_room r
        × (text.items ≡ exploration_text r)) }
{
    let explored = explored(alloc, world, bounds)?;
    let mut text = report_of(alloc, &explored)?;
    write_witnesses(alloc, &mut text, &explored.found)?;
    Ok(text)
}

/// Explores every schedule of a world's program, from its first turn on and under the world's limits, and tells what
/// was found. `Memory`, and nothing written, where memory runs out for that; an exploration for which it does is cut off.
/// `Write` where a write failed.
pub fn tell_exploration<S: Sink>(
    alloc: Global,
    world: &World,
    bounds: Bounds,
    sink: &mut S,
) -> Result<(), DebugError>
    requires { S.failures sink.old < 2 ^ 64 - 1 }
    ensures carried { (bs : Breakpoints) → Carries (Explores (debugged world.now bs) bounds.no_room) result
        (debugged world.now bs) (debugged world.now bs) (S.contents sink.old) (S.contents sink.new) }
    ensures counts { Counts result (S.failures sink.old) (S.failures sink.new) }
{
    match exploration_of(alloc, world, bounds) {
        Ok(text) => put_text(sink, &text),
        Err(_) => Err(DebugError::Memory),
    }
}
