//! `run`: turns of the threads that are picked, with a turn of the collector after each.
ghost use Rattle.std.specs.Prelude.{◌≡◌};
ghost use Rattle.model.specs.Observers.{is_running};
ghost use Rattle.debugger.specs.Runs.{HoldsNone, answer_unless, are_whole, ended, held_at, held_unless, picked_unless, reason_after};
ghost use Rattle.debugger.specs.Runs.{Covers, reason_of, run_for, sweep_answer, swept_once};

use crate::breakpoints::least_at;
use debug_texts::answers::Reason;
use instructions::lone_rounds::Rounds;
use instructions::stops::Marks;
use model::places::CodePlace;
use model::turns::{Actor, Status, Turn};
use scheduler::replaying::SoundJournal;
use scheduler::rounds::is_done;
use scheduler::worlds::World;
use slab::Slab;

/// How many turns of threads were done, and why no more were made.
#[derive(Clone, Copy)]
pub struct Ran {
    pub turns: u32,
    pub reason: Reason,
}

/// Whether a world that stands so runs.
fn is_running(status: Status) -> bool
    ensures { result ≡ is_running status }
{
    match status {
        Status::Running => true,
        Status::Finished | Status::Stuck | Status::Faulted => false,
    }
}

/// Why no turn is made now: how the world stands.
fn reason_of(world: &World) -> Reason
    ensures { result ≡ reason_of world.now }
{
    match world.status() {
        Status::Running => Reason::Running,
        Status::Finished => Reason::Finished,
        Status::Stuck => Reason::Stuck,
        Status::Faulted => {
            match world.fault() {
                Some((fault, _)) => Reason::Turn(Turn::Fault(fault)),
                None => Reason::Turn(Turn::Stopped),
            }
        }
    }
}

/// The least number of a breakpoint at which the picked thread stands, and the thread.
fn held_at(world: &World, breakpoints: &Slab<CodePlace>) -> Option<(usize, u8)>
    ensures { result ≡ held_at breakpoints.now.slots world.now }
{
    let thread = world.pick()?;
    let place = world.place(thread)?;
    let number = least_at(breakpoints, place)?;
    Some((number, thread))
}

/// The same, but that no breakpoint holds the first turn.
fn held_unless(first: bool, world: &World, breakpoints: &Slab<CodePlace>) -> Option<(usize, u8)>
    ensures { result ≡ held_unless first breakpoints.now.slots world.now }
{
    if first {
        None
    } else {
        held_at(world, breakpoints)
    }
}

/// A turn of the collector where the world runs; `Done` where it doesn't.
fn sweep_once(world: &mut World) -> Turn
    ensures world { world.new ≡ swept_once world.old }
    ensures answer { result ≡ sweep_answer world.old }
{
    if is_running(world.status()) {
        world.turn(Actor::Collector)
    } else {
        Turn::Done
    }
}

/// Marks for the places at which breakpoints stand.
fn marks_of(breakpoints: &Slab<CodePlace>) -> Marks
    ensures { Covers result breakpoints.now.slots }
{
    let mut marks = Marks::new();
    for (_number, place) in breakpoints.iter() {
        marks.add(*place);
    }
    marks
}

/// Whether whole rounds were made, and no more.
fn are_whole(rounds: Rounds) -> bool
    ensures { result ≡ are_whole rounds.made rounds.begun }
{
    match (rounds.made, rounds.begun) {
        (0, _) => false,
        (_, begun) => !begun,
    }
}

/// The turn of the thread that is picked, unless it was made already; what it answers.
fn turn_unless(begun: bool, world: &mut World) -> Turn
    ensures world { world.new ≡ picked_unless begun world.old }
    ensures answer { result ≡ answer_unless begun world.old }
{
    if begun {
        return Turn::Done;
    }
    // of one worker at least, as `turn_of_picked` wants
    world.journal().is_sound();
    world.turn_of_picked(0)
}

/// So many turns of threads at most, with a look at the breakpoints before each but the first: many in one call, as long
/// as no place is marked, and one by one where that can't be.
fn run_to_breakpoint(world: &mut World, breakpoints: &Slab<CodePlace>, turns: u32) -> Ran
    ensures { ended world.new result.turns result.reason ≡ run_for breakpoints.now.slots turns world.old }
{
    let marks = marks_of(breakpoints);
    let mut made = 0;
    'turns: while made < turns {
        if !is_running(world.status()) {
            break;
        }
        if let Some((number, thread)) = held_unless(made == 0, world, breakpoints) {
            let reason = Reason::Breakpoint { number, thread };
            return Ran {
                turns: made,
                reason,
            };
        }
        let quick = world.rounds_past(marks.stops(), 1, turns - made);
        made += quick.made;
        if are_whole(quick) {
            continue;
        }
        let answer = turn_unless(quick.begun, world);
        if !is_done(answer) {
            let reason = Reason::Turn(answer);
            return Ran {
                turns: made,
                reason,
            };
        }
        made += 1;
        let swept = sweep_once(world);
        if !is_done(swept) {
            let reason = Reason::Turn(swept);
            return Ran {
                turns: made,
                reason,
            };
        }
    }
    let reason = reason_of(world);
    Ran {
        turns: made,
        reason,
    }
}

/// Why a run ends with a thread's turn that answers this.
fn reason_after(world: &World, answer: Turn) -> Reason
    ensures { result ≡ reason_after world.now answer }
{
    match answer {
        Turn::NotReady => reason_of(world),
        Turn::Done | Turn::Stopped | Turn::Fault(_) | Turn::OutputFull | Turn::StepLimit =>
            Reason::Turn(answer),
    }
}

/// So many turns of threads at most, where no breakpoint is set: many in one call.
// The last one apart: there what the collector's turn answers is a reason to end.
fn run_freely(world: &mut World, breakpoints: &Slab<CodePlace>, turns: u32) -> Ran
    requires { HoldsNone breakpoints.now.slots }
    ensures { ended world.new result.turns result.reason ≡ run_for breakpoints.now.slots turns world.old }
{
    if turns == 0 {
        return Ran {
            turns,
            reason: reason_of(world),
        };
    }
    let before = turns - 1;
    let rounds = world.make_rounds(before, 1);
    let made = before - rounds.left;
    if rounds.left > 0 {
        return Ran {
            turns: made,
            reason: reason_after(world, rounds.answer),
        };
    }
    let last = run_to_breakpoint(world, breakpoints, 1);
    Ran {
        turns: made + last.turns,
        reason: last.reason,
    }
}

/// So many turns of threads at most, each followed by a turn of the collector while the world runs: up to a turn that
/// isn't done, to a world that doesn't run, and from the second on to a thread that stands at a breakpoint. It takes no
/// memory.
pub fn run(world: &mut World, breakpoints: &Slab<CodePlace>, turns: u32) -> Ran
    ensures { ended world.new result.turns result.reason ≡ run_for breakpoints.now.slots turns world.old }
{
    if breakpoints.is_empty() {
        run_freely(world, breakpoints, turns)
    } else {
        run_to_breakpoint(world, breakpoints, turns)
    }
}
