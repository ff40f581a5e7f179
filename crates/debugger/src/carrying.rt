//! Commands carried out, and answered.
ghost use Rattle.std.specs.Prelude.{◌≡◌, ◌-◌, ◌^◌, ◌<◌, Some};
ghost use Rattle.std.specs.Option.{option_map};
ghost use Rattle.debug_texts.specs.Answers.{class_text, ran_text, turn_text};
ghost use Rattle.debug_texts.specs.Commands.{said};
ghost use Rattle.model.specs.Machines.{Recorded, after_turn_by, answer_to};
ghost use Rattle.model.specs.Observers.{class_state_of};
ghost use Rattle.debugger.specs.Breakpoints.{at_number};
ghost use Rattle.debugger.specs.Runs.{run_for};
ghost use Rattle.debugger.specs.Sessions.{Breaks, Carries, Counts, Deletes, Does, Written, debugged};

use crate::answering::{heap_of, object_of, stack_of};
use crate::breakpoints::{add, delete};
use crate::errors::DebugError;
use crate::places::place_named;
use crate::runs::run;
use crate::writing::{put_made, put_text, told};
use debug_texts::answers::{put_broken, put_class, put_deleted, put_ran, put_turn};
use debug_texts::commands::Command;
use debug_texts::sinks::Sink;
use model::places::CodePlace;
use model::turns::Actor;
use scheduler::worlds::World;
use slab::Slab;
use std::alloc::Global;

/// One turn of an actor, and its answer. It takes no memory.
fn step<S: Sink>(world: &mut World, actor: Actor, sink: &mut S) -> Result<(), DebugError>
    requires { S.failures sink.old < 2 ^ 64 - 1 }
    ensures world { world.new ≡ after_turn_by world.old actor 0 }
    ensures told { Written result (S.contents sink.old) (S.contents sink.new) (turn_text (answer_to world.old actor 0)) }
    ensures counts { Counts result (S.failures sink.old) (S.failures sink.new) }
{
    let answer = world.turn(actor);
    told(put_turn(sink, answer))
}

/// Many turns, and how they ended. It takes no memory.
fn run_on<S: Sink>(
    world: &mut World,
    breakpoints: &Slab<CodePlace>,
    turns: u32,
    sink: &mut S,
) -> Result<(), DebugError>
    requires { S.failures sink.old < 2 ^ 64 - 1 }
    ensures world { world.new ≡ (run_for breakpoints.now.slots turns world.old).world }
    ensures told { Written result (S.contents sink.old) (S.contents sink.new)
        (ran_text (run_for breakpoints.now.slots turns world.old).turns
        (run_for breakpoints.now.slots turns world.old).reason) }
    ensures counts { Counts result (S.failures sink.old) (S.failures sink.new) }
{
    let ran = run(world, breakpoints, turns);
    told(put_ran(sink, ran.turns, ran.reason))
}

/// A new breakpoint at a place, if it is one.
fn break_at<S: Sink>(
    breakpoints: &mut Slab<CodePlace>,
    place: Option<CodePlace>,
    sink: &mut S,
) -> Result<(), DebugError>
    requires { S.failures sink.old < 2 ^ 64 - 1 }
    ensures carried { (v : Recorded) → Carries (Breaks (debugged v breakpoints.old.slots) place) result
        (debugged v breakpoints.old.slots) (debugged v breakpoints.new.slots) (S.contents sink.old)
        (S.contents sink.new) }
    ensures counts { Counts result (S.failures sink.old) (S.failures sink.new) }
{
    match place {
        None => put_text(sink, b"error no such place\n"),
        Some(place) => {
            match add(breakpoints, place) {
                Ok(number) => told(put_broken(sink, number)),
                Err(_) => Err(DebugError::Memory),
            }
        }
    }
}

/// The breakpoint of a number goes, if there is one.
fn delete_at<S: Sink>(
    breakpoints: &mut Slab<CodePlace>,
    number: u32,
    sink: &mut S,
) -> Result<(), DebugError>
    requires { S.failures sink.old < 2 ^ 64 - 1 }
    ensures carried { (v : Recorded) → Carries (Deletes (debugged v breakpoints.old.slots) number
        (at_number breakpoints.old.slots number)) result (debugged v breakpoints.old.slots)
        (debugged v breakpoints.new.slots) (S.contents sink.old) (S.contents sink.new) }
    ensures counts { Counts result (S.failures sink.old) (S.failures sink.new) }
{
    if delete(breakpoints, number) {
        told(put_deleted(sink, number))
    } else {
        put_text(sink, b"error no such breakpoint\n")
    }
}

/// The state of the class of a name.
fn put_state<S: Sink>(world: &World, name: &[u8], sink: &mut S) -> Result<(), DebugError>
    requires { S.failures sink.old < 2 ^ 64 - 1 }
    ensures told { Written result (S.contents sink.old) (S.contents sink.new)
        (class_text name.now (class_state_of world.now name.now)) }
    ensures counts { Counts result (S.failures sink.old) (S.failures sink.new) }
{
    told(put_class(sink, name, world.state_of_class(name)))
}

/// Carries a command out, and answers it.
fn carry_out_command<S: Sink>(
    alloc: Global,
    world: &mut World,
    breakpoints: &mut Slab<CodePlace>,
    command: Command<'_>,
    sink: &mut S,
) -> Result<(), DebugError>
    requires { S.failures sink.old < 2 ^ 64 - 1 }
    ensures carried { Carries (Does (debugged world.old breakpoints.old.slots) (Some (said command.entry))) result
        (debugged world.old breakpoints.old.slots) (debugged world.new breakpoints.new.slots) (S.contents sink.old)
        (S.contents sink.new) }
    ensures counts { Counts result (S.failures sink.old) (S.failures sink.new) }
{
    match command {
        Command::Break {
            class,
            name,
            descriptor,
            pc,
        } => {
            let place = place_named(world.program().listings(), class, name, descriptor, pc);
            break_at(breakpoints, place, sink)
        }
        Command::Delete(number) => delete_at(breakpoints, number, sink),
        Command::Step(thread) => step(world, Actor::Thread(thread), sink),
        Command::Collect => step(world, Actor::Collector, sink),
        Command::Run(turns) => run_on(world, breakpoints, turns, sink),
        Command::Stack(thread) => put_made(sink, stack_of(alloc, world, thread)),
        Command::Object(birth) => put_made(sink, object_of(alloc, world, birth)),
        Command::Heap => put_made(sink, heap_of(alloc, world)),
        Command::Class(name) => put_state(world, name, sink),
        Command::Quit => put_text(sink, b""),
    }
}

/// Carries a command out and answers it; a line that is none is answered too. `Memory`, and nothing changed or written,
/// where memory runs out; `Write` where a write failed: the command was carried out all the same.
pub fn carry_out<S: Sink>(
    alloc: Global,
    world: &mut World,
    breakpoints: &mut Slab<CodePlace>,
    command: Option<Command<'_>>,
    sink: &mut S,
) -> Result<(), DebugError>
    requires { S.failures sink.old < 2 ^ 64 - 1 }
    ensures carried { Carries (Does (debugged world.old breakpoints.old.slots) (option_map said command.entry)) result
        (debugged world.old breakpoints.old.slots) (debugged world.new breakpoints.new.slots) (S.contents sink.old)
        (S.contents sink.new) }
    ensures counts { Counts result (S.failures sink.old) (S.failures sink.new) }
{
    match command {
        None => put_text(sink, b"error bad command\n"),
        Some(command) => carry_out_command(alloc, world, breakpoints, command, sink),
    }
}
