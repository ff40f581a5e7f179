//! Sessions: lines are read, carried out and answered, one after another.
ghost use Rattle.std.specs.Prelude.{◌≡◌, ◌-◌, ◌^◌, ◌<◌, ◌↔◌, [], IsTrue, List, Some, take, ℕ};
ghost use Rattle.debug_texts.specs.Answers.{farewell};
ghost use Rattle.debug_texts.specs.Commands.{command_of};
ghost use Rattle.debug_texts.specs.Commands.Said.{Quit};
ghost use Rattle.model.specs.Observers.{output_of};
ghost use Rattle.debugger.specs.Sessions.{Carries, Counts, CountsReads, Doing, DoesLine, LedByActors, Session};
ghost use Rattle.debugger.specs.Sessions.{SessionBy, Written, debugged};

use crate::carrying::carry_out;
use crate::errors::DebugError;
use debug_texts::answers::put_farewell;
use debug_texts::commands::{Command, command_of};
use debug_texts::lines::{LineBuffer, read_line};
use debug_texts::sinks::Sink;
use debug_texts::sources::Source;
use model::places::CodePlace;
use scheduler::worlds::World;
use slab::Slab;
use std::alloc::Global;

/// What carries out the lines of a session.
pub trait Executor {
    // what a line does, and answers
    ghost does: { Doing };

    /// Carries out a line, of which 201 bytes were kept, and answers it. `Memory`, and nothing changed or written,
    /// where memory runs out; `Write` where a write failed: the line was carried out all the same.
    fn execute<S: Sink>(
        &self,
        alloc: Global,
        world: &mut World,
        breakpoints: &mut Slab<CodePlace>,
        kept: &[u8],
        sink: &mut S,
    ) -> Result<(), DebugError>
        requires { S.failures sink.old < 2 ^ 64 - 1 }
        ensures carried { (line : List ℕ) → kept.now ≡ take 201 line
            → Carries (does (debugged world.old breakpoints.old.slots) line) result
            (debugged world.old breakpoints.old.slots) (debugged world.new breakpoints.new.slots)
            (S.contents sink.old) (S.contents sink.new) }
        ensures counts { Counts result (S.failures sink.old) (S.failures sink.new) };
}

/// Lines are commands.
#[derive(Clone, Copy, Debug)]
struct Commands;

impl Executor for Commands {
    ghost does = { DoesLine };

    fn execute<S: Sink>(
        &self,
        alloc: Global,
        world: &mut World,
        breakpoints: &mut Slab<CodePlace>,
        kept: &[u8],
        sink: &mut S,
    ) -> Result<(), DebugError> {
        carry_out(alloc, world, breakpoints, command_of(kept), sink)
    }
}

/// Whether a line ends the session.
fn is_quit(kept: &[u8]) -> bool
    ensures { IsTrue result ↔ (command_of kept.now ≡ Some Quit) }
{
    matches!(command_of(kept), Some(Command::Quit))
}

/// Carries a line out, and lets its answer go out.
fn answer<E: Executor, S: Sink>(
    alloc: Global,
    executor: &E,
    world: &mut World,
    breakpoints: &mut Slab<CodePlace>,
    kept: &[u8],
    sink: &mut S,
) -> Result<(), DebugError>
    requires { S.failures sink.old < 2 ^ 64 - 1 }
    ensures carried { (line : List ℕ) → kept.now ≡ take 201 line
        → Carries (E.does (debugged world.old breakpoints.old.slots) line) result
        (debugged world.old breakpoints.old.slots) (debugged world.new breakpoints.new.slots)
        (S.contents sink.old) (S.contents sink.new) }
    ensures counts { Counts result (S.failures sink.old) (S.failures sink.new) }
{
    match executor.execute(alloc, world, breakpoints, kept, sink) {
        Err(error) => Err(error),
        Ok(()) => {
            match sink.flush() {
                Ok(()) => Ok(()),
                Err(_) => Err(DebugError::Write),
            }
        }
    }
}

/// Says what the world printed.
fn say_farewell<S: Sink>(world: &World, sink: &mut S) -> Result<(), DebugError>
    requires { S.failures sink.old < 2 ^ 64 - 1 }
    ensures told { Written result (S.contents sink.old) (S.contents sink.new) (farewell (output_of world.now)) }
    ensures counts { Counts result (S.failures sink.old) (S.failures sink.new) }
{
    match put_farewell(sink, world.output()) {
        Err(_) => Err(DebugError::Write),
        Ok(()) => {
            match sink.flush() {
                Ok(()) => Ok(()),
                Err(_) => Err(DebugError::Write),
            }
        }
    }
}

/// A session with a world: lines are read, carried out and answered one after another, up to `quit` or the end of the
/// source; in the end it says what the world printed. It ends early as `debug` does.
pub fn hold_session<E: Executor, R: Source, W: Sink>(
    alloc: Global,
    executor: &E,
    world: &mut World,
    source: &mut R,
    sink: &mut W,
) -> Result<(), DebugError>
    requires source { R.failures source.old < 2 ^ 64 - 1 }
    requires sink { W.failures sink.old < 2 ^ 64 - 1 }
    ensures session { SessionBy E.does result (debugged world.old []) world.new (R.remaining source.old)
        (R.remaining source.new) (W.contents sink.old) (W.contents sink.new) }
    ensures reads { CountsReads result (R.failures source.old) (R.failures source.new) }
    ensures writes { Counts result (W.failures sink.old) (W.failures sink.new) }
{
    let mut breakpoints = Slab::new(alloc);
    let mut line = LineBuffer::new();
    'lines: loop {
        match read_line(source, &mut line) {
            Err(_) => return Err(DebugError::Read),
            Ok(false) => return say_farewell(world, sink),
            Ok(true) => {
                let kept = line.bytes();
                if is_quit(kept) {
                    return say_farewell(world, sink);
                }
                match answer(alloc, executor, world, &mut breakpoints, kept, sink) {
                    Ok(()) => {}
                    Err(error) => return Err(error),
                }
            }
        }
    }
}

/// A session with a world: command lines are read, carried out and answered one after another, up to `quit` or the end
/// of the source; in the end it says what the world printed. What was read and written is a session of the definitions,
/// and some list of actors leads to the world after it, however it ends.
///
/// `Read` (G1) where a read failed: the world stands after all commands read, and their answers were written. `Write`
/// (G2) where a write failed: the last command has been carried out too, the answers before its own were written, and a
/// beginning of this one. `Memory` (G3) where memory ran out: the last command made no turn, and the answers before it
/// were written. `step`, `gc`, `run` and their answers take no memory.
pub fn debug<R: Source, W: Sink>(
    alloc: Global,
    world: &mut World,
    source: &mut R,
    sink: &mut W,
) -> Result<(), DebugError>
    requires source { R.failures source.old < 2 ^ 64 - 1 }
    requires sink { W.failures sink.old < 2 ^ 64 - 1 }
    ensures session { Session result (debugged world.old []) world.new (R.remaining source.old) (R.remaining source.new)
        (W.contents sink.old) (W.contents sink.new) }
    ensures turns { LedByActors world.old world.new }
    ensures reads { CountsReads result (R.failures source.old) (R.failures source.new) }
    ensures writes { Counts result (W.failures sink.old) (W.failures sink.new) }
{
    hold_session(alloc, &Commands, world, source, sink)
}
