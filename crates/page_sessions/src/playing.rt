//! Sessions: requests and commands are read, carried out and answered, one after another.
ghost use Rattle.std.specs.Prelude.{◌≡◌, ◌-◌, ◌^◌, ◌<◌, []};
ghost use Rattle.debugger.specs.Sessions.{Carries, Counts, CountsReads, debugged};
ghost use Rattle.page_sessions.specs.Playing.{Plays, PlaysLine, Session};

use crate::asking::ask;
use crate::opening::{opened, refusal};
use debug_texts::commands::command_of;
use debug_texts::counted::Counted;
use debug_texts::sinks::Sink;
use debug_texts::sources::Source;
use debugger::carrying::carry_out;
use debugger::errors::DebugError;
use debugger::sessions::{Executor, hold_session};
use debugger::writing::put_text;
use model::places::CodePlace;
use page_texts::requests::request_of;
use scheduler::worlds::World;
use slab::Slab;
use std::alloc::Global;

/// How a session ended that met no failure.
#[derive(Clone, Copy, Debug, PartialEq, Eq)]
pub enum Ended {
    /// There was a world, and each line was answered.
    Played,
    /// There was none, and it was told why.
    Refused,
}

/// Lines are requests, or else commands of the debugger.
#[derive(Clone, Copy, Debug)]
struct Requests;

impl Executor for Requests {
    ghost does = { PlaysLine };

    fn execute<S: Sink>(
        &self,
        alloc: Global,
        world: &mut World,
        breakpoints: &mut Slab<CodePlace>,
        kept: &[u8],
        sink: &mut S,
    ) -> Result<(), DebugError> {
        carry_out_line(alloc, world, breakpoints, kept, sink)
    }
}

/// Carries out what a line says, and answers it: a request, or else a command of the debugger.
fn carry_out_line<S: Sink>(
    alloc: Global,
    world: &mut World,
    breakpoints: &mut Slab<CodePlace>,
    kept: &[u8],
    sink: &mut S,
) -> Result<(), DebugError>
    requires { S.failures sink.old < 2 ^ 64 - 1 }
    ensures carried { Carries (Plays (debugged world.old breakpoints.old.slots) kept.now) result
        (debugged world.old breakpoints.old.slots) (debugged world.new breakpoints.new.slots) (S.contents sink.old)
        (S.contents sink.new) }
    ensures counts { Counts result (S.failures sink.old) (S.failures sink.new) }
{
    match request_of(kept) {
        Some(request) => ask(alloc, world, request, sink),
        None => carry_out(alloc, world, breakpoints, command_of(kept), sink),
    }
}

/// A session of requests with a world: it goes on and ends as the debugger's, but for what lines say.
fn answer_requests<R: Source, W: Sink>(
    alloc: Global,
    world: &mut World,
    source: &mut R,
    sink: &mut W,
) -> Result<(), DebugError>
    requires source { R.failures source.old < 2 ^ 64 - 1 }
    requires sink { W.failures sink.old < 2 ^ 64 - 1 }
    ensures session { Session result (debugged world.old []) world.new (R.remaining source.old) (R.remaining source.new)
        (W.contents sink.old) (W.contents sink.new) }
    ensures reads { CountsReads result (R.failures source.old) (R.failures source.new) }
    ensures writes { Counts result (W.failures sink.old) (W.failures sink.new) }
{
    hold_session(alloc, &Requests, world, source, sink)
}

/// A session over an input: a world is made of what it begins with, and what stands after that is carried out and
/// answered.
pub fn play<S: Sink>(alloc: Global, input: &[u8], sink: &mut S) -> Result<Ended, DebugError>
    requires { S.failures sink.old < 2 ^ 64 - 1 }
{
    match opened(alloc, input) {
        Ok((mut world, rest)) => {
            let mut source = Counted::new(rest);
            match answer_requests(alloc, &mut world, &mut source, sink) {
                Ok(()) => Ok(Ended::Played),
                Err(error) => Err(error),
            }
        }
        Err(error) => {
            let Ok(told) = refusal(alloc, &error) else {
                return Err(DebugError::Memory);
            };
            match put_text(sink, told.as_str().as_bytes()) {
                Ok(()) => Ok(Ended::Refused),
                Err(error) => Err(error),
            }
        }
    }
}
