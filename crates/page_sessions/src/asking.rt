//! Requests carried out, and answered.
ghost use Rattle.std.specs.Prelude.{◌≡◌, ◌-◌, ◌^◌, ◌<◌};
ghost use Rattle.scheduler.specs.Rounds.{after_rounds, rounds_answer, rounds_left};
ghost use Rattle.debugger.specs.Breakpoints.{Breakpoints};
ghost use Rattle.debugger.specs.Sessions.{Carries, Counts, Written, debugged};
ghost use Rattle.page_texts.specs.Shown.{rounds_text};
ghost use Rattle.page_sessions.specs.Playing.{Asks};

use crate::looking::{
    held_of, journal_of, listing_of, lists_of, methods_of, output_of, rows_of, state_of,
    statics_of, threads_of,
};
use crate::schedules::tell_exploration;
use debug_texts::sinks::Sink;
use debugger::errors::DebugError;
use debugger::writing::{put_made, told};
use exploring::Bounds;
use page_texts::requests::Request;
use page_texts::rounds::put_rounds;
use scheduler::worlds::World;
use std::alloc::Global;

/// Rounds, and how they ended. They take no memory.
fn make_rounds<S: Sink>(
    world: &mut World,
    rounds: u32,
    gc: u32,
    sink: &mut S,
) -> Result<(), DebugError>
    requires { S.failures sink.old < 2 ^ 64 - 1 }
    ensures world { world.new ≡ after_rounds world.old 0 gc rounds }
    ensures told { Written result (S.contents sink.old) (S.contents sink.new)
        (rounds_text (rounds_left world.old 0 gc rounds) (rounds_answer world.old 0 gc rounds)) }
    ensures counts { Counts result (S.failures sink.old) (S.failures sink.new) }
{
    let made = world.make_rounds(rounds, gc);
    told(put_rounds(sink, made.left, made.answer))
}

/// Carries a request out and answers it. `Memory`, and nothing changed or written, where memory runs out; `Write` where
/// a write failed: the request was carried out all the same.
pub fn ask<S: Sink>(
    alloc: Global,
    world: &mut World,
    request: Request,
    sink: &mut S,
) -> Result<(), DebugError>
    requires { S.failures sink.old < 2 ^ 64 - 1 }
    ensures carried { (bs : Breakpoints) → Carries (Asks (debugged world.old bs) request) result
        (debugged world.old bs) (debugged world.new bs) (S.contents sink.old) (S.contents sink.new) }
    ensures counts { Counts result (S.failures sink.old) (S.failures sink.new) }
{
    match request {
        Request::Rounds { rounds, gc } => make_rounds(world, rounds, gc, sink),
        Request::State => put_made(sink, state_of(alloc, world)),
        Request::Threads => put_made(sink, threads_of(alloc, world)),
        Request::Held => put_made(sink, held_of(alloc, world)),
        Request::Lists => put_made(sink, lists_of(alloc, world)),
        Request::Statics => put_made(sink, statics_of(alloc, world)),
        Request::Methods => put_made(sink, methods_of(alloc, world)),
        Request::Rows { first, count } => put_made(sink, rows_of(alloc, world, first, count)),
        Request::Listing(class) => put_made(sink, listing_of(alloc, world, class)),
        Request::Explore { states, no_room } => {
            tell_exploration(alloc, world, Bounds { states, no_room }, sink)
        }
        Request::Output => put_made(sink, output_of(alloc, world)),
        Request::Journal => put_made(sink, journal_of(alloc, world)),
    }
}
