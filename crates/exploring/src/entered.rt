//! What tells, after a thread's turn, that it entered a method as no other thread can tell: one frame more, without a
//! monitor and without an initialisation.
ghost use Rattle.std.specs.Prelude.{◌≡◌, ◌&&◌, Some, length};
ghost use Rattle.std.specs.List.{list_all, list_any};
ghost use Rattle.exploration.specs.PlainTurns.{entered_with, has_entered, has_one_more, is_done, is_made, is_plain_frame};
ghost use Rattle.exploration.specs.PlainTurns.{is_settled, is_settled_for};
ghost use Rattle.exploration.specs.Reduction.{initialises, thread_initialises};

use ideal_run::Transitions;
use ideal_run::frames::Frame;
use ideal_run::worlds::{Thread, ThreadState, World, running};
use model::instructions::Invocation;
use model::turns::ClassState;
use model::values::Value;

/// Whether both hold. Both are asked, so that each is a call with its own equation.
fn both(a: bool, b: bool) -> bool
    ensures { result ≡ (a && b) }
{
    a && b
}

/// Whether a class is initialised.
fn is_done(state: ClassState) -> bool
    ensures { result ≡ is_done state }
{
    match state {
        ClassState::Unused => false,
        ClassState::Running(_) => false,
        ClassState::Done => true,
        ClassState::Failed => false,
    }
}

/// Whether a frame runs an initializer of the class of a place.
fn initialises(transitions: &Transitions<'_>, class: usize, frame: &Frame) -> bool
    ensures { result ≡ initialises transitions.now.program class frame.now }
{
    let place = frame.method;
    both(transitions.runs_initializer(frame), place.class == class)
}

/// Whether one of a thread's frames does.
fn thread_initialises(transitions: &Transitions<'_>, class: usize, thread: &Thread) -> bool
    ensures { result ≡ thread_initialises transitions.now.program class thread.now }
{
    match &thread.state {
        ThreadState::Live(frames) => frames
            .iter()
            .any(|frame| initialises(transitions, class, frame)),
        ThreadState::Ended(_) => false,
    }
}

/// Whether some thread runs an initializer of the class of a place.
fn some_initialises(transitions: &Transitions<'_>, class: usize, threads: &[Thread]) -> bool
    ensures { result ≡ list_any (thread_initialises transitions.now.program class) threads.now }
{
    threads
        .iter()
        .any(|thread| thread_initialises(transitions, class, thread))
}

/// Whether the class of a place is known to stay initialised: it declares no initializer, and none of it runs.
fn is_settled(transitions: &Transitions<'_>, world: &World, class: usize) -> bool
    ensures { result ≡ is_settled transitions.now.program world.now class }
{
    let undeclared = !transitions.declares_initializer(class);
    let idle = !some_initialises(transitions, class, world.threads());
    both(is_done(world.class_state(class)), both(undeclared, idle))
}

/// Whether the class of a method that was called needs no initialising: only that of a static one may.
fn is_settled_for(
    transitions: &Transitions<'_>,
    world: &World,
    invocation: Invocation,
    class: usize,
) -> bool
    ensures { result ≡ is_settled_for transitions.now.program world.now invocation class }
{
    match invocation {
        Invocation::Virtual => true,
        Invocation::Special => true,
        Invocation::Static => is_settled(transitions, world, class),
        Invocation::Interface(_) => true,
    }
}

/// Whether a value is no reference to an object that is yet to be made.
fn is_made(births: usize, value: Value) -> bool
    ensures { result ≡ is_made births value }
{
    match value {
        Value::Int(_) => true,
        Value::Long(_) => true,
        Value::Ref(None) => true,
        Value::Ref(Some(birth)) => (birth as usize) < births,
    }
}

/// Whether none of these values is one.
fn are_made(births: usize, values: &[Value]) -> bool
    ensures { result ≡ list_all (is_made births) values.now }
{
    values.iter().all(|value| is_made(births, *value))
}

/// Whether there is one frame more.
fn has_one_more(before: &[Frame], after: &[Frame]) -> bool
    ensures { result ≡ has_one_more before.now after.now }
{
    after.len() == before.len() + 1
}

/// Whether a frame gives no monitor back when it is left, and runs no initializer.
pub fn is_plain_frame(transitions: &Transitions<'_>, frame: &Frame) -> bool
    ensures { result ≡ is_plain_frame transitions.now.program frame.now }
{
    both(
        frame.monitor.is_none(),
        !transitions.runs_initializer(frame),
    )
}

/// Whether this running frame is what the turn of a thread entered, whose frame called.
fn is_entered(
    transitions: &Transitions<'_>,
    world: &World,
    thread: u8,
    caller: &Frame,
    invocation: Invocation,
    after: &World,
    frame: &Frame,
) -> bool
    ensures { result ≡ entered_with transitions.now.program world.now thread caller.now invocation after.now
        (Some frame.now) }
{
    let place = frame.method;
    let more = has_one_more(world.frames_at(thread), after.frames_at(thread));
    let made = are_made(world.objects().len(), &caller.stack);
    let settled = is_settled_for(transitions, world, invocation, place.class);
    both(
        both(more, is_plain_frame(transitions, frame)),
        both(made, settled),
    )
}

/// Whether the turn of a thread, whose frame called, left another world only in the frame that was entered.
pub fn has_entered(
    transitions: &Transitions<'_>,
    world: &World,
    thread: u8,
    caller: &Frame,
    invocation: Invocation,
    after: &World,
) -> bool
    ensures { result ≡ has_entered transitions.now.program world.now thread caller.now invocation after.now }
{
    match running(after.frames_at(thread)) {
        None => false,
        Some(frame) => is_entered(transitions, world, thread, caller, invocation, after, frame),
    }
}
