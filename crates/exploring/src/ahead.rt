//! Going ahead: after a thread's turn, the plain steps of the same thread, to which no schedule matters.
ghost use Rattle.std.specs.Prelude.{◌≡◌, IfOk, IfSome};
ghost use Rattle.exploration.specs.PlainTurns.{is_plain, may_return};
ghost use Rattle.exploring.specs.Ahead.{IsPlainTurn, IsQuietCall, IsQuietReturn, IsQuietTurn, WentOn, WentUpTo};

use crate::entered::{has_entered, is_plain_frame};
use ideal_run::frames::Frame;
use ideal_run::worlds::{World, running};
use ideal_run::{Choice, Transitions};
use model::instructions::{Instruction, Invocation};
use model::listings::Listed;
use model::turns::Mark;
use std::alloc::AllocError;

/// The most steps that a thread goes ahead at once: a loop of plain steps that never ends does no harm.
const MOST_AHEAD: u32 = 1_000;

/// Whether an instruction changes the running frame alone, where it neither throws nor is at fault.
fn is_plain(instruction: &Listed) -> bool
    ensures { result ≡ is_plain instruction.now }
{
    match instruction {
        Instruction::Nop => true,
        Instruction::Constant(_) => true,
        Instruction::Local(_) => true,
        Instruction::Stack(_) => true,
        Instruction::Number(_) => true,
        Instruction::Branch(_, _) => true,
        Instruction::TableSwitch(_) => true,
        Instruction::LookupSwitch(_) => true,
        Instruction::Return(_) => false,
        Instruction::Static(_, _) => false,
        Instruction::Field(_, _) => false,
        Instruction::Array(_) => false,
        Instruction::Class(_, _) => false,
        Instruction::Invoke(_, _) => false,
        Instruction::Throw => false,
        Instruction::Monitor(_) => false,
    }
}

/// What a thread's turn leaves, if it neither asks for a cell nor is at fault. `AllocError` where memory runs out, or a
/// number has no room.
fn quiet_turn(
    transitions: &Transitions<'_>,
    world: &World,
    thread: u8,
) -> Result<Option<World>, AllocError>
    ensures { IfOk result (λ after. IfSome after (IsQuietTurn transitions.now world.now thread)) }
{
    let Some(made) = transitions.successor(world, thread, Choice::NewObject)? else {
        return Ok(None);
    };
    if made.asks {
        return Ok(None);
    }
    if made.world.fault().is_some() {
        return Ok(None);
    }
    Ok(Some(made.world))
}

/// Whether a frame may be left for a caller, so that no other thread can tell.
fn may_return(transitions: &Transitions<'_>, frames: &[Frame], frame: &Frame) -> bool
    ensures { result ≡ may_return transitions.now.program frames.now frame.now }
{
    2 <= frames.len() && is_plain_frame(transitions, frame)
}

/// What a return leaves, if it is a plain step. `AllocError` where memory runs out, or a number has no room.
fn returned_turn(
    transitions: &Transitions<'_>,
    world: &World,
    thread: u8,
    frame: &Frame,
) -> Result<Option<World>, AllocError>
    ensures { IfOk result (λ after. IfSome after (IsQuietReturn transitions.now world.now thread frame.now)) }
{
    if !may_return(transitions, world.frames_at(thread), frame) {
        return Ok(None);
    }
    let Some(after) = quiet_turn(transitions, world, thread)? else {
        return Ok(None);
    };
    Ok(Some(after))
}

/// What a call leaves, if it is a plain step. `AllocError` where memory runs out, or a number has no room.
fn called_turn(
    transitions: &Transitions<'_>,
    world: &World,
    thread: u8,
    frame: &Frame,
    invocation: Invocation,
) -> Result<Option<World>, AllocError>
    ensures { IfOk result (λ after. IfSome after (IsQuietCall transitions.now world.now thread frame.now invocation)) }
{
    let Some(after) = quiet_turn(transitions, world, thread)? else {
        return Ok(None);
    };
    if has_entered(transitions, world, thread, frame, invocation, &after) {
        return Ok(Some(after));
    }
    Ok(None)
}

/// What a plain step of a thread leaves, if that is what it makes next. `AllocError` where memory runs out, or a number
/// has no room.
fn plain_turn(
    transitions: &Transitions<'_>,
    world: &World,
    thread: u8,
) -> Result<Option<World>, AllocError>
    ensures { IfOk result (λ after. IfSome after (IsPlainTurn transitions.now.program world.now thread)) }
{
    let Some(frame) = running(world.frames_at(thread)) else {
        return Ok(None);
    };
    match frame.mark {
        Mark::Unmarked => {}
        Mark::Waiting | Mark::Failing => return Ok(None),
    }
    let Some(placed) = transitions.instruction_of(frame) else {
        return Ok(None);
    };
    if is_plain(&placed.instruction) {
        return quiet_turn(transitions, world, thread);
    }
    if let Instruction::Return(_) = &placed.instruction {
        return returned_turn(transitions, world, thread, frame);
    }
    if let Instruction::Invoke(invocation, _) = &placed.instruction {
        return called_turn(transitions, world, thread, frame, *invocation);
    }
    Ok(None)
}

/// The world after the plain steps of a thread, and how many there were: all, or so many.
fn steps_ahead(
    transitions: &Transitions<'_>,
    world: World,
    thread: u8,
    most: u32,
) -> Result<(World, u32), AllocError>
    ensures { IfOk result (λ r. WentUpTo transitions.now.program thread most world r.0 r.1) }
{
    let mut world = world;
    for step in 0..most {
        let Some(after) = plain_turn(transitions, &world, thread)? else {
            return Ok((world, step));
        };
        world = after;
    }
    Ok((world, most))
}

/// The world after the plain steps of a thread, and how many there were: all, or as many as there is room for, 1,000 at
/// most; none where there was a fault. `AllocError` where memory runs out, or a number has no room.
pub fn go_ahead(
    transitions: &Transitions<'_>,
    world: World,
    thread: u8,
    room: u32,
) -> Result<(World, u32), AllocError>
    ensures { IfOk result (λ r. WentOn transitions.now.program thread room world r.0 r.1) }
{
    if world.fault().is_some() {
        return Ok((world, 0));
    }
    let most = room.min(MOST_AHEAD);
    let (after, steps) = steps_ahead(transitions, world, thread, most)?;
    Ok((after, steps))
}
