//! Frames of methods that begin: arguments in the first locals, and whether a thread has room (JVMS 2.6.1).
ghost use Rattle.std.specs.Prelude.{◌≡◌, ◌∷◌, [], ◌++◌, ◌-◌, IfOk, OnOk, replicate};
ghost use Rattle.model.specs.Values.{units_of_all};
ghost use Rattle.model.specs.declared.values.Entry.TheVariants.{Unset};
ghost use Rattle.model.specs.Frames.{opening_frame, has_room_for, within_limits};
ghost use Rattle.ideal_run.specs.Rooms.{room_left};
ghost use Rattle.model.specs.Locals.{argument_entries, called_frame, arguments_on};

use crate::frames::Frame;
use model::listings::Code;
use model::places::MethodPlace;
use model::turns::Mark;
use model::values::{Entry, Value};
use std::alloc::{AllocError, Global};

/// The frame of a method at its start, its locals all unset. `AllocError` where memory runs out.
pub fn opening_frame(alloc: Global, method: MethodPlace, code: &Code) -> Result<Frame, AllocError>
    ensures { IfOk result (λ frame. frame ≡ opening_frame method code.now.max_locals code.now.max_stack) }
{
    let mut locals = Vec::new(alloc);
    locals.resize(usize::from(code.max_locals), Entry::Unset)?;
    Ok(Frame {
        method,
        pc: 0,
        locals,
        stack: Vec::new(alloc),
        room: usize::from(code.max_stack),
        monitor: None,
        mark: Mark::Unmarked,
    })
}

/// Adds an argument: a long takes two entries. `AllocError` where memory runs out.
fn add_argument(entries: &mut Vec<Entry>, value: Value) -> Result<(), AllocError>
    ensures { OnOk result (entries.new.items ≡ entries.old.items ++ argument_entries (value ∷ [])) }
{
    let entry = Entry::Holds(value);
    match value {
        Value::Long(_) => entries.extend_from_slice(&[entry, Entry::UpperHalf]),
        Value::Int(_) => entries.extend_from_slice(&[entry]),
        Value::Ref(_) => entries.extend_from_slice(&[entry]),
    }
}

/// The arguments as entries. `AllocError` where memory runs out.
#[tactic(auto, using(crate::proofs::ArgumentLemmas::arguments))]
fn argument_entries(alloc: Global, arguments: &[Value]) -> Result<Vec<Entry>, AllocError>
    ensures entries { IfOk result (λ entries. entries.items ≡ argument_entries arguments.now) }
{
    let mut entries = Vec::new(alloc);
    for value in arguments {
        add_argument(&mut entries, *value)?;
    }
    Ok(entries)
}

/// The locals of a method that begins with these arguments: the others are unset.
#[tactic(auto, using(crate::proofs::ArgumentLemmas::arguments))]
fn called_locals(
    alloc: Global,
    max_locals: usize,
    arguments: &[Value],
) -> Result<Vec<Entry>, AllocError>
    ensures { IfOk result (λ locals. locals.items
        ≡ argument_entries arguments.now ++ replicate (max_locals - units_of_all arguments.now) Unset) }
{
    let mut locals = argument_entries(alloc, arguments)?;
    if locals.len() < max_locals {
        locals.resize(max_locals, Entry::Unset)?;
    }
    Ok(locals)
}

/// The frame of a method that begins with these arguments. `AllocError` where memory runs out.
pub fn called_frame(
    alloc: Global,
    method: MethodPlace,
    code: &Code,
    arguments: &[Value],
) -> Result<Frame, AllocError>
    ensures { IfOk result (λ frame. frame ≡ called_frame method code.now.max_locals code.now.max_stack arguments.now) }
{
    let locals = called_locals(alloc, usize::from(code.max_locals), arguments)?;
    Ok(Frame {
        method,
        pc: 0,
        locals,
        stack: Vec::new(alloc),
        room: usize::from(code.max_stack),
        monitor: None,
        mark: Mark::Unmarked,
    })
}

/// The n values at the top of a stack, the lowest first. `AllocError` where memory runs out.
pub fn arguments_on(alloc: Global, n: usize, stack: &[Value]) -> Result<Vec<Value>, AllocError>
    ensures { IfOk result (λ arguments. arguments.items ≡ arguments_on n stack.now) }
{
    let mut arguments = Vec::from_slice(alloc, stack)?;
    arguments.truncate(n);
    arguments.reverse();
    Ok(arguments)
}

/// What is left of so many units once the frames have theirs; `None` where they have more.
#[tactic(auto, using(crate::proofs::UnitLemmas::units))]
fn room_left(frames: &[Frame], room: usize) -> Option<usize>
    ensures { result ≡ room_left frames.now room }
{
    let mut left = room;
    for frame in frames {
        let locals = frame.locals.len();
        if left < locals {
            return None;
        }
        left -= locals;
        if left < frame.room {
            return None;
        }
        left -= frame.room;
    }
    Some(left)
}

/// Whether a thread has room for another frame: at most 256 frames, of 4,096 units in all.
#[tactic(auto, using(crate::proofs::UnitLemmas::units))]
pub fn has_room_for(frames: &[Frame], code: &Code) -> bool
    ensures { result ≡ has_room_for frames.now code.now.max_locals code.now.max_stack }
{
    let units = usize::from(code.max_locals) + usize::from(code.max_stack);
    frames.len() < 256
        && match room_left(frames, 4096) {
            None => false,
            Some(left) => units <= left,
        }
}

/// Whether frames with others above them are within a thread's limits.
#[tactic(auto, using(crate::proofs::UnitLemmas::units))]
pub fn are_within_limits(frames: &[Frame], above: &[Frame]) -> bool
    ensures { result ≡ within_limits (frames.now ++ above.now) }
{
    frames.len() + above.len() <= 256
        && match room_left(frames, 4096) {
            None => false,
            Some(left) => room_left(above, left).is_some(),
        }
}
