//! Frames, and what an instruction leaves in one (JVMS 2.6).
ghost use Rattle.std.specs.Prelude.{◌≡◌, ◌∷◌, [], IfOk, Ok, Err, nat_le, drop};
ghost use Rattle.model.specs.declared.turns.Abrupt.TheVariants.{Fault as Faulted};
ghost use Rattle.model.specs.Values.{units_of, units_of_all};
ghost use Rattle.model.specs.Frames.{push_all, replaced, replaced_if_room};
ghost use Rattle.ideal_run.specs.Reported.{frame_in};

use model::places::MethodPlace;
use model::turns::{Abrupt, Fault, Mark};
use model::values::{Entry, Value};
use std::alloc::{AllocError, Global};
use std::marker::Model;

/// A frame (JVMS 2.6): its method, the pc at which it stands, its locals from 0 on, its stack from the top on, how many
/// units the stack may take, the monitor that is given back when the frame is left, and its mark.
#[derive(Drop)]
pub struct Frame {
    pub method: MethodPlace,
    pub pc: u16,
    pub locals: Vec<Entry>,
    pub stack: Vec<Value>,
    pub room: usize,
    pub monitor: Option<u32>,
    pub mark: Mark,
}

impl Model for Frame {
    ghost use Rattle.model.specs.Frames.{Frame};

    ghost Value = { Frame };

    ghost view = { λ a. record {
      method = a.method;
      pc = a.pc;
      locals = a.locals.items;
      stack = a.stack.items;
      room = a.room;
      monitor = a.monitor;
      mark = a.mark;
    } };
}

/// What an instruction that changes the running frame alone comes to.
pub type Moved = Result<Frame, Abrupt>;

/// A stack without so many values at its top.
pub fn below(stack: &[Value], n: usize) -> &[Value]
    ensures { result.now ≡ drop n stack.now }
{
    if n <= stack.len() { &stack[n..] } else { &[] }
}

/// Values, bottom first, on top of a stack.
#[tactic(auto, using(crate::proofs::StackLemmas::stacks))]
fn push_all(alloc: Global, values: &[Value], stack: &[Value]) -> Result<Vec<Value>, AllocError>
    ensures { IfOk result (λ all. all.items ≡ push_all values.now stack.now) }
{
    let mut all = Vec::from_slice(alloc, values)?;
    all.reverse();
    all.extend_from_slice(stack)?;
    Ok(all)
}

/// The units of a value: two for a long, one for any other.
fn units_of(value: Value) -> usize
    ensures { result ≡ units_of value }
{
    match value {
        Value::Long(_) => 2,
        Value::Int(_) | Value::Ref(_) => 1,
    }
}

/// Whether a stack takes so many units at most.
#[tactic(auto, using(crate::proofs::StackLemmas::stacks))]
fn has_room(stack: &[Value], room: usize) -> bool
    ensures { result ≡ nat_le (units_of_all stack.now) room }
{
    let mut left = room;
    for value in stack {
        let units = units_of(*value);
        if left < units {
            return false;
        }
        left -= units;
    }
    true
}

/// The frame with another stack, at another pc. `AllocError` where memory runs out.
pub fn with_stack(
    alloc: Global,
    frame: &Frame,
    pc: u16,
    stack: Vec<Value>,
) -> Result<Frame, AllocError>
    ensures { IfOk result (λ after. after ≡ record frame.now { pc = pc; stack = stack.items }) }
{
    let locals = Vec::from_slice(alloc, &frame.locals)?;
    Ok(Frame {
        method: frame.method,
        pc,
        locals,
        stack,
        room: frame.room,
        monitor: frame.monitor,
        mark: frame.mark,
    })
}

/// These values, bottom first, in place of the n at the top, and on to the next instruction. `AllocError` where memory
/// runs out.
pub fn replaced(
    alloc: Global,
    next: u16,
    frame: &Frame,
    n: usize,
    values: &[Value],
) -> Result<Frame, AllocError>
    ensures { IfOk result (λ after. after ≡ (replaced next frame.now n values.now).frame) }
{
    let stack = push_all(alloc, values, below(&frame.stack, n))?;
    with_stack(alloc, frame, next, stack)
}

/// The same where they have room, else F2. `AllocError` where memory runs out.
pub fn replaced_if_room(
    alloc: Global,
    next: u16,
    frame: &Frame,
    n: usize,
    values: &[Value],
) -> Result<Moved, AllocError>
    ensures { IfOk result (λ moved. moved ≡ frame_in (replaced_if_room next frame.now n values.now)) }
{
    let stack = push_all(alloc, values, below(&frame.stack, n))?;
    if has_room(&stack, frame.room) {
        Ok(Ok(with_stack(alloc, frame, next, stack)?))
    } else {
        Ok(Err(Abrupt::Fault(Fault::StackFull)))
    }
}

/// The same of values that always have room.
pub fn moved(
    alloc: Global,
    next: u16,
    frame: &Frame,
    n: usize,
    values: &[Value],
) -> Result<Moved, AllocError>
    ensures { IfOk result (λ moved. moved ≡ frame_in (Ok (replaced next frame.now n values.now))) }
{
    Ok(Ok(replaced(alloc, next, frame, n, values)?))
}

/// A fault in place of a frame.
pub fn faulted(fault: Fault) -> Moved
    ensures { result ≡ Err (Faulted fault) }
{
    Err(Abrupt::Fault(fault))
}
