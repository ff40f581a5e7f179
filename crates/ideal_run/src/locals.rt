//! The locals of a frame: loads, stores and `iinc` (JVMS 2.6.1, 6.5).
ghost use Rattle.std.specs.Prelude.{◌≡◌, ◌<◌, IfOk, slice_set};
ghost use Rattle.model.specs.declared.values.Kind.TheVariants.{Int as IntKind};
ghost use Rattle.model.specs.Frames.{as_int};
ghost use Rattle.model.specs.Locals.{entries_of, has_local, local_at, freed, with_local, stored, stored_at, value_on};
ghost use Rattle.model.specs.Table.Locals.{first_index, local_index, increment_index, increment_amount, loaded_on};
ghost use Rattle.model.specs.Table.Locals.{incremented, local};
ghost use Rattle.ideal_run.specs.Reported.{frame_in};

use crate::frames::{Frame, Moved, below, faulted, replaced_if_room};
use crate::operands::{of_kind, value_on};
use model::instructions::{FirstLocal, Increment, Local, LocalAccess};
use model::turns::Fault;
use model::values::{Entry, Kind, Value};
use std::alloc::{AllocError, Global};

/// The entries that a value of a kind takes.
fn entries_of(kind: Kind) -> usize
    ensures { result ≡ entries_of kind }
{
    match kind {
        Kind::Long => 2,
        Kind::Int | Kind::Ref => 1,
    }
}

/// Whether there is a local of this kind at this index.
fn has_local(kind: Kind, locals: &[Entry], index: u16) -> bool
    ensures { result ≡ has_local kind locals.now index }
{
    usize::from(index) + entries_of(kind) <= locals.len()
}

/// The value of this kind in a local. An entry that is unset or of another kind is F3; a local out of range, and the
/// upper half of a long, F4.
fn local_at(kind: Kind, locals: &[Entry], index: u16) -> Result<Value, Fault>
    ensures { result ≡ local_at kind locals.now index }
{
    if !has_local(kind, locals, index) {
        return Err(Fault::WrongLocal);
    }
    match locals.get(usize::from(index)) {
        None => Err(Fault::WrongLocal),
        Some(Entry::Unset) => Err(Fault::WrongKind),
        Some(Entry::Holds(value)) => of_kind(kind, *value),
        Some(Entry::UpperHalf) => Err(Fault::WrongLocal),
    }
}

/// Writes an entry, if there is one of this index.
fn set(locals: &mut [Entry], index: usize, entry: Entry)
    ensures { locals.new ≡ slice_set locals.old index entry }
{
    if index < locals.len() {
        locals[index] = entry;
    }
}

/// Where one half of a long goes from this entry, the other half becomes unset.
fn free(locals: &mut [Entry], index: usize)
    requires { index < 65537 }
    ensures { locals.new ≡ freed locals.old index }
{
    match locals.get(index) {
        Some(Entry::Holds(Value::Long(_))) => set(locals, index + 1, Entry::Unset),
        Some(Entry::UpperHalf) => set(locals, index.saturating_sub(1), Entry::Unset),
        Some(Entry::Holds(Value::Int(_) | Value::Ref(_)) | Entry::Unset) | None => {}
    }
}

/// Puts a value into a local: a long takes two, its value and its upper half.
fn set_local(locals: &mut [Entry], index: u16, value: Value)
    ensures { locals.new ≡ with_local locals.old index value }
{
    let index = usize::from(index);
    free(locals, index);
    match value {
        Value::Long(_) => {
            free(locals, index + 1);
            set(locals, index, Entry::Holds(value));
            set(locals, index + 1, Entry::UpperHalf);
        }
        Value::Int(_) | Value::Ref(_) => set(locals, index, Entry::Holds(value)),
    }
}

/// So many values go from the top, one is put into a local, and on to the next instruction.
fn stored(
    alloc: Global,
    next: u16,
    frame: &Frame,
    n: usize,
    index: u16,
    value: Value,
) -> Result<Frame, AllocError>
    ensures { IfOk result (λ after. after ≡ (stored next frame.now n index value).frame) }
{
    let mut locals = Vec::from_slice(alloc, &frame.locals)?;
    set_local(&mut locals, index, value);
    let stack = Vec::from_slice(alloc, below(&frame.stack, n))?;
    Ok(Frame {
        method: frame.method,
        pc: next,
        locals,
        stack,
        room: frame.room,
        monitor: frame.monitor,
        mark: frame.mark,
    })
}

/// The operand at the top goes into a local of its kind, if there is one; else F4.
fn stored_at(
    alloc: Global,
    next: u16,
    kind: Kind,
    index: u16,
    frame: &Frame,
) -> Result<Moved, AllocError>
    ensures { IfOk result (λ moved. moved ≡ frame_in (stored_at next kind index frame.now)) }
{
    match value_on(kind, &frame.stack) {
        Err(fault) => Ok(faulted(fault)),
        Ok(value) => {
            if has_local(kind, &frame.locals, index) {
                Ok(Ok(stored(alloc, next, frame, 1, index, value)?))
            } else {
                Ok(faulted(Fault::WrongLocal))
            }
        }
    }
}

/// The value of a local is pushed.
fn loaded(
    alloc: Global,
    next: u16,
    kind: Kind,
    index: u16,
    frame: &Frame,
) -> Result<Moved, AllocError>
    ensures { IfOk result (λ moved. moved ≡ frame_in
        (loaded_on next frame.now (local_at kind frame.now.locals index))) }
{
    match local_at(kind, &frame.locals, index) {
        Err(fault) => Ok(faulted(fault)),
        Ok(value) => replaced_if_room(alloc, next, frame, 0, &[value]),
    }
}

fn first_index(local: FirstLocal) -> u16
    ensures { result ≡ first_index local }
{
    match local {
        FirstLocal::Zero => 0,
        FirstLocal::One => 1,
        FirstLocal::Two => 2,
        FirstLocal::Three => 3,
    }
}

/// The index of a local, whatever its form.
fn local_index(local: Local) -> u16
    ensures { result ≡ local_index local }
{
    match local {
        Local::First(local) => first_index(local),
        Local::Byte(index) => u16::from(index),
        Local::Wide(index) => index,
    }
}

fn increment_index(increment: Increment) -> u16
    ensures { result ≡ increment_index increment }
{
    match increment {
        Increment::Byte(index, _) => u16::from(index),
        Increment::Wide(index, _) => index,
    }
}

fn increment_amount(increment: Increment) -> i32
    ensures { result ≡ increment_amount increment }
{
    match increment {
        Increment::Byte(_, amount) => i32::from(amount),
        Increment::Wide(_, amount) => i32::from(amount),
    }
}

/// The int in a local, else F3 or F4.
fn int_at(locals: &[Entry], index: u16) -> Result<i32, Fault>
    ensures { result ≡ as_int (local_at IntKind locals.now index) }
{
    match local_at(Kind::Int, locals, index)? {
        Value::Int(int) => Ok(int),
        Value::Long(_) | Value::Ref(_) => Err(Fault::WrongKind),
    }
}

/// An int in a local is put back with an amount more; the sum wraps.
#[tactic(auto, using(std::proofs::lemmas::Int::wraps))]
fn incremented(
    alloc: Global,
    next: u16,
    increment: Increment,
    frame: &Frame,
) -> Result<Moved, AllocError>
    ensures { IfOk result (λ moved. moved ≡ frame_in (incremented next increment frame.now)) }
{
    let index = increment_index(increment);
    match int_at(&frame.locals, index) {
        Err(fault) => Ok(faulted(fault)),
        Ok(int) => {
            let sum = Value::Int(int.wrapping_add(increment_amount(increment)));
            Ok(Ok(stored(alloc, next, frame, 0, index, sum)?))
        }
    }
}

/// A load, a store or an increment: faults of the operand first, then of the local, then F2. `AllocError` where memory
/// runs out.
pub fn local(
    alloc: Global,
    next: u16,
    access: LocalAccess,
    frame: &Frame,
) -> Result<Moved, AllocError>
    ensures { IfOk result (λ moved. moved ≡ frame_in (local next access frame.now)) }
{
    match access {
        LocalAccess::Load(kind, place) => loaded(alloc, next, kind, local_index(place), frame),
        LocalAccess::Store(kind, place) => stored_at(alloc, next, kind, local_index(place), frame),
        LocalAccess::Increment(increment) => incremented(alloc, next, increment, frame),
    }
}
