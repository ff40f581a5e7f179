//! Breakpoints by their numbers.
ghost use Rattle.std.specs.Prelude.{◌≡◌, IfOk, None, OnErr, Some, false, is_some, true};
ghost use Rattle.debugger.specs.Breakpoints.{Changes, at_number, is_same_place, least_at};

use model::places::CodePlace;
use slab::Slab;
use std::alloc::AllocError;

/// Whether both are the same instruction.
fn is_same_place(one: CodePlace, other: CodePlace) -> bool
    ensures { result ≡ is_same_place one other }
{
    one.method.class == other.method.class
        && one.method.method == other.method.method
        && one.pc == other.pc
}

/// The least number of a breakpoint at a place.
pub fn least_at(breakpoints: &Slab<CodePlace>, place: CodePlace) -> Option<usize>
    ensures { result ≡ least_at breakpoints.now.slots place }
{
    for (number, stored) in breakpoints.iter() {
        if is_same_place(*stored, place) {
            return Some(number);
        }
    }
    None
}

/// A new breakpoint at a place: its number, which none had. `AllocError`, and nothing changed, where memory runs out.
pub fn add(breakpoints: &mut Slab<CodePlace>, place: CodePlace) -> Result<usize, AllocError>
    ensures vacant { IfOk result (λ number. at_number breakpoints.old.slots number ≡ None) }
    ensures added { IfOk result (λ number. Changes breakpoints.old.slots breakpoints.new.slots number (Some place)) }
    ensures kept { OnErr result (breakpoints.new.slots ≡ breakpoints.old.slots) }
{
    breakpoints.reserve(1)?;
    Ok(breakpoints.insert_reserved(place))
}

/// Deletes the breakpoint of a number. Whether there was one.
pub fn delete(breakpoints: &mut Slab<CodePlace>, number: u32) -> bool
    ensures found { result ≡ is_some (at_number breakpoints.old.slots number) }
    ensures deleted { result ≡ true → Changes breakpoints.old.slots breakpoints.new.slots number None }
    ensures kept { result ≡ false → breakpoints.new ≡ breakpoints.old }
{
    breakpoints.try_remove(number as usize).is_some()
}
