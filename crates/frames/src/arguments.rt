//! How arguments go from a caller's stack into the locals of the frame that it calls.
ghost use Rattle.std.specs.Prelude.{◌≡◌, ℕ, ◌+◌, ◌≤◌, [], ◌∷◌, ◌++◌, take, drop, replicate, ◌-◌, length, reverse, true};
ghost use Rattle.std.specs.Prelude.{IfNone, IfSome, None};
ghost use Rattle.std.specs.Result.{result_err};
ghost use Rattle.model.specs.Values.{units_of as units_taken, units_of_all};
ghost use Rattle.model.specs.Locals.{argument_entries, of_kind};
ghost use Rattle.model.specs.Table.Invokes.{fault_in_pops};
ghost use Rattle.model.specs.declared.values.Entry.TheVariants.{Holds, Unset};
ghost use Rattle.model.specs.declared.values.Value.TheVariants.{Ref};
ghost use Rattle.values.specs.Slots.{entry_of, value_of};
ghost use Rattle.frames.specs.Layout.{values_between};

use crate::units::Units;
use model::values::Kind;
use values::slots::{Slot, units_in};

/// What stands for the value of a slot that holds none.
// Not inlined, so that a copy is one comparison where the slot holds one, as it does in nearly all cases.
#[cold]
#[inline(never)]
fn nothing() -> Slot
    ensures { entry_of result ≡ Holds (Ref None) }
{
    Slot::Null
}

/// What stands for a slot's value where nothing is taken for a value that holds none.
#[inline(always)]
fn settled(slot: Slot) -> Slot
    ensures { entry_of result ≡ Holds (value_of slot) }
{
    match slot {
        Slot::Unset | Slot::Upper => nothing(),
        Slot::Int(_) | Slot::Long(_) | Slot::Null | Slot::Ref(_) => slot,
    }
}

/// Writes a slot that holds a value as an argument from this unit on, and says after which unit it ends.
#[inline(always)]
fn put_held(units: &mut Units, end: usize, slot: Slot) -> usize
    requires held { entry_of slot ≡ Holds (value_of slot) }
    requires fits { end + units_taken (value_of slot) ≤ length units.old }
    requires few { length units.old ≤ 4096 }
    ensures items { units.new ≡ take end units.old ++ argument_entries (value_of slot ∷ [])
        ++ drop (end + units_taken (value_of slot)) units.old }
    ensures len { length units.new ≡ length units.old }
    ensures end { result ≡ end + units_taken (value_of slot) }
{
    units.put(end, slot);
    if units_in(slot) == 2 {
        units.put(end + 1, Slot::Upper);
        return end + 2;
    }
    end + 1
}

/// Writes the value of a slot as an argument from this unit on, and says after which unit it ends.
#[inline(always)]
fn put_argument(units: &mut Units, end: usize, slot: Slot) -> usize
    requires fits { end + units_taken (value_of slot) ≤ length units.old }
    requires few { length units.old ≤ 4096 }
    ensures items { units.new ≡ take end units.old ++ argument_entries (value_of slot ∷ [])
        ++ drop (end + units_taken (value_of slot)) units.old }
    ensures len { length units.new ≡ length units.old }
    ensures end { result ≡ end + units_taken (value_of slot) }
{
    put_held(units, end, settled(slot))
}

/// Copies so many values, which stand from one unit on, as arguments to another unit and on, and says after which unit
/// they end.
#[inline(always)]
fn copy_arguments(units: &mut Units, from: usize, count: usize, base: usize) -> usize
    requires below { from + count ≤ base }
    requires fits { base + units_of_all (values_between units.old from count) ≤ length units.old }
    requires few { length units.old ≤ 4096 }
    ensures items { units.new ≡ take base units.old ++ argument_entries (values_between units.old from count)
        ++ drop (base + units_of_all (values_between units.old from count)) units.old }
    ensures len { length units.new ≡ length units.old }
    ensures end { result ≡ base + units_of_all (values_between units.old from count) }
{
    let mut end = base;
    for place in 0..count {
        let slot = units.at(from + place);
        end = put_argument(units, end, slot);
    }
    end
}

/// Makes the locals of a call, so many from a unit on: the values that stand in so many units from another one on, and
/// then unset entries. Says how many units the values take.
#[inline(always)]
pub(crate) fn lay_out_locals(
    units: &mut Units,
    from: usize,
    count: u16,
    base: usize,
    locals: usize,
) -> usize
    requires below { from + count ≤ base }
    requires fits { base + locals ≤ length units.old }
    requires few { length units.old ≤ 4096 }
    requires enough { units_of_all (values_between units.old from count) ≤ locals }
    ensures items { units.new ≡ take base units.old
        ++ (argument_entries (values_between units.old from count)
        ++ replicate (locals - units_of_all (values_between units.old from count)) Unset)
        ++ drop (base + locals) units.old }
    ensures len { length units.new ≡ length units.old }
    ensures taken { result ≡ units_of_all (values_between units.old from count) }
{
    let end = copy_arguments(units, from, count as usize, base);
    units.unset(end, base + locals - end);
    end - base
}

/// Whether a slot holds a value of this kind.
#[inline(always)]
fn is_of(kind: Kind, slot: Slot) -> bool
    ensures held { result ≡ true → entry_of slot ≡ Holds (value_of slot) }
    ensures kind { result ≡ true → result_err (of_kind kind (value_of slot)) ≡ None }
{
    match kind {
        Kind::Int => matches!(slot, Slot::Int(_)),
        Kind::Long => matches!(slot, Slot::Long(_)),
        Kind::Ref => matches!(slot, Slot::Null | Slot::Ref(_)),
    }
}

/// Writes a slot as an argument from this unit on, if it holds a value of this kind, and says after which unit it ends.
/// None, and nothing changed, where it doesn't.
// A case for each kind, so that how many units it takes isn't asked again.
#[inline(always)]
fn put_of_kind(units: &mut Units, end: usize, kind: Kind, slot: Slot) -> Option<usize>
    requires fits { end + 2 ≤ length units.old }
    requires few { length units.old ≤ 4096 }
    ensures items { IfSome result (λ after. units.new ≡ take end units.old ++ argument_entries (value_of slot ∷ [])
        ++ drop (end + units_taken (value_of slot)) units.old) }
    ensures end { IfSome result (λ after. after ≡ end + units_taken (value_of slot)) }
    ensures kind { IfSome result (λ after. result_err (of_kind kind (value_of slot)) ≡ None) }
    ensures len { length units.new ≡ length units.old }
    ensures same { IfNone result (units.new ≡ units.old) }
{
    match kind {
        Kind::Int => {
            if is_of(Kind::Int, slot) {
                return Some(put_held(units, end, slot));
            }
            None
        }
        Kind::Long => {
            if is_of(Kind::Long, slot) {
                return Some(put_held(units, end, slot));
            }
            None
        }
        Kind::Ref => {
            if is_of(Kind::Ref, slot) {
                return Some(put_held(units, end, slot));
            }
            None
        }
    }
}

/// Copies so many values, which stand from one unit on, and after them one of each of these kinds, as arguments to
/// another unit and on, and says after which unit they end. None where a value isn't of its kind.
#[inline(always)]
fn copy_of_kinds(
    units: &mut Units,
    from: usize,
    below: usize,
    kinds: &[Kind],
    base: usize,
) -> Option<usize>
    requires apart { from + (below + length kinds.now) ≤ base }
    requires fits { base + (below + length kinds.now + (below + length kinds.now)) ≤ length units.old }
    requires few { length units.old ≤ 4096 }
    ensures items { IfSome result (λ end. units.new ≡ take base units.old
        ++ argument_entries (values_between units.old from (below + length kinds.now))
        ++ drop (base + units_of_all (values_between units.old from (below + length kinds.now))) units.old) }
    ensures end { IfSome result
        (λ end. end ≡ base + units_of_all (values_between units.old from (below + length kinds.now))) }
    ensures kinds { IfSome result (λ end. fault_in_pops (reverse kinds.now)
        (reverse (values_between units.old (from + below) (length kinds.now))) ≡ None) }
    ensures len { length units.new ≡ length units.old }
    ensures same { take base units.new ≡ take base units.old }
{
    let mut end = copy_arguments(units, from, below, base);
    // one argument is what most methods have
    if let [kind] = kinds {
        let slot = units.at(from + below);
        return match put_of_kind(units, end, *kind, slot) {
            Some(after) => Some(after),
            None => None,
        };
    }
    for place in 0..kinds.len() {
        let slot = units.at(from + (below + place));
        match put_of_kind(units, end, kinds[place], slot) {
            Some(after) => end = after,
            None => return None,
        }
    }
    Some(end)
}

/// Makes so many units unset, from this one on, one after another: they are few.
#[inline(always)]
fn unset_few(units: &mut Units, base: usize, count: usize)
    requires fits { base + count ≤ length units.old }
    requires few { length units.old ≤ 4096 }
    ensures { units.new ≡ take base units.old ++ replicate count Unset ++ drop (base + count) units.old }
{
    for made in 0..count {
        units.put(base + made, Slot::Unset);
    }
}

/// Makes the locals of a call, so many from a unit on: so many values, which stand from another unit on, and after them
/// one of each of these kinds, and then unset entries. Says how many units the values take; none where one isn't of its
/// kind, and then nothing below these locals changed.
#[inline(always)]
pub(crate) fn lay_out_of_kinds(
    units: &mut Units,
    from: usize,
    below: usize,
    kinds: &[Kind],
    base: usize,
    locals: usize,
) -> Option<usize>
    requires apart { from + (below + length kinds.now) ≤ base }
    requires fits { base + locals + (below + length kinds.now + (below + length kinds.now)) ≤ length units.old }
    requires few { length units.old ≤ 4096 }
    requires enough { fault_in_pops (reverse kinds.now)
        (reverse (values_between units.old (from + below) (length kinds.now))) ≡ None
        → units_of_all (values_between units.old from (below + length kinds.now)) ≤ locals }
    ensures items { IfSome result (λ taken. units.new ≡ take base units.old
        ++ (argument_entries (values_between units.old from (below + length kinds.now))
        ++ replicate (locals - units_of_all (values_between units.old from (below + length kinds.now))) Unset)
        ++ drop (base + locals) units.old) }
    ensures taken { IfSome result
        (λ taken. taken ≡ units_of_all (values_between units.old from (below + length kinds.now))) }
    ensures kinds { IfSome result (λ taken. fault_in_pops (reverse kinds.now)
        (reverse (values_between units.old (from + below) (length kinds.now))) ≡ None) }
    ensures len { length units.new ≡ length units.old }
    ensures same { take base units.new ≡ take base units.old }
{
    match copy_of_kinds(units, from, below, kinds, base) {
        Some(end) => {
            unset_few(units, end, base + locals - end);
            Some(end - base)
        }
        None => None,
    }
}
