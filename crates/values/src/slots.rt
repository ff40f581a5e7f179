//! Values and entries in one flat form, in which frames, objects and static fields keep them.
ghost use Rattle.std.specs.Prelude.{◌≡◌, Some, Ok, ◌∷◌, []};
ghost use Rattle.model.specs.Values.{units_of as units_taken};
ghost use Rattle.model.specs.Frames.{as_int, as_long, as_ref};
ghost use Rattle.model.specs.Locals.{of_kind, value_in_entry};
ghost use Rattle.model.specs.Collector.Places.{entry_ref, ref_of};
ghost use Rattle.model.specs.declared.values.Entry.TheVariants.{Holds};
ghost use Rattle.values.specs.Slots.{entry_of, value_of, wrong_entry};

use model::turns::Fault;
use model::values::{Entry, Kind, Value};

/// An entry of a frame's locals, a value of its stack, a word of an object or the value of a static field, of 16 bytes
/// and with no enum in it, so that one look at the tag tells what stands there.
// The order lets each question on a slot be two comparisons at most: what is a number, what is no number and no
// reference to an object, and what is one.
#[derive(Clone, Copy)]
pub enum Slot {
    Int(i32),
    Long(i64),
    Unset,
    /// the upper half of a long, in the locals alone
    Upper,
    Null,
    Ref(u32),
}

/// The slot of a value.
#[inline(always)]
pub fn slot_of(value: Value) -> Slot
    ensures entry { entry_of result ≡ Holds value }
    ensures value { value_of result ≡ value }
{
    match value {
        Value::Int(z) => Slot::Int(z),
        Value::Long(z) => Slot::Long(z),
        Value::Ref(None) => Slot::Null,
        Value::Ref(Some(number)) => Slot::Ref(number),
    }
}

/// The value that stands in a slot: null where there is none.
#[inline(always)]
pub fn value_in(slot: Slot) -> Value
    ensures { result ≡ value_of slot }
{
    match slot {
        Slot::Int(z) => Value::Int(z),
        Slot::Long(z) => Value::Long(z),
        Slot::Unset | Slot::Upper | Slot::Null => Value::Ref(None),
        Slot::Ref(number) => Value::Ref(Some(number)),
    }
}

/// The entry that stands in a slot.
#[inline(always)]
pub fn entry_in(slot: Slot) -> Entry
    ensures { result ≡ entry_of slot }
{
    match slot {
        Slot::Int(z) => Entry::Holds(Value::Int(z)),
        Slot::Long(z) => Entry::Holds(Value::Long(z)),
        Slot::Unset => Entry::Unset,
        Slot::Upper => Entry::UpperHalf,
        Slot::Null => Entry::Holds(Value::Ref(None)),
        Slot::Ref(number) => Entry::Holds(Value::Ref(Some(number))),
    }
}

/// The units that a value takes on a stack: 2 for a long, else 1 (JVMS 2.6.2).
#[inline(always)]
pub fn units_of(value: Value) -> usize
    ensures { result ≡ units_taken value }
{
    match value {
        Value::Int(_) | Value::Ref(_) => 1,
        Value::Long(_) => 2,
    }
}

/// The units that the value in a slot of a stack takes.
#[inline(always)]
pub fn units_in(slot: Slot) -> usize
    ensures { result ≡ units_taken (value_of slot) }
{
    match slot {
        Slot::Long(_) => 2,
        Slot::Int(_) | Slot::Unset | Slot::Upper | Slot::Null | Slot::Ref(_) => 1,
    }
}

/// The int in a slot of a stack; else F3.
#[inline(always)]
pub fn int_in(slot: Slot) -> Result<i32, Fault>
    ensures { result ≡ as_int (Ok (value_of slot)) }
{
    match slot {
        Slot::Int(z) => Ok(z),
        Slot::Long(_) | Slot::Unset | Slot::Upper | Slot::Null | Slot::Ref(_) => Err(
            Fault::WrongKind,
        ),
    }
}

/// The long in a slot of a stack; else F3.
#[inline(always)]
pub fn long_in(slot: Slot) -> Result<i64, Fault>
    ensures { result ≡ as_long (Ok (value_of slot)) }
{
    match slot {
        Slot::Long(z) => Ok(z),
        Slot::Int(_) | Slot::Unset | Slot::Upper | Slot::Null | Slot::Ref(_) => Err(
            Fault::WrongKind,
        ),
    }
}

/// The reference in a slot of a stack; else F3.
#[inline(always)]
pub fn reference_in(slot: Slot) -> Result<Option<u32>, Fault>
    ensures { result ≡ as_ref (Ok (value_of slot)) }
{
    match slot {
        Slot::Int(_) | Slot::Long(_) => Err(Fault::WrongKind),
        Slot::Unset | Slot::Upper | Slot::Null => Ok(None),
        Slot::Ref(number) => Ok(Some(number)),
    }
}

/// The value in a slot of a stack, where it is of the kind that is wanted; else F3.
#[inline(always)]
pub fn operand_in(kind: Kind, slot: Slot) -> Result<Value, Fault>
    ensures { result ≡ of_kind kind (value_of slot) }
{
    match kind {
        Kind::Int => Ok(Value::Int(int_in(slot)?)),
        Kind::Long => Ok(Value::Long(long_in(slot)?)),
        Kind::Ref => Ok(Value::Ref(reference_in(slot)?)),
    }
}

/// The value in a local's slot, where it is of the kind that is wanted; F3 where it is unset or of another kind, F4
/// where it is the upper half of a long.
#[inline(always)]
pub fn local_in(kind: Kind, slot: Slot) -> Result<Value, Fault>
    ensures { result ≡ value_in_entry kind (Some (entry_of slot)) }
{
    match kind {
        Kind::Int => match slot {
            Slot::Int(z) => Ok(Value::Int(z)),
            Slot::Long(_) | Slot::Unset | Slot::Upper | Slot::Null | Slot::Ref(_) => Err(
                wrong_local(slot),
            ),
        },
        Kind::Long => match slot {
            Slot::Long(z) => Ok(Value::Long(z)),
            Slot::Int(_) | Slot::Unset | Slot::Upper | Slot::Null | Slot::Ref(_) => Err(wrong_local(
                slot,
            )),
        },
        Kind::Ref => match slot {
            Slot::Null => Ok(Value::Ref(None)),
            Slot::Ref(number) => Ok(Value::Ref(Some(number))),
            Slot::Int(_) | Slot::Long(_) | Slot::Unset | Slot::Upper => Err(wrong_local(slot)),
        },
    }
}

/// Why a local's slot isn't of the kind that is wanted.
// Not inlined, so that a load is one comparison where the local is of its kind.
#[cold]
#[inline(never)]
fn wrong_local(slot: Slot) -> Fault
    ensures { result ≡ wrong_entry (entry_of slot) }
{
    match slot {
        Slot::Upper => Fault::WrongLocal,
        Slot::Int(_) | Slot::Long(_) | Slot::Unset | Slot::Null | Slot::Ref(_) => Fault::WrongKind,
    }
}

/// The reference in a slot, if there is one.
#[inline(always)]
pub fn number_in(slot: Slot) -> Option<u32>
    ensures entry { result ≡ entry_ref (entry_of slot) }
    ensures value { result ≡ ref_of (value_of slot) }
{
    match slot {
        Slot::Ref(number) => Some(number),
        Slot::Int(_) | Slot::Long(_) | Slot::Unset | Slot::Upper | Slot::Null => None,
    }
}
