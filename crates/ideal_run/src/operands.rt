//! What an instruction finds on a stack: the operands from the top, each tested when it is popped (JVMS 2.6.2).
ghost use Rattle.std.specs.Prelude.{◌≡◌};
ghost use Rattle.model.specs.Frames.{top_of, int_on, long_on, ref_on, two_ints_on, two_longs_on, two_refs_on};
ghost use Rattle.model.specs.Frames.{count_and_long_on};
ghost use Rattle.model.specs.Locals.{of_kind, value_on};

use crate::frames::below;
use model::turns::Fault;
use model::values::{Kind, Value};

/// The value at the top, else F1.
pub fn top_of(stack: &[Value]) -> Result<Value, Fault>
    ensures { result ≡ top_of stack.now }
{
    match stack {
        [] => Err(Fault::StackEmpty),
        [value, ..] => Ok(*value),
    }
}

/// An int at the top, else F1 or F3.
pub fn int_on(stack: &[Value]) -> Result<i32, Fault>
    ensures { result ≡ int_on stack.now }
{
    match top_of(stack)? {
        Value::Int(int) => Ok(int),
        Value::Long(_) | Value::Ref(_) => Err(Fault::WrongKind),
    }
}

/// A long at the top, else F1 or F3.
pub fn long_on(stack: &[Value]) -> Result<i64, Fault>
    ensures { result ≡ long_on stack.now }
{
    match top_of(stack)? {
        Value::Long(long) => Ok(long),
        Value::Int(_) | Value::Ref(_) => Err(Fault::WrongKind),
    }
}

/// A reference at the top, else F1 or F3.
pub fn ref_on(stack: &[Value]) -> Result<Option<u32>, Fault>
    ensures { result ≡ ref_on stack.now }
{
    match top_of(stack)? {
        Value::Ref(reference) => Ok(reference),
        Value::Int(_) | Value::Long(_) => Err(Fault::WrongKind),
    }
}

/// Two ints, the upper one first.
pub fn two_ints_on(stack: &[Value]) -> Result<(i32, i32), Fault>
    ensures { result ≡ two_ints_on stack.now }
{
    let upper = int_on(stack)?;
    let lower = int_on(below(stack, 1))?;
    Ok((upper, lower))
}

/// Two longs, the upper one first.
pub fn two_longs_on(stack: &[Value]) -> Result<(i64, i64), Fault>
    ensures { result ≡ two_longs_on stack.now }
{
    let upper = long_on(stack)?;
    let lower = long_on(below(stack, 1))?;
    Ok((upper, lower))
}

/// Two references, the upper one first.
pub fn two_refs_on(stack: &[Value]) -> Result<(Option<u32>, Option<u32>), Fault>
    ensures { result ≡ two_refs_on stack.now }
{
    let upper = ref_on(stack)?;
    let lower = ref_on(below(stack, 1))?;
    Ok((upper, lower))
}

/// An int above a long, as a shift of a long wants them.
pub fn count_and_long_on(stack: &[Value]) -> Result<(i32, i64), Fault>
    ensures { result ≡ count_and_long_on stack.now }
{
    let count = int_on(stack)?;
    let long = long_on(below(stack, 1))?;
    Ok((count, long))
}

/// A value of the kind that is wanted, else F3.
pub fn of_kind(kind: Kind, value: Value) -> Result<Value, Fault>
    ensures { result ≡ of_kind kind value }
{
    match kind {
        Kind::Int => match value {
            Value::Int(_) => Ok(value),
            Value::Long(_) | Value::Ref(_) => Err(Fault::WrongKind),
        },
        Kind::Long => match value {
            Value::Long(_) => Ok(value),
            Value::Int(_) | Value::Ref(_) => Err(Fault::WrongKind),
        },
        Kind::Ref => match value {
            Value::Ref(_) => Ok(value),
            Value::Int(_) | Value::Long(_) => Err(Fault::WrongKind),
        },
    }
}

/// A value of this kind at the top, else F1 or F3.
pub fn value_on(kind: Kind, stack: &[Value]) -> Result<Value, Fault>
    ensures { result ≡ value_on kind stack.now }
{
    of_kind(kind, top_of(stack)?)
}
