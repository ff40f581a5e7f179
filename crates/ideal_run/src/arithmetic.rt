//! The instructions on numbers (JVMS 6.5).
ghost use Rattle.std.specs.Prelude.{◌≡◌, IfOk};
ghost use Rattle.model.specs.Table.Numbers.{number, operands_of, operand_of, source_kind};
ghost use Rattle.model.specs.declared.instructions.NumberOperation.TheVariants.{Binary, Negate, Convert, CompareLongs};
ghost use Rattle.model.specs.declared.instructions.NumberKind.TheVariants.{Int, Long};
ghost use Rattle.ideal_run.specs.Reported.{frame_in, value_converted};

use crate::frames::{Frame, Moved, faulted, moved, replaced_if_room};
use crate::operands::{count_and_long_on, int_on, long_on, two_ints_on, two_longs_on};
use model::instructions::{Conversion, NumberKind, NumberOperation, Operator};
use model::turns::{Abrupt, Exception, Fault};
use std::alloc::{AllocError, Global};
use values::{IntType, Value};

/// The operands of an operator on longs, the right one first; a shift's count is an int.
fn long_operands(op: Operator, stack: &[Value]) -> Result<(i64, i64), Fault>
    ensures { result ≡ operands_of Long op stack.now }
{
    match op {
        Operator::Shl | Operator::Shr | Operator::Ushr => {
            let (count, long) = count_and_long_on(stack)?;
            Ok((i64::from(count), long))
        }
        Operator::Add
        | Operator::Sub
        | Operator::Mul
        | Operator::Div
        | Operator::Rem
        | Operator::And
        | Operator::Or
        | Operator::Xor => two_longs_on(stack),
    }
}

/// An operator on two ints.
fn int_operation(alloc: Global, next: u16, op: Operator, frame: &Frame) -> Result<Moved, AllocError>
    ensures { IfOk result (λ moved. moved ≡ frame_in (number next (Binary Int op) frame.now)) }
{
    match two_ints_on(&frame.stack) {
        Err(fault) => Ok(faulted(fault)),
        Ok((right, left)) => match values::iop(op, left, right) {
            Some(int) => moved(alloc, next, frame, 2, &[Value::Int(int)]),
            None => Ok(Err(Abrupt::Throw(Exception::Arithmetic))),
        },
    }
}

/// An operator on two longs, or a shift of a long.
fn long_operation(
    alloc: Global,
    next: u16,
    op: Operator,
    frame: &Frame,
) -> Result<Moved, AllocError>
    ensures { IfOk result (λ moved. moved ≡ frame_in (number next (Binary Long op) frame.now)) }
{
    match long_operands(op, &frame.stack) {
        Err(fault) => Ok(faulted(fault)),
        Ok((right, left)) => match values::lop(op, left, right) {
            Some(long) => moved(alloc, next, frame, 2, &[Value::Long(long)]),
            None => Ok(Err(Abrupt::Throw(Exception::Arithmetic))),
        },
    }
}

/// The change of an int's sign.
fn int_negation(alloc: Global, next: u16, frame: &Frame) -> Result<Moved, AllocError>
    ensures { IfOk result (λ moved. moved ≡ frame_in (number next (Negate Int) frame.now)) }
{
    match int_on(&frame.stack) {
        Err(fault) => Ok(faulted(fault)),
        Ok(int) => moved(
            alloc,
            next,
            frame,
            1,
            &[Value::Int(values::negate_int(int))],
        ),
    }
}

/// The change of a long's sign.
fn long_negation(alloc: Global, next: u16, frame: &Frame) -> Result<Moved, AllocError>
    ensures { IfOk result (λ moved. moved ≡ frame_in (number next (Negate Long) frame.now)) }
{
    match long_on(&frame.stack) {
        Err(fault) => Ok(faulted(fault)),
        Ok(long) => moved(
            alloc,
            next,
            frame,
            1,
            &[Value::Long(values::negate_long(long))],
        ),
    }
}

/// What a conversion makes of the number that it finds, else F1 or F3.
fn converted(conversion: Conversion, stack: &[Value]) -> Result<Value, Fault>
    ensures { result ≡ value_converted conversion (operand_of (source_kind conversion) stack.now) }
{
    Ok(match conversion {
        Conversion::IntToLong => Value::Long(values::int_to_long(int_on(stack)?)),
        Conversion::LongToInt => Value::Int(values::long_to_int(long_on(stack)?)),
        Conversion::IntToByte => Value::Int(values::truncate(IntType::Byte, int_on(stack)?)),
        Conversion::IntToChar => Value::Int(values::truncate(IntType::Char, int_on(stack)?)),
        Conversion::IntToShort => Value::Int(values::truncate(IntType::Short, int_on(stack)?)),
    })
}

/// A conversion of one number.
fn convert(
    alloc: Global,
    next: u16,
    conversion: Conversion,
    frame: &Frame,
) -> Result<Moved, AllocError>
    ensures { IfOk result (λ moved. moved ≡ frame_in (number next (Convert conversion) frame.now)) }
{
    match converted(conversion, &frame.stack) {
        Err(fault) => Ok(faulted(fault)),
        Ok(value) => replaced_if_room(alloc, next, frame, 1, &[value]),
    }
}

/// The comparison of two longs.
fn comparison(alloc: Global, next: u16, frame: &Frame) -> Result<Moved, AllocError>
    ensures { IfOk result (λ moved. moved ≡ frame_in (number next CompareLongs frame.now)) }
{
    match two_longs_on(&frame.stack) {
        Err(fault) => Ok(faulted(fault)),
        Ok((right, left)) => moved(
            alloc,
            next,
            frame,
            2,
            &[Value::Int(values::compare_longs(left, right))],
        ),
    }
}

/// An operator, a change of sign, a conversion or a comparison: faults of the operands first, then a division by zero,
/// then F2. `AllocError` where memory runs out.
pub fn number(
    alloc: Global,
    next: u16,
    operation: NumberOperation,
    frame: &Frame,
) -> Result<Moved, AllocError>
    ensures { IfOk result (λ moved. moved ≡ frame_in (number next operation frame.now)) }
{
    match operation {
        NumberOperation::Binary(NumberKind::Int, op) => int_operation(alloc, next, op, frame),
        NumberOperation::Binary(NumberKind::Long, op) => long_operation(alloc, next, op, frame),
        NumberOperation::Negate(NumberKind::Int) => int_negation(alloc, next, frame),
        NumberOperation::Negate(NumberKind::Long) => long_negation(alloc, next, frame),
        NumberOperation::Convert(conversion) => convert(alloc, next, conversion, frame),
        NumberOperation::CompareLongs => comparison(alloc, next, frame),
    }
}
