//! The instructions on numbers.
ghost use Rattle.std.specs.Prelude.{◌≡◌, ◌<◌, ◌≤◌, length, take, IsOk, OnErr, IfOk};
ghost use Rattle.model.specs.Values.{units_of_all};
ghost use Rattle.model.specs.Frames.{running_frame};
ghost use Rattle.model.specs.Table.Numbers.{number as number_move, operands_of};
ghost use Rattle.model.specs.declared.instructions.NumberOperation.TheVariants.{Binary, Negate, Convert, CompareLongs};
ghost use Rattle.model.specs.declared.instructions.NumberKind.TheVariants.{Int, Long};
ghost use Rattle.plain_steps.specs.LongUnits.{long_units};
ghost use Rattle.plain_steps.specs.Reported.{reported_with, moved_with};

use crate::written::Written;
use frames::Frames;
use model::instructions::{Conversion, Operator};
use model::turns::{Abrupt, Exception, Fault};
use values::{IntType, Value};

/// An operator on two ints.
#[inline(always)]
pub(crate) fn int_operation(frames: &mut Frames, next: u16, op: Operator) -> Result<Written, Abrupt>
    requires { 0 < length frames.old }
    ensures step { reported_with result frames.new
        ≡ moved_with frames.old (number_move next (Binary Int op) (running_frame frames.old)) }
    ensures kept { OnErr result (frames.new ≡ frames.old) }
    ensures few { IfOk result (λ written. length written ≤ 1) }
{
    let (right, left) = frames.two_ints()?;
    match values::iop(op, left, right) {
        Some(value) => {
            frames.replace_units(next, 2, 2, Value::Int(value));
            Ok(Written::none())
        }
        None => Err(Abrupt::Throw(Exception::Arithmetic)),
    }
}

/// An operator on two longs, or a shift of a long.
#[inline(always)]
pub(crate) fn long_operation(
    frames: &mut Frames,
    next: u16,
    op: Operator,
) -> Result<Written, Abrupt>
    requires { 0 < length frames.old }
    ensures step { reported_with result frames.new
        ≡ moved_with frames.old (number_move next (Binary Long op) (running_frame frames.old)) }
    ensures kept { OnErr result (frames.new ≡ frames.old) }
    ensures few { IfOk result (λ written. length written ≤ 1) }
{
    let (right, left) = long_operands(frames, op)?;
    match values::lop(op, left, right) {
        Some(value) => {
            frames.replace_units(next, 2, long_units(op), Value::Long(value));
            Ok(Written::none())
        }
        None => Err(Abrupt::Throw(Exception::Arithmetic)),
    }
}

/// How many units the operands of an operator on longs take; a shift's count is an int.
#[inline(always)]
fn long_units(op: Operator) -> usize
    ensures units { result ≡ long_units op }
    ensures enough { 2 ≤ result }
{
    match op {
        Operator::Shl | Operator::Shr | Operator::Ushr => 3,
        Operator::Add
        | Operator::Sub
        | Operator::Mul
        | Operator::Div
        | Operator::Rem
        | Operator::And
        | Operator::Or
        | Operator::Xor => 4,
    }
}

/// The operands of an operator on longs, the right one first; a shift's count is an int.
#[inline(always)]
fn long_operands(frames: &Frames, op: Operator) -> Result<(i64, i64), Fault>
    requires { 0 < length frames.now }
    ensures operands { result ≡ operands_of Long op (running_frame frames.now).stack }
    ensures deep { IsOk result → 2 ≤ length (running_frame frames.now).stack }
    ensures wide { IsOk result → units_of_all (take 2 (running_frame frames.now).stack) ≡ long_units op }
{
    match op {
        Operator::Shl | Operator::Shr | Operator::Ushr => {
            let (count, long) = frames.count_and_long()?;
            Ok((i64::from(count), long))
        }
        Operator::Add
        | Operator::Sub
        | Operator::Mul
        | Operator::Div
        | Operator::Rem
        | Operator::And
        | Operator::Or
        | Operator::Xor => frames.two_longs(),
    }
}

/// The change of an int's sign.
#[inline(always)]
pub(crate) fn int_negation(frames: &mut Frames, next: u16) -> Result<Written, Abrupt>
    requires { 0 < length frames.old }
    ensures step { reported_with result frames.new
        ≡ moved_with frames.old (number_move next (Negate Int) (running_frame frames.old)) }
    ensures kept { OnErr result (frames.new ≡ frames.old) }
    ensures few { IfOk result (λ written. length written ≤ 1) }
{
    let value = frames.int()?;
    frames.replace_units(next, 1, 1, Value::Int(values::negate_int(value)));
    Ok(Written::none())
}

/// The change of a long's sign.
#[inline(always)]
pub(crate) fn long_negation(frames: &mut Frames, next: u16) -> Result<Written, Abrupt>
    requires { 0 < length frames.old }
    ensures step { reported_with result frames.new
        ≡ moved_with frames.old (number_move next (Negate Long) (running_frame frames.old)) }
    ensures kept { OnErr result (frames.new ≡ frames.old) }
    ensures few { IfOk result (λ written. length written ≤ 1) }
{
    let value = frames.long()?;
    frames.replace_units(next, 1, 2, Value::Long(values::negate_long(value)));
    Ok(Written::none())
}

/// A conversion of one number.
#[inline(always)]
pub(crate) fn convert(
    frames: &mut Frames,
    next: u16,
    conversion: Conversion,
) -> Result<Written, Abrupt>
    requires { 0 < length frames.old }
    ensures step { reported_with result frames.new
        ≡ moved_with frames.old (number_move next (Convert conversion) (running_frame frames.old)) }
    ensures kept { OnErr result (frames.new ≡ frames.old) }
    ensures few { IfOk result (λ written. length written ≤ 1) }
{
    let value = match conversion {
        Conversion::IntToLong => Value::Long(values::int_to_long(frames.int()?)),
        Conversion::LongToInt => Value::Int(values::long_to_int(frames.long()?)),
        Conversion::IntToByte => Value::Int(values::truncate(IntType::Byte, frames.int()?)),
        Conversion::IntToChar => Value::Int(values::truncate(IntType::Char, frames.int()?)),
        Conversion::IntToShort => Value::Int(values::truncate(IntType::Short, frames.int()?)),
    };
    frames.replace_if_room(next, 1, value)?;
    Ok(Written::none())
}

/// The comparison of two longs.
#[inline(always)]
pub(crate) fn comparison(frames: &mut Frames, next: u16) -> Result<Written, Abrupt>
    requires { 0 < length frames.old }
    ensures step { reported_with result frames.new
        ≡ moved_with frames.old (number_move next CompareLongs (running_frame frames.old)) }
    ensures kept { OnErr result (frames.new ≡ frames.old) }
    ensures few { IfOk result (λ written. length written ≤ 1) }
{
    let (right, left) = frames.two_longs()?;
    frames.replace_units(next, 2, 4, Value::Int(values::compare_longs(left, right)));
    Ok(Written::none())
}
