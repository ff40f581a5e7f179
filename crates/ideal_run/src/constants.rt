//! The instructions that push a constant (JVMS 6.5).
ghost use Rattle.std.specs.Prelude.{◌≡◌, IfOk};
ghost use Rattle.model.specs.Table.Constants.{small_int, small_long, constant_value, constant};
ghost use Rattle.ideal_run.specs.Reported.{frame_in};

use crate::frames::{Frame, Moved, replaced_if_room};
use model::instructions::{Constant, SmallInt, SmallLong};
use model::values::Value;
use std::alloc::{AllocError, Global};

fn small_int(int: SmallInt) -> i32
    ensures { result ≡ small_int int }
{
    match int {
        SmallInt::MinusOne => -1,
        SmallInt::Zero => 0,
        SmallInt::One => 1,
        SmallInt::Two => 2,
        SmallInt::Three => 3,
        SmallInt::Four => 4,
        SmallInt::Five => 5,
    }
}

fn small_long(long: SmallLong) -> i64
    ensures { result ≡ small_long long }
{
    match long {
        SmallLong::Zero => 0,
        SmallLong::One => 1,
    }
}

/// What an instruction of constants pushes.
fn constant_value(constant: Constant<i32, i64>) -> Value
    ensures { result ≡ constant_value constant }
{
    match constant {
        Constant::Null => Value::Ref(None),
        Constant::SmallInt(int) => Value::Int(small_int(int)),
        Constant::SmallLong(long) => Value::Long(small_long(long)),
        Constant::Byte(int) => Value::Int(i32::from(int)),
        Constant::Short(int) => Value::Int(i32::from(int)),
        Constant::Int(_, int) => Value::Int(int),
        Constant::Long(long) => Value::Long(long),
    }
}

/// The value of a constant, or F2. `AllocError` where memory runs out.
pub fn constant(
    alloc: Global,
    next: u16,
    operand: Constant<i32, i64>,
    frame: &Frame,
) -> Result<Moved, AllocError>
    ensures { IfOk result (λ moved. moved ≡ frame_in (constant next operand frame.now)) }
{
    replaced_if_room(alloc, next, frame, 0, &[constant_value(operand)])
}
