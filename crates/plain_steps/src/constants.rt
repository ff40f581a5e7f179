//! The instructions that push a constant.
ghost use Rattle.std.specs.Prelude.{◌≡◌, ◌<◌, length, OnErr, ◌≤◌, IfOk};
ghost use Rattle.model.specs.Frames.{running_frame};
ghost use Rattle.model.specs.Table.Constants.{constant_value as constant_value_of, constant as constant_move};
ghost use Rattle.plain_steps.specs.Reported.{reported_with, moved_with};

use crate::written::Written;
use frames::Frames;
use linking::plain_operations::{small_int, small_long};
use model::instructions::Constant;
use model::turns::Abrupt;
use values::Value;

/// `aconst_null`, `iconst`, `lconst`, `bipush`, `sipush`, `ldc`, `ldc_w`, `ldc2_w` (JVMS 6.5): the value is pushed; F2
/// where it has no room.
#[inline(always)]
pub fn constant(
    frames: &mut Frames,
    next: u16,
    constant: Constant<i32, i64>,
) -> Result<Written, Abrupt>
    requires { 0 < length frames.old }
    ensures step { reported_with result frames.new
        ≡ moved_with frames.old (constant_move next constant (running_frame frames.old)) }
    ensures kept { OnErr result (frames.new ≡ frames.old) }
    ensures few { IfOk result (λ written. length written ≤ 1) }
{
    frames.replace_if_room(next, 0, constant_value(constant))?;
    Ok(Written::none())
}

/// What an instruction of constants pushes.
#[inline(always)]
fn constant_value(constant: Constant<i32, i64>) -> Value
    ensures { result ≡ constant_value_of constant }
{
    match constant {
        Constant::Null => Value::Ref(None),
        Constant::SmallInt(small) => Value::Int(small_int(small)),
        Constant::SmallLong(small) => Value::Long(i64::from(small_long(small))),
        Constant::Byte(value) => Value::Int(i32::from(value)),
        Constant::Short(value) => Value::Int(i32::from(value)),
        Constant::Int(_, value) => Value::Int(value),
        Constant::Long(value) => Value::Long(value),
    }
}
