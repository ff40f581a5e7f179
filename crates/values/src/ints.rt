//! The operators on two ints, and the change of an int's sign.
#![tactic(auto, using(crate::proofs::WrapLemmas::wraps))]

ghost use Rattle.std.specs.Prelude.{◌≡◌};
ghost use Rattle.std.specs.Int.{w32};
ghost use Rattle.model.specs.Arithmetic.{operator_result, negation};

use model::instructions::Operator;

/// What the operator makes of two ints, and `None` exactly for a division or a remainder by zero. A shift goes by the
/// low 5 bits of `b`. (JVMS 6.5: iadd, isub, imul, idiv, irem, ishl, ishr, iushr, iand, ior, ixor)
pub fn iop(op: Operator, a: i32, b: i32) -> Option<i32>
    ensures { result ≡ operator_result w32 op a b }
{
    match op {
        Operator::Add => Some(a.wrapping_add(b)),
        Operator::Sub => Some(a.wrapping_sub(b)),
        Operator::Mul => Some(a.wrapping_mul(b)),
        Operator::Div => {
            if b == 0 {
                None
            } else {
                Some(a.wrapping_div(b))
            }
        }
        Operator::Rem => {
            if b == 0 {
                None
            } else {
                Some(a.wrapping_rem(b))
            }
        }
        Operator::Shl => Some(a.wrapping_shl(b.cast_unsigned())),
        Operator::Shr => Some(a.wrapping_shr(b.cast_unsigned())),
        Operator::Ushr => Some(
            a.cast_unsigned()
                .wrapping_shr(b.cast_unsigned())
                .cast_signed(),
        ),
        Operator::And => Some(a & b),
        Operator::Or => Some(a | b),
        Operator::Xor => Some(a ^ b),
    }
}

/// The int with the other sign; the least int is its own. (JVMS 6.5: ineg)
pub fn negate_int(a: i32) -> i32
    ensures { result ≡ negation w32 a }
{
    a.wrapping_neg()
}
