//! The operators on two longs, and the change of a long's sign.
#![tactic(auto, using(crate::proofs::WrapLemmas::wraps))]

ghost use Rattle.std.specs.Prelude.{◌≡◌};
ghost use Rattle.std.specs.Int.{w64};
ghost use Rattle.model.specs.Arithmetic.{operator_result, negation, shift_distance};

use model::instructions::Operator;

/// What the operator makes of two longs, and `None` exactly for a division or a remainder by zero. A shift goes by the
/// low 6 bits of `b`, an int count made a long. (JVMS 6.5: ladd, lsub, lmul, ldiv, lrem, lshl, lshr, lushr, land, lor,
/// lxor)
pub fn lop(op: Operator, a: i64, b: i64) -> Option<i64>
    ensures { result ≡ operator_result w64 op a b }
{
    match op {
        Operator::Add => Some(a.wrapping_add(b)),
        Operator::Sub => Some(a.wrapping_sub(b)),
        Operator::Mul => Some(a.wrapping_mul(b)),
        Operator::Div => {
            if b == 0 {
                None
            } else {
                Some(a.wrapping_div(b))
            }
        }
        Operator::Rem => {
            if b == 0 {
                None
            } else {
                Some(a.wrapping_rem(b))
            }
        }
        Operator::Shl => Some(a.wrapping_shl(low_bits(b))),
        Operator::Shr => Some(a.wrapping_shr(low_bits(b))),
        Operator::Ushr => Some(a.cast_unsigned().wrapping_shr(low_bits(b)).cast_signed()),
        Operator::And => Some(a & b),
        Operator::Or => Some(a | b),
        Operator::Xor => Some(a ^ b),
    }
}

/// The long with the other sign; the least long is its own. (JVMS 6.5: lneg)
pub fn negate_long(a: i64) -> i64
    ensures { result ≡ negation w64 a }
{
    a.wrapping_neg()
}

/// How far a long is shifted: the low 6 bits of the count.
fn low_bits(count: i64) -> u32
    ensures { result ≡ shift_distance w64 count }
{
    (count.cast_unsigned() & 0x3f) as u32
}
