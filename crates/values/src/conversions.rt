//! Conversions between ints and longs, and what the narrow types keep of an int.
#![tactic(auto, using(crate::proofs::WrapLemmas::wraps))]

ghost use Rattle.std.specs.Prelude.{◌≡◌};
ghost use Rattle.model.specs.declared.instructions.Conversion.TheVariants.{IntToLong, LongToInt};
ghost use Rattle.model.specs.Arithmetic.{truncation, conversion_result};

use model::values::IntType;

/// The int as a long. (JVMS 6.5: i2l)
pub fn int_to_long(a: i32) -> i64
    ensures { result ≡ conversion_result IntToLong a }
{
    i64::from(a)
}

/// The low 32 bits of the long. (JVMS 6.5: l2i)
pub fn long_to_int(a: i64) -> i32
    ensures { result ≡ conversion_result LongToInt a }
{
    ((a.cast_unsigned() & 0xffff_ffff) as u32).cast_signed()
}

/// What a field, a static or an array element of this type keeps of the int: the low 8 or 16 bits with their sign, for
/// a char the low 16 with zeros. (JVMS 6.5: i2b, i2c, i2s, bastore, castore, sastore, putfield, putstatic)
pub fn truncate(letter: IntType, a: i32) -> i32
    ensures { result ≡ truncation letter a }
{
    let bits = a.cast_unsigned();
    match letter {
        IntType::Byte => i32::from(((bits & 0xff) as u8).cast_signed()),
        IntType::Char => (bits & 0xffff) as i32,
        IntType::Short => i32::from(((bits & 0xffff) as u16).cast_signed()),
        IntType::Int => a,
    }
}
