//! Numbers at the front of bytes, highest byte first.

ghost use Rattle.std.specs.Prelude.{◌≡◌};
ghost use Rattle.std.specs.Int.{w8, w16, w32};
ghost use Rattle.opcodes.specs.Reading.Steps.{AsksForNone, Gives, byte_at, number_at, signed_at};

use crate::error::OpError;

/// The first byte, and those after it. `Operand` where there is none.
pub fn u8_at(bytes: &[u8]) -> Result<(u8, &[u8]), OpError>
    ensures gives { Gives (λ x. (x.0, x.1.now)) result (byte_at bytes.now) }
    ensures memory { AsksForNone result }
{
    match bytes {
        [] => Err(OpError::Operand),
        [first, rest @ ..] => Ok((*first, rest)),
    }
}

/// The number in the first two bytes. `Operand` where there are fewer.
pub fn u16_at(bytes: &[u8]) -> Result<(u16, &[u8]), OpError>
    ensures gives { Gives (λ x. (x.0, x.1.now)) result (number_at w16 bytes.now) }
    ensures memory { AsksForNone result }
{
    if bytes.len() < 2 {
        return Err(OpError::Operand);
    }
    let (front, rest) = bytes.split_at(2);
    Ok((u16::from_be_bytes([front[0], front[1]]), rest))
}

/// The signed number in the first byte. `Operand` where there is none.
pub fn i8_at(bytes: &[u8]) -> Result<(i8, &[u8]), OpError>
    ensures gives { Gives (λ x. (x.0, x.1.now)) result (signed_at w8 bytes.now) }
    ensures memory { AsksForNone result }
{
    if bytes.is_empty() {
        return Err(OpError::Operand);
    }
    let (front, rest) = bytes.split_at(1);
    Ok((i8::from_be_bytes([front[0]]), rest))
}

/// The signed number in the first two bytes. `Operand` where there are fewer.
pub fn i16_at(bytes: &[u8]) -> Result<(i16, &[u8]), OpError>
    ensures gives { Gives (λ x. (x.0, x.1.now)) result (signed_at w16 bytes.now) }
    ensures memory { AsksForNone result }
{
    if bytes.len() < 2 {
        return Err(OpError::Operand);
    }
    let (front, rest) = bytes.split_at(2);
    Ok((i16::from_be_bytes([front[0], front[1]]), rest))
}

/// The signed number in the first four bytes. `Operand` where there are fewer.
pub fn i32_at(bytes: &[u8]) -> Result<(i32, &[u8]), OpError>
    ensures gives { Gives (λ x. (x.0, x.1.now)) result (signed_at w32 bytes.now) }
    ensures memory { AsksForNone result }
{
    if bytes.len() < 4 {
        return Err(OpError::Operand);
    }
    let (front, rest) = bytes.split_at(4);
    let number = i32::from_be_bytes([front[0], front[1], front[2], front[3]]);
    Ok((number, rest))
}
