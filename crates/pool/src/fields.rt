//! Numbers and texts at the front of bytes, the highest byte first.

ghost use Rattle.std.specs.Prelude.{◌≡◌};
ghost use Rattle.std.specs.Int.{w16, w32, w64};
ghost use Rattle.pool.specs.Reading.Steps.{AsksForNone, Gives, byte_at, number_at, signed_at, taken};

use crate::error::ReadError;
use model::class_files::FormatFault;

/// The first byte, and those after it. C3 where there is none.
pub fn u8_at(bytes: &[u8]) -> Result<(u8, &[u8]), ReadError>
    ensures gives { Gives (λ x. (x.0, x.1.now)) result (byte_at bytes.now) }
    ensures memory { AsksForNone result }
{
    match bytes {
        [] => Err(ReadError::Format(FormatFault::Short)),
        [first, rest @ ..] => Ok((*first, rest)),
    }
}

/// The number in the first two bytes, and the bytes after it. C3 where there are fewer.
pub fn u16_at(bytes: &[u8]) -> Result<(u16, &[u8]), ReadError>
    ensures gives { Gives (λ x. (x.0, x.1.now)) result (number_at w16 bytes.now) }
    ensures memory { AsksForNone result }
{
    if bytes.len() < 2 {
        return Err(ReadError::Format(FormatFault::Short));
    }
    let (front, rest) = bytes.split_at(2);
    Ok((u16::from_be_bytes([front[0], front[1]]), rest))
}

/// The number in the first four bytes, and the bytes after it. C3 where there are fewer.
pub fn u32_at(bytes: &[u8]) -> Result<(u32, &[u8]), ReadError>
    ensures gives { Gives (λ x. (x.0, x.1.now)) result (number_at w32 bytes.now) }
    ensures memory { AsksForNone result }
{
    if bytes.len() < 4 {
        return Err(ReadError::Format(FormatFault::Short));
    }
    let (front, rest) = bytes.split_at(4);
    let number = u32::from_be_bytes([front[0], front[1], front[2], front[3]]);
    Ok((number, rest))
}

/// The signed number in the first four bytes, and the bytes after it. C3 where there are fewer.
pub fn i32_at(bytes: &[u8]) -> Result<(i32, &[u8]), ReadError>
    ensures gives { Gives (λ x. (x.0, x.1.now)) result (signed_at w32 bytes.now) }
    ensures memory { AsksForNone result }
{
    if bytes.len() < 4 {
        return Err(ReadError::Format(FormatFault::Short));
    }
    let (front, rest) = bytes.split_at(4);
    let number = i32::from_be_bytes([front[0], front[1], front[2], front[3]]);
    Ok((number, rest))
}

/// The signed number in the first eight bytes, and the bytes after it. C3 where there are fewer.
pub fn i64_at(bytes: &[u8]) -> Result<(i64, &[u8]), ReadError>
    ensures gives { Gives (λ x. (x.0, x.1.now)) result (signed_at w64 bytes.now) }
    ensures memory { AsksForNone result }
{
    if bytes.len() < 8 {
        return Err(ReadError::Format(FormatFault::Short));
    }
    let (front, rest) = bytes.split_at(8);
    let number = i64::from_be_bytes([
        front[0], front[1], front[2], front[3], front[4], front[5], front[6], front[7],
    ]);
    Ok((number, rest))
}

/// The first `len` bytes, and those after them. C3 where there are fewer.
pub fn bytes_at(len: usize, bytes: &[u8]) -> Result<(&[u8], &[u8]), ReadError>
    ensures gives { Gives (λ x. (x.0.now, x.1.now)) result (taken len bytes.now) }
    ensures memory { AsksForNone result }
{
    if bytes.len() < len {
        return Err(ReadError::Format(FormatFault::Short));
    }
    Ok(bytes.split_at(len))
}
