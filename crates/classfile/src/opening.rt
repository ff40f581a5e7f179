//! How a class file begins: the magic number and the version.

ghost use Rattle.std.specs.Prelude.{◌≡◌};
ghost use Rattle.pool.specs.Reading.Steps.{AsksForNone, Gives};
ghost use Rattle.classfile.specs.Reading.Heads.{opening_from};

use model::class_files::FormatFault;
use pool::ReadError;
use pool::fields::{u16_at, u32_at};

/// The magic number and the version. C3 where they are cut short, C1 and C2 where they are others.
#[tactic(auto, unfolding(crate::specs::Reading::Heads::opening_from))]
pub fn opening_of(bytes: &[u8]) -> Result<(u16, &[u8]), ReadError>
    ensures gives { Gives (λ x. (x.0, x.1.now)) result (opening_from bytes.now) }
    ensures memory { AsksForNone result }
{
    let (magic, rest) = u32_at(bytes)?;
    if magic != 0xcafe_babe {
        return Err(ReadError::Format(FormatFault::Magic));
    }
    let (minor, rest) = u16_at(rest)?;
    if minor != 0 {
        return Err(ReadError::Format(FormatFault::Version));
    }
    let (major, rest) = u16_at(rest)?;
    if major != 49 {
        return Err(ReadError::Format(FormatFault::Version));
    }
    Ok((major, rest))
}
