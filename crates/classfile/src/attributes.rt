//! Texts and attributes at the front of bytes.

ghost use Rattle.std.specs.Prelude.{◌≡◌, Some, IfOk};
ghost use Rattle.model.specs.ClassFiles.References.{text_at as held_text};
ghost use Rattle.model.specs.Texts.Names.{is_field_name as field_name_test};
ghost use Rattle.model.specs.Texts.Descriptors.{is_field_descriptor as field_descriptor_test};
ghost use Rattle.pool.specs.Reading.Steps.{AsksForNone, Gives};
ghost use Rattle.classfile.specs.Reading.Attributes.{sized_from, text_from, tested_from, none_wanted, no_step};
ghost use Rattle.classfile.specs.Reading.Attributes.{attribute_from, attributes_from, skipped_from};

use model::class_files::FormatFault;
use pool::fields::{bytes_at, u16_at, u32_at};
use pool::{Pool, ReadError};

/// A text of the pool under its number.
#[derive(Clone, Copy)]
pub struct Text<'a> {
    pub number: u16,
    pub bytes: &'a [u8],
}

/// The bytes after their number, and those after them. C3 where they pass the end.
#[tactic(auto, unfolding(crate::specs::Reading::Attributes::sized_from))]
pub fn sized_at(bytes: &[u8]) -> Result<(&[u8], &[u8]), ReadError>
    ensures gives { Gives (λ x. (x.0.now, x.1.now)) result (sized_from bytes.now) }
    ensures memory { AsksForNone result }
{
    let (len, rest) = u32_at(bytes)?;
    bytes_at(len as usize, rest)
}

/// The text whose number stands at the front of the bytes. C6 where there is none.
#[tactic(auto, unfolding(crate::specs::Reading::Attributes::text_from))]
pub fn text_at<'a, 'b>(pool: &'a Pool, bytes: &'b [u8]) -> Result<(Text<'a>, &'b [u8]), ReadError>
    ensures gives { Gives (λ x. ((x.0.number, x.0.bytes.now), x.1.now)) result (text_from pool.now bytes.now) }
    ensures held { IfOk result (λ x. held_text pool.now x.0.number ≡ Some x.0.bytes.now) }
    ensures memory { AsksForNone result }
{
    let (number, rest) = u16_at(bytes)?;
    match pool.text(number) {
        None => Err(ReadError::Format(FormatFault::Index)),
        Some(bytes) => Ok((Text { number, bytes }, rest)),
    }
}

/// The field's name whose number stands at the front of the bytes. C6 where there is no text, C7 where it is no name.
#[tactic(auto, unfolding(crate::specs::Reading::Attributes::tested_from))]
pub fn field_name_at<'a, 'b>(
    pool: &'a Pool,
    bytes: &'b [u8],
) -> Result<(Text<'a>, &'b [u8]), ReadError>
    ensures gives { Gives (λ x. ((x.0.number, x.0.bytes.now), x.1.now)) result
        (tested_from pool.now field_name_test bytes.now) }
    ensures memory { AsksForNone result }
{
    let (text, rest) = text_at(pool, bytes)?;
    if pool.is_field_name(text.number) {
        Ok((text, rest))
    } else {
        Err(ReadError::Format(FormatFault::Name))
    }
}

/// The field's descriptor whose number stands at the front of the bytes. C6 where there is no text, C7 where it is no
/// descriptor.
#[tactic(auto, unfolding(crate::specs::Reading::Attributes::tested_from))]
pub fn field_type_at<'a, 'b>(
    pool: &'a Pool,
    bytes: &'b [u8],
) -> Result<(Text<'a>, &'b [u8]), ReadError>
    ensures gives { Gives (λ x. ((x.0.number, x.0.bytes.now), x.1.now)) result
        (tested_from pool.now field_descriptor_test bytes.now) }
    ensures memory { AsksForNone result }
{
    let (text, rest) = text_at(pool, bytes)?;
    if pool.is_field_descriptor(text.number) {
        Ok((text, rest))
    } else {
        Err(ReadError::Format(FormatFault::Name))
    }
}

/// Skips an attribute. C6 where its name is no text, C3 where its bytes pass the end.
#[tactic(auto, unfolding(crate::specs::Reading::Attributes::attribute_from))]
fn skip_attribute<'a>(pool: &Pool, bytes: &'a [u8]) -> Result<&'a [u8], ReadError>
    ensures gives { Gives (λ x. (0, x.now)) result (attribute_from pool.now none_wanted no_step 0 bytes.now) }
    ensures memory { AsksForNone result }
{
    let (_, rest) = text_at(pool, bytes)?;
    let (_, rest) = sized_at(rest)?;
    Ok(rest)
}

/// Skips so many attributes.
fn skip_some<'a>(pool: &Pool, count: u16, bytes: &'a [u8]) -> Result<&'a [u8], ReadError>
    ensures gives { Gives (λ x. (0, x.now)) result (attributes_from pool.now none_wanted no_step count 0 bytes.now) }
    ensures memory { AsksForNone result }
{
    let mut rest = bytes;
    for _ in 0..count {
        rest = skip_attribute(pool, rest)?;
    }
    Ok(rest)
}

/// Skips attributes after their count.
#[tactic(auto, unfolding(crate::specs::Reading::Attributes::skipped_from))]
pub fn skip_attributes<'a>(pool: &Pool, bytes: &'a [u8]) -> Result<&'a [u8], ReadError>
    ensures gives { Gives (λ x. (0, x.now)) result (skipped_from pool.now bytes.now) }
    ensures memory { AsksForNone result }
{
    let (count, rest) = u16_at(bytes)?;
    skip_some(pool, count, rest)
}
