//! Fields of a class file.

ghost use Rattle.std.specs.Prelude.{◌≡◌, ◌++◌, None, OnOk};
ghost use Rattle.std.specs.Option.{option_copied};
ghost use Rattle.model.specs.Texts.Flags.{has};
ghost use Rattle.model.specs.ClassFiles.Fields as definition;
ghost use Rattle.model.specs.ClassFiles.Fields.{field_bytes};
ghost use Rattle.pool.specs.Reading.Steps.{AsksForNone, Gives};
ghost use Rattle.classfile.specs.Reading.Attributes.{attribute_from, attributes_from};
ghost use Rattle.classfile.specs.Reading.Fields.{value_of, constant_from, constants_from, field_flags_from, field_from};

use crate::attributes::{field_name_at, field_type_at, sized_at, text_at};
use crate::flags::{INTERFACE, OF_INTERFACE_FIELD, OF_NO_FIELD, STATIC};
use bitflags::Flags;
use model::class_files::{ConstantValue, Entry, FieldEntry, FormatFault};
use model::descriptors::{is_int_type, is_long_type};
use model::flags::FieldFlags;
use pool::fields::u16_at;
use pool::{Pool, ReadError};
use std::alloc::AllocError;

/// Whether a field may have these flags in a class of those.
pub fn are_field_flags(class: u16, flags: u16) -> bool
    ensures { result ≡ definition.are_field_flags class flags }
{
    flags & OF_NO_FIELD == 0
        && (class & INTERFACE == 0 || flags & OF_INTERFACE_FIELD == OF_INTERFACE_FIELD)
}

/// Whether an entry may be the value of a field of this type.
pub fn is_value_of(text: &[u8], entry: Option<&Entry>) -> bool
    ensures { result ≡ definition.is_value_of text.now (option_copied entry.entry) }
{
    match entry {
        Some(Entry::Integer(_)) => is_int_type(text),
        Some(Entry::Long(_)) => is_long_type(text),
        _ => false,
    }
}

/// The number in the bytes of a ConstantValue. C8 where they aren't two, C6 where it is the number of an entry of
/// another kind than the field's type wants.
#[tactic(auto, unfolding(crate::specs::Reading::Fields::value_of))]
fn value_in(pool: &Pool, text: &[u8], info: &[u8]) -> Result<u16, ReadError>
    ensures gives { Gives (λ x. x) result (value_of pool.now text.now info.now) }
    ensures memory { AsksForNone result }
{
    if info.len() != 2 {
        return Err(ReadError::Format(FormatFault::Attribute));
    }
    let value = u16::from_be_bytes([info[0], info[1]]);
    if is_value_of(text, pool.entry(value)) {
        Ok(value)
    } else {
        Err(ReadError::Format(FormatFault::Index))
    }
}

/// A ConstantValue after its name. C8 where one was found before.
#[tactic(auto, unfolding(crate::specs::Reading::Fields::constant_from))]
fn constant_of<'a>(
    pool: &Pool,
    text: &[u8],
    before: Option<ConstantValue>,
    name: u16,
    bytes: &'a [u8],
) -> Result<(Option<ConstantValue>, &'a [u8]), ReadError>
    ensures gives { Gives (λ x. (x.0, x.1.now)) result (constant_from pool.now text.now before name bytes.now) }
    ensures memory { AsksForNone result }
{
    if before.is_some() {
        return Err(ReadError::Format(FormatFault::Attribute));
    }
    let (info, rest) = sized_at(bytes)?;
    let value = value_in(pool, text, info)?;
    Ok((Some(ConstantValue { name, value }), rest))
}

/// The flags of a field in a class of these flags. C11 where they don't go together.
#[tactic(auto, unfolding(crate::specs::Reading::Fields::field_flags_from))]
fn field_flags_at(class: u16, bytes: &[u8]) -> Result<(u16, &[u8]), ReadError>
    ensures gives { Gives (λ x. (x.0, x.1.now)) result (field_flags_from class bytes.now) }
    ensures memory { AsksForNone result }
{
    let (flags, rest) = u16_at(bytes)?;
    if are_field_flags(class, flags) {
        Ok((flags, rest))
    } else {
        Err(ReadError::Format(FormatFault::Flags))
    }
}

/// Whether an attribute of this name counts: a static field's ConstantValue.
pub fn is_constant_value(is_static: bool, text: &[u8]) -> bool
    ensures { result ≡ definition.is_constant_value is_static text.now }
{
    is_static && text == b"ConstantValue".as_slice()
}

/// An attribute of a field: a static field's ConstantValue is taken, all others are skipped.
#[tactic(auto, unfolding(crate::specs::Reading::Attributes::attribute_from))]
fn attribute_of<'a>(
    pool: &Pool,
    is_static: bool,
    text: &[u8],
    before: Option<ConstantValue>,
    bytes: &'a [u8],
) -> Result<(Option<ConstantValue>, &'a [u8]), ReadError>
    ensures gives { Gives (λ x. (x.0, x.1.now)) result
        (attribute_from pool.now (definition.is_constant_value is_static)
        (constant_from pool.now text.now) before bytes.now) }
    ensures memory { AsksForNone result }
{
    let (name, rest) = text_at(pool, bytes)?;
    if is_constant_value(is_static, name.bytes) {
        constant_of(pool, text, before, name.number, rest)
    } else {
        let (_, rest) = sized_at(rest)?;
        Ok((before, rest))
    }
}

/// So many attributes of a field.
fn attributes_of<'a>(
    pool: &Pool,
    is_static: bool,
    text: &[u8],
    count: u16,
    bytes: &'a [u8],
) -> Result<(Option<ConstantValue>, &'a [u8]), ReadError>
    ensures gives { Gives (λ x. (x.0, x.1.now)) result
        (attributes_from pool.now (definition.is_constant_value is_static)
        (constant_from pool.now text.now) count None bytes.now) }
    ensures memory { AsksForNone result }
{
    let mut found = None;
    let mut rest = bytes;
    for _ in 0..count {
        let (constant, after) = attribute_of(pool, is_static, text, found, rest)?;
        found = constant;
        rest = after;
    }
    Ok((found, rest))
}

/// A field's attributes after their count.
#[tactic(auto, unfolding(crate::specs::Reading::Fields::constants_from))]
fn constants_of<'a>(
    pool: &Pool,
    is_static: bool,
    text: &[u8],
    bytes: &'a [u8],
) -> Result<(Option<ConstantValue>, &'a [u8]), ReadError>
    ensures gives { Gives (λ x. (x.0, x.1.now)) result (constants_from pool.now is_static text.now bytes.now) }
    ensures memory { AsksForNone result }
{
    let (count, rest) = u16_at(bytes)?;
    attributes_of(pool, is_static, text, count, rest)
}

/// Whether a flag is among flags.
pub fn is_static(flags: u16) -> bool
    ensures { result ≡ has flags 8 }
{
    flags & STATIC != 0
}

#[tactic(auto, unfolding(crate::specs::Reading::Fields::field_from))]
pub fn field_of<'a>(
    pool: &Pool,
    class: u16,
    bytes: &'a [u8],
) -> Result<(FieldEntry, &'a [u8]), ReadError>
    ensures gives { Gives (λ x. (x.0, x.1.now)) result (field_from pool.now class bytes.now) }
    ensures memory { AsksForNone result }
{
    let (flags, rest) = field_flags_at(class, bytes)?;
    let (name, rest) = field_name_at(pool, rest)?;
    let (descriptor, rest) = field_type_at(pool, rest)?;
    let (constant, rest) = constants_of(pool, is_static(flags), descriptor.bytes, rest)?;
    let field = FieldEntry {
        flags: FieldFlags::from_bits_retain(flags),
        name: name.number,
        descriptor: descriptor.number,
        constant,
    };
    Ok((field, rest))
}

/// Writes a field at the end, with its ConstantValue and no other attribute.
pub fn put_field(out: &mut Vec<u8>, field: &FieldEntry) -> Result<(), AllocError>
    ensures { OnOk result (out.new.items ≡ out.old.items ++ field_bytes field.now) }
{
    out.extend_from_slice(&field.flags.bits().to_be_bytes())?;
    out.extend_from_slice(&field.name.to_be_bytes())?;
    out.extend_from_slice(&field.descriptor.to_be_bytes())?;
    match field.constant {
        None => out.extend_from_slice(&[0, 0]),
        Some(constant) => {
            out.extend_from_slice(&[0, 1])?;
            out.extend_from_slice(&constant.name.to_be_bytes())?;
            out.extend_from_slice(&[0, 0, 0, 2])?;
            out.extend_from_slice(&constant.value.to_be_bytes())
        }
    }
}
