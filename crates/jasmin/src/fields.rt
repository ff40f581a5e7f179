//! Fields.
ghost use Rattle.std.specs.Prelude.{◌≡◌, ◌≢◌, ◌∷◌, ◌&&◌, None, Some, IfOk, MatchResult};
ghost use Rattle.std.specs.Option.{option_map};
ghost use Rattle.model.specs.Texts.Descriptors.{is_field_descriptor, is_int_type, is_long_type};
ghost use Rattle.model.specs.Texts.Flags.{field_flags_agree, has};
ghost use Rattle.model.specs.Texts.Heads.{field_words, field_of, constant_of, value_of};
ghost use Rattle.model.specs.Texts.Names.{is_field_name};

use crate::errors::Fault;
use crate::flags::{STATIC, field_flags_agree, with_flag};
use crate::operands::only_number;
use bitflags::Flags;
use jasmin_words::statements::Statement;
use jasmin_words::words::Words;
use model::descriptors::{is_field_descriptor, is_int_type, is_long_type};
use model::flags::{ClassFlags, FIELD_FLAGS, FieldFlags};
use model::good_names::is_field_name;
use model::listings::{Constant, Field};
use model::names::Name;
use std::alloc::Global;

/// The words of a `.field`; those of its value stand after a `=`.
#[derive(Drop)]
struct FieldWords<'a> {
    flags: u16,
    name: &'a [u8],
    descriptor: &'a [u8],
    value: Option<Words<'a>>,
}

/// A `.field`, in a class with these flags.
pub fn field(alloc: Global, class: ClassFlags, statement: Statement<'_>) -> Result<Field, Fault>
    ensures { MatchResult result (λ field. field_of class (Some (statement.entry.first.now ∷ statement.entry.operands))
        ≡ Some field) (λ e. e ≢ Fault.Memory → field_of class
        (Some (statement.entry.first.now ∷ statement.entry.operands)) ≡ None) }
{
    if statement.first != b".field".as_slice() {
        return Err(Fault::Statement);
    }
    let FieldWords {
        flags,
        name,
        descriptor,
        value,
    } = field_words(statement.operands)?;
    if !is_field(class, flags, name, descriptor) {
        return Err(Fault::Operand);
    }
    let constant = constant_of(flags, descriptor, value)?;
    Ok(Field {
        flags: FieldFlags::from_bits_retain(flags),
        name: Name::copy_of(alloc, name)?,
        descriptor: Name::copy_of(alloc, descriptor)?,
        constant,
    })
}

/// The words after `.field`: flags, none of which is given twice, a name and a descriptor, and after a `=` a value.
fn field_words<'a>(mut words: Words<'a>) -> Result<FieldWords<'a>, Fault>
    ensures { MatchResult result (λ f. field_words words.entry
        ≡ Some (record { flags = f.flags; name = f.name.now; descriptor = f.descriptor.now; value = f.value }))
        (λ _. field_words words.entry ≡ None) }
{
    let mut flags = 0;
    let mut name = words.next_word().ok_or(Fault::Operand)?;
    let mut descriptor = words.next_word().ok_or(Fault::Operand)?;
    while let Some(next) = words.next_word() {
        if next == b"=".as_slice() {
            return Ok(FieldWords {
                flags,
                name,
                descriptor,
                value: Some(words),
            });
        }
        flags = with_flag(&FIELD_FLAGS, flags, name)?;
        name = descriptor;
        descriptor = next;
    }
    Ok(FieldWords {
        flags,
        name,
        descriptor,
        value: None,
    })
}

/// Whether a class may have a field with these flags, this name and this descriptor.
fn is_field(class: ClassFlags, flags: u16, name: &[u8], descriptor: &[u8]) -> bool
    ensures { result ≡ (is_field_name name.now && is_field_descriptor descriptor.now
        && field_flags_agree class.0 flags) }
{
    is_field_name(name) && is_field_descriptor(descriptor) && field_flags_agree(class.bits(), flags)
}

/// The value that a field with these flags and this descriptor has, if it has one.
fn constant_of(
    flags: u16,
    descriptor: &[u8],
    value: Option<Words<'_>>,
) -> Result<Option<Constant>, Fault>
    ensures { MatchResult result (λ v. constant_of (has flags 0x0008) descriptor.now value.entry
        ≡ Some v) (λ _. constant_of (has flags 0x0008) descriptor.now value.entry ≡ None) }
{
    match value {
        None => Ok(None),
        Some(number) => Ok(Some(value_of(flags, descriptor, number)?)),
    }
}

/// The value that a field with these flags and this descriptor begins with: a static one of a type of one letter may
/// have one.
fn value_of(flags: u16, descriptor: &[u8], number: Words<'_>) -> Result<Constant, Fault>
    ensures { MatchResult result (λ v. value_of (has flags 0x0008) descriptor.now number.entry
        ≡ Some v) (λ _. value_of (has flags 0x0008) descriptor.now number.entry ≡ None) }
{
    let is_static = flags & STATIC != 0;
    if is_static && is_int_type(descriptor) {
        let n = only_number(number, -0x8000_0000, 0x7fff_ffff)?;
        return Ok(Constant::Int(n as i32));
    }
    if is_static && is_long_type(descriptor) {
        let n = only_number(number, i64::MIN, i64::MAX)?;
        return Ok(Constant::Long(n));
    }
    Err(Fault::Operand)
}
