//! Methods of a class file.

ghost use Rattle.std.specs.Prelude.{◌≡◌, ◌++◌, None, OnOk};
ghost use Rattle.model.specs.Texts.Names.{is_method_name as method_name_test};
ghost use Rattle.model.specs.Texts.Flags.{has};
ghost use Rattle.model.specs.ClassFiles.Attributes.{attributes_bytes, passes};
ghost use Rattle.model.specs.ClassFiles.References.{text_at as held_text};
ghost use Rattle.model.specs.ClassFiles.Methods as definition;
ghost use Rattle.pool.specs.Reading.Steps.{AsksForNone, Gives};
ghost use Rattle.classfile.specs.Reading.Answers.{Answers};
ghost use Rattle.classfile.specs.Reading.Attributes.{tested_from, attribute_from, attributes_from};
ghost use Rattle.classfile.specs.Reading.Methods as reading;
ghost use Rattle.classfile.specs.Reading.Methods.{method_flags_from, method_type_test, found_code_from, codes_from};
ghost use Rattle.classfile.specs.Reading.Methods.{method_from};
ghost use Rattle.classfile.specs.Writing.{CodesFit, MethodFits, code_attributes, method_bytes};

use crate::attributes::{Text, sized_at, text_at};
use crate::codes::{CodeEntry, code_of, put_code};
use crate::error::ClassError;
use crate::fields::is_static;
use crate::flags::{ABSTRACT, INTERFACE, NATIVE, NEVER_ABSTRACT, OF_NO_METHOD, PUBLIC};
use crate::instructions::Signature;
use bitflags::Flags;
use model::class_files::FormatFault;
use model::flags::MethodFlags;
use pool::fields::u16_at;
use pool::{Pool, ReadError};
use std::alloc::{AllocError, Global};
use std::marker::Model;

/// A method of a class file (JVMS 4.6): its flags, the numbers of its name and its descriptor, and its code, which an
/// abstract or native one doesn't have. Other attributes aren't kept.
#[derive(Drop)]
pub struct MethodEntry {
    pub flags: MethodFlags,
    pub name: u16,
    pub descriptor: u16,
    pub code: Option<CodeEntry>,
}

impl Model for MethodEntry {
    ghost use Rattle.model.specs.ClassFiles.Methods.{MethodPart};

    ghost Value = { MethodPart };

    ghost view = { λ a. record { flags = a.flags; name = a.name; descriptor = a.descriptor; code = a.code } };
}

/// Whether a method may have these flags in a class of those.
pub fn are_method_flags(class: u16, flags: u16) -> bool
    ensures { result ≡ definition.are_method_flags class flags }
{
    let is_abstract = flags & ABSTRACT != 0;
    flags & OF_NO_METHOD == 0
        && !(is_abstract && flags & NEVER_ABSTRACT != 0)
        && (class & INTERFACE == 0 || (flags & PUBLIC != 0 && is_abstract))
}

/// The flags of a method in a class of these flags. C11 where they don't go together.
#[tactic(auto, unfolding(crate::specs::Reading::Methods::method_flags_from))]
fn method_flags_at(class: u16, bytes: &[u8]) -> Result<(u16, &[u8]), ReadError>
    ensures gives { Gives (λ x. (x.0, x.1.now)) result (method_flags_from class bytes.now) }
    ensures memory { AsksForNone result }
{
    let (flags, rest) = u16_at(bytes)?;
    if are_method_flags(class, flags) {
        Ok((flags, rest))
    } else {
        Err(ReadError::Format(FormatFault::Flags))
    }
}

/// Whether a method with these flags has code: one that is neither abstract nor native.
pub fn wants_code(flags: u16) -> bool
    ensures { result ≡ definition.wants_code flags }
{
    flags & ABSTRACT == 0 && flags & NATIVE == 0
}

/// Whether the text under a number is a method's descriptor whose arguments take 255 units at most, with the object
/// where the method isn't static.
pub fn is_method_type(pool: &Pool, is_static: bool, number: u16) -> bool
    ensures { result ≡ passes (method_type_test is_static) (held_text pool.now number) }
{
    match pool.argument_units(number) {
        None => false,
        Some(units) => units <= if is_static { 255 } else { 254 },
    }
}

/// The method's name whose number stands at the front of the bytes. C6 where there is no text, C7 where it is no name.
#[tactic(auto, unfolding(crate::specs::Reading::Attributes::tested_from))]
fn method_name_at<'a, 'b>(
    pool: &'a Pool,
    bytes: &'b [u8],
) -> Result<(Text<'a>, &'b [u8]), ReadError>
    ensures gives { Gives (λ x. ((x.0.number, x.0.bytes.now), x.1.now)) result
        (tested_from pool.now method_name_test bytes.now) }
    ensures memory { AsksForNone result }
{
    let (text, rest) = text_at(pool, bytes)?;
    if pool.is_method_name(text.number) {
        Ok((text, rest))
    } else {
        Err(ReadError::Format(FormatFault::Name))
    }
}

/// The method's descriptor whose number stands at the front of the bytes. C6 where there is no text, C7 where it is no
/// descriptor, or one with too many arguments.
#[tactic(auto, unfolding(crate::specs::Reading::Attributes::tested_from))]
fn method_type_at<'a, 'b>(
    pool: &'a Pool,
    is_static: bool,
    bytes: &'b [u8],
) -> Result<(Text<'a>, &'b [u8]), ReadError>
    ensures gives { Gives (λ x. ((x.0.number, x.0.bytes.now), x.1.now)) result
        (tested_from pool.now (method_type_test is_static) bytes.now) }
    ensures memory { AsksForNone result }
{
    let (text, rest) = text_at(pool, bytes)?;
    if is_method_type(pool, is_static, text.number) {
        Ok((text, rest))
    } else {
        Err(ReadError::Format(FormatFault::Name))
    }
}

/// A Code attribute after its name. C8 where the method has none, and where one was found before.
#[tactic(auto, unfolding(crate::specs::Reading::Methods::found_code_from))]
fn found_code<'a>(
    alloc: Global,
    pool: &Pool,
    method: Signature,
    wanted: bool,
    before: Option<CodeEntry>,
    name: u16,
    bytes: &'a [u8],
) -> Result<(Option<CodeEntry>, &'a [u8]), ClassError>
    ensures { Answers (λ x. (x.0, x.1.now)) result (found_code_from pool.now wanted before name bytes.now) }
{
    if before.is_some() || !wanted {
        return Err(ClassError::Format(FormatFault::Attribute));
    }
    let (info, rest) = sized_at(bytes)?;
    let code = code_of(alloc, pool, method, name, info)?;
    Ok((Some(code), rest))
}

/// Whether an attribute of this name is the code.
pub fn is_code_name(text: &[u8]) -> bool
    ensures { result ≡ reading.is_code_name text.now }
{
    text == b"Code".as_slice()
}

/// An attribute of a method: its code is taken, all others are skipped.
#[tactic(auto, unfolding(crate::specs::Reading::Attributes::attribute_from))]
fn attribute_of<'a>(
    alloc: Global,
    pool: &Pool,
    method: Signature,
    wanted: bool,
    before: Option<CodeEntry>,
    bytes: &'a [u8],
) -> Result<(Option<CodeEntry>, &'a [u8]), ClassError>
    ensures { Answers (λ x. (x.0, x.1.now)) result
        (attribute_from pool.now reading.is_code_name (found_code_from pool.now wanted) before bytes.now) }
{
    let (name, rest) = text_at(pool, bytes)?;
    if is_code_name(name.bytes) {
        found_code(alloc, pool, method, wanted, before, name.number, rest)
    } else {
        let (_, rest) = sized_at(rest)?;
        Ok((before, rest))
    }
}

/// So many attributes of a method.
fn attributes_of<'a>(
    alloc: Global,
    pool: &Pool,
    method: Signature,
    wanted: bool,
    count: u16,
    bytes: &'a [u8],
) -> Result<(Option<CodeEntry>, &'a [u8]), ClassError>
    ensures { Answers (λ x. (x.0, x.1.now)) result
        (attributes_from pool.now reading.is_code_name (found_code_from pool.now wanted) count None bytes.now) }
{
    let mut found = None;
    let mut rest = bytes;
    for _ in 0..count {
        let (code, after) = attribute_of(alloc, pool, method, wanted, found, rest)?;
        found = code;
        rest = after;
    }
    Ok((found, rest))
}

/// A method's attributes after their count. C8 where it wants code and has none.
#[tactic(auto, unfolding(crate::specs::Reading::Methods::codes_from))]
fn codes_of<'a>(
    alloc: Global,
    pool: &Pool,
    method: Signature,
    wanted: bool,
    bytes: &'a [u8],
) -> Result<(Option<CodeEntry>, &'a [u8]), ClassError>
    ensures { Answers (λ x. (x.0, x.1.now)) result (codes_from pool.now wanted bytes.now) }
{
    let (count, rest) = u16_at(bytes)?;
    let (code, rest) = attributes_of(alloc, pool, method, wanted, count, rest)?;
    if wanted && code.is_none() {
        return Err(ClassError::Format(FormatFault::Attribute));
    }
    Ok((code, rest))
}

/// A method in a class of these flags.
#[tactic(auto, unfolding(crate::specs::Reading::Methods::method_from))]
pub fn method_of<'a>(
    alloc: Global,
    pool: &Pool,
    class: u16,
    bytes: &'a [u8],
) -> Result<(MethodEntry, &'a [u8]), ClassError>
    ensures { Answers (λ x. (x.0, x.1.now)) result (method_from pool.now class bytes.now) }
{
    let (flags, rest) = method_flags_at(class, bytes)?;
    let (name, rest) = method_name_at(pool, rest)?;
    let (descriptor, rest) = method_type_at(pool, is_static(flags), rest)?;
    let signature = Signature {
        name: name.bytes,
        descriptor: descriptor.bytes,
    };
    let (code, rest) = codes_of(alloc, pool, signature, wants_code(flags), rest)?;
    let method = MethodEntry {
        flags: MethodFlags::from_bits_retain(flags),
        name: name.number,
        descriptor: descriptor.number,
        code,
    };
    Ok((method, rest))
}

/// Writes the attributes of a method at the end: its code, if it has some.
fn put_codes(out: &mut Vec<u8>, code: &Option<CodeEntry>) -> Result<(), AllocError>
    requires { CodesFit code.now }
    ensures { OnOk result (out.new.items ≡ out.old.items ++ attributes_bytes (code_attributes code.now)) }
{
    match code {
        None => out.extend_from_slice(&[0, 0]),
        Some(code) => {
            out.extend_from_slice(&[0, 1])?;
            put_code(out, code)
        }
    }
}

/// Writes a method at the end, with its code and no other attribute.
pub fn put_method(out: &mut Vec<u8>, method: &MethodEntry) -> Result<(), AllocError>
    requires { MethodFits method.now }
    ensures { OnOk result (out.new.items ≡ out.old.items ++ method_bytes method.now) }
{
    out.extend_from_slice(&method.flags.bits().to_be_bytes())?;
    out.extend_from_slice(&method.name.to_be_bytes())?;
    out.extend_from_slice(&method.descriptor.to_be_bytes())?;
    put_codes(out, &method.code)
}
