//! Entries of a constant pool as bytes.

ghost use Rattle.std.specs.Prelude.{◌≡◌, ◌<◌, ◌^◌, ◌++◌, ◌∷◌, length, OnOk};
ghost use Rattle.std.specs.List.{list_all};
ghost use Rattle.model.specs.ClassFiles.Numbers.{u2};
ghost use Rattle.model.specs.ClassFiles.Entries.{entry_bytes, EntryFits, is_text_byte};
ghost use Rattle.pool.specs.Reading.Steps.{AsksForNone, Gives};
ghost use Rattle.pool.specs.Reading.Entries.{utf8_from, long_from, pair_from, entry_from};

use crate::error::ReadError;
use crate::fields::{bytes_at, i32_at, i64_at, u8_at, u16_at};
use model::class_files::{Entry, FormatFault};
use model::names::Name;
use std::alloc::{AllocError, Global};

/// Whether all bytes are of the ASCII characters but NUL.
pub fn is_text(text: &[u8]) -> bool
    ensures { result ≡ list_all is_text_byte text.now }
{
    text.iter().all(|b| 1 <= *b && *b <= 127)
}

/// A text with its length before it.
#[tactic(auto, unfolding(crate::specs::Reading::Entries::utf8_from))]
fn utf8_of(alloc: Global, bytes: &[u8]) -> Result<(Entry, &[u8]), ReadError>
    ensures { Gives (λ x. (x.0, x.1.now)) result (utf8_from bytes.now) }
{
    let (len, rest) = u16_at(bytes)?;
    let (text, rest) = bytes_at(usize::from(len), rest)?;
    if !is_text(text) {
        return Err(ReadError::Format(FormatFault::Name));
    }
    Ok((Entry::Utf8(Name::copy_of(alloc, text)?), rest))
}

/// A long, which wants two of the numbers that are left.
#[tactic(auto, unfolding(crate::specs::Reading::Entries::long_from))]
fn long_of(left: u16, bytes: &[u8]) -> Result<(Entry, &[u8]), ReadError>
    ensures gives { Gives (λ x. (x.0, x.1.now)) result (long_from left bytes.now) }
    ensures memory { AsksForNone result }
{
    if left < 2 {
        return Err(ReadError::Format(FormatFault::Index));
    }
    let (value, rest) = i64_at(bytes)?;
    Ok((Entry::Long(value), rest))
}

/// Two numbers.
#[tactic(auto, unfolding(crate::specs::Reading::Entries::pair_from))]
fn pair_of(bytes: &[u8]) -> Result<((u16, u16), &[u8]), ReadError>
    ensures gives { Gives (λ x. (x.0, x.1.now)) result (pair_from bytes.now) }
    ensures memory { AsksForNone result }
{
    let (first, rest) = u16_at(bytes)?;
    let (second, rest) = u16_at(rest)?;
    Ok(((first, second), rest))
}

/// The entry at the front of the bytes, where so many numbers are left, and the bytes after it.
#[tactic(auto, unfolding(crate::specs::Reading::Entries::entry_from))]
pub fn entry_of(alloc: Global, left: u16, bytes: &[u8]) -> Result<(Entry, &[u8]), ReadError>
    ensures { Gives (λ x. (x.0, x.1.now)) result (entry_from left bytes.now) }
{
    let (tag, rest) = u8_at(bytes)?;
    match tag {
        1 => utf8_of(alloc, rest),
        3 => {
            let (value, rest) = i32_at(rest)?;
            Ok((Entry::Integer(value), rest))
        }
        5 => long_of(left, rest),
        7 => {
            let (name, rest) = u16_at(rest)?;
            Ok((Entry::Class(name), rest))
        }
        9 => {
            let ((class, member), rest) = pair_of(rest)?;
            Ok((Entry::Fieldref(class, member), rest))
        }
        10 => {
            let ((class, member), rest) = pair_of(rest)?;
            Ok((Entry::Methodref(class, member), rest))
        }
        11 => {
            let ((class, member), rest) = pair_of(rest)?;
            Ok((Entry::InterfaceMethodref(class, member), rest))
        }
        12 => {
            let ((name, descriptor), rest) = pair_of(rest)?;
            Ok((Entry::NameAndType(name, descriptor), rest))
        }
        _ => Err(ReadError::Format(FormatFault::Tag)),
    }
}

/// Writes an entry's tag and its two numbers at the end.
fn put_pair(out: &mut Vec<u8>, tag: u8, first: u16, second: u16) -> Result<(), AllocError>
    ensures { OnOk result (out.new.items ≡ out.old.items ++ tag ∷ (u2 first ++ u2 second)) }
{
    out.push(tag)?;
    out.extend_from_slice(&first.to_be_bytes())?;
    out.extend_from_slice(&second.to_be_bytes())
}

/// Writes an entry at the end.
pub fn put_entry(out: &mut Vec<u8>, entry: &Entry) -> Result<(), AllocError>
    requires { EntryFits entry.now }
    ensures { OnOk result (out.new.items ≡ out.old.items ++ entry_bytes entry.now) }
{
    match entry {
        Entry::Utf8(text) => put_text(out, text),
        Entry::Integer(value) => {
            out.push(3)?;
            out.extend_from_slice(&value.to_be_bytes())
        }
        Entry::Long(value) => {
            out.push(5)?;
            out.extend_from_slice(&value.to_be_bytes())
        }
        Entry::Class(name) => {
            out.push(7)?;
            out.extend_from_slice(&name.to_be_bytes())
        }
        Entry::Fieldref(class, member) => put_pair(out, 9, *class, *member),
        Entry::Methodref(class, member) => put_pair(out, 10, *class, *member),
        Entry::InterfaceMethodref(class, member) => put_pair(out, 11, *class, *member),
        Entry::NameAndType(name, descriptor) => put_pair(out, 12, *name, *descriptor),
    }
}

/// Writes a Utf8 at the end.
fn put_text(out: &mut Vec<u8>, text: &Name) -> Result<(), AllocError>
    requires { length text.now < 2 ^ 16 }
    ensures { OnOk result (out.new.items ≡ out.old.items ++ 1 ∷ (u2 (length text.now) ++ text.now)) }
{
    let text = text.as_bytes();
    out.push(1)?;
    out.extend_from_slice(&(text.len() as u16).to_be_bytes())?;
    out.extend_from_slice(text)
}
