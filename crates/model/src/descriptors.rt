//! Descriptors of fields and methods (JVMS 4.3): which words are some, and what those of methods say.
ghost use Rattle.std.specs.Prelude.{◌≡◌, ◌<◌, ◌≤◌, ◌*◌, ◌+◌, ◌==◌, ◌∷◌, length, drop, IfOk};
ghost use Rattle.std.specs.List.{list_all, position_or_len, before_first};
ghost use Rattle.model.specs.Locals.{entries_of};
ghost use Rattle.model.specs.Signatures.{dimensions, element_length, type_length, types_in, argument_kinds};
ghost use Rattle.model.specs.Signatures.{argument_units, result_type, result_kind};
ghost use Rattle.model.specs.Stores.{descriptor_kind};
ghost use Rattle.model.specs.Texts.Descriptors.{is_int_type, is_long_type, is_class_type, is_element_type, is_type};
ghost use Rattle.model.specs.Texts.Descriptors.{is_field_descriptor, is_array_descriptor, is_result};
ghost use Rattle.model.specs.Texts.Descriptors.{is_method_descriptor, arguments_of};

use crate::good_names::{are_parts, fits};
use crate::values::Kind;
use std::alloc::{AllocError, Global};

/// Whether a word is a field's descriptor: one type, of 65,535 bytes at most (JVMS 4.3.2).
pub fn is_field_descriptor(word: &[u8]) -> bool
    ensures { result ≡ is_field_descriptor word.now }
{
    fits(word) && is_type(word)
}

/// Whether a word is the descriptor of a type that an int holds: `B`, `C`, `S` or `I` (JVMS 4.3.2).
pub fn is_int_type(word: &[u8]) -> bool
    ensures { result ≡ is_int_type word.now }
{
    matches!(word, [b'B' | b'C' | b'S' | b'I'])
}

/// Whether a word is the descriptor of the type long, `J` (JVMS 4.3.2).
pub fn is_long_type(word: &[u8]) -> bool
    ensures { result ≡ is_long_type word.now }
{
    matches!(word, [b'J'])
}

/// Whether a word is an array's descriptor, as a class entry may name one (JVMS 4.4.1).
pub fn is_array_descriptor(word: &[u8]) -> bool
    ensures { result ≡ is_array_descriptor word.now }
{
    matches!(word, [b'[', ..]) && is_field_descriptor(word)
}

/// The units that the arguments of a method's descriptor take. `None` where the word is no method's descriptor: types
/// in parentheses before a type or `V`, of 65,535 bytes at most (JVMS 4.3.3).
pub fn arguments_of(word: &[u8]) -> Option<usize>
    ensures { result ≡ arguments_of word.now }
{
    if is_method_descriptor(word) {
        Some(argument_units(word))
    } else {
        None
    }
}

/// Whether a word is a method's descriptor.
fn is_method_descriptor(word: &[u8]) -> bool
    ensures { result ≡ is_method_descriptor word.now }
{
    matches!(word, [b'(', ..])
        && fits(word)
        && are_types(argument_row(word))
        && is_result(result_type(word))
}

/// The units that the arguments of a method's descriptor take, two for a long and one for any other. Of a word that is
/// no descriptor, those of what stands where the types would.
pub fn argument_units(descriptor: &[u8]) -> usize
    ensures units { result ≡ argument_units descriptor.now }
    ensures few { result ≤ 2 * length descriptor.now }
{
    let mut rest = argument_row(descriptor);
    let mut units = 0;
    while !rest.is_empty() {
        let (first, others) = split_type(rest);
        units += units_of(descriptor_kind(first));
        rest = others;
    }
    units
}

/// The kinds of the arguments of a method's descriptor, in order. Of a word that is no descriptor, those of what stands
/// where the types would. `AllocError` where memory runs out.
pub fn argument_kinds(alloc: Global, descriptor: &[u8]) -> Result<Vec<Kind>, AllocError>
    ensures { IfOk result (λ kinds. kinds.items ≡ argument_kinds descriptor.now) }
{
    let mut rest = argument_row(descriptor);
    let mut kinds = Vec::new(alloc);
    while !rest.is_empty() {
        let (first, others) = split_type(rest);
        kinds.push(descriptor_kind(first))?;
        rest = others;
    }
    Ok(kinds)
}

/// The kind of a method's result, by its descriptor. `None` where it returns nothing.
pub fn result_kind(descriptor: &[u8]) -> Option<Kind>
    ensures { result ≡ result_kind descriptor.now }
{
    match result_type(descriptor) {
        [] | [b'V', ..] => None,
        result_type => Some(descriptor_kind(result_type)),
    }
}

/// The kind of a value of this type.
pub fn descriptor_kind(descriptor: &[u8]) -> Kind
    ensures { result ≡ descriptor_kind descriptor.now }
{
    match descriptor {
        [b'B' | b'C' | b'S' | b'I', ..] => Kind::Int,
        [b'J', ..] => Kind::Long,
        _ => Kind::Ref,
    }
}

fn units_of(kind: Kind) -> usize
    ensures { result ≡ entries_of kind }
{
    match kind {
        Kind::Long => 2,
        Kind::Int | Kind::Ref => 1,
    }
}

/// The types of the arguments in a row: what stands after the first byte up to the first `)`.
fn argument_row(descriptor: &[u8]) -> &[u8]
    ensures { result.now ≡ before_first (λ b. b == 41) (drop 1 descriptor.now) }
{
    match descriptor {
        [] => descriptor,
        [_, inside @ ..] => &inside[..length_before(b')', inside)],
    }
}

/// What stands after the first `)`.
fn result_type(descriptor: &[u8]) -> &[u8]
    ensures { result.now ≡ result_type descriptor.now }
{
    let end = length_before(b')', descriptor);
    if end < descriptor.len() {
        &descriptor[end + 1..]
    } else {
        &[]
    }
}

/// Whether bytes are nothing but types in a row.
fn are_types(row: &[u8]) -> bool
    ensures { result ≡ list_all is_type (types_in row.now) }
{
    let mut rest = row;
    while !rest.is_empty() {
        let (first, others) = split_type(rest);
        if !is_type(first) {
            return false;
        }
        rest = others;
    }
    true
}

/// The first of the types in a row, and those after it.
fn split_type(row: &[u8]) -> (&[u8], &[u8])
    requires { 0 < length row.now }
    ensures types { types_in row.now ≡ result.0.now ∷ types_in result.1.now }
    ensures fewer { length result.1.now < length row.now }
{
    row.split_at(type_length(row).min(row.len()))
}

/// The bytes of the first of the types in a row: more than the row has where its name doesn't end.
fn type_length(row: &[u8]) -> usize
    ensures { result ≡ type_length row.now }
{
    let dimensions = dimensions(row);
    dimensions + element_length(&row[dimensions..])
}

/// The number of `[` before a type.
fn dimensions(row: &[u8]) -> usize
    ensures number { result ≡ dimensions row.now }
    ensures within { result ≤ length row.now }
{
    row.iter().take_while(|b| **b == b'[').count()
}

/// The bytes of a type that is no array, at the head of a row.
fn element_length(row: &[u8]) -> usize
    ensures number { result ≡ element_length row.now }
    ensures within { result ≤ length row.now + 1 }
{
    match row {
        [] => 0,
        [b'L', name @ ..] => length_before(b';', name) + 2,
        _ => 1,
    }
}

/// The number of bytes before the first one that is `end`, or of all.
fn length_before(end: u8, bytes: &[u8]) -> usize
    ensures number { result ≡ position_or_len (λ b. b == end) bytes.now }
    ensures within { result ≤ length bytes.now }
{
    bytes.iter().take_while(|b| **b != end).count()
}

/// Whether a word is a type; an array has 255 dimensions at most.
fn is_type(word: &[u8]) -> bool
    ensures { result ≡ is_type word.now }
{
    let dimensions = dimensions(word);
    dimensions <= 255 && is_element_type(&word[dimensions..])
}

/// Whether a word is a type that is no array.
fn is_element_type(word: &[u8]) -> bool
    ensures { result ≡ is_element_type word.now }
{
    is_int_type(word) || is_long_type(word) || is_class_type(word)
}

/// Whether a word is the type of a class: `L`, the parts of its name, and `;`.
fn is_class_type(word: &[u8]) -> bool
    ensures { result ≡ is_class_type word.now }
{
    match word {
        [b'L', rest @ ..] => {
            let end = length_before(b';', rest);
            end + 1 == rest.len() && are_parts(&rest[..end])
        }
        _ => false,
    }
}

/// Whether a word is what a method returns: a type, or `V`.
fn is_result(word: &[u8]) -> bool
    ensures { result ≡ is_result word.now }
{
    word == b"V".as_slice() || is_type(word)
}
