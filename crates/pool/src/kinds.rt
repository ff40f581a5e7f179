//! What the texts of a pool are good for, found out once for each text.

ghost use Rattle.std.specs.Prelude.{◌≡◌, map, IfOk};
ghost use Rattle.std.specs.Option.{option_and_then};
ghost use Rattle.model.specs.ClassFiles.Attributes.{passes};
ghost use Rattle.model.specs.ClassFiles.References as references;
ghost use Rattle.model.specs.ClassFiles.References.{text_at};
ghost use Rattle.model.specs.Texts.Descriptors as descriptors;
ghost use Rattle.model.specs.Texts.Names as names;
ghost use Rattle.pool.specs.Kinds as definition;

use crate::pools::Pool;
use model::class_files::Entry;
use model::descriptors::{arguments_of, is_array_descriptor, is_field_descriptor};
use model::good_names::{is_class_name, is_field_name, is_method_name};
use std::alloc::{AllocError, Global};

/// What a text is good for.
#[derive(Clone, Copy)]
pub(crate) struct TextKind {
    /// it is a class's name
    pub class_name: bool,
    /// it is an array's descriptor
    pub array: bool,
    /// it is a field's name
    pub field_name: bool,
    /// it is a method's name
    pub method_name: bool,
    /// it is a field's descriptor
    pub field_descriptor: bool,
    /// the units that its arguments take, if it is a method's descriptor
    pub units: Option<usize>,
}

fn kind_of(text: &[u8]) -> TextKind
    ensures { result ≡ definition.kind_of text.now }
{
    TextKind {
        class_name: is_class_name(text),
        array: is_array_descriptor(text),
        field_name: is_field_name(text),
        method_name: is_method_name(text),
        field_descriptor: is_field_descriptor(text),
        units: arguments_of(text),
    }
}

fn slot_kind(slot: &Option<Entry>) -> Option<TextKind>
    ensures { result ≡ definition.slot_kind slot.now }
{
    match slot {
        Some(Entry::Utf8(text)) => Some(kind_of(text.as_bytes())),
        _ => None,
    }
}

/// What the texts under each number are good for. It takes time in proportion to their bytes.
pub(crate) fn kinds_of(
    alloc: Global,
    slots: &[Option<Entry>],
) -> Result<Vec<Option<TextKind>>, AllocError>
    ensures { IfOk result (λ kinds. kinds.items ≡ map definition.slot_kind slots.now) }
{
    let mut kinds = Vec::new(alloc);
    for slot in slots {
        kinds.push(slot_kind(slot))?;
    }
    Ok(kinds)
}

/// Tests of the text under a number, each in constant time; where there is no text, it passes none.
impl Pool {
    /// Whether the text may be a class entry's: a class's name, or an array's descriptor.
    pub fn names_class(&self, number: u16) -> bool
        ensures { result ≡ passes references.names_class (text_at self.now number) }
    {
        match self.kind(number) {
            None => false,
            Some(kind) => kind.class_name || kind.array,
        }
    }

    /// Whether the text is a class's name.
    pub fn is_class_name(&self, number: u16) -> bool
        ensures { result ≡ passes names.is_class_name (text_at self.now number) }
    {
        match self.kind(number) {
            None => false,
            Some(kind) => kind.class_name,
        }
    }

    /// Whether the text is a field's name.
    pub fn is_field_name(&self, number: u16) -> bool
        ensures { result ≡ passes names.is_field_name (text_at self.now number) }
    {
        match self.kind(number) {
            None => false,
            Some(kind) => kind.field_name,
        }
    }

    /// Whether the text is a method's name.
    pub fn is_method_name(&self, number: u16) -> bool
        ensures { result ≡ passes names.is_method_name (text_at self.now number) }
    {
        match self.kind(number) {
            None => false,
            Some(kind) => kind.method_name,
        }
    }

    /// Whether the text is a field's descriptor.
    pub fn is_field_descriptor(&self, number: u16) -> bool
        ensures { result ≡ passes descriptors.is_field_descriptor (text_at self.now number) }
    {
        match self.kind(number) {
            None => false,
            Some(kind) => kind.field_descriptor,
        }
    }

    /// The units that the arguments of the text take, if it is a method's descriptor.
    pub fn argument_units(&self, number: u16) -> Option<usize>
        ensures { result ≡ option_and_then descriptors.arguments_of (text_at self.now number) }
    {
        self.kind(number)?.units
    }
}
