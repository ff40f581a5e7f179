//! Words: what static fields, fields of objects and elements of arrays hold (JVMS 2.3, 2.4, 2.5).
ghost use Rattle.std.specs.Prelude.{◌≡◌};
ghost use Rattle.model.specs.declared.values.Value.TheVariants.{Int};
ghost use Rattle.model.specs.Stores.{storage_of, default_in, kept};
ghost use Rattle.model.specs.Words.{is_field, field_index};
ghost use Rattle.ideal_run.specs.Whole.{natural};

use model::descriptors::descriptor_kind;
use model::listings::Field;
use model::values::{IntType, Kind, Value};
use model::views::FieldView;
use resolve::found::Found;
use values::truncate;

/// What is there before it is written, by the descriptor.
pub fn default_in(descriptor: &[u8]) -> Value
    ensures { result ≡ default_in (storage_of descriptor.now) }
{
    match descriptor_kind(descriptor) {
        Kind::Int => Value::Int(0),
        Kind::Long => Value::Long(0),
        Kind::Ref => Value::Ref(None),
    }
}

/// What of an int a field or an element of this descriptor keeps.
fn kept_int(descriptor: &[u8], int: i32) -> i32
    ensures { kept (storage_of descriptor.now) (Int int) ≡ Int result }
{
    match descriptor {
        [b'B', ..] => truncate(IntType::Byte, int),
        [b'C', ..] => truncate(IntType::Char, int),
        [b'S', ..] => truncate(IntType::Short, int),
        _ => int,
    }
}

/// What a field or an element of this descriptor keeps of a value.
pub fn kept(descriptor: &[u8], value: Value) -> Value
    ensures { result ≡ kept (storage_of descriptor.now) value }
{
    match value {
        Value::Int(int) => Value::Int(kept_int(descriptor, int)),
        Value::Long(long) => Value::Long(long),
        Value::Ref(reference) => Value::Ref(reference),
    }
}

/// Whether this is the field: by the class that declares it, its name and its descriptor.
fn is_field(found: &Found<'_, Field>, field: &FieldView) -> bool
    ensures { result ≡ is_field found.now field.now }
{
    let class = found.class;
    let member = found.member;
    field.class == class.name && field.name == member.name && field.descriptor == member.descriptor
}

/// Where a field stands in a list.
pub fn field_index(fields: &[FieldView], found: &Found<'_, Field>) -> Option<usize>
    ensures { result ≡ field_index fields.now found.now }
{
    fields.iter().position(|field| is_field(found, field))
}

/// A number that isn't negative.
pub fn natural(int: i32) -> Option<usize>
    ensures { result ≡ natural int }
{
    if int < 0 { None } else { Some(int as usize) }
}
