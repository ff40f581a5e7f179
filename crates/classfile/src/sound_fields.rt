//! Whether fields may stand in a class file.

ghost use Rattle.std.specs.Prelude.{◌≡◌, ◌↔◌, ◌&&◌, ◌<◌, ◌^◌, nat_le, true};
ghost use Rattle.std.specs.List.{AllByRecursion};
ghost use Rattle.model.specs.ClassFiles.Attributes.{passes};
ghost use Rattle.model.specs.ClassFiles.Pools.{entry_at};
ghost use Rattle.model.specs.ClassFiles.References.{text_at};
ghost use Rattle.model.specs.ClassFiles.Fields as definition;
ghost use Rattle.classfile.specs.Sound as sound;
ghost use Rattle.classfile.specs.Sound.{ConstantBounds, FieldStands};

use crate::fields::{are_field_flags, is_constant_value, is_static, is_value_of};
use bitflags::Flags;
use model::class_files::{ConstantValue, FieldEntry};
use pool::Pool;

/// Whether both hold.
pub fn both(a: bool, b: bool) -> bool
    ensures { result ≡ (a && b) }
{
    a && b
}

/// Whether a list of this length has a count.
pub fn is_count(length: usize) -> bool
    ensures { result ≡ nat_le length 65535 }
{
    length <= 65535
}

/// Whether the text under a number is the name of an attribute that counts, and the other number that of a value for a
/// field of this type.
fn is_value(pool: &Pool, is_static: bool, text: &[u8], name: u16, value: u16) -> bool
    ensures is { result ≡ (passes (definition.is_constant_value is_static) (text_at pool.now name)
        && definition.is_value_of text.now (entry_at pool.now value)) }
    ensures fits { (name < 2 ^ 16) × (value < 2 ^ 16) }
{
    match pool.text(name) {
        None => false,
        Some(name) => is_constant_value(is_static, name) && is_value_of(text, pool.entry(value)),
    }
}

/// Whether a field of this type may begin with this value.
fn is_constant(pool: &Pool, is_static: bool, text: &[u8], constant: Option<ConstantValue>) -> bool
    ensures is { result ≡ sound.is_constant pool.now is_static text.now constant }
    ensures fits { ConstantBounds constant }
{
    match constant {
        None => true,
        Some(constant) => is_value(pool, is_static, text, constant.name, constant.value),
    }
}

/// Whether a field's type is one, and that of its value.
fn is_typed(pool: &Pool, is_static: bool, descriptor: u16, constant: Option<ConstantValue>) -> bool
    ensures is { result ≡ passes (sound.is_type pool.now is_static constant) (text_at pool.now descriptor) }
    ensures fits { result ≡ true → ConstantBounds constant }
{
    match pool.text(descriptor) {
        None => false,
        Some(text) => {
            pool.is_field_descriptor(descriptor) && is_constant(pool, is_static, text, constant)
        }
    }
}

/// Whether what a field says goes together.
fn is_field(
    pool: &Pool,
    class: u16,
    flags: u16,
    name: u16,
    descriptor: u16,
    constant: Option<ConstantValue>,
) -> bool
    ensures is { result ≡ sound.is_field pool.now class flags name descriptor constant }
    ensures fits { (flags < 2 ^ 16) × (name < 2 ^ 16) × (descriptor < 2 ^ 16) }
    ensures constant { result ≡ true → ConstantBounds constant }
{
    are_field_flags(class, flags)
        && pool.is_field_name(name)
        && is_typed(pool, is_static(flags), descriptor, constant)
}

/// Whether a field may stand in a class of these flags.
fn field_stands(pool: &Pool, class: u16, field: &FieldEntry) -> bool
    ensures { (result ≡ true) ↔ FieldStands pool.now class field.now }
{
    let flags = field.flags.bits();
    is_field(
        pool,
        class,
        flags,
        field.name,
        field.descriptor,
        field.constant,
    )
}

/// Whether fields may stand in a class of these flags.
pub fn fields_stand(pool: &Pool, class: u16, fields: &[FieldEntry]) -> bool
    ensures { (result ≡ true) ↔ AllByRecursion (FieldStands pool.now class) fields.now }
{
    for field in fields {
        if !field_stands(pool, class, field) {
            return false;
        }
    }
    true
}
