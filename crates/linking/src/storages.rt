//! What static fields and the words of objects hold (JVMS 2.3, 2.4, 4.3.2).
ghost use Rattle.std.specs.Prelude.{◌≡◌};
ghost use Rattle.model.specs.declared.values.Value.TheVariants.{Int as IntValue};
ghost use Rattle.model.specs.Stores.{default_in, kept, storage_kind};
ghost use Rattle.linking.specs.Storages.{descriptor_storage, shown_storage};

use model::values::{IntType, Kind, Value};

/// What a field keeps: the bits of a number of its type, or a reference.
#[derive(Clone, Copy, PartialEq, Eq)]
pub enum Storage {
    Byte,
    Char,
    Short,
    Int,
    Long,
    Ref,
}

/// What a field of this descriptor keeps.
pub fn storage_of(descriptor: &[u8]) -> Storage
    ensures { result ≡ descriptor_storage descriptor.now }
{
    match descriptor {
        [b'B', ..] => Storage::Byte,
        [b'C', ..] => Storage::Char,
        [b'S', ..] => Storage::Short,
        [b'I', ..] => Storage::Int,
        [b'J', ..] => Storage::Long,
        _ => Storage::Ref,
    }
}

/// The kind of the values that are kept.
pub fn kind(storage: Storage) -> Kind
    ensures { result ≡ storage_kind (shown_storage storage) }
{
    match storage {
        Storage::Byte | Storage::Char | Storage::Short | Storage::Int => Kind::Int,
        Storage::Long => Kind::Long,
        Storage::Ref => Kind::Ref,
    }
}

/// What is there before it is written.
pub fn default_in(storage: Storage) -> Value
    ensures { result ≡ default_in (shown_storage storage) }
{
    match storage {
        Storage::Byte | Storage::Char | Storage::Short | Storage::Int => Value::Int(0),
        Storage::Long => Value::Long(0),
        Storage::Ref => Value::Ref(None),
    }
}

/// What is kept of an int.
fn kept_of_int(storage: Storage, int: i32) -> i32
    ensures { kept (shown_storage storage) (IntValue int) ≡ IntValue result }
{
    match storage {
        Storage::Byte => values::truncate(IntType::Byte, int),
        Storage::Char => values::truncate(IntType::Char, int),
        Storage::Short => values::truncate(IntType::Short, int),
        Storage::Int | Storage::Long | Storage::Ref => int,
    }
}

/// What a store keeps of a value: of an int the bits of the field's type (JVMS 6.5: putfield, putstatic).
#[tactic(auto, using(crate::proofs::StorageLemmas::kept_long, crate::proofs::StorageLemmas::kept_ref))]
pub fn kept(storage: Storage, value: Value) -> Value
    ensures { result ≡ kept (shown_storage storage) value }
{
    match value {
        Value::Int(int) => Value::Int(kept_of_int(storage, int)),
        Value::Long(_) | Value::Ref(_) => value,
    }
}
