//! The static fields of a program, each in a slot (JVMS 2.5.4, 4.7.2, 5.5).
ghost use Rattle.std.specs.Prelude.{◌≡◌, ◌++◌, map, IfOk, OnOk};
ghost use Rattle.model.specs.Worlds.{opening_slot, opening_value};
ghost use Rattle.linking.specs.StaticSlots.{slot_of, static_slots, statics_in};
ghost use Rattle.linking.specs.Storages.{shown_storage};

use crate::class_numbers::ClassNumbers;
use crate::storages::{Storage, default_in, kept, storage_of};
use bitflags::Flags;
use model::flags::FieldFlags;
use model::listings::{Constant, Field, Listing};
use model::values::Value;
use resolve::classes::Classes;
use std::alloc::{AllocError, Global};
use std::marker::Model;

/// A static field: the number of the class that declares it, what it keeps, and what it holds at first.
#[derive(Clone, Copy, PartialEq, Eq)]
pub struct Slot {
    pub class: usize,
    pub storage: Storage,
    pub opening: Value,
}

/// The static fields of a program, in class and field order. A contract sees the list.
#[derive(Drop)]
pub struct StaticSlots {
    slots: Vec<Slot>,
}

impl Model for StaticSlots {
    ghost use Rattle.std.specs.Prelude.{List};
    ghost use Rattle.linking.specs.declared.static_slots.Slot.{Slot};

    ghost Value = { List Slot };

    ghost view = { λ a. a.slots.items };
}

/// What a static field holds at first: its constant, as a store keeps it, or else null or 0.
fn opening_value(storage: Storage, constant: Option<Constant>) -> Value
    ensures { result ≡ opening_value (shown_storage storage) constant }
{
    match constant {
        None => default_in(storage),
        Some(Constant::Int(int)) => kept(storage, Value::Int(int)),
        Some(Constant::Long(long)) => kept(storage, Value::Long(long)),
    }
}

#[tactic(auto, using(crate::proofs::StorageLemmas::shown_flat))]
fn slot_of(numbers: &ClassNumbers<'_>, class: &Listing, field: &Field) -> Slot
    ensures { result ≡ slot_of numbers.now (opening_slot class.now.name field.now) }
{
    let storage = storage_of(field.descriptor.as_bytes());
    Slot {
        class: numbers.place(class.name.as_bytes()),
        storage,
        opening: opening_value(storage, field.constant),
    }
}

/// Adds the slots of those of a class's fields that are static. `AllocError` where memory runs out.
fn add_slots(
    slots: &mut Vec<Slot>,
    numbers: &ClassNumbers<'_>,
    class: &Listing,
    fields: &[Field],
) -> Result<(), AllocError>
    ensures { let added = map (slot_of numbers.now) (statics_in class.now.name fields.now) in
        OnOk result (slots.new.items ≡ slots.old.items ++ added) }
{
    for field in fields {
        if field.flags.contains(FieldFlags::STATIC) {
            slots.push(slot_of(numbers, class, field))?;
        }
    }
    Ok(())
}

impl StaticSlots {
    /// The slots of a program. `AllocError` where memory runs out.
    pub fn new(alloc: Global, classes: &Classes<'_>) -> Result<StaticSlots, AllocError>
        ensures { IfOk result (λ slots. slots ≡ static_slots classes.now) }
    {
        let program = classes.program();
        let numbers = ClassNumbers::new(alloc, program)?;
        let mut slots = Vec::new(alloc);
        for class in program {
            add_slots(&mut slots, &numbers, class, &class.fields)?;
        }
        Ok(StaticSlots { slots })
    }

    /// The slots in order.
    pub fn slots(&self) -> &[Slot]
        ensures { result.now ≡ self.now }
    {
        &self.slots
    }
}
