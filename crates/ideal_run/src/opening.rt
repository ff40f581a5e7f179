//! The opening world (JVMS 5.2): thread 0 stands at the start of main, or of the initializer that main's class wants
//! first.
ghost use Rattle.std.specs.Prelude.{◌≡◌, ◌∷◌, [], ◌++◌, IfOk, OnOk, map, filter};
ghost use Rattle.model.specs.Classes.Flags.{is_static_field};
ghost use Rattle.model.specs.Stores.{storage_of};
ghost use Rattle.model.specs.Worlds.{opening_value, opening_slot, opening_slots, opening_objects, plain_object};
ghost use Rattle.model.specs.Worlds.{opening_world};

use crate::effects::plain_object;
use crate::initialisation::opening;
use crate::programs::Program;
use crate::words::{default_in, kept};
use crate::worlds::{Thread, ThreadState, World};
use bitflags::Flags;
use model::flags::FieldFlags;
use model::listings::{Constant, Field, Listing};
use model::names::Name;
use model::values::Value;
use model::views::{FieldView, ObjectView};
use std::alloc::{AllocError, Global};

/// What a static field holds at first: its constant, as a store keeps it, or else null or 0.
fn opening_value(descriptor: &[u8], constant: Option<Constant>) -> Value
    ensures { result ≡ opening_value (storage_of descriptor.now) constant }
{
    match constant {
        None => default_in(descriptor),
        Some(Constant::Int(int)) => kept(descriptor, Value::Int(int)),
        Some(Constant::Long(long)) => kept(descriptor, Value::Long(long)),
    }
}

fn opening_slot(class: &Name, field: &Field) -> Result<FieldView, AllocError>
    ensures { IfOk result (λ slot. slot ≡ opening_slot class.now field.now) }
{
    Ok(FieldView {
        class: class.share()?,
        name: field.name.share()?,
        descriptor: field.descriptor.share()?,
        value: opening_value(field.descriptor.as_bytes(), field.constant),
    })
}

fn is_static_field(field: &Field) -> bool
    ensures { result ≡ is_static_field field.now }
{
    field.flags.contains(FieldFlags::STATIC)
}

/// Adds the static fields among those of a class. `AllocError` where memory runs out.
fn add_slots(slots: &mut Vec<FieldView>, class: &Name, fields: &[Field]) -> Result<(), AllocError>
    ensures { OnOk result (slots.new.items ≡ slots.old.items
        ++ map (opening_slot class.now) (filter is_static_field fields.now)) }
{
    for field in fields {
        if is_static_field(field) {
            slots.push(opening_slot(class, field)?)?;
        }
    }
    Ok(())
}

/// The static fields, in class and field order. `AllocError` where memory runs out.
fn opening_slots(alloc: Global, program: &[Listing]) -> Result<Vec<FieldView>, AllocError>
    ensures { IfOk result (λ slots. slots.items ≡ opening_slots program.now) }
{
    let mut slots = Vec::new(alloc);
    for class in program {
        add_slots(&mut slots, &class.name, &class.fields)?;
    }
    Ok(slots)
}

/// Adds an object of a class without fields. `AllocError` where memory runs out.
fn add_object(objects: &mut Vec<ObjectView>, alloc: Global, class: &[u8]) -> Result<(), AllocError>
    ensures { OnOk result (objects.new.items ≡ objects.old.items ++ plain_object class.now ∷ []) }
{
    objects.push(plain_object(alloc, class)?)?;
    Ok(())
}

/// Birth 1 is thrown where no cell has room, birth 2 where no frame has. `AllocError` where memory runs out.
#[tactic(auto, using(crate::proofs::OpeningLemmas::three))]
fn opening_objects(alloc: Global) -> Result<Vec<ObjectView>, AllocError>
    ensures { IfOk result (λ objects. objects.items ≡ opening_objects) }
{
    let mut objects = Vec::new(alloc);
    add_object(&mut objects, alloc, b"")?;
    add_object(&mut objects, alloc, b"java/lang/OutOfMemoryError")?;
    add_object(&mut objects, alloc, b"java/lang/StackOverflowError")?;
    Ok(objects)
}

/// The opening world of a program. `AllocError` where memory runs out.
pub fn opening_world(alloc: Global, program: &Program<'_>) -> Result<World, AllocError>
    ensures { IfOk result (λ world. world ≡ opening_world program.now) }
{
    let (frames, states) = opening(alloc, program)?;
    let statics = opening_slots(alloc, program.listings())?;
    let objects = opening_objects(alloc)?;
    let mut threads = Vec::new(alloc);
    threads.push(Thread {
        state: ThreadState::Live(frames),
    })?;
    Ok(World::new(alloc, threads, statics, states, objects))
}
