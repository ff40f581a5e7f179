//! Canonical forms: of worlds that are alike but for the names of births and for garbage, the same one is made.
ghost use Rattle.std.specs.Prelude.{◌≡◌, ◌∷◌, IfOk, map, replicate, slice_set};
ghost use Rattle.model.specs.Naming.{named_ref, named_value, named_entry, named_field, named_frame, named_thread};
ghost use Rattle.model.specs.Views.{contents_in};
ghost use Rattle.join.specs.Naming.{named_contents, named_object};
ghost use Rattle.join.specs.OnCells.{held_object, nobody, on_cells};
ghost use Rattle.model.specs.declared.colours.Cell.TheVariants.{Taken};
ghost use Rattle.model.specs.declared.colours.Colour.TheVariants.{White};
ghost use Rattle.exploration.specs.CanonicalForms.{AllMade, taken};
ghost use Rattle.exploration.specs.Representation.{Represents};
ghost use Rattle.exploring.specs.Canonical.{canonical, naming_by, numbered};

use crate::walk::walk;
use ideal_run::frames::Frame;
use ideal_run::worlds::{Thread, ThreadState, World};
use model::names::Name;
use model::values::{Entry, Value};
use model::views::{ContentsView, FieldView, ObjectView};
use std::alloc::{AllocError, Global};

// ---- names of births

/// The name of a birth, 0 where the table has none.
fn name_of(names: &[u32], birth: u32) -> u32
    ensures { result ≡ naming_by names.now birth }
{
    match names.get(birth as usize) {
        None => 0,
        Some(name) => *name,
    }
}

/// A birth gets a name, if the table has room for it.
fn set_name(names: &mut [u32], birth: u32, name: u32)
    ensures { names.new ≡ slice_set names.old birth name }
{
    let place = birth as usize;
    if place < names.len() {
        names[place] = name;
    }
}

/// The births of a list with their numbers in it, from 1 on. `AllocError` where memory runs out, or numbers do.
fn numbered(alloc: Global, count: u32, order: &[u32]) -> Result<Vec<u32>, AllocError>
    ensures { IfOk result (λ names. names.items ≡ numbered (replicate count 0) 0 order.now) }
{
    let mut names = vec![in alloc; 0_u32; count as usize]?;
    let mut last = 0_u32;
    for birth in order {
        let Some(next) = last.checked_add(1) else {
            return Err(AllocError);
        };
        set_name(&mut names, *birth, next);
        last = next;
    }
    Ok(names)
}

// ---- what holds births. `AllocError` where memory runs out

fn reference(names: &[u32], birth: Option<u32>) -> Option<u32>
    ensures { result ≡ named_ref (naming_by names.now) birth }
{
    match birth {
        None => None,
        Some(birth) => Some(name_of(names, birth)),
    }
}

fn value(names: &[u32], value: Value) -> Value
    ensures { result ≡ named_value (naming_by names.now) value }
{
    match value {
        Value::Int(_) | Value::Long(_) => value,
        Value::Ref(birth) => Value::Ref(reference(names, birth)),
    }
}

fn values(alloc: Global, names: &[u32], values: &[Value]) -> Result<Vec<Value>, AllocError>
    ensures { IfOk result (λ made. made.items ≡ map (named_value (naming_by names.now)) values.now) }
{
    let mut made = Vec::with_capacity(alloc, values.len())?;
    for each in values {
        made.push(value(names, *each))?;
    }
    Ok(made)
}

fn entry(names: &[u32], entry: Entry) -> Entry
    ensures { result ≡ named_entry (naming_by names.now) entry }
{
    match entry {
        Entry::Unset | Entry::UpperHalf => entry,
        Entry::Holds(held) => Entry::Holds(value(names, held)),
    }
}

fn entries(alloc: Global, names: &[u32], entries: &[Entry]) -> Result<Vec<Entry>, AllocError>
    ensures { IfOk result (λ made. made.items ≡ map (named_entry (naming_by names.now)) entries.now) }
{
    let mut made = Vec::with_capacity(alloc, entries.len())?;
    for each in entries {
        made.push(entry(names, *each))?;
    }
    Ok(made)
}

fn frame(alloc: Global, names: &[u32], frame: &Frame) -> Result<Frame, AllocError>
    ensures { IfOk result (λ made. made ≡ named_frame (naming_by names.now) frame.now) }
{
    Ok(Frame {
        method: frame.method,
        pc: frame.pc,
        locals: entries(alloc, names, &frame.locals)?,
        stack: values(alloc, names, &frame.stack)?,
        room: frame.room,
        monitor: reference(names, frame.monitor),
        mark: frame.mark,
    })
}

fn frames(alloc: Global, names: &[u32], frames: &[Frame]) -> Result<Vec<Frame>, AllocError>
    ensures { IfOk result (λ made. made.items ≡ map (named_frame (naming_by names.now)) frames.now) }
{
    let mut made = Vec::with_capacity(alloc, frames.len())?;
    for each in frames {
        made.push(frame(alloc, names, each)?)?;
    }
    Ok(made)
}

fn thread(alloc: Global, names: &[u32], thread: &Thread) -> Result<Thread, AllocError>
    ensures { IfOk result (λ made. made ≡ named_thread (naming_by names.now) thread.now) }
{
    let state = match &thread.state {
        ThreadState::Live(live) => ThreadState::Live(frames(alloc, names, live)?),
        ThreadState::Ended(None) => ThreadState::Ended(None),
        ThreadState::Ended(Some(class)) => ThreadState::Ended(Some(class.share()?)),
    };
    Ok(Thread { state })
}

fn threads(alloc: Global, names: &[u32], threads: &[Thread]) -> Result<Vec<Thread>, AllocError>
    ensures { IfOk result (λ made. made.items ≡ map (named_thread (naming_by names.now)) threads.now) }
{
    let mut made = Vec::with_capacity(alloc, threads.len())?;
    for each in threads {
        made.push(thread(alloc, names, each)?)?;
    }
    Ok(made)
}

fn field(names: &[u32], field: &FieldView) -> Result<FieldView, AllocError>
    ensures { IfOk result (λ made. made ≡ named_field (naming_by names.now) field.now) }
{
    Ok(FieldView {
        class: field.class.share()?,
        name: field.name.share()?,
        descriptor: field.descriptor.share()?,
        value: value(names, field.value),
    })
}

fn fields(alloc: Global, names: &[u32], fields: &[FieldView]) -> Result<Vec<FieldView>, AllocError>
    ensures { IfOk result (λ made. made.items ≡ map (named_field (naming_by names.now)) fields.now) }
{
    let mut made = Vec::with_capacity(alloc, fields.len())?;
    for each in fields {
        made.push(field(names, each)?)?;
    }
    Ok(made)
}

fn contents(
    alloc: Global,
    names: &[u32],
    contents: &ContentsView,
) -> Result<ContentsView, AllocError>
    ensures { IfOk result (λ made. contents_in made
        ≡ named_contents (naming_by names.now) (contents_in contents.now)) }
{
    match contents {
        ContentsView::Instance {
            class,
            fields: held,
        } => Ok(ContentsView::Instance {
            class: class.share()?,
            fields: fields(alloc, names, held)?,
        }),
        ContentsView::Array {
            element,
            values: held,
        } => Ok(ContentsView::Array {
            element: element.share()?,
            values: values(alloc, names, held)?,
        }),
    }
}

fn object(alloc: Global, names: &[u32], object: &ObjectView) -> Result<ObjectView, AllocError>
    ensures { IfOk result (λ made. made ≡ named_object (naming_by names.now) object.now) }
{
    Ok(ObjectView {
        contents: contents(alloc, names, &object.contents)?,
        owner: object.owner,
        entries: object.entries,
        thread: object.thread,
    })
}

// ---- objects at their names

fn nobody(alloc: Global) -> Result<ObjectView, AllocError>
    ensures { IfOk result (λ made. made ≡ nobody) }
{
    Ok(ObjectView {
        contents: ContentsView::Instance {
            class: Name::copy_of(alloc, b"")?,
            fields: Vec::new(alloc),
        },
        owner: None,
        entries: 0,
        thread: None,
    })
}

fn held(
    alloc: Global,
    names: &[u32],
    objects: &[ObjectView],
    birth: u32,
) -> Result<ObjectView, AllocError>
    ensures { IfOk result (λ made. made ≡ held_object (naming_by names.now) objects.now (Taken birth White)) }
{
    match objects.get(birth as usize) {
        None => nobody(alloc),
        Some(each) => object(alloc, names, each),
    }
}

fn all_held(
    alloc: Global,
    names: &[u32],
    objects: &[ObjectView],
    order: &[u32],
) -> Result<Vec<ObjectView>, AllocError>
    ensures { IfOk result (λ made. made.items
        ≡ nobody ∷ map (held_object (naming_by names.now) objects.now) (taken order.now)) }
{
    let mut made = Vec::with_capacity(alloc, order.len())?;
    made.push(nobody(alloc)?)?;
    for birth in order {
        made.push(held(alloc, names, objects, *birth)?)?;
    }
    Ok(made)
}

/// The image of a world by a table of names, with objects in the order of a list.
fn image(alloc: Global, names: &[u32], order: &[u32], world: &World) -> Result<World, AllocError>
    ensures { IfOk result (λ made. made ≡ on_cells (naming_by names.now) (taken order.now) world.now) }
{
    let threads = threads(alloc, names, world.threads())?;
    let fields = fields(alloc, names, world.statics())?;
    let objects = all_held(alloc, names, world.objects(), order)?;
    let made = world.with_parts(alloc, threads, fields, objects)?;
    Ok(made)
}

#[tactic(auto, using(crate::proofs::CanonicalLemmas::formed_is))]
fn formed(alloc: Global, world: &World) -> Result<World, AllocError>
    ensures { IfOk result (λ made. made ≡ canonical world.now) }
{
    let Ok(count) = u32::try_from(world.objects().len()) else {
        return Err(AllocError);
    };
    let reaching = walk(alloc, world, count)?;
    let names = numbered(alloc, count, reaching.list())?;
    let made = image(alloc, &names, reaching.list(), world)?;
    Ok(made)
}

/// The canonical form of a world: what paths lead to has its number in a walk as its birth, and nothing else is there.
/// Where all that paths lead to was made, it represents the world. `AllocError` where memory runs out, or where there
/// are 2^32 objects.
pub fn canonical(alloc: Global, world: &World) -> Result<World, AllocError>
    ensures is { IfOk result (λ made. made ≡ canonical world.now) }
    ensures represents { AllMade world.now → IfOk result (λ made. Represents made world.now) }
{
    let made = formed(alloc, world)?;
    Ok(made)
}
