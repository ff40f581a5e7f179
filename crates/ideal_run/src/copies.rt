//! Copies of a world: those who look at all that may follow go on from one world more than once.
ghost use Rattle.std.specs.Prelude.{◌≡◌, IfOk};
ghost use Rattle.model.specs.Views.{contents_in};

use crate::frames::Frame;
use crate::worlds::{Thread, ThreadState, World};
use model::names::Name;
use model::values::Value;
use model::views::{ContentsView, FieldView, ObjectView};
use std::alloc::{AllocError, Global};

fn frame(alloc: Global, frame: &Frame) -> Result<Frame, AllocError>
    ensures { IfOk result (λ copy. copy ≡ frame.now) }
{
    Ok(Frame {
        method: frame.method,
        pc: frame.pc,
        locals: Vec::from_slice(alloc, &frame.locals)?,
        stack: Vec::from_slice(alloc, &frame.stack)?,
        room: frame.room,
        monitor: frame.monitor,
        mark: frame.mark,
    })
}

fn frames(alloc: Global, frames: &[Frame]) -> Result<Vec<Frame>, AllocError>
    ensures { IfOk result (λ copies. copies.items ≡ frames.now) }
{
    let mut copies = Vec::with_capacity(alloc, frames.len())?;
    for each in frames {
        copies.push(frame(alloc, each)?)?;
    }
    Ok(copies)
}

fn thread(alloc: Global, thread: &Thread) -> Result<Thread, AllocError>
    ensures { IfOk result (λ copy. copy ≡ thread.now) }
{
    let state = match &thread.state {
        ThreadState::Live(live) => ThreadState::Live(frames(alloc, live)?),
        ThreadState::Ended(None) => ThreadState::Ended(None),
        ThreadState::Ended(Some(class)) => ThreadState::Ended(Some(class.share()?)),
    };
    Ok(Thread { state })
}

fn threads(alloc: Global, threads: &[Thread]) -> Result<Vec<Thread>, AllocError>
    ensures { IfOk result (λ copies. copies.items ≡ threads.now) }
{
    let mut copies = Vec::with_capacity(alloc, threads.len())?;
    for each in threads {
        copies.push(thread(alloc, each)?)?;
    }
    Ok(copies)
}

fn field(field: &FieldView) -> Result<FieldView, AllocError>
    ensures { IfOk result (λ copy. copy ≡ field.now) }
{
    Ok(FieldView {
        class: field.class.share()?,
        name: field.name.share()?,
        descriptor: field.descriptor.share()?,
        value: field.value,
    })
}

fn fields(alloc: Global, fields: &[FieldView]) -> Result<Vec<FieldView>, AllocError>
    ensures { IfOk result (λ copies. copies.items ≡ fields.now) }
{
    let mut copies = Vec::with_capacity(alloc, fields.len())?;
    for each in fields {
        copies.push(field(each)?)?;
    }
    Ok(copies)
}

fn contents(alloc: Global, contents: &ContentsView) -> Result<ContentsView, AllocError>
    ensures { IfOk result (λ copy. contents_in copy ≡ contents_in contents.now) }
{
    match contents {
        ContentsView::Instance {
            class,
            fields: held,
        } => Ok(ContentsView::Instance {
            class: class.share()?,
            fields: fields(alloc, held)?,
        }),
        ContentsView::Array { element, values } => Ok(ContentsView::Array {
            element: element.share()?,
            values: Vec::from_slice(alloc, values)?,
        }),
    }
}

fn object(alloc: Global, object: &ObjectView) -> Result<ObjectView, AllocError>
    ensures { IfOk result (λ copy. copy ≡ object.now) }
{
    Ok(ObjectView {
        contents: contents(alloc, &object.contents)?,
        owner: object.owner,
        entries: object.entries,
        thread: object.thread,
    })
}

fn objects(alloc: Global, objects: &[ObjectView]) -> Result<Vec<ObjectView>, AllocError>
    ensures { IfOk result (λ copies. copies.items ≡ objects.now) }
{
    let mut copies = Vec::with_capacity(alloc, objects.len())?;
    for each in objects {
        copies.push(object(alloc, each)?)?;
    }
    Ok(copies)
}

/// The same world once more: what becomes of one leaves the other alone. Names are shared. `AllocError` where memory
/// runs out.
pub fn copy(alloc: Global, world: &World) -> Result<World, AllocError>
    ensures { IfOk result (λ copy. copy ≡ world.now) }
{
    world.with_parts(
        alloc,
        threads(alloc, world.threads())?,
        fields(alloc, world.statics())?,
        objects(alloc, world.objects())?,
    )
}
