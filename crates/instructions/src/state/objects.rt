//! Objects as plain data, with the birth in its cell in place of each reference.
ghost use Rattle.std.specs.Prelude.{◌≡◌, ◌≤◌, suc, length, map, slice_get, is_some, IfOk, true};
ghost use Rattle.std.specs.Option.{option_map};
ghost use Rattle.model.specs.Classes.Layout.{layout};
ghost use Rattle.model.specs.Collector.Reached.{is_reached};
ghost use Rattle.model.specs.Naming.{named_field};
ghost use Rattle.model.specs.Views.{contents_in};
ghost use Rattle.model.specs.Words.{unwritten};
ghost use Rattle.model.specs.Worlds.{FieldValue};
ghost use Rattle.cells.specs.Objects.{object_if};
ghost use Rattle.join.specs.Naming.{named_contents, named_object};
ghost use Rattle.join.specs.ReadBack.{birth_read, object_on};
ghost use Rattle.instructions.specs.ByNumbers.{AreStored, IsStored};
ghost use Rattle.instructions.specs.Shown.{contents_shown, keyed, objects_shown};

use super::State;
use super::threads::{named_value, named_values};
use crate::heaps::Heap;
use crate::kinds::Kind;
use crate::names::{class_name, type_name};
use loader::programs::Program;
use model::listings::Field;
use model::values::Value;
use model::views::{ContentsView, FieldView, ObjectView};
use resolve::classes::Classes;
use resolve::found::Found;
use std::alloc::{AllocError, Global};

/// A word of an object as its field. `AllocError` where memory runs out, here and below.
fn field_view(heap: &Heap, field: &Found<'_, Field>, word: Value) -> Result<FieldView, AllocError>
    ensures { let shown : FieldValue = record (unwritten field.now) { value = word } in
        IfOk result (λ view. view ≡ named_field (birth_read heap.now.account.cells) shown) }
{
    let class = field.class;
    let member = field.member;
    Ok(FieldView {
        class: class.name.share()?,
        name: member.name.share()?,
        descriptor: member.descriptor.share()?,
        value: named_value(heap, word),
    })
}

/// The words of an object as its fields.
fn field_views(
    alloc: Global,
    heap: &Heap,
    fields: &[Found<'_, Field>],
    words: &[Value],
) -> Result<Vec<FieldView>, AllocError>
    requires { length words.now ≤ length fields.now }
    ensures { IfOk result (λ views. views.items
        ≡ map (named_field (birth_read heap.now.account.cells)) (keyed (map unwritten fields.now) words.now)) }
{
    let mut views = Vec::with_capacity(alloc, words.len())?;
    for place in 0..words.len() {
        views.push(field_view(heap, &fields[place], words[place])?)?;
    }
    Ok(views)
}

/// The words of an object of the class of a name as its fields, the superclass's first.
fn fields_of(
    alloc: Global,
    program: &Program,
    heap: &Heap,
    class: &[u8],
    words: &[Value],
) -> Result<Vec<FieldView>, AllocError>
    requires { length words.now ≤ length (layout program.now class.now) }
    ensures { IfOk result (λ views. views.items
        ≡ map (named_field (birth_read heap.now.account.cells))
        (keyed (map unwritten (layout program.now class.now)) words.now)) }
{
    let classes = Classes::new(alloc, program.listings())?.unwrap();
    let fields = classes.layout(alloc, class)?;
    field_views(alloc, heap, &fields, words)
}

/// What an object of this kind with these words holds.
fn contents_view(
    alloc: Global,
    program: &Program,
    heap: &Heap,
    kind: Kind,
    words: &[Value],
) -> Result<ContentsView, AllocError>
    requires { IsStored program.now kind words.now }
    ensures { IfOk result (λ view. contents_in view
        ≡ named_contents (birth_read heap.now.account.cells) (contents_shown program.now kind words.now)) }
{
    match kind {
        Kind::Instance(class) => {
            let class = class_name(alloc, program, class)?;
            let fields = fields_of(alloc, program, heap, class.as_bytes(), words)?;
            Ok(ContentsView::Instance { class, fields })
        }
        Kind::Array(element) => {
            let element = type_name(alloc, program, element)?;
            let values = named_values(alloc, heap, words)?;
            Ok(ContentsView::Array { element, values })
        }
    }
}

/// The object in a cell, in which there is one.
fn object_view(
    alloc: Global,
    program: &Program,
    heap: &Heap,
    cell: u32,
) -> Result<Option<ObjectView>, AllocError>
    requires stored { AreStored program.now heap.now.objects }
    requires there { is_some (object_if (slice_get heap.now.objects cell)) ≡ true }
    ensures { IfOk result (λ view. view ≡ option_map (named_object (birth_read heap.now.account.cells))
        (slice_get (objects_shown program.now heap.now.objects) (suc cell))) }
{
    let cells = heap.cells();
    let Some(kind) = cells.kind(cell) else {
        return Ok(None);
    };
    let words = cells.values(cell)?;
    let contents = contents_view(alloc, program, heap, kind, &words)?;
    let monitor = cells.monitor(cell);
    Ok(Some(ObjectView {
        contents,
        owner: monitor.owner,
        entries: monitor.count,
        thread: cells.thread(cell),
    }))
}

impl State {
    /// A copy of the object of a birth: what it holds, its monitor and its thread; none where no path from the threads'
    /// frames and the static fields leads to it. `AllocError` where memory runs out.
    pub fn object(&self, birth: u32) -> Result<Option<ObjectView>, AllocError>
        ensures { IfOk result (λ view. view ≡ object_on self.now.machine birth) }
    {
        let alloc = *self.machine.states.allocator();
        let Some(cell) = self.machine.heap.cell_of(birth) else {
            return Ok(None);
        };
        if self
            .machine
            .is_reached(alloc, &self.program, &self.threads, cell)?
        {
            object_view(alloc, &self.program, &self.machine.heap, cell)
        } else {
            Ok(None)
        }
    }
}
