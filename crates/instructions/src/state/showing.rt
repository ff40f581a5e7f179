//! All that the state of a running program shows: its threads, static fields, class states and objects as plain data,
//! with births in place of references, for those who compare it with another world.
ghost use Rattle.std.specs.Prelude.{◌≡◌, ◌<◌, ◌≤◌, ◌++◌, suc, length, map, slice_get, slice_index_or, is_some, IfOk};
ghost use Rattle.std.specs.Prelude.{OnOk, Some, false, true};
ghost use Rattle.std.specs.Option.{option_map};
ghost use Rattle.model.specs.Classes.Flags.{is_static_field};
ghost use Rattle.model.specs.Collector.Table.{cell_at};
ghost use Rattle.model.specs.Naming.{named_field};
ghost use Rattle.cells.specs.Objects.{object_if};
ghost use Rattle.join.specs.Naming.{named_object};
ghost use Rattle.join.specs.ReadBack.{birth_read};
ghost use Rattle.instructions.specs.HeldOnCells.{AreMarks, held_kind, held_of, held_on, helds_from};
ghost use Rattle.instructions.specs.HeldViews.{kind_in};
ghost use Rattle.instructions.specs.Shown.{keyed, objects_shown};
ghost use Rattle.instructions.specs.StaticKeys.{keys_of, static_key, static_keys};

use super::State;
use super::threads::{named_value, named_values};
use crate::heaps::Heap;
use crate::held::{HeldKind, HeldView};
use crate::kinds::Kind;
use crate::names::{class_name, type_name};
use bitflags::Flags;
use loader::programs::Program;
use model::flags::FieldFlags;
use model::listings::{Field, Listing};
use model::names::Name;
use model::turns::ClassState;
use model::values::Value;
use model::views::FieldView;
use std::alloc::{AllocError, Global};
use values::Words;
use values::slots::value_in;

/// A static field of a class, holding null. `AllocError` where memory runs out, here and below.
fn static_key(class: &Name, field: &Field) -> Result<FieldView, AllocError>
    ensures { IfOk result (λ key. key ≡ static_key class.now field.now) }
{
    Ok(FieldView {
        class: class.share()?,
        name: field.name.share()?,
        descriptor: field.descriptor.share()?,
        value: Value::Ref(None),
    })
}

fn is_static_field(field: &Field) -> bool
    ensures { result ≡ is_static_field field.now }
{
    field.flags.contains(FieldFlags::STATIC)
}

/// Adds the static fields among those of a class.
fn add_keys(keys: &mut Vec<FieldView>, class: &Name, fields: &[Field]) -> Result<(), AllocError>
    ensures { OnOk result (keys.new.items ≡ keys.old.items ++ keys_of class.now fields.now) }
{
    for field in fields {
        if is_static_field(field) {
            keys.push(static_key(class, field)?)?;
        }
    }
    Ok(())
}

/// The static fields of a program, in class and field order, each holding null.
fn static_keys(alloc: Global, program: &[Listing]) -> Result<Vec<FieldView>, AllocError>
    ensures { IfOk result (λ keys. keys.items ≡ static_keys program.now) }
{
    let mut keys = Vec::new(alloc);
    for class in program {
        add_keys(&mut keys, &class.name, &class.fields)?;
    }
    Ok(keys)
}

/// What a slot holds; null past the last one.
fn slot_value(slots: &Words, slot: usize) -> Value
    requires { slot < length slots.now }
    ensures { slice_get slots.now slot ≡ Some result }
{
    match slots.get(slot) {
        Some(held) => value_in(held),
        None => Value::Ref(None),
    }
}

/// A field of this name, holding this word.
fn field_holding(heap: &Heap, key: &FieldView, word: Value) -> Result<FieldView, AllocError>
    ensures { IfOk result (λ view. view ≡ named_field (birth_read heap.now.account.cells)
        (record key.now { value = word })) }
{
    Ok(FieldView {
        class: key.class.share()?,
        name: key.name.share()?,
        descriptor: key.descriptor.share()?,
        value: named_value(heap, word),
    })
}

/// The fields of these names, each holding the word of its slot.
fn fields_holding(
    alloc: Global,
    heap: &Heap,
    keys: &[FieldView],
    slots: &Words,
) -> Result<Vec<FieldView>, AllocError>
    requires { length slots.now ≤ length keys.now }
    ensures { IfOk result (λ views. views.items
        ≡ map (named_field (birth_read heap.now.account.cells)) (keyed keys.now slots.now)) }
{
    let mut views = Vec::with_capacity(alloc, slots.len())?;
    for slot in 0..slots.len() {
        views.push(field_holding(heap, &keys[slot], slot_value(slots, slot))?)?;
    }
    Ok(views)
}

/// What an object of this kind is.
fn held_kind(alloc: Global, program: &Program, kind: Kind) -> Result<HeldKind, AllocError>
    ensures { IfOk result (λ held. kind_in held ≡ held_kind program.now kind) }
{
    match kind {
        Kind::Instance(class) => Ok(HeldKind::OfClass(class_name(alloc, program, class)?)),
        Kind::Array(element) => Ok(HeldKind::OfElements(type_name(alloc, program, element)?)),
    }
}

/// The object of a birth in its cell, in which there is one.
fn held_view(
    alloc: Global,
    program: &Program,
    heap: &Heap,
    birth: u32,
    cell: u32,
) -> Result<Option<HeldView>, AllocError>
    requires { is_some (object_if (slice_get heap.now.objects cell)) ≡ true }
    ensures { IfOk result (λ view. view ≡ option_map (held_of birth)
        (option_map (named_object (birth_read heap.now.account.cells))
        (slice_get (objects_shown program.now heap.now.objects) (suc cell)))) }
{
    let cells = heap.cells();
    let Some(kind) = cells.kind(cell) else {
        return Ok(None);
    };
    let of = held_kind(alloc, program, kind)?;
    let values = cells.values(cell)?;
    let words = named_values(alloc, heap, &values)?;
    let monitor = cells.monitor(cell);
    Ok(Some(HeldView {
        birth,
        kind: of,
        words,
        owner: monitor.owner,
        entries: monitor.count,
        thread: cells.thread(cell),
    }))
}

/// Whether the reference of a cell is marked.
fn is_marked(marks: &[bool], cell: u32) -> bool
    ensures { result ≡ slice_index_or marks.now (suc cell) false }
{
    match marks.get(cell as usize + 1) {
        Some(mark) => *mark,
        None => false,
    }
}

impl State {
    /// How many threads were started.
    pub fn thread_count(&self) -> u8
        ensures { result ≡ length self.now.machine.world.threads }
    {
        self.threads.count()
    }

    /// The states of the program's classes, in order.
    pub fn class_states(&self) -> &[ClassState]
        ensures { result.now ≡ self.now.machine.world.statics.states }
    {
        self.machine.states.as_slice()
    }

    /// A copy of the static fields, in class and field order. `AllocError` where memory runs out.
    pub fn static_fields(&self) -> Result<Vec<FieldView>, AllocError>
        ensures { IfOk result (λ views. views.items
            ≡ map (named_field (birth_read self.now.machine.account.cells)) self.now.machine.world.statics.fields) }
    {
        let alloc = *self.machine.states.allocator();
        let keys = static_keys(alloc, self.program.listings())?;
        fields_holding(alloc, &self.machine.heap, &keys, &self.machine.slots)
    }

    /// For each reference whether a path from the threads' frames, the static fields and the two errors leads to it.
    /// `AllocError` where memory runs out.
    fn marks(&self) -> Result<Vec<bool>, AllocError>
        ensures { IfOk result (λ marks. AreMarks self.now.machine.world marks.items) }
    {
        self.machine.heap.reached(
            *self.machine.states.allocator(),
            &self.program,
            &self.threads,
            self.machine.thread,
            &self.machine.frames,
            &self.machine.slots,
        )
    }

    /// A copy of what a cell holds; none where no path leads to it, by these marks. `AllocError` where memory runs out.
    fn held(&self, marks: &[bool], cell: u32) -> Result<Option<HeldView>, AllocError>
        requires { AreMarks self.now.machine.world marks.now }
        ensures { IfOk result (λ view. view ≡ held_on self.now.machine cell
            (cell_at self.now.machine.account.cells cell)) }
    {
        let alloc = *self.machine.states.allocator();
        match self.machine.heap.birth_in(cell) {
            None => Ok(None),
            Some(birth) => {
                if is_marked(marks, cell) {
                    held_view(alloc, &self.program, &self.machine.heap, birth, cell)
                } else {
                    Ok(None)
                }
            }
        }
    }

    /// A copy of what each cell holds, in order; none where no path leads to it. `AllocError` where memory runs out. It
    /// takes time in proportion to the heap, the frames and the names of classes.
    pub fn helds(&self) -> Result<Vec<Option<HeldView>>, AllocError>
        ensures { IfOk result (λ views. views.items ≡ helds_from self.now.machine 0 self.now.machine.account.cells) }
    {
        let marks = self.marks()?;
        let count = self.machine.heap.count();
        let mut views = Vec::with_capacity(*self.machine.states.allocator(), count as usize)?;
        for cell in 0..count {
            views.push(self.held(&marks, cell)?)?;
        }
        Ok(views)
    }
}
