//! `newarray`, `anewarray`, `arraylength`, and loads and stores of elements (JVMS 6.5).
ghost use Rattle.std.specs.Prelude.{◌≡◌, ◌≤◌, ◌^◌, IfOk, OnErr, Ok, drop, pos};
ghost use Rattle.std.specs.Option.{option_copied};
ghost use Rattle.model.specs.declared.instructions.ArrayOperation.TheVariants.{Length, Load, Store};
ghost use Rattle.model.specs.Classes.Types.{described};
ghost use Rattle.model.specs.Table.Arrays.{letter_of, descriptor_of, array_made, length_of, letter_for, has_elements};
ghost use Rattle.model.specs.Table.Arrays.{is_array_of, index_in, element_place, element_in, is_element_of, may_hold};
ghost use Rattle.model.specs.Table.Arrays.{storage_in, element_put, array_operated};
ghost use Rattle.model.specs.Frames.{both, int_on, ref_on};
ghost use Rattle.model.specs.Views.{contents_in};
ghost use Rattle.model.specs.Words.{contents_at, contents_if};
ghost use Rattle.ideal_run.specs.Completed.{reported, plainly};
ghost use Rattle.ideal_run.specs.Elements.{made_array, length_in};

use crate::completions::{Change, Completion, Site, completes_abruptly, raises};
use crate::frames::below;
use crate::operands::{int_on, ref_on, value_on};
use crate::words::{default_in, kept, natural};
use crate::worlds::World;
use model::descriptors::descriptor_kind;
use model::instructions::{ArrayOperation, ElementKind, Primitive};
use model::names::Name;
use model::turns::{Abrupt, Exception, Fault};
use model::values::Value;
use model::views::{ContentsView, ObjectView};
use resolve::types::{Element, described};
use std::alloc::{AllocError, Global};

fn letter_of(primitive: Primitive) -> &'static [u8]
    ensures { result.now ≡ letter_of primitive }
{
    match primitive {
        Primitive::Char => b"C",
        Primitive::Byte => b"B",
        Primitive::Short => b"S",
        Primitive::Int => b"I",
        Primitive::Long => b"J",
    }
}

/// The descriptor of what `anewarray` names: an array's is its name. `AllocError` where memory runs out.
fn descriptor_of(alloc: Global, name: &[u8]) -> Result<Vec<u8>, AllocError>
    ensures { IfOk result (λ descriptor. descriptor.items ≡ descriptor_of name.now) }
{
    match name {
        [] | [b'[', ..] => Vec::from_slice(alloc, name),
        _ => {
            let mut descriptor = Vec::from_slice(alloc, b"L")?;
            descriptor.extend_from_slice(name)?;
            descriptor.push(b';')?;
            Ok(descriptor)
        }
    }
}

/// So many elements that aren't written yet.
fn unwritten(alloc: Global, element: &[u8], n: usize) -> Result<ContentsView, AllocError>
    ensures { IfOk result (λ contents. contents_in contents ≡ made_array element.now n) }
{
    let mut values = Vec::new(alloc);
    values.resize(n, default_in(element))?;
    Ok(ContentsView::Array {
        element: Name::copy_of(alloc, element)?,
        values,
    })
}

/// An array of so many elements; a negative size is reported before a cell is asked for.
fn array_made(site: &Site<'_, '_>, element: &[u8]) -> Result<Completion, AllocError>
    ensures { IfOk result (λ c. reported site.now.world site.now.thread c
        ≡ plainly (array_made site.now element.now (int_on site.now.frame.stack))) }
{
    match int_on(site.stack()) {
        Err(fault) => Ok(Completion::Faults(fault)),
        Ok(size) => match natural(size) {
            None => Ok(raises(Exception::NegativeArraySize)),
            Some(n) => {
                let contents = unwritten(site.alloc(), element, n)?;
                Ok(Completion::Creates(site.next(), 1, contents))
            }
        },
    }
}

/// How many elements an array has; `None` where the object is no array.
fn length_in(object: Option<&ObjectView>) -> Option<usize>
    ensures { result ≡ length_in (contents_if (option_copied object.entry)) }
{
    match object {
        None => None,
        Some(object) => match &object.contents {
            ContentsView::Instance { .. } => None,
            ContentsView::Array { element: _, values } => Some(values.len()),
        },
    }
}

/// A number as an int. `AllocError` exactly where it is past the ints.
fn int_of(number: usize) -> Result<i32, AllocError>
    ensures int { IfOk result (λ int. int ≡ pos number) }
    ensures past { OnErr result (2 ^ 31 ≤ number) }
{
    match i32::try_from(number) {
        Ok(int) => Ok(int),
        Err(_) => Err(AllocError),
    }
}

fn length_of(site: &Site<'_, '_>, birth: u32) -> Result<Completion, AllocError>
    ensures { IfOk result (λ c. reported site.now.world site.now.thread c
        ≡ plainly (length_of site.now (contents_at site.now.world birth))) }
{
    match length_in(site.world().object_at(birth)) {
        None => Ok(Completion::Faults(Fault::WrongClass)),
        Some(n) => site.pushes(1, Value::Int(int_of(n)?)),
    }
}

fn measured(site: &Site<'_, '_>) -> Result<Completion, AllocError>
    ensures { IfOk result (λ c. reported site.now.world site.now.thread c ≡ plainly (array_operated site.now Length)) }
{
    match ref_on(site.stack()) {
        Err(fault) => Ok(Completion::Faults(fault)),
        Ok(None) => Ok(raises(Exception::NullPointer)),
        Ok(Some(birth)) => length_of(site, birth),
    }
}

/// The descriptor of an opcode's elements; `L` stands for those of all classes and arrays.
fn letter_for(kind: ElementKind) -> &'static [u8]
    ensures { result.now ≡ letter_for kind }
{
    match kind {
        ElementKind::Int => b"I",
        ElementKind::Long => b"J",
        ElementKind::Ref => b"L",
        ElementKind::Byte => b"B",
        ElementKind::Char => b"C",
        ElementKind::Short => b"S",
    }
}

/// Whether elements of a descriptor are those of an opcode's letter.
fn has_elements(letter: &[u8], element: &[u8]) -> bool
    ensures { result ≡ has_elements letter.now (described element.now) }
{
    match described(element) {
        None => false,
        Some(Element::Number(number)) => letter == [number].as_slice(),
        Some(Element::Reference(_)) => letter == b"L".as_slice(),
    }
}

fn is_array_of(kind: ElementKind, object: Option<&ObjectView>) -> bool
    ensures { result ≡ is_array_of kind (contents_if (option_copied object.entry)) }
{
    match object {
        None => false,
        Some(object) => match &object.contents {
            ContentsView::Instance { .. } => false,
            ContentsView::Array { element, values: _ } => {
                has_elements(letter_for(kind), element.as_bytes())
            }
        },
    }
}

/// Where an index leads in an array; `None` where it is outside.
fn index_in(index: i32, object: Option<&ObjectView>) -> Option<usize>
    ensures { result ≡ index_in index (contents_if (option_copied object.entry)) }
{
    let place = natural(index)?;
    match length_in(object) {
        Some(n) => if place < n { Some(place) } else { None },
        None => None,
    }
}

/// An array's birth, and a place in it: a null, then F6, then an index outside.
fn element_place(
    world: &World,
    kind: ElementKind,
    index: i32,
    array: Option<u32>,
) -> Result<(u32, usize), Abrupt>
    ensures { result ≡ element_place world.now kind index array }
{
    let Some(birth) = array else {
        return Err(Abrupt::Throw(Exception::NullPointer));
    };
    let object = world.object_at(birth);
    if !is_array_of(kind, object) {
        return Err(Abrupt::Fault(Fault::WrongClass));
    }
    match index_in(index, object) {
        None => Err(Abrupt::Throw(Exception::ArrayIndexOutOfBounds)),
        Some(place) => Ok((birth, place)),
    }
}

/// An index above an array, so far down a stack.
fn index_and_array(stack: &[Value]) -> Result<(i32, Option<u32>), Fault>
    ensures { result ≡ both (int_on stack.now) (ref_on (drop 1 stack.now)) }
{
    let index = int_on(stack)?;
    let array = ref_on(below(stack, 1))?;
    Ok((index, array))
}

#[tactic(auto, using(crate::proofs::PlainLemmas::plain))]
fn loaded(site: &Site<'_, '_>, kind: ElementKind) -> Result<Completion, AllocError>
    ensures { IfOk result (λ c. reported site.now.world site.now.thread c
        ≡ plainly (array_operated site.now (Load kind))) }
{
    match index_and_array(site.stack()) {
        Err(fault) => Ok(Completion::Faults(fault)),
        Ok((index, array)) => match element_place(site.world(), kind, index, array) {
            Err(abrupt) => Ok(completes_abruptly(abrupt)),
            Ok((birth, place)) => site.pushes(2, site.world().word_at(birth, place)),
        },
    }
}

/// The descriptor of an array's elements; empty where the object is no array.
fn element_in(object: Option<&ObjectView>) -> &[u8]
    ensures { described result.now ≡ element_in (contents_if (option_copied object.entry)) }
{
    match object {
        None => &[],
        Some(object) => match &object.contents {
            ContentsView::Instance { .. } => &[],
            ContentsView::Array { element, values: _ } => element.as_bytes(),
        },
    }
}

/// Whether an object of a class may go into an array of such elements.
fn is_element_of(site: &Site<'_, '_>, class: &[u8], element: &[u8]) -> bool
    ensures { result ≡ is_element_of site.now.program class.now (described element.now) }
{
    match described(element) {
        None => true,
        Some(Element::Number(_)) => true,
        Some(Element::Reference(name)) => site.program().classes().is_subtype(class, name),
    }
}

/// Null, and what is no reference, may go into every array. `AllocError` where memory runs out.
fn may_hold(site: &Site<'_, '_>, array: u32, value: Value) -> Result<bool, AllocError>
    ensures { IfOk result (λ may. may ≡ may_hold site.now (contents_at site.now.world array) value) }
{
    match value {
        Value::Int(_) => Ok(true),
        Value::Long(_) => Ok(true),
        Value::Ref(None) => Ok(true),
        Value::Ref(Some(birth)) => {
            let class = site.world().class_at(site.alloc(), birth)?;
            let element = element_in(site.world().object_at(array));
            Ok(is_element_of(site, &class, element))
        }
    }
}

/// A value goes into an element, if the array may hold it.
fn element_put(
    site: &Site<'_, '_>,
    kind: ElementKind,
    value: Value,
    birth: u32,
    place: usize,
) -> Result<Completion, AllocError>
    ensures { IfOk result (λ c. reported site.now.world site.now.thread c
        ≡ plainly (element_put site.now (storage_in kind) value (Ok (birth, place)))) }
{
    if may_hold(site, birth, value)? {
        let value = kept(letter_for(kind), value);
        site.pops(3, Change::Word(birth, place, value))
    } else {
        Ok(raises(Exception::ArrayStore))
    }
}

/// The value lies above the index.
#[tactic(auto, using(crate::proofs::PlainLemmas::plain))]
fn array_stored(site: &Site<'_, '_>, kind: ElementKind) -> Result<Completion, AllocError>
    ensures { IfOk result (λ c. reported site.now.world site.now.thread c
        ≡ plainly (array_operated site.now (Store kind))) }
{
    match value_on(descriptor_kind(letter_for(kind)), site.stack()) {
        Err(fault) => Ok(Completion::Faults(fault)),
        Ok(value) => match index_and_array(below(site.stack(), 1)) {
            Err(fault) => Ok(Completion::Faults(fault)),
            Ok((index, array)) => match element_place(site.world(), kind, index, array) {
                Err(abrupt) => Ok(completes_abruptly(abrupt)),
                Ok((birth, place)) => element_put(site, kind, value, birth, place),
            },
        },
    }
}

/// An array is made, measured, read or written. `AllocError` where memory runs out.
pub fn array_operated(
    site: &Site<'_, '_>,
    operation: &ArrayOperation<Name>,
) -> Result<Completion, AllocError>
    ensures { IfOk result (λ c. reported site.now.world site.now.thread c
        ≡ plainly (array_operated site.now operation.now)) }
{
    match operation {
        ArrayOperation::New(primitive) => array_made(site, letter_of(*primitive)),
        ArrayOperation::NewOf(name) => {
            let element = descriptor_of(site.alloc(), name.as_bytes())?;
            array_made(site, &element)
        }
        ArrayOperation::Length => measured(site),
        ArrayOperation::Load(kind) => loaded(site, *kind),
        ArrayOperation::Store(kind) => array_stored(site, *kind),
    }
}
