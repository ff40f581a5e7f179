//! Types by the numbers of their dimensions and elements (JVMS 4.4.1), and what objects are of (JVMS 6.5, instanceof).
ghost use Rattle.std.specs.Prelude.{◌≡◌, ◌<◌};
ghost use Rattle.model.specs.Table.Arrays.{storage_in};
ghost use Rattle.linking.specs.Storages.{shown_storage};
ghost use Rattle.instructions.specs.Heaps.{held};
ghost use Rattle.instructions.specs.TypeNumbers.{element_default, holds, holds_letter, holds_references};
ghost use Rattle.instructions.specs.TypeNumbers.{is_array_below, is_array_of_kind, is_element, is_element_below};
ghost use Rattle.instructions.specs.TypeNumbers.{is_kind_of, is_letter, is_number_letter, is_object_of, letter_type};
ghost use Rattle.instructions.specs.TypeNumbers.{takes_object};
ghost use Rattle.instructions.specs.TypesByNumbers.{takes};

use crate::heaps::Heap;
use crate::kinds::Kind;
use linking::operations::TypeNumber;
use linking::storages::{Storage, default_in, storage_of};
use loader::programs::Program;
use model::instructions::ElementKind;
use model::values::Value;

/// The least number of a letter; those of classes are below.
const FIRST_LETTER: u16 = 32_768;

/// How many classes the machine has of its own.
const OWN_CLASSES: usize = 23;

/// Whether what an array holds at last is numbers.
fn is_letter(element: u16) -> bool
    ensures { result ≡ is_letter element }
{
    FIRST_LETTER <= element
}

/// Whether numbers have this letter: B, C, S, I or J.
fn is_number_letter(letter: u16) -> bool
    ensures { result ≡ is_number_letter letter }
{
    letter == 66 || letter == 67 || letter == 83 || letter == 73 || letter == 74
}

/// Whether an array may hold this at last: numbers of a letter, or objects of a class that is there.
pub(crate) fn is_element(program: &Program, element: u16) -> bool
    ensures { result ≡ is_element program.now element }
{
    if is_letter(element) {
        is_number_letter(element - FIRST_LETTER)
    } else {
        (element as usize) < program.listings().len() + OWN_CLASSES
    }
}

/// The element type of arrays of the numbers of a letter.
pub(crate) fn letter_type(letter: u8) -> TypeNumber
    ensures { result ≡ letter_type letter }
{
    TypeNumber {
        dimensions: 0,
        element: FIRST_LETTER + u16::from(letter),
    }
}

/// What an element of this type is before it is written.
pub(crate) fn element_default(elements: TypeNumber) -> Value
    ensures { result ≡ element_default elements }
{
    if elements.dimensions == 0 && is_letter(elements.element) {
        default_in(storage_of(&[(elements.element % 256) as u8]))
    } else {
        Value::Ref(None)
    }
}

/// Whether arrays of this element type hold numbers of a letter.
fn holds_letter(elements: TypeNumber, letter: u16) -> bool
    requires { letter < 256 }
    ensures { result ≡ holds_letter elements letter }
{
    elements.dimensions == 0 && elements.element == FIRST_LETTER + letter
}

/// Whether arrays of this element type hold references.
fn holds_references(elements: TypeNumber) -> bool
    ensures { result ≡ holds_references elements }
{
    !(elements.dimensions == 0 && is_letter(elements.element))
}

/// Whether arrays of this element type hold what an opcode for elements of a kind wants.
fn holds(kind: ElementKind, elements: TypeNumber) -> bool
    ensures { result ≡ holds kind elements }
{
    match kind {
        ElementKind::Int => holds_letter(elements, 73),
        ElementKind::Long => holds_letter(elements, 74),
        ElementKind::Ref => holds_references(elements),
        ElementKind::Byte => holds_letter(elements, 66),
        ElementKind::Char => holds_letter(elements, 67),
        ElementKind::Short => holds_letter(elements, 83),
    }
}

/// Whether an object of this kind is an array that an opcode for elements of a kind wants.
pub(crate) fn is_array_of_kind(kind: ElementKind, object: Option<Kind>) -> bool
    ensures { result ≡ is_array_of_kind kind object }
{
    match object {
        Some(Kind::Array(elements)) => holds(kind, elements),
        Some(Kind::Instance(_)) | None => false,
    }
}

/// How an array that an opcode for elements of a kind wants keeps them.
pub(crate) fn storage_in(kind: ElementKind) -> Storage
    ensures { shown_storage result ≡ storage_in kind }
{
    match kind {
        ElementKind::Int => Storage::Int,
        ElementKind::Long => Storage::Long,
        ElementKind::Ref => Storage::Ref,
        ElementKind::Byte => Storage::Byte,
        ElementKind::Char => Storage::Char,
        ElementKind::Short => Storage::Short,
    }
}

/// Whether what arrays hold at last is the same numbers, or of a class below the other.
fn is_element_below(program: &Program, element: u16, above: u16) -> bool
    ensures { result ≡ is_element_below program.now element above }
{
    if is_letter(element) {
        element == above
    } else {
        let classes = &program.tables().classes;
        classes.is_subtype(element as usize, above as usize)
    }
}

/// Whether arrays of this element type are of a type: Object, arrays of Object with fewer dimensions, or arrays with as
/// many dimensions of what is above their last elements.
fn is_array_below(program: &Program, elements: TypeNumber, above: TypeNumber) -> bool
    ensures { result ≡ is_array_below program.now elements above }
{
    if above.dimensions <= elements.dimensions {
        above.element as usize == program.listings().len()
    } else {
        u32::from(above.dimensions) == u32::from(elements.dimensions) + 1
            && is_element_below(program, elements.element, above.element)
    }
}

/// Whether objects of this kind are of a type.
fn is_kind_of(program: &Program, kind: Kind, above: TypeNumber) -> bool
    ensures { result ≡ is_kind_of program.now kind above }
{
    match kind {
        Kind::Instance(class) => {
            let classes = &program.tables().classes;
            above.dimensions == 0 && classes.is_subtype(class as usize, above.element as usize)
        }
        Kind::Array(elements) => is_array_below(program, elements, above),
    }
}

/// Whether the object of a reference is of a type. What is no object is of none.
pub(crate) fn is_object_of(
    program: &Program,
    heap: &Heap,
    reference: u32,
    above: TypeNumber,
) -> bool
    ensures { result ≡ is_object_of program.now (held heap.now reference) above }
{
    match heap.kind(reference) {
        Some(kind) => is_kind_of(program, kind, above),
        None => false,
    }
}

/// Whether an array of this kind takes the object of a reference: an array of objects takes those of its element type.
fn takes_object(program: &Program, heap: &Heap, array: Option<Kind>, reference: u32) -> bool
    ensures { result ≡ takes_object program.now array (held heap.now reference) }
{
    match array {
        Some(Kind::Array(elements)) => {
            !holds_references(elements) || is_object_of(program, heap, reference, elements)
        }
        Some(Kind::Instance(_)) | None => true,
    }
}

/// Whether an array of this kind takes a value: null, and what is no reference, may go into every one.
#[inline(always)]
pub(crate) fn takes(program: &Program, heap: &Heap, array: Option<Kind>, value: Value) -> bool
    ensures { result ≡ takes program.now heap.now array value }
{
    match value {
        Value::Int(_) | Value::Long(_) | Value::Ref(None) => true,
        Value::Ref(Some(reference)) => takes_object(program, heap, array, reference),
    }
}
