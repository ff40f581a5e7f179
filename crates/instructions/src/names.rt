//! The names of what the code keeps by numbers, for those who look at a world from outside.
ghost use Rattle.std.specs.Prelude.{◌≡◌, ◌++◌, ◌∷◌, IfOk, OnOk};
ghost use Rattle.instructions.specs.Shown.{class_name, kind_name_if, last_element, type_name};

use crate::kinds::Kind;
use linking::operations::TypeNumber;
use loader::programs::Program;
use model::names::Name;
use resolve::builtins::builtin_classes;
use std::alloc::{AllocError, Global};

/// The name of the class of a number; empty past the last one. `AllocError` where memory runs out, here and below.
pub(crate) fn class_name(alloc: Global, program: &Program, class: u16) -> Result<Name, AllocError>
    ensures { IfOk result (λ name. name ≡ class_name program.now class) }
{
    let listings = program.listings();
    let class = class as usize;
    if class < listings.len() {
        let listing = &listings[class];
        return listing.name.share();
    }
    let own = builtin_classes(alloc)?;
    match own.get(class - listings.len()) {
        Some(listing) => listing.name.share(),
        None => Name::copy_of(alloc, b""),
    }
}

/// Adds the descriptor of what an array holds at last.
fn add_last_element(
    alloc: Global,
    name: &mut Vec<u8>,
    program: &Program,
    element: u16,
) -> Result<(), AllocError>
    ensures { OnOk result (name.new.items ≡ name.old.items ++ last_element program.now element) }
{
    if element >= 32_768 {
        name.push((element % 256) as u8)?;
    } else {
        name.push(b'L')?;
        name.extend_from_slice(class_name(alloc, program, element)?.as_bytes())?;
        name.push(b';')?;
    }
    Ok(())
}

/// The descriptor of an element type.
pub(crate) fn type_name(
    alloc: Global,
    program: &Program,
    element: TypeNumber,
) -> Result<Name, AllocError>
    ensures { IfOk result (λ name. name ≡ type_name program.now element) }
{
    let mut name = vec![in alloc; b'['; element.dimensions as usize]?;
    add_last_element(alloc, &mut name, program, element.element)?;
    Name::new(name)
}

/// The descriptor of arrays of a type.
fn array_name(alloc: Global, program: &Program, element: TypeNumber) -> Result<Name, AllocError>
    ensures { IfOk result (λ name. name ≡ 91 ∷ type_name program.now element) }
{
    let mut name = vec![in alloc; b'['; element.dimensions as usize + 1]?;
    add_last_element(alloc, &mut name, program, element.element)?;
    Name::new(name)
}

/// The class of what was thrown; empty where it is no object.
pub(crate) fn kind_name(
    alloc: Global,
    program: &Program,
    kind: Option<Kind>,
) -> Result<Name, AllocError>
    ensures { IfOk result (λ name. name ≡ kind_name_if program.now kind) }
{
    match kind {
        None => Name::copy_of(alloc, b""),
        Some(Kind::Instance(class)) => class_name(alloc, program, class),
        Some(Kind::Array(element)) => array_name(alloc, program, element),
    }
}
