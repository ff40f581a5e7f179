//! The numbers of types that instructions name (JVMS 4.4.1).
ghost use Rattle.std.specs.Prelude.{◌≡◌, false, MatchResult};
ghost use Rattle.model.specs.Classes.Types.{dimensions};
ghost use Rattle.resolve.specs.Elements.{shown};
ghost use Rattle.linking.specs.ResolvedOperations.{counted_dimensions, element_number, last_element, type_of};
ghost use Rattle.linking.specs.Widths.{type_fits};

use crate::narrowing::narrow;
use crate::operations::TypeNumber;
use resolve::classes::Classes;
use resolve::types::{Element, described};
use std::alloc::AllocError;

/// The least number of a letter; those of classes are below.
const FIRST_LETTER: usize = 32768;

/// How many dimensions an array has, by its descriptor; a class has none.
pub fn dimensions(name: &[u8]) -> usize
    ensures { result ≡ dimensions name.now }
{
    let mut count = 0;
    for byte in name {
        if *byte != b'[' {
            break;
        }
        count += 1;
    }
    count
}

/// The number of what an array holds at last: that of a class, or a letter's above those.
fn element_number(classes: &Classes<'_>, element: Option<Element<'_>>) -> Option<usize>
    ensures { result ≡ element_number classes.now (shown element.entry) }
{
    match element? {
        Element::Number(letter) => Some(FIRST_LETTER + usize::from(letter)),
        Element::Reference(name) => classes.number(name),
    }
}

/// The number of a class, or of what an array of so many dimensions holds at last.
fn last_element(classes: &Classes<'_>, dimensions: usize, name: &[u8]) -> Option<usize>
    ensures { result ≡ last_element classes.now dimensions name.now }
{
    if dimensions == 0 {
        return classes.number(name);
    }
    let element = name.get(dimensions..)?;
    element_number(classes, described(element))
}

/// How many dimensions are told apart.
fn counted_dimensions(dimensions: usize) -> u16
    ensures { result ≡ counted_dimensions dimensions }
{
    u16::try_from(dimensions).unwrap_or(u16::MAX)
}

/// The numbers of a type; `None` where no class has the name. `AllocError` exactly where a number is past its width.
pub fn type_number(classes: &Classes<'_>, name: &[u8]) -> Result<Option<TypeNumber>, AllocError>
    ensures { MatchResult result (λ type. type ≡ type_of classes.now name.now)
        (λ _. type_fits (type_of classes.now name.now) ≡ false) }
{
    let dimensions = dimensions(name);
    match last_element(classes, dimensions, name) {
        Some(element) => Ok(Some(TypeNumber {
            dimensions: counted_dimensions(dimensions),
            element: narrow(element)?,
        })),
        None => Ok(None),
    }
}
