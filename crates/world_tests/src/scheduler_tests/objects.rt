//! Objects, shown by their births.

use super::MAIN;
use model::colours::Colour;
use model::values::Value;
use model::views::{CellView, ContentsView, ObjectView};
use scheduler::worlds::World;

/// Whether an object is an array of ints that holds these.
fn holds_ints(object: &ObjectView, ints: &[Value]) -> bool {
    match &object.contents {
        ContentsView::Array { element, values } => element.is("I") && values.as_slice() == ints,
        ContentsView::Instance { .. } => false,
    }
}

/// Whether an object is of this class and has no field.
fn is_plain(object: &ObjectView, name: &str) -> bool {
    match &object.contents {
        ContentsView::Instance { class, fields } => class.is(name) && fields.is_empty(),
        ContentsView::Array { .. } => false,
    }
}

/// Whether birth 3 is an array of one int, 0.
fn shows_the_array(world: &World) -> bool {
    match world.object(3) {
        Ok(Some(object)) => holds_ints(&object, &[Value::Int(0)]),
        _ => false,
    }
}

/// Whether birth 2 is the machine's own StackOverflowError.
fn shows_the_error(world: &World) -> bool {
    match world.object(2) {
        Ok(Some(object)) => is_plain(&object, "java/lang/StackOverflowError"),
        _ => false,
    }
}

/// It is shown while the stack leads to it.
pub fn an_array_is_shown(world: &mut World) -> bool {
    world.run(&[MAIN; 2]);
    shows_the_array(world) && shows_the_error(world)
}

/// Its cell still holds it.
pub fn an_array_that_was_popped_is_not_shown(world: &mut World) -> bool {
    world.run(&[MAIN; 3]);
    let cell = CellView {
        words: 4,
        held: Some((3, Colour::Grey)),
    };
    matches!(world.object(3), Ok(None)) && world.heap(2) == Some(cell)
}
