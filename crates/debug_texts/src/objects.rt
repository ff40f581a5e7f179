//! The text of objects and arrays.
ghost use Rattle.std.specs.Prelude.{◌≡◌, ◌++◌, ◌∷◌, [], IfOk, map};
ghost use Rattle.std.specs.Option.{option_map};
ghost use Rattle.model.specs.Worlds.{Object};
ghost use Rattle.model.specs.Worlds.Contents.{Array, Instance};
ghost use Rattle.debug_texts.specs.Answers.{contents_text, field_line, fields_text, object_text};

use crate::values::{write_length, write_number, write_value, write_values};
use model::values::Value;
use model::views::{ContentsView, FieldView, ObjectView};
use std::alloc::{AllocError, Global};

/// Adds the line of a field.
fn write_field(text: &mut Vec<u8>, field: &FieldView) -> Result<(), AllocError>
    ensures { IfOk result (λ _. text.new.items ≡ text.old.items ++ field_line field.now) }
{
    text.extend_from_slice(field.class.as_bytes())?;
    text.push(b'.')?;
    text.extend_from_slice(field.name.as_bytes())?;
    text.extend_from_slice(b" = ")?;
    write_value(text, field.value)?;
    text.push(b'\n')?;
    Ok(())
}

/// Adds a line for each field.
fn write_fields(text: &mut Vec<u8>, fields: &[FieldView]) -> Result<(), AllocError>
    ensures { IfOk result (λ _. text.new.items ≡ text.old.items ++ fields_text fields.now) }
{
    for field in fields {
        write_field(text, field)?;
    }
    Ok(())
}

/// Adds the line of an array.
fn write_array(
    text: &mut Vec<u8>,
    birth: u32,
    element: &[u8],
    values: &[Value],
) -> Result<(), AllocError>
    ensures { IfOk result (λ _. text.new.items
        ≡ text.old.items ++ contents_text birth (Array element.now values.now)) }
{
    text.extend_from_slice(b"array ")?;
    write_number(text, birth)?;
    text.extend_from_slice(b" [")?;
    text.extend_from_slice(element)?;
    text.push(b' ')?;
    write_length(text, values.len())?;
    write_values(text, values)?;
    text.push(b'\n')?;
    Ok(())
}

/// Adds the lines of an instance of a class.
fn write_instance(
    text: &mut Vec<u8>,
    birth: u32,
    class: &[u8],
    fields: &[FieldView],
) -> Result<(), AllocError>
    ensures { IfOk result (λ _. text.new.items
        ≡ text.old.items ++ contents_text birth (Instance class.now fields.now)) }
{
    text.extend_from_slice(b"object ")?;
    write_number(text, birth)?;
    text.push(b' ')?;
    text.extend_from_slice(class)?;
    text.push(b'\n')?;
    write_fields(text, fields)
}

/// What `object` answers of a birth.
pub fn object_answer(
    alloc: Global,
    birth: u32,
    object: &Option<ObjectView>,
) -> Result<Vec<u8>, AllocError>
    ensures { IfOk result (λ text. text.items ≡ object_text birth (option_map (λ (o : Object). o.contents) object.now)) }
{
    let mut text = Vec::new(alloc);
    match object {
        None => text.extend_from_slice(b"error no such object\n")?,
        Some(object) => {
            match &object.contents {
                ContentsView::Instance { class, fields } => {
                    write_instance(&mut text, birth, class.as_bytes(), fields)?;
                }
                ContentsView::Array { element, values } => {
                    write_array(&mut text, birth, element.as_bytes(), values)?;
                }
            }
        }
    }
    Ok(text)
}
