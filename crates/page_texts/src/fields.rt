//! Fields, each on a line.
ghost use Rattle.std.specs.Prelude.{◌≡◌, ◌++◌, IfOk};
ghost use Rattle.debug_texts.specs.Answers.{field_line, fields_text};

use debug_texts::values::write_value;
use model::views::FieldView;
use std::alloc::{AllocError, Global};

/// Adds the line of a field.
fn write_field(text: &mut Vec<u8>, field: &FieldView) -> Result<(), AllocError>
    ensures { IfOk result (λ _. text.new.items ≡ text.old.items ++ field_line field.now) }
{
    text.extend_from_slice(field.class.as_bytes())?;
    text.push(b'.')?;
    text.extend_from_slice(field.name.as_bytes())?;
    text.extend_from_slice(b" = ")?;
    write_value(text, field.value)?;
    text.push(b'\n')?;
    Ok(())
}

/// A line for each field, as `object` shows those of an object.
pub fn fields_answer(alloc: Global, fields: &[FieldView]) -> Result<Vec<u8>, AllocError>
    ensures { IfOk result (λ text. text.items ≡ fields_text fields.now) }
{
    let mut text = Vec::new(alloc);
    for field in fields {
        write_field(&mut text, field)?;
    }
    Ok(text)
}
