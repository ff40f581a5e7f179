//! The text of values, with births in place of references.
ghost use Rattle.std.specs.Prelude.{◌≡◌, ◌++◌, ◌∷◌, [], IfOk, decimal};
ghost use Rattle.debug_texts.specs.Answers.{birth_text, entries_text, entry_text, value_text, values_text};

use itoa::Buffer;
use model::values::{Entry, Value};
use std::alloc::AllocError;

/// Adds a number in decimal.
pub fn write_number(text: &mut Vec<u8>, number: u32) -> Result<(), AllocError>
    ensures { IfOk result (λ _. text.new.items ≡ text.old.items ++ decimal number) }
{
    let mut buffer = Buffer::new();
    text.extend_from_slice(buffer.format(number).as_bytes())
}

/// Adds a length in decimal.
pub fn write_length(text: &mut Vec<u8>, length: usize) -> Result<(), AllocError>
    ensures { IfOk result (λ _. text.new.items ≡ text.old.items ++ decimal length) }
{
    let mut buffer = Buffer::new();
    text.extend_from_slice(buffer.format(length).as_bytes())
}

/// Adds a birth.
pub fn write_birth(text: &mut Vec<u8>, birth: u32) -> Result<(), AllocError>
    ensures { IfOk result (λ _. text.new.items ≡ text.old.items ++ birth_text birth) }
{
    text.push(b'#')?;
    write_number(text, birth)
}

/// Adds a value: an int in decimal, a long with an L after it, null, or a birth.
pub fn write_value(text: &mut Vec<u8>, value: Value) -> Result<(), AllocError>
    ensures { IfOk result (λ _. text.new.items ≡ text.old.items ++ value_text value) }
{
    match value {
        Value::Int(number) => {
            let mut buffer = Buffer::new();
            text.extend_from_slice(buffer.format(number).as_bytes())
        }
        Value::Long(number) => {
            let mut buffer = Buffer::new();
            text.extend_from_slice(buffer.format(number).as_bytes())?;
            text.push(b'L')?;
            Ok(())
        }
        Value::Ref(None) => text.extend_from_slice(b"null"),
        Value::Ref(Some(birth)) => write_birth(text, birth),
    }
}

/// Adds what stands in a local: a hyphen where it isn't set, a circumflex for the upper half of a long.
fn write_entry(text: &mut Vec<u8>, entry: Entry) -> Result<(), AllocError>
    ensures { IfOk result (λ _. text.new.items ≡ text.old.items ++ entry_text entry) }
{
    match entry {
        Entry::Unset => text.extend_from_slice(b"-"),
        Entry::Holds(value) => write_value(text, value),
        Entry::UpperHalf => text.extend_from_slice(b"^"),
    }
}

/// Adds values, each after a space.
pub fn write_values(text: &mut Vec<u8>, values: &[Value]) -> Result<(), AllocError>
    ensures { IfOk result (λ _. text.new.items ≡ text.old.items ++ values_text values.now) }
{
    for value in values {
        text.push(b' ')?;
        write_value(text, *value)?;
    }
    Ok(())
}

/// Adds what stands in locals, each after a space.
pub fn write_entries(text: &mut Vec<u8>, entries: &[Entry]) -> Result<(), AllocError>
    ensures { IfOk result (λ _. text.new.items ≡ text.old.items ++ entries_text entries.now) }
{
    for entry in entries {
        text.push(b' ')?;
        write_entry(text, *entry)?;
    }
    Ok(())
}
