//! The text of what cells hold.
ghost use Rattle.std.specs.Prelude.{◌≡◌, ◌++◌, IfOk};
ghost use Rattle.instructions.specs.HeldViews.{kind_in};
ghost use Rattle.page_sessions.specs.Texts.{held_line, helds_from, kind_word, maybe_word, monitor_words, object_line};
ghost use Rattle.page_sessions.specs.Texts.{owned_words, words_words};

use debug_texts::values::{write_birth, write_length, write_number, write_values};
use instructions::held::{HeldKind, HeldView};
use std::alloc::{AllocError, Global};

/// Adds the class of an instance, or the descriptor of an array.
fn write_kind(text: &mut Vec<u8>, kind: &HeldKind) -> Result<(), AllocError>
    ensures { IfOk result (λ _. text.new.items ≡ text.old.items ++ kind_word (kind_in kind.now)) }
{
    match kind {
        HeldKind::OfClass(class) => text.extend_from_slice(class.as_bytes()),
        HeldKind::OfElements(element) => {
            text.push(b'[')?;
            text.extend_from_slice(element.as_bytes())
        }
    }
}

/// Adds a number, or a hyphen where there is none.
fn write_maybe(text: &mut Vec<u8>, number: Option<u32>) -> Result<(), AllocError>
    ensures { IfOk result (λ _. text.new.items ≡ text.old.items ++ maybe_word number) }
{
    match number {
        Some(number) => write_number(text, number),
        None => text.extend_from_slice(b"-"),
    }
}

/// Adds who owns a monitor, and how often it was entered.
fn write_monitor(text: &mut Vec<u8>, owner: Option<u32>, entries: u32) -> Result<(), AllocError>
    ensures { IfOk result (λ _. text.new.items ≡ text.old.items ++ monitor_words owner entries) }
{
    text.extend_from_slice(b" owner ")?;
    write_maybe(text, owner)?;
    text.push(b' ')?;
    write_number(text, entries)
}

/// Adds the birth of an object, what it is, and its monitor.
fn write_owned(text: &mut Vec<u8>, held: &HeldView) -> Result<(), AllocError>
    ensures { IfOk result (λ _. text.new.items ≡ text.old.items ++ owned_words held.now) }
{
    write_birth(text, held.birth)?;
    text.push(b' ')?;
    write_kind(text, &held.kind)?;
    write_monitor(text, held.owner, u32::from(held.entries))
}

/// Adds the thread that was started on an object, and its fields or elements.
fn write_words(text: &mut Vec<u8>, held: &HeldView) -> Result<(), AllocError>
    ensures { IfOk result (λ _. text.new.items ≡ text.old.items ++ words_words held.now) }
{
    text.extend_from_slice(b" thread ")?;
    write_maybe(text, held.thread)?;
    text.extend_from_slice(b" words")?;
    write_values(text, &held.words)
}

/// Adds the line of what a cell of a number holds.
fn write_object(text: &mut Vec<u8>, number: usize, held: &HeldView) -> Result<(), AllocError>
    ensures { IfOk result (λ _. text.new.items ≡ text.old.items ++ object_line number held.now) }
{
    text.extend_from_slice(b"held ")?;
    write_length(text, number)?;
    text.push(b' ')?;
    write_owned(text, held)?;
    write_words(text, held)?;
    text.push(b'\n')?;
    Ok(())
}

/// The same, if a path leads to what it holds.
fn write_held(text: &mut Vec<u8>, number: usize, held: &Option<HeldView>) -> Result<(), AllocError>
    ensures { IfOk result (λ _. text.new.items ≡ text.old.items ++ held_line number held.now) }
{
    match held {
        None => Ok(()),
        Some(held) => write_object(text, number, held),
    }
}

/// A line for each cell to whose object a path leads, by the number of the cell.
pub fn helds_answer(alloc: Global, helds: &[Option<HeldView>]) -> Result<Vec<u8>, AllocError>
    ensures { IfOk result (λ text. text.items ≡ helds_from 0 helds.now) }
{
    let mut text = Vec::new(alloc);
    for (number, held) in helds.iter().enumerate() {
        write_held(&mut text, number, held)?;
    }
    Ok(text)
}
