//! The lists of the heap's cells, each on a line.
ghost use Rattle.std.specs.Prelude.{◌≡◌, ◌++◌, IfOk};
ghost use Rattle.page_texts.specs.Shown.{births_words, cells_words, free_line, lists_text};

use debug_texts::values::{write_birth, write_number};
use std::alloc::{AllocError, Global};

/// Adds births, each after a space.
fn write_births(text: &mut Vec<u8>, births: &[u32]) -> Result<(), AllocError>
    ensures { IfOk result (λ _. text.new.items ≡ text.old.items ++ births_words births.now) }
{
    for birth in births {
        text.push(b' ')?;
        write_birth(text, *birth)?;
    }
    Ok(())
}

/// Adds the numbers of cells, each after a space.
fn write_cells(text: &mut Vec<u8>, cells: &[u32]) -> Result<(), AllocError>
    ensures { IfOk result (λ _. text.new.items ≡ text.old.items ++ cells_words cells.now) }
{
    for cell in cells {
        text.push(b' ')?;
        write_number(text, *cell)?;
    }
    Ok(())
}

/// Adds the line of the free cells of so many words.
fn write_free(text: &mut Vec<u8>, words: u32, cells: &[u32]) -> Result<(), AllocError>
    ensures { IfOk result (λ _. text.new.items ≡ text.old.items ++ free_line words cells.now) }
{
    text.extend_from_slice(b"free ")?;
    write_number(text, words)?;
    write_cells(text, cells)?;
    text.push(b'\n')?;
    Ok(())
}

/// The births of the grey list, and the free cells of 4, of 32 and of 256 words, each list on a line.
pub fn lists_answer(
    alloc: Global,
    grey: &[u32],
    small: &[u32],
    medium: &[u32],
    large: &[u32],
) -> Result<Vec<u8>, AllocError>
    ensures { IfOk result (λ text. text.items ≡ lists_text grey.now small.now medium.now large.now) }
{
    let mut text = Vec::new(alloc);
    text.extend_from_slice(b"grey")?;
    write_births(&mut text, grey)?;
    text.push(b'\n')?;
    write_free(&mut text, 4, small)?;
    write_free(&mut text, 32, medium)?;
    write_free(&mut text, 256, large)?;
    Ok(text)
}
