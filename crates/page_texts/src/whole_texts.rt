//! Texts that go out whole, after a line with the number of their bytes.
ghost use Rattle.std.specs.Prelude.{◌≡◌, IfOk};
ghost use Rattle.page_texts.specs.Shown.{whole_text};

use debug_texts::values::write_length;
use std::alloc::{AllocError, Global};

/// A line with a word and the number of a text's bytes, and the text.
pub fn whole_answer(alloc: Global, word: &[u8], told: &[u8]) -> Result<Vec<u8>, AllocError>
    ensures { IfOk result (λ text. text.items ≡ whole_text word.now told.now) }
{
    let mut text = Vec::new(alloc);
    text.extend_from_slice(word)?;
    text.push(b' ')?;
    write_length(&mut text, told.len())?;
    text.push(b'\n')?;
    text.extend_from_slice(told)?;
    Ok(text)
}
