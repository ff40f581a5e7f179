//! A journal from its text.
ghost use Rattle.std.specs.Prelude.{◌≡◌, ◌++◌, ◌≢◌, ◌↔◌, IfOk, IfErr, IsTrue};
ghost use Rattle.model.specs.JournalTexts.{IsTextOf, end_line};
ghost use Rattle.journal_texts.specs.JournalReading.{HasJournal};
ghost use Rattle.journal_texts.specs.declared.errors.JournalError.{JournalError};

use crate::errors::JournalError;
use crate::heads::read_head;
use crate::row_lines::rows;
use crate::words::following;
use itoa::Buffer;
use model::stored_journals::StoredJournal;
use std::alloc::Global;

/// The journal whose text, of either version, this is; version 1 has one worker. It is refused where there is no such
/// journal, with the first fault of the text (N1, N2, N7, N3, N4), and where memory runs out (N6). It takes time in
/// proportion to the text, and memory for the rows that it has.
pub fn read_journal(alloc: Global, text: &[u8]) -> Result<StoredJournal, JournalError>
    ensures journal { IfOk result (λ journal. IsTextOf text.now journal) }
    ensures refused { IfErr result (λ e. e ≢ JournalError.Memory → ¬ HasJournal text.now) }
{
    let (head, rest) = read_head(text)?;
    let (rows, rest) = rows(alloc, head.version, head.workers, rest)?;
    if !is_end_line(rest, rows.rows().len()) {
        return Err(JournalError::End);
    }
    Ok(StoredJournal::new(head.shape, head.limits, head.workers, rows))
}

/// Whether a text is the end line after so many rows, and nothing else.
fn is_end_line(text: &[u8], rows: usize) -> bool
    ensures { IsTrue result ↔ (text.now ≡ end_line rows) }
{
    let mut buffer = Buffer::new();
    let Some(rest) = following(b"end ", text) else {
        return false;
    };
    let Some(rest) = following(buffer.format(rows).as_bytes(), rest) else {
        return false;
    };
    rest == b"\n".as_slice()
}
