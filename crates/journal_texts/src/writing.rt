//! The text of a journal.
ghost use Rattle.std.specs.Prelude.{◌≡◌, ◌+◌, ◌++◌, [], ◌∷◌, IfOk, length, decimal};
ghost use Rattle.model.specs.JournalTexts.{outcome_letter, actor_word, number_text, heap_line, limits_line};
ghost use Rattle.model.specs.JournalTexts.{workers_line, row_line, lines_of_rows, end_line, journal_text};

use itoa::Buffer;
use model::journal_parts::JournalParts;
use model::journals::{HeapShape, Limits, Outcome, Row};
use model::row_runs::Rows;
use model::turns::Actor;
use std::alloc::{AllocError, Global};

/// A journal's text of version 2. `AllocError` where there is no memory for it.
pub fn write_journal<J: JournalParts>(alloc: Global, journal: &J) -> Result<Vec<u8>, AllocError>
    ensures { IfOk result (λ text. text.items ≡ journal_text (J.journal_of journal.now)) }
{
    let mut text = Vec::from_slice(alloc, b"JVMJ 2\n")?;
    write_heap(&mut text, journal.shape())?;
    write_limits(&mut text, journal.limits())?;
    text.extend_from_slice(b"workers ")?;
    write_number(&mut text, u32::from(journal.workers()), b'\n')?;
    write_rows(&mut text, journal.rows())?;
    write_end(&mut text, journal.rows().len())?;
    Ok(text)
}

fn write_heap(text: &mut Vec<u8>, shape: HeapShape) -> Result<(), AllocError>
    ensures { IfOk result (λ _. text.new.items ≡ text.old.items ++ heap_line shape) }
{
    text.extend_from_slice(b"heap ")?;
    write_number(text, shape.small, b' ')?;
    write_number(text, shape.medium, b' ')?;
    write_number(text, shape.large, b'\n')
}

fn write_limits(text: &mut Vec<u8>, limits: Limits) -> Result<(), AllocError>
    ensures { IfOk result (λ _. text.new.items ≡ text.old.items ++ limits_line limits) }
{
    text.extend_from_slice(b"limits ")?;
    write_number(text, limits.steps, b' ')?;
    write_number(text, limits.output, b'\n')
}

fn write_rows(text: &mut Vec<u8>, rows: Rows<'_>) -> Result<(), AllocError>
    ensures { IfOk result (λ _. text.new.items ≡ text.old.items ++ lines_of_rows row_line rows.entry) }
{
    for row in rows {
        write_row(text, row)?;
    }
    Ok(())
}

fn write_row(text: &mut Vec<u8>, row: Row) -> Result<(), AllocError>
    ensures { IfOk result (λ _. text.new.items ≡ text.old.items ++ row_line row) }
{
    write_actor(text, row.actor)?;
    text.push(b' ')?;
    text.push(letter_of(row.outcome))?;
    text.push(b' ')?;
    write_number(text, u32::from(row.worker), b'\n')
}

/// A thread's number, or `c`.
fn write_actor(text: &mut Vec<u8>, actor: Actor) -> Result<(), AllocError>
    ensures { IfOk result (λ _. text.new.items ≡ text.old.items ++ actor_word actor) }
{
    match actor {
        Actor::Thread(number) => {
            let mut buffer = Buffer::new();
            text.extend_from_slice(buffer.format(number).as_bytes())?;
        }
        Actor::Collector => text.push(b'c')?,
    }
    Ok(())
}

fn letter_of(outcome: Outcome) -> u8
    ensures { result ≡ outcome_letter outcome }
{
    match outcome {
        Outcome::Done => b'd',
        Outcome::Object => b'o',
        Outcome::NoRoom => b'n',
        Outcome::Fault => b'f',
    }
}

fn write_end(text: &mut Vec<u8>, rows: usize) -> Result<(), AllocError>
    ensures { IfOk result (λ _. text.new.items ≡ text.old.items ++ end_line rows) }
{
    text.extend_from_slice(b"end ")?;
    let mut buffer = Buffer::new();
    text.extend_from_slice(buffer.format(rows).as_bytes())?;
    text.push(b'\n')?;
    Ok(())
}

/// A number and the byte after it.
fn write_number(text: &mut Vec<u8>, number: u32, following: u8) -> Result<(), AllocError>
    ensures { IfOk result (λ _. text.new.items ≡ text.old.items ++ number_text number following) }
{
    let mut buffer = Buffer::new();
    text.extend_from_slice(buffer.format(number).as_bytes())?;
    text.push(following)?;
    Ok(())
}
