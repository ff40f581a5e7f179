//! Rows of a journal.
ghost use Rattle.std.specs.Prelude.{◌≡◌, ◌++◌, IfOk, drop, take};
ghost use Rattle.model.specs.JournalTexts.{actor_word, lines_of_rows, outcome_letter, row_line};
ghost use Rattle.page_texts.specs.Shown.{rows_text};

use debug_texts::values::write_number;
use model::journals::{Outcome, Row};
use model::row_runs::Rows;
use model::turns::Actor;
use std::alloc::{AllocError, Global};

/// Adds who took a turn: a thread's number, or `c`.
fn write_actor(text: &mut Vec<u8>, actor: Actor) -> Result<(), AllocError>
    ensures { IfOk result (λ _. text.new.items ≡ text.old.items ++ actor_word actor) }
{
    match actor {
        Actor::Thread(number) => write_number(text, u32::from(number)),
        Actor::Collector => text.extend_from_slice(b"c"),
    }
}

fn letter_of(outcome: Outcome) -> u8
    ensures { result ≡ outcome_letter outcome }
{
    match outcome {
        Outcome::Done => b'd',
        Outcome::Object => b'o',
        Outcome::NoRoom => b'n',
        Outcome::Fault => b'f',
    }
}

/// Adds the line of a row, as it stands in a journal's text of version 2.
fn write_row(text: &mut Vec<u8>, row: Row) -> Result<(), AllocError>
    ensures { IfOk result (λ _. text.new.items ≡ text.old.items ++ row_line row) }
{
    write_actor(text, row.actor)?;
    text.push(b' ')?;
    text.push(letter_of(row.outcome))?;
    text.push(b' ')?;
    write_number(text, u32::from(row.worker))?;
    text.push(b'\n')?;
    Ok(())
}

/// The rows without so many first ones.
fn later(rows: Rows<'_>, first: u32) -> Rows<'_>
    ensures { result ≡ drop first rows.entry }
{
    let mut rest = rows;
    for _row in 0..first {
        match rest.next() {
            Some(_) => {}
            None => return rest,
        }
    }
    rest
}

/// Rows of a journal: so many at most, from one on whose number counts from 0.
pub fn rows_answer(
    alloc: Global,
    rows: Rows<'_>,
    first: u32,
    count: u32,
) -> Result<Vec<u8>, AllocError>
    ensures { IfOk result (λ text. text.items ≡ rows_text rows.entry first count) }
{
    let mut rest = later(rows, first);
    let mut text = Vec::new(alloc);
    for _row in 0..count {
        match rest.next() {
            Some(row) => write_row(&mut text, row)?,
            None => return Ok(text),
        }
    }
    Ok(text)
}
