//! The rows of a journal's text.
ghost use Rattle.std.specs.Prelude.{◌≡◌, ◌++◌, ◌≢◌, true, All, MatchResult};
ghost use Rattle.model.specs.JournalTexts.{lines_of_rows};
ghost use Rattle.journal_texts.specs.JournalReading.{Tells, actor_at, outcome_of, outcome_at, worker_at, row_at};
ghost use Rattle.journal_texts.specs.JournalReading.{is_over, line_by, FitsRow, FitsVersion, HasRows};
ghost use Rattle.journal_texts.specs.declared.errors.JournalError.{JournalError};

use crate::errors::JournalError;
use crate::heads::Version;
use crate::words::{following, number};
use model::journals::{Outcome, Row};
use model::row_runs::RowRuns;
use model::turns::Actor;
use std::alloc::Global;

/// The rows with which a text begins, up to its end or to the first line that begins with `end`, and that line with all
/// after it. N3 for the first row at fault, N6 where memory runs out.
pub fn rows(
    alloc: Global,
    version: Version,
    workers: u8,
    text: &[u8],
) -> Result<(RowRuns, &[u8]), JournalError>
    requires { FitsVersion version workers }
    ensures { MatchResult result (λ r. (text.now ≡ lines_of_rows (line_by version) r.0.rows ++ r.1.now)
        × All (FitsRow workers) r.0.rows × (is_over r.1.now ≡ true)) (λ e. e ≢ JournalError.Memory
        → ¬ HasRows version workers text.now) }
{
    let mut rows = RowRuns::new(alloc);
    let mut rest = text;
    'rows: while !is_over(rest) {
        match row(version, workers, rest) {
            Some((row, following)) => {
                rows.add(row)?;
                rest = following;
            }
            None => return Err(JournalError::Row(rows.rows().len().saturating_add(1))),
        }
    }
    Ok((rows, rest))
}

/// Whether the rows end here: with the text, or before a line that begins with `end`.
fn is_over(text: &[u8]) -> bool
    ensures { result ≡ is_over text.now }
{
    text.is_empty() || text.starts_with(b"end")
}

/// A row's line.
fn row(version: Version, workers: u8, text: &[u8]) -> Option<(Row, &[u8])>
    ensures { Tells result (row_at version workers text.now) }
{
    let (actor, rest) = actor(text)?;
    let (outcome, rest) = outcome(rest)?;
    let (worker, rest) = worker(version, workers, rest)?;
    let row = Row {
        actor,
        outcome,
        worker,
    };
    Some((row, rest))
}

/// A thread's number or a `c`, and a space.
fn actor(text: &[u8]) -> Option<(Actor, &[u8])>
    ensures { Tells result (actor_at text.now) }
{
    if let Some(rest) = following(b"c ", text) {
        return Some((Actor::Collector, rest));
    }
    let (thread, rest) = number(text, b' ')?;
    if thread < 256 {
        Some((Actor::Thread(thread as u8), rest))
    } else {
        None
    }
}

fn outcome(text: &[u8]) -> Option<(Outcome, &[u8])>
    ensures { Tells result (outcome_at text.now) }
{
    match text {
        [letter, rest @ ..] => Some((outcome_of(*letter)?, rest)),
        [] => None,
    }
}

fn outcome_of(letter: u8) -> Option<Outcome>
    ensures { result ≡ outcome_of letter }
{
    match letter {
        b'd' => Some(Outcome::Done),
        b'o' => Some(Outcome::Object),
        b'n' => Some(Outcome::NoRoom),
        b'f' => Some(Outcome::Fault),
        _ => None,
    }
}

/// The worker that a row of version 2 tells, and the line's end.
fn worker(version: Version, workers: u8, text: &[u8]) -> Option<(u8, &[u8])>
    ensures { Tells result (worker_at version workers text.now) }
{
    match version {
        Version::One => Some((0, following(b"\n", text)?)),
        Version::Two => {
            let (worker, rest) = number(following(b" ", text)?, b'\n')?;
            if worker < u32::from(workers) {
                Some((worker as u8, rest))
            } else {
                None
            }
        }
    }
}
