//! What stands before a journal's rows.
ghost use Rattle.std.specs.Prelude.{◌≡◌, Some, codes, IfSome, MatchResult};
ghost use Rattle.journal_texts.specs.JournalReading.{Tells, version_at, heap_at, limits_at, workers_at, head_at, Fits};

use crate::errors::JournalError;
use crate::words::{following, number};
use model::journals::{HeapShape, Limits};

/// The versions of a journal's text: in the first there is one worker, and no word of it.
#[derive(Clone, Copy, Debug, PartialEq, Eq)]
pub enum Version {
    One,
    Two,
}

/// What stands before the rows.
#[derive(Clone, Copy, Debug, PartialEq, Eq)]
pub struct Head {
    pub version: Version,
    pub shape: HeapShape,
    pub limits: Limits,
    pub workers: u8,
}

/// What stands before the rows, and the text after it. N1, N2 and N7 for the first line that is faulty.
pub fn read_head(text: &[u8]) -> Result<(Head, &[u8]), JournalError>
    ensures { MatchResult result (λ r. (head_at text.now ≡ Some (r.0, r.1.now))
        × Fits r.0) (λ _. IfSome (head_at text.now) (λ r. ¬ Fits r.0)) }
{
    let (version, rest) = first_line(text).ok_or(JournalError::Version)?;
    let (shape, rest) = heap(rest).ok_or(JournalError::Head)?;
    let (limits, rest) = limits(rest).ok_or(JournalError::Head)?;
    if !(shape.is_in_range() && limits.is_in_range()) {
        return Err(JournalError::Head);
    }
    let (workers, rest) = workers(version, rest).ok_or(JournalError::Workers)?;
    if !(1..=9).contains(&workers) {
        return Err(JournalError::Workers);
    }
    let head = Head {
        version,
        shape,
        limits,
        workers: workers as u8,
    };
    Ok((head, rest))
}

/// The version that the first line names.
fn first_line(text: &[u8]) -> Option<(Version, &[u8])>
    ensures { Tells result (version_at text.now) }
{
    if let Some(rest) = following(b"JVMJ 1\n", text) {
        return Some((Version::One, rest));
    }
    let rest = following(b"JVMJ 2\n", text)?;
    Some((Version::Two, rest))
}

/// The heap's line.
fn heap(text: &[u8]) -> Option<(HeapShape, &[u8])>
    ensures { Tells result (heap_at text.now) }
{
    let rest = following(b"heap ", text)?;
    let (small, rest) = number(rest, b' ')?;
    let (medium, rest) = number(rest, b' ')?;
    let (large, rest) = number(rest, b'\n')?;
    let shape = HeapShape {
        small,
        medium,
        large,
    };
    Some((shape, rest))
}

/// The line of the limits.
fn limits(text: &[u8]) -> Option<(Limits, &[u8])>
    ensures { Tells result (limits_at text.now) }
{
    let rest = following(b"limits ", text)?;
    let (steps, rest) = number(rest, b' ')?;
    let (output, rest) = number(rest, b'\n')?;
    Some((Limits { steps, output }, rest))
}

/// The number of workers, which has a line in version 2.
fn workers(version: Version, text: &[u8]) -> Option<(u32, &[u8])>
    ensures { Tells result (workers_at version text.now) }
{
    match version {
        Version::One => Some((1, text)),
        Version::Two => number(following(b"workers ", text)?, b'\n'),
    }
}
