//! What a page says first: the heap, the limits, and the sources.
ghost use Rattle.std.specs.Prelude.{◌≡◌, None, Some, MatchOption};
ghost use Rattle.journal_texts.specs.JournalReading.{Tells, heap_at, limits_at};
ghost use Rattle.page_texts.specs.Settings.{TellsSource, source_at, sources_count_at};

use journal_texts::words::{following, number};
use model::journals::{HeapShape, Limits};

/// The heap's line, and what stands after it: how many small, medium and large cells there are.
pub fn heap(text: &[u8]) -> Option<(HeapShape, &[u8])>
    ensures { Tells result (heap_at text.now) }
{
    let rest = following(b"heap ", text)?;
    let (small, rest) = number(rest, b' ')?;
    let (medium, rest) = number(rest, b' ')?;
    let (large, rest) = number(rest, b'\n')?;
    let shape = HeapShape {
        small,
        medium,
        large,
    };
    Some((shape, rest))
}

/// The line of the limits, and what stands after it: how many turns and how many bytes of output there may be.
pub fn limits(text: &[u8]) -> Option<(Limits, &[u8])>
    ensures { Tells result (limits_at text.now) }
{
    let rest = following(b"limits ", text)?;
    let (steps, rest) = number(rest, b' ')?;
    let (output, rest) = number(rest, b'\n')?;
    Some((Limits { steps, output }, rest))
}

/// The line that tells how many sources there are, and what stands after it.
pub fn sources_count(text: &[u8]) -> Option<(u32, &[u8])>
    ensures { Tells result (sources_count_at text.now) }
{
    let rest = following(b"sources ", text)?;
    number(rest, b'\n')
}

/// A source, after a line with the number of its bytes, and what stands after it.
pub fn source(text: &[u8]) -> Option<(&[u8], &[u8])>
    ensures { TellsSource result (source_at text.now) }
{
    let rest = following(b"source ", text)?;
    let (length, rest) = number(rest, b'\n')?;
    let length = length as usize;
    if length <= rest.len() {
        Some(rest.split_at(length))
    } else {
        None
    }
}
