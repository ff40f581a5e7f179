//! What stands at the beginning of a text: a given word, or a number.
ghost use Rattle.std.specs.Prelude.{◌≡◌, ◌≤◌, ◌==◌, None, Some, MatchOption, length};
ghost use Rattle.std.specs.List.{position_or_len};
ghost use Rattle.journal_texts.specs.JournalReading.{following, number_of, number_at, Tells};

use itoa::Buffer;
use std::str;

/// What stands after a word with which the text begins.
pub fn following<'a>(word: &[u8], text: &'a [u8]) -> Option<&'a [u8]>
    ensures { MatchOption result (following word.now text.now ≡ None)
        (λ rest. following word.now text.now ≡ Some rest.now) }
{
    text.strip_prefix(word)
}

/// The number with which the text begins, and what stands after it and the byte `end`. It is written as it prints:
/// without a sign, a leading zero or anything else.
pub fn number(text: &[u8], end: u8) -> Option<(u32, &[u8])>
    ensures { Tells result (number_at end text.now) }
{
    let (word, rest) = text.split_at(length_before(end, text));
    match rest {
        [_, rest @ ..] => Some((number_of(word)?, rest)),
        [] => None,
    }
}

/// The number of bytes before the first one that is `end`, or of all.
fn length_before(end: u8, bytes: &[u8]) -> usize
    ensures number { result ≡ position_or_len (λ b. b == end) bytes.now }
    ensures within { result ≤ length bytes.now }
{
    bytes.iter().take_while(|b| **b != end).count()
}

/// The number of 32 bits that prints as this word: digits, of which the first is no 0 but in 0 itself. None where there is none.
pub fn number_of(word: &[u8]) -> Option<u32>
    ensures { result ≡ number_of word.now }
{
    match word {
        [digit] if digit.is_ascii_digit() => Some(u32::from(*digit - b'0')),
        _ => printed_number(word),
    }
}

/// The same of any word, as it parses and prints.
fn printed_number(word: &[u8]) -> Option<u32>
    ensures { result ≡ number_of word.now }
{
    let Ok(text) = str::from_utf8(word) else {
        return None;
    };
    let Ok(number) = text.parse::<u32>() else {
        return None;
    };
    let mut buffer = Buffer::new();
    if buffer.format(number).as_bytes() == word {
        Some(number)
    } else {
        None
    }
}
