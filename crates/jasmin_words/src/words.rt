//! A line's words.
ghost use Rattle.std.specs.Prelude.{◌≡◌, not, true, false, [], ◌∷◌, MatchOption};
ghost use Rattle.std.specs.List.{position};
ghost use Rattle.model.specs.Texts.Words.{is_blank, ends_word, runs_of, begins_comment, words_of};

use std::marker::Model;

/// The words of a line that are left to read, up to a comment. A contract sees the list of the words, each the list of
/// its bytes.
#[derive(Drop)]
pub struct Words<'a> {
    rest: &'a [u8],
}

impl<'a> Model for Words<'a> {
    ghost use Rattle.std.specs.Prelude.{List, ℕ};
    ghost use Rattle.model.specs.Texts.Words.{words_of};

    ghost Value = { List (List ℕ) };

    ghost view = { λ a. words_of a.rest.now };
}

impl<'a> Words<'a> {
    /// The words of a line.
    pub fn new(line: &'a [u8]) -> Words<'a>
        ensures { result ≡ words_of line.now }
    {
        Words { rest: line }
    }

    /// The same words, to be read on their own.
    pub fn again(&self) -> Words<'a>
        ensures { result ≡ self.now }
    {
        Words { rest: self.rest }
    }

    /// The next word, if one is left.
    pub fn next_word(&mut self) -> Option<&'a [u8]>
        ensures { MatchOption result ((self.old ≡ []) × (self.new ≡ [])) (λ word. self.old ≡ word.now ∷ self.new) }
    {
        let line = less_blanks(self.rest);
        if line.is_empty() {
            return None;
        }
        let (word, rest) = cut_word(line);
        if is_comment(word) {
            return None;
        }
        self.rest = rest;
        Some(word)
    }
}

/// A line from its first word on.
fn less_blanks(line: &[u8]) -> &[u8]
    ensures runs { runs_of line.now ≡ runs_of result.now }
    ensures first { ends_word result.now ≡ true → result.now ≡ [] }
{
    match word_in(line) {
        Some(start) => &line[start..],
        None => &line[line.len()..],
    }
}

/// The first word of a line that begins with one, a comment's too, and what stands after it.
fn cut_word(line: &[u8]) -> (&[u8], &[u8])
    requires { ends_word line.now ≡ false }
    ensures { runs_of line.now ≡ result.0.now ∷ runs_of result.1.now }
{
    match blank_in(line) {
        Some(end) => (&line[..end], &line[end..]),
        None => (line, &line[line.len()..]),
    }
}

/// The place of the first byte of a word.
fn word_in(line: &[u8]) -> Option<usize>
    ensures { result ≡ position (λ b. not (is_blank b)) line.now }
{
    line.iter().position(|b| *b != b' ' && *b != b'\t')
}

/// The place of the first space or tab.
fn blank_in(line: &[u8]) -> Option<usize>
    ensures { result ≡ position (λ b. is_blank b) line.now }
{
    line.iter().position(|b| *b == b' ' || *b == b'\t')
}

/// Whether a comment begins with this word.
fn is_comment(word: &[u8]) -> bool
    ensures { result ≡ begins_comment word.now }
{
    matches!(word, [b';', ..])
}
