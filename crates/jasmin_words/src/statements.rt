//! A text's statements: the lines that have words.
ghost use Rattle.std.specs.Prelude.{◌≡◌, [], ◌∷◌, None, Some, MatchOption, MatchResult};
ghost use Rattle.model.specs.Texts.Lines.{lines_of};
ghost use Rattle.model.specs.Texts.Statements.{is_text_line, statements_of};

use crate::lines::Lines;
use crate::words::Words;
use std::marker::Model;

/// A line has a byte past 7F, or a control byte that may not stand in a text.
#[derive(Clone, Copy, Debug, PartialEq, Eq)]
pub struct NotText;

/// The words of a line that has some: the first, and those after it.
#[derive(Drop)]
pub struct Statement<'a> {
    pub first: &'a [u8],
    pub operands: Words<'a>,
}

/// The statements of a text that are left to read. A contract sees their list, in which a line that is no text stands
/// as `None`.
#[derive(Drop)]
pub struct Statements<'a> {
    lines: Lines<'a>,
    line: usize,
    ended: bool,
}

impl<'a> Model for Statements<'a> {
    ghost use Rattle.std.specs.Prelude.{List};
    ghost use Rattle.model.specs.Texts.Statements.{Statement as Words, statements_of};

    ghost Value = { List Words };

    ghost view = { λ a. statements_of a.lines };
}

impl<'a> Statements<'a> {
    /// The statements of a text.
    pub fn new(text: &'a [u8]) -> Statements<'a>
        ensures { result ≡ statements_of (lines_of text.now) }
    {
        Statements {
            lines: Lines::new(text),
            line: 0,
            ended: false,
        }
    }

    /// The number of the line that was read last, counted from 1, and once the end was met the number of the text's
    /// lines plus 1.
    pub fn line(&self) -> usize {
        self.line.saturating_add(usize::from(self.ended))
    }

    /// The next statement, if one is left. `NotText` where its line is no text; that line is then after.
    pub fn next_statement(&mut self) -> Result<Option<Statement<'a>>, NotText>
        ensures read { MatchResult result (λ found. MatchOption found ((self.old ≡ [])
            × (self.new ≡ [])) (λ s. self.old ≡ Some (s.first.now ∷ s.operands) ∷ self.new)) (λ _. self.old
            ≡ None ∷ self.new) }
    {
        while let Some(line) = self.lines.next_line() {
            self.line = self.line.saturating_add(1);
            if !is_text(line) {
                return Err(NotText);
            }
            let mut operands = Words::new(line);
            if let Some(first) = operands.next_word() {
                return Ok(Some(Statement { first, operands }));
            }
        }
        self.ended = true;
        Ok(None)
    }
}

/// Whether each byte of a line is a tab or a character that prints.
pub fn is_text(line: &[u8]) -> bool
    ensures { result ≡ is_text_line line.now }
{
    line.iter()
        .all(|b| *b == b'\t' || (b' '..=b'~').contains(b))
}
