//! Texts cut by hand.

use jasmin_words::lines::Lines;
use jasmin_words::statements::{NotText, Statements};
use jasmin_words::words::Words;

const LINES: &[Option<&[u8]>] = &[Some(b"ab"), Some(b""), Some(b""), Some(b"c\rd"), None, None];

fn are_cut(lines: &mut Lines<'_>) -> bool {
    for wanted in LINES {
        if lines.next_line() != *wanted {
            return false;
        }
    }
    true
}

const WORDS: &[Option<&[u8]>] = &[Some(b".class"), Some(b"public"), Some(b"a;b"), None, None];

fn are_parted(words: &mut Words<'_>) -> bool {
    for wanted in WORDS {
        if words.next_word() != *wanted {
            return false;
        }
    }
    true
}

/// The first words of statements, none where a line has a byte that no text has, empty at the end; and the lines where
/// they stand.
const STATEMENTS: &[(Option<&[u8]>, usize)] = &[
    (Some(b"nop"), 3),
    (None, 4),
    (None, 5),
    (Some(b"x"), 6),
    (Some(b""), 8),
];

fn are_found(statements: &mut Statements<'_>) -> bool {
    for (wanted, line) in STATEMENTS {
        let found = match statements.next_statement() {
            Ok(Some(statement)) => Some(statement.first),
            Ok(None) => Some(b"".as_slice()),
            Err(NotText) => None,
        };
        if found != *wanted || statements.line() != *line {
            return false;
        }
    }
    true
}

/// Lines end at newlines, words at blanks and comments; statements skip empty lines.
#[test]
fn texts_are_cut(rt: HostRuntime) {
    let mut lines = Lines::new(b"ab\r\n\r\n\nc\rd");
    assert!(rt; are_cut(&mut lines), "lines");
    let mut words = Words::new(b"\t.class  public a;b ;c d");
    assert!(rt; are_parted(&mut words), "words");
    let mut statements = Statements::new(b"; nothing\n \n nop\nret\xffurn\n;\x7f\nx\n\n");
    assert!(rt; are_found(&mut statements), "statements");
}
