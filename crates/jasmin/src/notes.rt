//! What reading keeps beside the tree.

use crate::label_lines::LabelLines;
use crate::shared_names::SharedNames;
use std::alloc::{AllocError, Global};

/// The labels of the method that is being read, names for later ones to share, and how many lines the text has.
#[derive(Drop)]
pub struct Notes {
    pub labels: LabelLines,
    pub names: SharedNames,
    lines: usize,
}

/// How many lines of a text end with a newline.
fn lines_in(text: &[u8]) -> usize {
    let mut lines: usize = 0;
    for byte in text {
        if *byte == b'\n' {
            lines = lines.saturating_add(1);
        }
    }
    lines
}

impl Notes {
    /// Nothing noted yet of this text. `AllocError` where memory runs out.
    pub fn new(alloc: Global, text: &[u8]) -> Result<Notes, AllocError> {
        Ok(Notes {
            labels: LabelLines::new(alloc),
            names: SharedNames::new(alloc)?,
            lines: lines_in(text),
        })
    }

    /// How many lines follow the one of this number.
    pub fn lines_after(&self, line: usize) -> usize {
        self.lines.saturating_sub(line)
    }
}
