//! The lines on which a method gives and uses its labels: that a label is at fault is known only once the method was
//! read, at lines after.
ghost use Rattle.std.specs.Prelude.{◌≡◌};

use crate::bodies::{Part, label_of};
use crate::errors::{Fault, TextError};
use crate::labels::Labels;
use jasmin_words::lines::Lines;
use jasmin_words::statements::is_text;
use jasmin_words::words::Words;
use model::instructions::Instruction;
use model::names::Name;
use model::trees::{TextLine, Written};
use std::alloc::{AllocError, Global};

/// A label that a line gives, and the number of instructions before it.
#[derive(Drop)]
struct GivenLabel {
    name: Name,
    line: usize,
    before: usize,
}

/// A label that a line uses, and whether it bounds a row.
#[derive(Drop)]
struct UsedLabel {
    name: Name,
    line: usize,
    bound: bool,
}

/// The labels of the method that is being read, in the order of their lines.
#[derive(Drop)]
pub struct LabelLines {
    given: Vec<GivenLabel>,
    used: Vec<UsedLabel>,
    instructions: usize,
    /// whether a switch has begun, which is an instruction even if it is never finished
    in_switch: bool,
}

impl LabelLines {
    pub fn new(alloc: Global) -> LabelLines {
        LabelLines {
            given: Vec::new(alloc),
            used: Vec::new(alloc),
            instructions: 0,
            in_switch: false,
        }
    }

    /// Forgets the labels of a method that was read.
    pub fn clear(&mut self) {
        self.given.clear();
        self.used.clear();
        self.instructions = 0;
        self.in_switch = false;
    }

    /// Notes the labels in what a line of a body says.
    pub fn note(&mut self, part: &Part, line: usize) -> Result<(), AllocError> {
        match part {
            Part::Row(row) => {
                self.note_use(&row.start, line, true)?;
                self.note_use(&row.end, line, true)?;
                self.note_use(&row.handler, line, false)
            }
            Part::Line(TextLine::Label(name)) => self.note_label(name.share()?, line),
            Part::Line(TextLine::Instruction(instruction)) => {
                self.note_instruction(instruction, line)
            }
            Part::Open(switch) => {
                self.in_switch = true;
                match switch.last_label() {
                    Some(label) => self.note_use(label, line, false),
                    None => Ok(()),
                }
            }
            Part::End | Part::StackLimit(_) | Part::LocalsLimit(_) => Ok(()),
        }
    }

    fn note_label(&mut self, name: Name, line: usize) -> Result<(), AllocError> {
        let before = self.instructions;
        self.given.push(GivenLabel { name, line, before })?;
        Ok(())
    }

    /// Notes an instruction and the label on its line, which is the last line of a switch.
    fn note_instruction(&mut self, instruction: &Written, line: usize) -> Result<(), AllocError> {
        self.instructions = self.instructions.saturating_add(1);
        self.in_switch = false;
        match instruction {
            Instruction::Branch(_, target) => self.note_use(target, line, false),
            Instruction::TableSwitch(table) => self.note_use(&table.default, line, false),
            Instruction::LookupSwitch(lookup) => self.note_use(&lookup.default, line, false),
            _ => Ok(()),
        }
    }

    fn note_use(&mut self, name: &Name, line: usize, bound: bool) -> Result<(), AllocError> {
        let name = name.share()?;
        self.used.push(UsedLabel { name, line, bound })?;
        Ok(())
    }

    /// Notes the label on a line of a switch whose key is out of its range, of the words after the key.
    pub fn note_pair(
        &mut self,
        alloc: Global,
        mut operands: Words<'_>,
        line: usize,
    ) -> Result<(), AllocError> {
        // the colon
        operands.next_word();
        match operands.next_word() {
            Some(label) => self.note_use(&Name::copy_of(alloc, label)?, line, false),
            None => Ok(()),
        }
    }

    /// The fault that is reported where reading a text ended with this one: that of a label on a line before it in the
    /// method that was open there, if there is one; on the same line the lower one. Faults of memory stay.
    pub fn reported(&mut self, alloc: Global, text: &[u8], error: TextError) -> TextError
        ensures { error.fault ≡ Fault.Memory → result.fault ≡ Fault.Memory }
    {
        if error.fault == Fault::Memory {
            return error;
        }
        match self.fault_before(alloc, text, error.line) {
            Ok(Some(of_label)) => earliest(Some(error), of_label),
            Ok(None) => error,
            Err(_) => TextError {
                line: error.line,
                fault: Fault::Memory,
            },
        }
    }

    /// The first fault of a label up to a line of a text, at which reading ended.
    fn fault_before(
        &mut self,
        alloc: Global,
        text: &[u8],
        line: usize,
    ) -> Result<Option<TextError>, AllocError> {
        if self.used.is_empty() && self.given.is_empty() {
            return Ok(None);
        }
        self.note_rest(alloc, text, line)?;
        let (labels, again) = self.labels_before(alloc, line)?;
        let mut first = again;
        for used in &self.used {
            if let Some(fault) = self.fault_of(&labels, used) {
                first = Some(earliest(
                    first,
                    TextError {
                        line: used.line,
                        fault,
                    },
                ));
            }
        }
        Ok(first)
    }

    /// Notes the labels that a method gives from a line on, well formed or not.
    fn note_rest(&mut self, alloc: Global, text: &[u8], line: usize) -> Result<(), AllocError> {
        if self.in_switch {
            self.instructions = self.instructions.saturating_add(1);
        }
        let mut lines = Lines::new(text);
        for _ in 1..line {
            lines.next_line();
        }
        while let Some(text) = lines.next_line() {
            match kind_of(text) {
                LineKind::Bound => break,
                LineKind::Label(label) => self.note_label(Name::copy_of(alloc, label)?, line)?,
                LineKind::Instruction => {
                    self.instructions = self.instructions.saturating_add(1);
                }
                LineKind::Other => {}
            }
        }
        Ok(())
    }

    /// The labels, each with the number of instructions before the first line that gives it, and the first line before
    /// this one that gives a label again.
    fn labels_before(
        &self,
        alloc: Global,
        line: usize,
    ) -> Result<(Labels<'_, usize>, Option<TextError>), AllocError> {
        let mut labels = Labels::new(alloc);
        let mut again = None;
        for given in &self.given {
            let name = given.name.as_bytes();
            if labels.get(name).is_none() {
                labels.note(name, given.before)?;
            } else if given.line < line && again.is_none() {
                again = Some(TextError {
                    line: given.line,
                    fault: Fault::Label,
                });
            }
        }
        Ok((labels, again))
    }

    /// A label that is used is given, and stands before an instruction where it does not bound a row.
    fn fault_of(&self, labels: &Labels<'_, usize>, used: &UsedLabel) -> Option<Fault> {
        match labels.get(used.name.as_bytes()) {
            None => Some(Fault::Label),
            Some(before) if !used.bound && before >= self.instructions => Some(Fault::Operand),
            Some(_) => None,
        }
    }
}

/// What a line of a method is, well formed or not.
#[derive(Clone, Copy)]
enum LineKind<'a> {
    /// `.end method`, or `.method`, which begins another one
    Bound,
    Label(&'a [u8]),
    Instruction,
    /// no words, or another directive
    Other,
}

fn kind_of(line: &[u8]) -> LineKind<'_> {
    let mut words = Words::new(line);
    let Some(first) = words.next_word() else {
        return if is_text(line) {
            LineKind::Other
        } else {
            LineKind::Instruction
        };
    };
    if matches!(first, [b'.', ..]) {
        return if is_bound(first, words) {
            LineKind::Bound
        } else {
            LineKind::Other
        };
    }
    match label_of(first) {
        Some(label) if words.next_word().is_none() => LineKind::Label(label),
        _ => LineKind::Instruction,
    }
}

/// Whether a directive and the words after it are `.method` or `.end method`.
fn is_bound(first: &[u8], mut words: Words<'_>) -> bool {
    first == b".method".as_slice()
        || first == b".end".as_slice()
            && words.next_word() == Some(b"method".as_slice())
            && words.next_word().is_none()
}

/// The fault of the lesser line, or of one line that with the lower number.
fn earliest(first: Option<TextError>, second: TextError) -> TextError {
    match first {
        Some(first) if first.line < second.line => first,
        Some(first) if first.line == second.line => TextError {
            line: first.line,
            fault: first.fault.or_lower(second.fault),
        },
        _ => second,
    }
}
