//! The statements of a method's body.
ghost use Rattle.std.specs.Prelude.{◌≡◌, ◌≢◌, ℕ, List, [], ◌∷◌, codes, true, false, None, Some, IfOk, MatchOption};
ghost use Rattle.std.specs.Prelude.{MatchResult};
ghost use Rattle.std.specs.Option.{option_map, option_and_then};
ghost use Rattle.model.specs.Texts.Classes.{is_end};
ghost use Rattle.model.specs.Texts.Instructions.{instruction_of};
ghost use Rattle.model.specs.Texts.Methods.{label_of, line_of, saying_of};
ghost use Rattle.model.specs.Texts.Numbers.{natural_to};
ghost use Rattle.model.specs.Texts.Operands.{only};
ghost use Rattle.jasmin.specs.Bodies.{Says, SaysNothing, opened};
ghost use Rattle.jasmin.specs.Switches.{switch_of};

use crate::catches::catch_row;
use crate::errors::Fault;
use crate::heads::method_head;
use crate::instructions::{instruction_by, wide_instruction};
use crate::mnemonics::mnemonic;
use crate::operands::only;
use crate::switches::{OpenSwitch, SwitchLine, lookup_begins, switch_line, table_begins};
use crate::written_numbers::natural;
use jasmin_words::statements::{NotText, Statement, Statements};
use jasmin_words::words::Words;
use model::flags::ClassFlags;
use model::good_names::is_part;
use model::names::Name;
use model::trees::{CatchRow, TextLine, Written};
use std::alloc::Global;

/// The next statement, if one is left.
pub fn next_of<'a>(statements: &mut Statements<'a>) -> Result<Option<Statement<'a>>, Fault>
    ensures { MatchResult result (λ found. MatchOption found ((statements.old ≡ [])
        × (statements.new ≡ [])) (λ s. statements.old ≡ Some (s.first.now ∷ s.operands) ∷ statements.new))
        (λ _. statements.old ≡ None ∷ statements.new) }
{
    match statements.next_statement() {
        Ok(found) => Ok(found),
        Err(NotText) => Err(Fault::Byte),
    }
}

/// What a statement of a body says.
#[derive(Drop)]
pub enum Part {
    /// `.end method`
    End,
    StackLimit(u16),
    LocalsLimit(u16),
    Row(CatchRow),
    Line(TextLine),
    /// a switch of which lines may follow
    Open(OpenSwitch),
}

/// Which limits of a body were given so far.
#[derive(Clone, Copy)]
pub struct Given {
    pub stack: bool,
    pub locals: bool,
}

/// What a statement of a body says, in a class with these flags, where a switch may be open.
pub fn part_of(
    alloc: Global,
    class: ClassFlags,
    given: Given,
    current: Option<OpenSwitch>,
    statement: Statement<'_>,
) -> Result<Part, Fault>
    ensures { MatchResult result (λ part. Says (opened current)
        (Some (statement.entry.first.now ∷ statement.entry.operands)) part) (λ e. e ≢ Fault.Memory
        → SaysNothing (opened current) (Some (statement.entry.first.now ∷ statement.entry.operands))) }
{
    match current {
        None => outside_switch(alloc, class, given, statement),
        Some(switch) => in_switch(alloc, given, switch, statement),
    }
}

/// What a statement of a body says, in a class with these flags, where no switch is open.
#[tactic(auto, using(crate::proofs::BodyLemmas::directives))]
fn outside_switch(
    alloc: Global,
    class: ClassFlags,
    given: Given,
    statement: Statement<'_>,
) -> Result<Part, Fault>
    ensures { MatchResult result (λ part. Says None (Some (statement.entry.first.now ∷ statement.entry.operands)) part)
        (λ e. e ≢ Fault.Memory → SaysNothing None (Some (statement.entry.first.now ∷ statement.entry.operands))) }
{
    if statement.first == b".end".as_slice() {
        return end(statement.operands);
    }
    if statement.first == b".limit".as_slice() {
        return limit(given, statement.operands);
    }
    if statement.first == b".catch".as_slice() {
        let row = catch_row(alloc, statement.operands)?;
        return Ok(Part::Row(row));
    }
    if statement.first == b"tableswitch".as_slice() {
        let switch = table_begins(alloc, statement.operands)?;
        return Ok(Part::Open(switch));
    }
    if statement.first == b"lookupswitch".as_slice() {
        let switch = lookup_begins(alloc, statement.operands)?;
        return Ok(Part::Open(switch));
    }
    let line = line_of(alloc, class, statement)?;
    Ok(Part::Line(line))
}

/// What a statement says as a line of an open switch. Where it is none, a directive that is out of place or a limit
/// that is given again is reported before a wrong form.
#[tactic(auto, using(crate::proofs::BodyLemmas::switches))]
fn in_switch(
    alloc: Global,
    given: Given,
    switch: OpenSwitch,
    statement: Statement<'_>,
) -> Result<Part, Fault>
    ensures { MatchResult result (λ part. Says (Some (switch_of switch))
        (Some (statement.entry.first.now ∷ statement.entry.operands)) part) (λ e. e ≢ Fault.Memory
        → saying_of (Some (switch_of switch)) (Some (statement.entry.first.now ∷ statement.entry.operands)) ≡ None) }
{
    let misplaced = is_misplaced(given, &statement);
    match switch_line(alloc, switch, statement) {
        Ok(SwitchLine::GoesOn(next)) => Ok(Part::Open(next)),
        Ok(SwitchLine::Ends(instruction)) => Ok(Part::Line(TextLine::Instruction(instruction))),
        Err(Fault::Memory) => Err(Fault::Memory),
        Err(fault) => Err(if misplaced { Fault::Statement } else { fault }),
    }
}

/// Whether a statement of a body would be a directive that is out of place, or a limit that is given again.
fn is_misplaced(given: Given, statement: &Statement<'_>) -> bool {
    if statement.first == b".limit".as_slice() {
        let mut operands = statement.operands.again();
        match operands.next_word() {
            Some(which) => {
                which == b"stack".as_slice() && given.stack
                    || which == b"locals".as_slice() && given.locals
            }
            None => false,
        }
    } else {
        matches!(statement.first, [b'.', ..])
            && statement.first != b".end".as_slice()
            && statement.first != b".catch".as_slice()
            && statement.first != b".method".as_slice()
    }
}

/// The end of a method without a body, in a class with these flags.
#[tactic(auto, using(crate::proofs::BodyLemmas::directives))]
pub fn end_of(class: ClassFlags, statement: Statement<'_>) -> Result<(), Fault>
    ensures { MatchResult result (λ _. is_end (Some (statement.entry.first.now ∷ statement.entry.operands))
        ≡ true) (λ _. is_end (Some (statement.entry.first.now ∷ statement.entry.operands)) ≡ false) }
{
    if statement.first == b".end".as_slice() {
        return ends_method(statement.operands);
    }
    if statement.first == b".method".as_slice() {
        return Err(other_fault(class, statement));
    }
    Err(Fault::Statement)
}

/// The words after `.end`.
#[tactic(auto, using(crate::proofs::BodyLemmas::directives))]
fn end(operands: Words<'_>) -> Result<Part, Fault>
    ensures { MatchResult result (λ part. Says None (Some (codes ".end" ∷ operands.entry)) part)
        (λ _. SaysNothing None (Some (codes ".end" ∷ operands.entry))) }
{
    match ends_method(operands) {
        Ok(()) => Ok(Part::End),
        Err(fault) => Err(fault),
    }
}

/// That `method` stands after `.end`, alone.
fn ends_method(operands: Words<'_>) -> Result<(), Fault>
    ensures { MatchResult result (λ _. is_end (Some (codes ".end" ∷ operands.entry))
        ≡ true) (λ _. is_end (Some (codes ".end" ∷ operands.entry)) ≡ false) }
{
    if only(operands)? == b"method".as_slice() {
        Ok(())
    } else {
        Err(Fault::Operand)
    }
}

/// The words after `.limit`. A limit that is given again is reported before a fault of its number.
fn limit(given: Given, mut operands: Words<'_>) -> Result<Part, Fault>
    ensures { MatchResult result (λ part. Says None (Some (codes ".limit" ∷ operands.entry)) part)
        (λ _. SaysNothing None (Some (codes ".limit" ∷ operands.entry))) }
{
    let which = operands.next_word().ok_or(Fault::Operand)?;
    if which == b"stack".as_slice() {
        match units(operands) {
            Ok(n) => Ok(Part::StackLimit(n)),
            Err(fault) => Err(if given.stack { Fault::Statement } else { fault }),
        }
    } else if which == b"locals".as_slice() {
        match units(operands) {
            Ok(n) => Ok(Part::LocalsLimit(n)),
            Err(fault) => Err(if given.locals {
                Fault::Statement
            } else {
                fault
            }),
        }
    } else {
        Err(Fault::Operand)
    }
}

/// The one operand, a number of units.
fn units(operands: Words<'_>) -> Result<u16, Fault>
    ensures { MatchResult result (λ n. option_and_then (natural_to 65535) (only operands.entry)
        ≡ Some n) (λ _. option_and_then (natural_to 65535) (only operands.entry) ≡ None) }
{
    natural(only(operands)?, 65_535)
}

/// A label alone, or an instruction, in a class with these flags.
fn line_of(alloc: Global, class: ClassFlags, statement: Statement<'_>) -> Result<TextLine, Fault>
    ensures { MatchResult result (λ line. line_of
        (label_of statement.entry.first.now) statement.entry.first.now statement.entry.operands ≡ Some line) (λ e. e
        ≢ Fault.Memory
        → line_of (label_of statement.entry.first.now) statement.entry.first.now statement.entry.operands ≡ None) }
{
    match label_of(statement.first) {
        Some(label) => {
            let mut operands = statement.operands;
            match operands.next_word() {
                None => Ok(TextLine::Label(Name::copy_of(alloc, label)?)),
                Some(_) => Err(Fault::Operand),
            }
        }
        None => {
            let instruction = instruction_of(alloc, class, statement)?;
            Ok(TextLine::Instruction(instruction))
        }
    }
}

/// The label that a word with a colon after it gives.
pub fn label_of(word: &[u8]) -> Option<&[u8]>
    ensures { option_map (λ label. label.now) result ≡ label_of word.now }
{
    let name = word.strip_suffix(b":")?;
    if is_part(name) { Some(name) } else { None }
}

/// An instruction, in a class with these flags.
fn instruction_of(
    alloc: Global,
    class: ClassFlags,
    statement: Statement<'_>,
) -> Result<Written, Fault>
    ensures { MatchResult result (λ i. instruction_of (statement.entry.first.now ∷ statement.entry.operands)
        ≡ Some i) (λ e. e ≢ Fault.Memory → instruction_of (statement.entry.first.now ∷ statement.entry.operands)
        ≡ None) }
{
    if statement.first == b"wide".as_slice() {
        return wide_instruction(statement.operands);
    }
    match mnemonic(statement.first) {
        Some(mnemonic) => instruction_by(alloc, mnemonic, statement.operands),
        None => Err(other_fault(class, statement)),
    }
}

/// What is wrong with a statement of a body, in a class with these flags, that is neither `.end`, `.limit`, `.catch`, a
/// label nor an instruction: a method begins, which may be at fault itself, or a directive is out of place, or a
/// mnemonic is unknown.
fn other_fault(class: ClassFlags, statement: Statement<'_>) -> Fault {
    if statement.first == b".method".as_slice() {
        return match method_head(class, statement) {
            Ok(_) => Fault::End,
            Err(fault) => fault,
        };
    }
    match statement.first {
        [b'.', ..] => Fault::Statement,
        _ => Fault::Mnemonic,
    }
}
