//! Switches, which stand on several lines.
ghost use Rattle.std.specs.Prelude.{◌≡◌, ◌≢◌, ◌∷◌, None, Some, MatchResult, IfOk};
ghost use Rattle.std.specs.Option.{option_map, option_and_then};
ghost use Rattle.model.specs.Texts.Operands.{label_named};
ghost use Rattle.model.specs.Texts.Switches.{table_begins, lookup_begins, with_default, with_target, with_pair};
ghost use Rattle.model.specs.Texts.Switches.{line_before, switch_line, is_int, goes_on};
ghost use Rattle.jasmin.specs.Switches.{switch_of, line_said};

use crate::errors::Fault;
use crate::instructions::label_named;
use crate::operands::only_number;
use crate::written_numbers::integer;
use jasmin_words::statements::Statement;
use jasmin_words::words::Words;
use model::instructions::{Instruction, LookupSwitch, TableSwitch};
use model::names::Name;
use model::trees::Written;
use std::alloc::Global;
use std::marker::Model;

/// A `tableswitch` of which lines may follow: its least key, and its labels so far. A contract sees both.
#[derive(Drop)]
pub struct OpenTable {
    low: i32,
    targets: Vec<Name>,
}

impl Model for OpenTable {
    ghost use Rattle.std.specs.Prelude.{ℤ, ℕ, List};

    ghost Value = { ℤ × List (List ℕ) };

    ghost view = { λ a. (a.low, a.targets.items) };
}

/// A `lookupswitch` of which lines may follow: its keys and their labels so far. A contract sees their list.
#[derive(Drop)]
pub struct OpenLookup {
    pairs: Vec<(i32, Name)>,
}

impl Model for OpenLookup {
    ghost use Rattle.std.specs.Prelude.{ℤ, ℕ, List};

    ghost Value = { List (ℤ × List ℕ) };

    ghost view = { λ a. a.pairs.items };
}

/// A switch of which lines may follow.
#[derive(Drop)]
pub enum OpenSwitch {
    Table(OpenTable),
    Lookup(OpenLookup),
}

impl OpenSwitch {
    /// The label on the line that was read last, if there is one.
    pub fn last_label(&self) -> Option<&Name> {
        match self {
            OpenSwitch::Table(table) => table.targets.as_slice().last(),
            OpenSwitch::Lookup(lookup) => match lookup.pairs.as_slice() {
                [.., (_, label)] => Some(label),
                [] => None,
            },
        }
    }
}

/// What a line of a switch says: what is to follow, or by its default the whole instruction.
#[derive(Drop)]
pub enum SwitchLine {
    GoesOn(OpenSwitch),
    Ends(Written),
}

/// A `tableswitch` with its least key.
pub fn table_begins(alloc: Global, operands: Words<'_>) -> Result<OpenSwitch, Fault>
    ensures { MatchResult result (λ switch. table_begins operands.entry
        ≡ Some (switch_of switch)) (λ _. table_begins operands.entry ≡ None) }
{
    let low = only_number(operands, -0x8000_0000, 0x7fff_ffff)?;
    Ok(OpenSwitch::Table(OpenTable {
        low: low as i32,
        targets: Vec::new(alloc),
    }))
}

/// A `lookupswitch`, which has nothing after it.
pub fn lookup_begins(alloc: Global, mut operands: Words<'_>) -> Result<OpenSwitch, Fault>
    ensures { MatchResult result (λ switch. lookup_begins operands.entry
        ≡ Some (switch_of switch)) (λ _. lookup_begins operands.entry ≡ None) }
{
    match operands.next_word() {
        None => Ok(OpenSwitch::Lookup(OpenLookup {
            pairs: Vec::new(alloc),
        })),
        Some(_) => Err(Fault::Operand),
    }
}

/// A line of a switch: a label of a table, or after a key or `default` and a colon a label.
pub fn switch_line(
    alloc: Global,
    switch: OpenSwitch,
    statement: Statement<'_>,
) -> Result<SwitchLine, Fault>
    ensures { MatchResult result (λ line. switch_line (switch_of switch)
        (statement.entry.first.now ∷ statement.entry.operands) ≡ Some (line_said line)) (λ e. e ≢ Fault.Memory
        → switch_line (switch_of switch) (statement.entry.first.now ∷ statement.entry.operands) ≡ None) }
{
    let mut operands = statement.operands;
    let Some(colon) = operands.next_word() else {
        let next = with_target(alloc, switch, statement.first)?;
        return Ok(SwitchLine::GoesOn(next));
    };
    let label = operands.next_word().ok_or(Fault::Operand)?;
    if operands.next_word().is_some() {
        return Err(Fault::Operand);
    }
    if colon != b":".as_slice() {
        return Err(Fault::Operand);
    }
    line_before(alloc, switch, statement.first, label)
}

/// A table with one more label.
fn with_target(alloc: Global, switch: OpenSwitch, word: &[u8]) -> Result<OpenSwitch, Fault>
    ensures { MatchResult result (λ next. option_and_then (with_target (switch_of switch)) (label_named word.now)
        ≡ Some (switch_of next)) (λ e. e ≢ Fault.Memory
        → option_and_then (with_target (switch_of switch)) (label_named word.now) ≡ None) }
{
    let label = label_named(alloc, word)?;
    match switch {
        OpenSwitch::Table(table) => {
            let OpenTable { low, mut targets } = table;
            targets.push(label)?;
            Ok(OpenSwitch::Table(OpenTable { low, targets }))
        }
        OpenSwitch::Lookup(_) => Err(Fault::Operand),
    }
}

/// A line with a key or `default`, and a label.
fn line_before(
    alloc: Global,
    switch: OpenSwitch,
    word: &[u8],
    label: &[u8],
) -> Result<SwitchLine, Fault>
    ensures { MatchResult result (λ line. option_and_then (line_before (switch_of switch) word.now)
        (label_named label.now) ≡ Some (line_said line)) (λ e. e ≢ Fault.Memory
        → option_and_then (line_before (switch_of switch) word.now) (label_named label.now) ≡ None) }
{
    let label = label_named(alloc, label)?;
    if word == b"default".as_slice() {
        let instruction = with_default(switch, label)?;
        return Ok(SwitchLine::Ends(instruction));
    }
    let next = with_pair(switch, word, label)?;
    Ok(SwitchLine::GoesOn(next))
}

/// A switch with its default. A table has a label at least.
fn with_default(switch: OpenSwitch, default: Name) -> Result<Written, Fault>
    ensures { MatchResult result (λ i. with_default (switch_of switch) default
        ≡ Some i) (λ _. with_default (switch_of switch) default ≡ None) }
{
    match switch {
        OpenSwitch::Table(table) => {
            let OpenTable { low, targets } = table;
            if targets.is_empty() {
                return Err(Fault::Operand);
            }
            Ok(Instruction::TableSwitch(TableSwitch {
                low,
                targets,
                default,
            }))
        }
        OpenSwitch::Lookup(lookup) => Ok(Instruction::LookupSwitch(LookupSwitch {
            pairs: lookup.pairs,
            default,
        })),
    }
}

/// A lookup with one more key and its label.
fn with_pair(switch: OpenSwitch, word: &[u8], label: Name) -> Result<OpenSwitch, Fault>
    ensures { MatchResult result (λ next. with_pair (switch_of switch) (is_int word.now) label
        ≡ Some (switch_of next)) (λ e. e ≢ Fault.Memory → with_pair (switch_of switch) (is_int word.now) label ≡ None) }
{
    match switch {
        OpenSwitch::Table(_) => Err(Fault::Operand),
        OpenSwitch::Lookup(lookup) => {
            let key = integer(word, -0x8000_0000, 0x7fff_ffff)?;
            let OpenLookup { mut pairs } = lookup;
            pairs.push((key as i32, label))?;
            Ok(OpenSwitch::Lookup(OpenLookup { pairs }))
        }
    }
}
