//! Whether the labels of a body are used as they are given.
ghost use Rattle.std.specs.Prelude.{◌≡◌, ◌≢◌, true, false, map, MatchResult};
ghost use Rattle.std.specs.List.{list_all};
ghost use Rattle.model.specs.Texts.Uses.{labels_in, count_in, are_different, is_given, leads_on, targets_of};
ghost use Rattle.model.specs.Texts.Uses.{line_agrees, row_agrees, labels_agree};

use crate::errors::Fault;
use crate::labels::Labels;
use model::instructions::Instruction;
use model::names::Name;
use model::trees::{CatchRow, TextLine, Written};
use std::alloc::Global;

/// Whether each label of a body is given once, and each that is used is given, before an instruction but where it
/// bounds a row.
#[tactic(auto, unfolding(model::specs::Texts::Uses::labels_agree))]
pub fn labels_agree(alloc: Global, rows: &[CatchRow], lines: &[TextLine]) -> Result<(), Fault>
    ensures { MatchResult result (λ _. labels_agree rows.now lines.now ≡ true) (λ e. e ≢ Fault.Memory
        → labels_agree rows.now lines.now ≡ false) }
{
    let (labels, count) = labels_in(alloc, lines)?;
    if !lines_agree(&labels, count, lines) {
        return Err(Fault::Label);
    }
    if !rows_agree(&labels, count, rows) {
        return Err(Fault::Label);
    }
    Ok(())
}

/// The labels of lines, each with the number of instructions before it, and the number of instructions. A label that is
/// given twice is refused.
fn labels_in<'a>(alloc: Global, lines: &'a [TextLine]) -> Result<(Labels<'a, usize>, usize), Fault>
    ensures { MatchResult result (λ found. (found.0 ≡ labels_in lines.now) × (found.1 ≡ count_in lines.now)
        × (are_different (labels_in lines.now) ≡ true)) (λ e. e ≢ Fault.Memory
        → are_different (labels_in lines.now) ≡ false) }
{
    let mut labels = Labels::new(alloc);
    let mut count = 0usize;
    for line in lines {
        match line {
            TextLine::Label(name) => {
                let name = name.as_bytes();
                if labels.get(name).is_some() {
                    return Err(Fault::Label);
                }
                labels.note(name, count)?;
            }
            TextLine::Instruction(_) => count += 1,
        }
    }
    Ok((labels, count))
}

fn lines_agree(labels: &Labels<'_, usize>, count: usize, lines: &[TextLine]) -> bool
    ensures { result ≡ list_all (line_agrees labels.now count) lines.now }
{
    lines.iter().all(|line| line_agrees(labels, count, line))
}

fn line_agrees(labels: &Labels<'_, usize>, count: usize, line: &TextLine) -> bool
    ensures { result ≡ line_agrees labels.now count line.now }
{
    match line {
        TextLine::Label(_) => true,
        TextLine::Instruction(instruction) => targets_lead_on(labels, count, instruction),
    }
}

fn targets_lead_on(labels: &Labels<'_, usize>, count: usize, instruction: &Written) -> bool
    ensures { result ≡ list_all (leads_on labels.now count) (targets_of instruction.now) }
{
    match instruction {
        Instruction::Branch(_, target) => leads_on(labels, count, target),
        Instruction::TableSwitch(table) => {
            let others = all_lead_on(labels, count, table.targets.as_slice());
            leads_on(labels, count, &table.default) && others
        }
        Instruction::LookupSwitch(lookup) => {
            let others = pairs_lead_on(labels, count, lookup.pairs.as_slice());
            leads_on(labels, count, &lookup.default) && others
        }
        _ => true,
    }
}

fn all_lead_on(labels: &Labels<'_, usize>, count: usize, targets: &[Name]) -> bool
    ensures { result ≡ list_all (leads_on labels.now count) targets.now }
{
    targets.iter().all(|target| leads_on(labels, count, target))
}

fn pairs_lead_on(labels: &Labels<'_, usize>, count: usize, pairs: &[(i32, Name)]) -> bool
    ensures { result ≡ list_all (leads_on labels.now count) (map (λ p. p.1) pairs.now) }
{
    for (_, label) in pairs {
        if !leads_on(labels, count, label) {
            return false;
        }
    }
    true
}

fn rows_agree(labels: &Labels<'_, usize>, count: usize, rows: &[CatchRow]) -> bool
    ensures { result ≡ list_all (row_agrees labels.now count) rows.now }
{
    rows.iter().all(|row| row_agrees(labels, count, row))
}

fn row_agrees(labels: &Labels<'_, usize>, count: usize, row: &CatchRow) -> bool
    ensures { result ≡ row_agrees labels.now count row.now }
{
    is_given(labels, &row.start)
        && is_given(labels, &row.end)
        && leads_on(labels, count, &row.handler)
}

fn is_given(labels: &Labels<'_, usize>, name: &Name) -> bool
    ensures { result ≡ is_given labels.now name.now }
{
    labels.get(name.as_bytes()).is_some()
}

/// Whether a label is given before the last of so many instructions.
fn leads_on(labels: &Labels<'_, usize>, count: usize, name: &Name) -> bool
    ensures { result ≡ leads_on labels.now count name.now }
{
    labels
        .get(name.as_bytes())
        .is_some_and(|before| before < count)
}
