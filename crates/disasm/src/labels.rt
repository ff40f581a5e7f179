//! The pcs that a method's rows and instructions name.
ghost use Rattle.std.specs.Prelude.{◌≡◌, ◌++◌, ◌==◌, ℕ, true, if◌then◌else◌, IfOk, OnOk, map};
ghost use Rattle.std.specs.List.{flat_map};
ghost use Rattle.disasm.specs.Marks.{is_marked, Marks};
ghost use Rattle.model.specs.Texts.Disassembling as definition;

use model::listings::{Code, ExceptionRow, Listed, Placed};
use std::alloc::{AllocError, Global};
use std::marker::Model;

/// Adds the pcs of rows.
fn add_rows(pcs: &mut Vec<u16>, rows: &[ExceptionRow]) -> Result<(), AllocError>
    ensures { OnOk result (pcs.new.items ≡ pcs.old.items ++ flat_map definition.row_pcs rows.now) }
{
    for row in rows {
        pcs.extend_from_slice(&[row.start, row.end, row.handler])?;
    }
    Ok(())
}

/// Adds the pcs of a lookup's keys.
fn add_pairs(pcs: &mut Vec<u16>, pairs: &[(i32, u16)]) -> Result<(), AllocError>
    ensures { OnOk result (pcs.new.items ≡ pcs.old.items ++ map (λ p. p.1) pairs.now) }
{
    for pair in pairs {
        pcs.push(pair.1)?;
    }
    Ok(())
}

/// Adds the pcs that an instruction names.
fn add_targets(pcs: &mut Vec<u16>, instruction: &Listed) -> Result<(), AllocError>
    ensures { OnOk result (pcs.new.items ≡ pcs.old.items ++ definition.targets instruction.now) }
{
    match instruction {
        Listed::Branch(_, target) => pcs.extend_from_slice(&[*target]),
        Listed::TableSwitch(switch) => {
            pcs.extend_from_slice(switch.targets.as_slice())?;
            pcs.extend_from_slice(&[switch.default])
        }
        Listed::LookupSwitch(switch) => {
            add_pairs(pcs, switch.pairs.as_slice())?;
            pcs.extend_from_slice(&[switch.default])
        }
        Listed::Nop
        | Listed::Constant(_)
        | Listed::Local(_)
        | Listed::Stack(_)
        | Listed::Number(_)
        | Listed::Return(_)
        | Listed::Static(..)
        | Listed::Field(..)
        | Listed::Array(_)
        | Listed::Class(..)
        | Listed::Invoke(..)
        | Listed::Throw
        | Listed::Monitor(_) => Ok(()),
    }
}

/// Adds the pcs that instructions name.
fn add_all_targets(pcs: &mut Vec<u16>, instructions: &[Placed]) -> Result<(), AllocError>
    ensures { OnOk result (pcs.new.items ≡ pcs.old.items ++ flat_map definition.placed_targets instructions.now) }
{
    for placed in instructions {
        add_targets(pcs, &placed.instruction)?;
    }
    Ok(())
}

/// The pcs that a method's rows and instructions name, in their order.
fn named_pcs(alloc: Global, code: &Code) -> Result<Vec<u16>, AllocError>
    ensures { IfOk result (λ pcs. pcs.items ≡ definition.named_pcs code.now) }
{
    let mut pcs = Vec::new(alloc);
    add_rows(&mut pcs, code.rows.as_slice())?;
    add_all_targets(&mut pcs, code.instructions.as_slice())?;
    Ok(pcs)
}

/// Marks a pc in a table, which grows to hold it.
#[tactic(auto, using(crate::proofs::MarkLemmas::one_marked))]
fn mark(table: &mut Vec<bool>, pc: u16) -> Result<(), AllocError>
    ensures { OnOk result ((k : ℕ) → is_marked table.new.items k
        ≡ (if pc == k then true else is_marked table.old.items k)) }
{
    let pc = usize::from(pc);
    for _ in table.len()..pc + 1 {
        table.push(false)?;
    }
    table[pc] = true;
    Ok(())
}

/// The table that marks these pcs.
fn marks(alloc: Global, pcs: &[u16]) -> Result<Vec<bool>, AllocError>
    ensures { IfOk result (λ table. Marks table.items pcs.now) }
{
    let mut table = Vec::new(alloc);
    for pc in pcs {
        mark(&mut table, *pc)?;
    }
    Ok(table)
}

/// The pcs before which a label stands. A contract sees them in their order.
#[derive(Drop)]
pub struct Labels {
    pcs: Vec<u16>,
    /// whether each pc is among them, up to the highest that is
    table: Vec<bool>,
}

impl Model for Labels {
    ghost use Rattle.std.specs.Prelude.{List, ℕ};
    ghost use Rattle.disasm.specs.Marks.{Marks};

    ghost Value = { List ℕ };

    ghost view = { λ a. a.pcs.items };

    ghost invariant = { λ a. Marks a.table.items a.pcs.items };
}

impl Labels {
    /// The labels of a method's code. `AllocError` where memory runs out.
    pub fn of(alloc: Global, code: &Code) -> Result<Labels, AllocError>
        ensures { IfOk result (λ labels. labels ≡ definition.named_pcs code.now) }
    {
        let pcs = named_pcs(alloc, code)?;
        let table = marks(alloc, pcs.as_slice())?;
        Ok(Labels { pcs, table })
    }

    /// Whether a label stands before a pc.
    pub fn has(&self, pc: u16) -> bool
        ensures { result ≡ definition.is_named self.now pc }
    {
        self.table.get(usize::from(pc)).copied().unwrap_or(false)
    }
}
