//! The code of a method as a text has it.
ghost use Rattle.std.specs.Prelude.{◌≡◌, ◌++◌, OnOk};
ghost use Rattle.std.specs.List.{flat_map};
ghost use Rattle.model.specs.Texts.Disassembling as definition;

use crate::instructions::{put_instruction, put_name};
use crate::labels::Labels;
use crate::words::{put, put_label, put_natural_line};
use model::listings::{Code, ExceptionRow, Placed};
use model::names::Name;
use std::alloc::{AllocError, Global};

/// Writes at the end what an exception row takes.
fn put_catch(out: &mut Vec<u8>, class: &Option<Name>) -> Result<(), AllocError>
    ensures { OnOk result (out.new.items ≡ out.old.items ++ definition.catch_name class.now) }
{
    match class {
        None => put(out, "all"),
        Some(name) => put_name(out, name),
    }
}

/// Writes at the end where a row begins.
fn put_from(out: &mut Vec<u8>, pc: u16) -> Result<(), AllocError>
    ensures { OnOk result (out.new.items ≡ out.old.items ++ definition.from_text pc) }
{
    put(out, " from ")?;
    put_label(out, pc)
}

/// Writes at the end where a row ends.
fn put_to(out: &mut Vec<u8>, pc: u16) -> Result<(), AllocError>
    ensures { OnOk result (out.new.items ≡ out.old.items ++ definition.to_text pc) }
{
    put(out, " to ")?;
    put_label(out, pc)
}

/// Writes the handler of a row at the end.
fn put_using(out: &mut Vec<u8>, pc: u16) -> Result<(), AllocError>
    ensures { OnOk result (out.new.items ≡ out.old.items ++ definition.using_text pc) }
{
    put(out, " using ")?;
    put_label(out, pc)
}

/// Writes a `.catch` at the end.
fn put_row(out: &mut Vec<u8>, row: &ExceptionRow) -> Result<(), AllocError>
    ensures { OnOk result (out.new.items ≡ out.old.items ++ definition.row_text row.now) }
{
    put(out, ".catch ")?;
    put_catch(out, &row.class)?;
    put_from(out, row.start)?;
    put_to(out, row.end)?;
    put_using(out, row.handler)?;
    put(out, "\n")
}

/// Writes exception rows at the end, in order.
fn put_rows(out: &mut Vec<u8>, rows: &[ExceptionRow]) -> Result<(), AllocError>
    ensures { OnOk result (out.new.items ≡ out.old.items ++ flat_map definition.row_text rows.now) }
{
    for row in rows {
        put_row(out, row)?;
    }
    Ok(())
}

/// Writes the limit of the stack at the end.
#[tactic(auto, unfolding(model::specs::Texts::Disassembling::stack_line))]
fn put_stack(out: &mut Vec<u8>, units: u16) -> Result<(), AllocError>
    ensures { OnOk result (out.new.items ≡ out.old.items ++ definition.stack_line units) }
{
    put_natural_line(out, ".limit stack ", units)
}

/// Writes the number of locals at the end.
#[tactic(auto, unfolding(model::specs::Texts::Disassembling::locals_line))]
fn put_locals(out: &mut Vec<u8>, entries: u16) -> Result<(), AllocError>
    ensures { OnOk result (out.new.items ≡ out.old.items ++ definition.locals_line entries) }
{
    put_natural_line(out, ".limit locals ", entries)
}

/// Writes the limits at the end.
fn put_limits(out: &mut Vec<u8>, code: &Code) -> Result<(), AllocError>
    ensures { OnOk result (out.new.items ≡ out.old.items ++ definition.limits_text code.now) }
{
    put_stack(out, code.max_stack)?;
    put_locals(out, code.max_locals)
}

/// Writes the line of a label at the end, where its pc is named.
fn put_label_line(out: &mut Vec<u8>, labels: &Labels, pc: u16) -> Result<(), AllocError>
    ensures { OnOk result (out.new.items ≡ out.old.items
        ++ definition.label_line (definition.is_named labels.now pc) pc) }
{
    if labels.has(pc) {
        put_label(out, pc)?;
        put(out, ":\n")?;
    }
    Ok(())
}

/// Writes an instruction after its label at the end.
fn put_placed(out: &mut Vec<u8>, labels: &Labels, placed: &Placed) -> Result<(), AllocError>
    ensures { OnOk result (out.new.items ≡ out.old.items ++ definition.placed_text labels.now placed.now) }
{
    put_label_line(out, labels, placed.pc)?;
    put_instruction(out, &placed.instruction)?;
    put(out, "\n")
}

/// Writes instructions at the end, each after its label, and the label that may stand after the last.
fn put_lines(out: &mut Vec<u8>, labels: &Labels, instructions: &[Placed]) -> Result<(), AllocError>
    ensures { OnOk result (out.new.items ≡ out.old.items ++ definition.lines_from labels.now 0 instructions.now) }
{
    let mut end = 0;
    for placed in instructions {
        put_placed(out, labels, placed)?;
        end = placed.next;
    }
    put_label_line(out, labels, end)
}

/// Writes the code of a method at the end: its limits, rows and instructions.
pub fn put_code(alloc: Global, out: &mut Vec<u8>, code: &Code) -> Result<(), AllocError>
    ensures { OnOk result (out.new.items ≡ out.old.items ++ definition.code_text code.now) }
{
    let labels = Labels::of(alloc, code)?;
    put_limits(out, code)?;
    put_rows(out, code.rows.as_slice())?;
    put_lines(out, &labels, code.instructions.as_slice())
}
