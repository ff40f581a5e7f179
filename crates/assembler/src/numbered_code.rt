//! Code with constant-pool indices for names.
ghost use Rattle.std.specs.Prelude.{◌≡◌, true, map, IfOk, Some};
ghost use Rattle.std.specs.List.{flat_map};
ghost use Rattle.model.specs.ClassFiles.Items.{instruction_items, constant_items, array_items, call_items};
ghost use Rattle.model.specs.ClassFiles.Items.{placed_items, row_items, catch_items, code_items};
ghost use Rattle.model.specs.Texts.Spelled.{stand_from};
ghost use Rattle.assembler.specs.Answers.{Gives, HasNumber, OnlyFull, OnlyFullWhere};
ghost use Rattle.assembler.specs.Assembled.{Stays, HasCode, assembled_code};
ghost use Rattle.assembler.specs.Numbering as numbering;
ghost use Rattle.assembler.specs.Numbering.{called_item, numbered_row, numbered_catch};

use crate::error::AsmError;
use crate::pool_numbers::Numbers;
use classfile::{
    CodeEntry, CodeRow, Instructions, copied_lookup, copied_table, mapped_array, mapped_constant,
    mapped_instruction,
};
use model::bytecode::Instr;
use model::instructions::{ArrayOperation, Constant, Instruction, Invocation};
use model::listings::{Code, ExceptionRow, Listed, Placed};
use model::names::{Member, Name};
use std::alloc::Global;

/// A Code attribute. A3 where the pool has no room, and where instructions have no bytes.
pub fn numbered_code(
    alloc: Global,
    numbers: &mut Numbers,
    code: &Code,
) -> Result<CodeEntry, AsmError>
    requires { stand_from 0 code.now.instructions ≡ true }
    ensures found { Gives numbers.old (code_items (Some code.now)) numbers.new
        (λ items. assembled_code items code.now) result }
    ensures only { OnlyFullWhere numbers.old (code_items (Some code.now))
        (λ items. HasCode items (Some code.now)) result }
{
    let name = numbers.attribute("Code")?;
    let instructions = instructions(alloc, numbers, code.instructions.as_slice())?;
    let rows = rows(alloc, numbers, code.rows.as_slice())?;
    Ok(CodeEntry {
        name,
        max_stack: code.max_stack,
        max_locals: code.max_locals,
        instructions: Instructions::encode(alloc, instructions.as_slice())?,
        rows,
    })
}

fn instructions(
    alloc: Global,
    numbers: &mut Numbers,
    instructions: &[Placed],
) -> Result<Vec<Instr>, AsmError>
    ensures found { IfOk result (λ all. Stays numbers.old (flat_map placed_items instructions.now) numbers.new
        (λ items. map (λ p. numbering.numbered items p.instruction) instructions.now) all.items) }
    ensures only { OnlyFull numbers.old (flat_map placed_items instructions.now) result }
{
    let mut all = Vec::new(alloc);
    for placed in instructions {
        all.push(numbered(alloc, numbers, &placed.instruction)?)?;
    }
    Ok(all)
}

fn rows(
    alloc: Global,
    numbers: &mut Numbers,
    rows: &[ExceptionRow],
) -> Result<Vec<CodeRow>, AsmError>
    ensures found { IfOk result (λ all. Stays numbers.old (flat_map row_items rows.now) numbers.new
        (λ items. map (numbered_row items) rows.now) all.items) }
    ensures only { OnlyFull numbers.old (flat_map row_items rows.now) result }
{
    let mut all = Vec::new(alloc);
    for row in rows {
        all.push(numbered_row(numbers, row)?)?;
    }
    Ok(all)
}

fn numbered_row(numbers: &mut Numbers, row: &ExceptionRow) -> Result<CodeRow, AsmError>
    ensures found { Gives numbers.old (row_items row.now) numbers.new (λ items. numbered_row items row.now) result }
    ensures only { OnlyFull numbers.old (row_items row.now) result }
{
    Ok(CodeRow {
        start: row.start,
        end: row.end,
        handler: row.handler,
        class: caught(numbers, &row.class)?,
    })
}

/// The number of the class that a row takes, 0 where it takes anything.
fn caught(numbers: &mut Numbers, name: &Option<Name>) -> Result<u16, AsmError>
    ensures found { Gives numbers.old (catch_items name.now) numbers.new
        (λ items. numbered_catch items name.now) result }
    ensures only { OnlyFull numbers.old (catch_items name.now) result }
{
    match name {
        None => Ok(0),
        Some(name) => numbers.class(name),
    }
}

fn numbered(alloc: Global, numbers: &mut Numbers, instruction: &Listed) -> Result<Instr, AsmError>
    ensures found { Gives numbers.old (instruction_items instruction.now) numbers.new
        (λ items. numbering.numbered items instruction.now) result }
    ensures only { OnlyFull numbers.old (instruction_items instruction.now) result }
{
    Ok(mapped_instruction!(
        instruction;
        constant(constant) => numbered_constant(numbers, *constant)?,
        target(target) => *target,
        table(table) => copied_table(alloc, table)?,
        lookup(lookup) => copied_lookup(alloc, lookup)?,
        field(member) => numbers.field(member)?,
        array(operation) => numbered_array(numbers, operation)?,
        class(name) => numbers.class(name)?,
        method(invocation, member) => called(numbers, *invocation, member)?,
    ))
}

fn numbered_constant(
    numbers: &mut Numbers,
    constant: Constant<i32, i64>,
) -> Result<Constant<u16, u16>, AsmError>
    ensures found { Gives numbers.old (constant_items constant) numbers.new
        (λ items. numbering.numbered_constant items constant) result }
    ensures only { OnlyFull numbers.old (constant_items constant) result }
{
    Ok(mapped_constant!(constant; int(z) => numbers.int(z)?, long(z) => numbers.long(z)?))
}

fn numbered_array(
    numbers: &mut Numbers,
    operation: &ArrayOperation<Name>,
) -> Result<ArrayOperation<u16>, AsmError>
    ensures found { Gives numbers.old (array_items operation.now) numbers.new
        (λ items. numbering.numbered_array items operation.now) result }
    ensures only { OnlyFull numbers.old (array_items operation.now) result }
{
    Ok(mapped_array!(operation; class(name) => numbers.class(name)?))
}

/// The number of the method that a call names.
fn called(numbers: &mut Numbers, invocation: Invocation, member: &Member) -> Result<u16, AsmError>
    ensures found { HasNumber numbers.old (call_items invocation member.now) numbers.new
        (called_item invocation member.now) result }
    ensures only { OnlyFull numbers.old (call_items invocation member.now) result }
{
    match invocation {
        Invocation::Virtual | Invocation::Special | Invocation::Static => numbers.method(member),
        Invocation::Interface(_) => numbers.interface_method(member),
    }
}
