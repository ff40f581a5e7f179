//! Instructions with names in place of constant-pool indices.

ghost use Rattle.std.specs.Prelude.{◌≡◌, map, IfOk};
ghost use Rattle.model.specs.ClassFiles.Listing as listing;

use crate::{mapped_array, mapped_constant, mapped_instruction};
use model::bytecode::{Instr, Located};
use model::instructions::{ArrayOperation, Constant, Instruction, LookupSwitch, TableSwitch};
use model::listings::{Listed, Placed};
use model::names::Name;
use pool::Pool;
use std::alloc::{AllocError, Global};

/// The instructions of a class file's method, with names in place of constant-pool indices.
pub fn listed_instructions(
    alloc: Global,
    pool: &Pool,
    instructions: &[Located],
) -> Result<Vec<Placed>, AllocError>
    ensures { IfOk result (λ all. all.items ≡ map (listing.placed pool.now) instructions.now) }
{
    let mut all = Vec::new(alloc);
    for located in instructions {
        all.push(Placed {
            pc: located.pc,
            next: located.next,
            instruction: listed(alloc, pool, &located.instruction)?,
        })?;
    }
    Ok(all)
}

/// An instruction of a class file, with names in place of constant-pool indices.
fn listed(alloc: Global, pool: &Pool, instruction: &Instr) -> Result<Listed, AllocError>
    ensures { IfOk result (λ listed. listed ≡ listing.listed pool.now instruction.now) }
{
    Ok(mapped_instruction!(
        instruction;
        constant(constant) => listed_constant(pool, *constant),
        target(target) => *target,
        table(table) => copied_table(alloc, table)?,
        lookup(lookup) => copied_lookup(alloc, lookup)?,
        field(field) => pool.member(*field)?,
        array(operation) => listed_array(pool, operation)?,
        class(class) => pool.class_name(*class)?,
        method(invocation, method) => pool.member(*method)?,
    ))
}

fn listed_constant(pool: &Pool, constant: Constant<u16, u16>) -> Constant<i32, i64>
    ensures { result ≡ listing.listed_constant pool.now constant }
{
    mapped_constant!(constant; int(number) => pool.int(number), long(number) => pool.long(number))
}

fn listed_array(
    pool: &Pool,
    operation: &ArrayOperation<u16>,
) -> Result<ArrayOperation<Name>, AllocError>
    ensures { IfOk result (λ listed. listed ≡ listing.listed_array pool.now operation.now) }
{
    Ok(mapped_array!(operation; class(class) => pool.class_name(*class)?))
}

/// A table of the same rows.
pub fn copied_table(alloc: Global, table: &TableSwitch<u16>) -> Result<TableSwitch<u16>, AllocError>
    ensures { IfOk result (λ copy. copy ≡ table.now) }
{
    Ok(TableSwitch {
        low: table.low,
        targets: Vec::from_slice(alloc, &table.targets)?,
        default: table.default,
    })
}

/// A lookup of the same rows.
pub fn copied_lookup(
    alloc: Global,
    lookup: &LookupSwitch<u16>,
) -> Result<LookupSwitch<u16>, AllocError>
    ensures { IfOk result (λ copy. copy ≡ lookup.now) }
{
    Ok(LookupSwitch {
        pairs: Vec::from_slice(alloc, &lookup.pairs)?,
        default: lookup.default,
    })
}
