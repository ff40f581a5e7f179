//! A text's instructions with pcs for labels and settled widths.
ghost use Rattle.std.specs.Prelude.{◌≡◌, map, IfOk};
ghost use Rattle.model.specs.Texts.Labels.{with_targets};
ghost use Rattle.model.specs.Texts.Widths.{widened, widened_constant};
ghost use Rattle.assembler.specs.Checks.{pc_in};

use crate::labels::label_pc;
use crate::ldc_numbers::among;
use classfile::{mapped_array, mapped_instruction};
use jasmin::Labels;
use model::instructions::{
    ArrayOperation, Constant, Instruction, LookupSwitch, TableSwitch, Width,
};
use model::listings::Listed;
use model::names::{Member, Name};
use model::trees::Written;
use std::alloc::{AllocError, Global};

/// A member of the same names.
fn shared_member(member: &Member) -> Result<Member, AllocError>
    ensures { IfOk result (λ shared. shared ≡ member.now) }
{
    Ok(Member {
        class: member.class.share()?,
        name: member.name.share()?,
        descriptor: member.descriptor.share()?,
    })
}

/// An instruction of a method's code, with pcs for labels. `narrow` are the numbers that go with `ldc`.
pub fn listed(
    alloc: Global,
    narrow: &[i32],
    pcs: &Labels<'_, u16>,
    instruction: &Written,
) -> Result<Listed, AllocError>
    ensures { IfOk result (λ listed. listed ≡ with_targets (pc_in pcs.now) (widened narrow.now instruction.now)) }
{
    Ok(mapped_instruction!(
        instruction;
        constant(constant) => widened_constant(narrow, *constant),
        target(label) => label_pc(pcs, label),
        table(table) => listed_table(alloc, pcs, table)?,
        lookup(lookup) => listed_lookup(alloc, pcs, lookup)?,
        field(field) => shared_member(field)?,
        array(operation) => shared_array(operation)?,
        class(class) => class.share()?,
        method(invocation, method) => shared_member(method)?,
    ))
}

fn widened_constant(narrow: &[i32], constant: Constant<i32, i64>) -> Constant<i32, i64>
    ensures { result ≡ widened_constant narrow.now constant }
{
    match constant {
        Constant::Int(Width::Narrow, n) => {
            if among(narrow, n) {
                Constant::Int(Width::Narrow, n)
            } else {
                Constant::Int(Width::Wide, n)
            }
        }
        other => other,
    }
}

fn shared_array(operation: &ArrayOperation<Name>) -> Result<ArrayOperation<Name>, AllocError>
    ensures { IfOk result (λ shared. shared ≡ operation.now) }
{
    Ok(mapped_array!(operation; class(class) => class.share()?))
}

fn listed_table(
    alloc: Global,
    pcs: &Labels<'_, u16>,
    table: &TableSwitch<Name>,
) -> Result<TableSwitch<u16>, AllocError>
    ensures { IfOk result (λ listed. listed
        ≡ record {
          low = table.now.low;
          targets = map (pc_in pcs.now) table.now.targets;
          default = pc_in pcs.now table.now.default;
        }) }
{
    let targets = listed_targets(alloc, pcs, table.targets.as_slice())?;
    Ok(TableSwitch {
        low: table.low,
        targets,
        default: label_pc(pcs, &table.default),
    })
}

fn listed_lookup(
    alloc: Global,
    pcs: &Labels<'_, u16>,
    lookup: &LookupSwitch<Name>,
) -> Result<LookupSwitch<u16>, AllocError>
    ensures { IfOk result (λ listed. listed
        ≡ record {
          pairs = map (λ p. (p.0, pc_in pcs.now p.1)) lookup.now.pairs;
          default = pc_in pcs.now lookup.now.default;
        }) }
{
    let pairs = listed_pairs(alloc, pcs, lookup.pairs.as_slice())?;
    Ok(LookupSwitch {
        pairs,
        default: label_pc(pcs, &lookup.default),
    })
}

fn listed_targets(
    alloc: Global,
    pcs: &Labels<'_, u16>,
    labels: &[Name],
) -> Result<Vec<u16>, AllocError>
    ensures { IfOk result (λ targets. targets.items ≡ map (pc_in pcs.now) labels.now) }
{
    let mut targets = Vec::new(alloc);
    for label in labels {
        targets.push(label_pc(pcs, label))?;
    }
    Ok(targets)
}

fn listed_pairs(
    alloc: Global,
    pcs: &Labels<'_, u16>,
    pairs: &[(i32, Name)],
) -> Result<Vec<(i32, u16)>, AllocError>
    ensures { IfOk result (λ listed. listed.items ≡ map (λ p. (p.0, pc_in pcs.now p.1)) pairs.now) }
{
    let mut listed = Vec::new(alloc);
    for (key, label) in pairs {
        let pc = label_pc(pcs, label);
        listed.push((*key, pc))?;
    }
    Ok(listed)
}
