//! The operands of switches, at the end of bytes.

ghost use Rattle.std.specs.Prelude.{◌≡◌, ◌<◌, ◌≤◌, ◌^◌, ◌++◌, OnOk, IfErr, IfOk, length, pos, ◌+ℤ◌, ◌-ℤ◌, IsTrue, ◌↔◌};
ghost use Rattle.std.specs.Int.{w32};
ghost use Rattle.std.specs.Int.RustNames.{FitsSigned};
ghost use Rattle.std.specs.List.{AllByRecursion, flat_map};
ghost use Rattle.model.specs.Bytecode.Fields.{signed, offset};
ghost use Rattle.model.specs.Bytecode.Operands.{table_operands, lookup_operands};
ghost use Rattle.model.specs.Bytecode.Ranges.{AreRising, TableFits, LookupFits};
ghost use Rattle.opcodes.specs.Reading.Steps.{AsksForNone};
ghost use Rattle.opcodes.specs.declared.error.OpError.TheVariants as error;

use crate::error::OpError;
use crate::switches::rises;
use crate::writing::{put_i32, put_pad, way};
use model::instructions::{LookupSwitch, TableSwitch};
use std::alloc::AllocError;

fn put_targets(out: &mut Vec<u8>, pc: u16, targets: &[u16]) -> Result<(), AllocError>
    ensures bytes { OnOk result (out.new.items
        ≡ out.old.items ++ flat_map (λ t. signed w32 (offset pc t)) targets.now) }
    ensures fits { OnOk result (AllByRecursion (λ t. FitsSigned w32 (offset pc t)) targets.now) }
{
    for target in targets {
        put_i32(out, way(pc, *target))?;
    }
    Ok(())
}

/// The int of the last target of a table.
fn high_of(low: i32, targets: &[u16]) -> Result<i32, OpError>
    ensures ok { IfOk result (λ high. (high ≡ low +ℤ pos (length targets.now) -ℤ pos 1) × (1 ≤ length targets.now)) }
    ensures err { IfErr result (λ e. 1 ≤ length targets.now → FitsSigned w32 (low +ℤ pos (length targets.now) -ℤ pos 1)
        → e ≡ error.Memory) }
    ensures memory { AsksForNone result }
{
    let low = i64::from(low);
    let above = (2_147_483_647 - low).unsigned_abs();
    let len = targets.len() as u64;
    if len == 0 || len > above + 1 {
        return Err(OpError::Switch);
    }
    Ok((low + (len - 1) as i64) as i32)
}

fn put_table_of(
    out: &mut Vec<u8>,
    pc: u16,
    low: i32,
    targets: &[u16],
    default: u16,
) -> Result<(), OpError>
    ensures bytes { OnOk result (out.new.items
        ≡ out.old.items ++ table_operands pc (record { low = low; targets = targets.now; default = default })) }
    ensures fits { OnOk result (TableFits pc (record { low = low; targets = targets.now; default = default })) }
    ensures err { IfErr result (λ e. TableFits pc (record { low = low; targets = targets.now; default = default })
        → e ≡ error.Memory) }
{
    let high = high_of(low, targets)?;
    put_pad(out, pc)?;
    put_i32(out, way(pc, default))?;
    put_i32(out, low)?;
    put_i32(out, high)?;
    put_targets(out, pc, targets)?;
    Ok(())
}

/// Writes the operands of a tableswitch at a pc. `Switch` where it has no target, or ends past the greatest int.
pub fn put_table(out: &mut Vec<u8>, pc: u16, switch: &TableSwitch<u16>) -> Result<(), OpError>
    ensures ok { OnOk result (TableFits pc switch.now
        × (out.new.items ≡ out.old.items ++ table_operands pc switch.now)) }
    ensures err { IfErr result (λ e. TableFits pc switch.now → e ≡ error.Memory) }
{
    put_table_of(out, pc, switch.low, &switch.targets, switch.default)
}

fn keys_rise(pairs: &[(i32, u16)]) -> bool
    ensures { IsTrue result ↔ AreRising pairs.now }
{
    let mut before = None;
    for pair in pairs {
        if !rises(before, pair.0) {
            return false;
        }
        before = Some(pair.0);
    }
    true
}

fn put_pair(out: &mut Vec<u8>, pc: u16, key: i32, target: u16) -> Result<(), AllocError>
    ensures bytes { OnOk result (out.new.items ≡ out.old.items ++ (signed w32 key ++ signed w32 (offset pc target))) }
    ensures key_fits { FitsSigned w32 key }
    ensures fits { FitsSigned w32 (offset pc target) }
{
    put_i32(out, key)?;
    put_i32(out, way(pc, target))
}

fn put_pairs(out: &mut Vec<u8>, pc: u16, pairs: &[(i32, u16)]) -> Result<(), AllocError>
    ensures bytes { OnOk result (out.new.items
        ≡ out.old.items ++ flat_map (λ p. signed w32 p.0 ++ signed w32 (offset pc p.1)) pairs.now) }
    ensures fits { OnOk result (AllByRecursion (λ p. FitsSigned w32 p.0 × FitsSigned w32 (offset pc p.1)) pairs.now) }
{
    for pair in pairs {
        put_pair(out, pc, pair.0, pair.1)?;
    }
    Ok(())
}

/// How many pairs there are, as a lookupswitch says it. `Operand` where there are more than the greatest int.
fn count_of(pairs: &[(i32, u16)]) -> Result<i32, OpError>
    ensures ok { IfOk result (λ count. (count ≡ pos (length pairs.now)) × (length pairs.now < 2 ^ 31)) }
    ensures err { IfErr result (λ e. length pairs.now < 2 ^ 31 → e ≡ error.Memory) }
    ensures memory { AsksForNone result }
{
    if pairs.len() > 2_147_483_647 {
        return Err(OpError::Operand);
    }
    Ok(pairs.len() as i32)
}

fn put_lookup_of(
    out: &mut Vec<u8>,
    pc: u16,
    pairs: &[(i32, u16)],
    default: u16,
) -> Result<(), OpError>
    ensures bytes { OnOk result (out.new.items
        ≡ out.old.items ++ lookup_operands pc (record { pairs = pairs.now; default = default })) }
    ensures fits { OnOk result (LookupFits pc (record { pairs = pairs.now; default = default })) }
    ensures err { IfErr result (λ e. LookupFits pc (record { pairs = pairs.now; default = default })
        → e ≡ error.Memory) }
{
    let count = count_of(pairs)?;
    if !keys_rise(pairs) {
        return Err(OpError::Switch);
    }
    put_pad(out, pc)?;
    put_i32(out, way(pc, default))?;
    put_i32(out, count)?;
    put_pairs(out, pc, pairs)?;
    Ok(())
}

/// Writes the operands of a lookupswitch at a pc. `Switch` where its keys don't rise, `Operand` where there are more
/// than the greatest int.
pub fn put_lookup(out: &mut Vec<u8>, pc: u16, switch: &LookupSwitch<u16>) -> Result<(), OpError>
    ensures ok { OnOk result (LookupFits pc switch.now
        × (out.new.items ≡ out.old.items ++ lookup_operands pc switch.now)) }
    ensures err { IfErr result (λ e. LookupFits pc switch.now → e ≡ error.Memory) }
{
    put_lookup_of(out, pc, &switch.pairs, switch.default)
}
