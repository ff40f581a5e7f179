//! Reading branches and switches.

ghost use Rattle.std.specs.Prelude.{◌≡◌, ◌-◌, ◌%◌};
ghost use Rattle.opcodes.specs.Reading.Steps.{AsksForNone, Gives};
ghost use Rattle.opcodes.specs.Reading.Switches.{landing, branch_at, pad_at, targets_at, table_len, table_at};
ghost use Rattle.opcodes.specs.Reading.Switches.{rises as rises_of, pairs_at, lookup_at};

use crate::error::OpError;
use crate::fields::{i16_at, i32_at, u8_at};
use model::bytecode::Instr;
use model::instructions::{Instruction, LookupSwitch, TableSwitch, Test, Width};
use std::alloc::Global;

/// Where an offset leads from a pc; 65535, where no instruction begins, stands for all that is out of range.
fn target(pc: u16, offset: i32) -> u16
    ensures { result ≡ landing pc offset }
{
    let target = i64::from(pc) + i64::from(offset);
    if target < 0 {
        return u16::MAX;
    }
    target.unsigned_abs().min(65535) as u16
}

/// A branch at a pc, from the bytes after its opcode.
#[tactic(auto, unfolding(crate::specs::Reading::Switches::branch_at))]
pub fn branch(pc: u16, test: Test, bytes: &[u8]) -> Result<(Instr, &[u8]), OpError>
    ensures gives { Gives (λ x. (x.0, x.1.now)) result (branch_at pc test bytes.now) }
    ensures memory { AsksForNone result }
{
    let (offset, rest) = match test {
        Test::Always(Width::Wide) => i32_at(bytes)?,
        Test::Always(Width::Narrow)
        | Test::Zero(_)
        | Test::Ints(_)
        | Test::Refs(_)
        | Test::Null(_) => {
            let (offset, rest) = i16_at(bytes)?;
            (i32::from(offset), rest)
        }
    };
    Ok((Instruction::Branch(test, target(pc, offset)), rest))
}

/// What stands after so many zero bytes. `Switch` where one isn't zero, `Operand` where they end before.
fn padded(count: u16, bytes: &[u8]) -> Result<&[u8], OpError>
    ensures gives { Gives (λ x. x.now) result (pad_at count bytes.now) }
    ensures memory { AsksForNone result }
{
    let mut rest = bytes;
    for _ in 0..count {
        let (byte, after) = u8_at(rest)?;
        if byte != 0 {
            return Err(OpError::Switch);
        }
        rest = after;
    }
    Ok(rest)
}

fn targets(alloc: Global, pc: u16, count: u64, bytes: &[u8]) -> Result<(Vec<u16>, &[u8]), OpError>
    ensures { Gives (λ x. (x.0.items, x.1.now)) result (targets_at pc count bytes.now) }
{
    let mut targets = Vec::new(alloc);
    let mut rest = bytes;
    for _ in 0..count {
        let (offset, after) = i32_at(rest)?;
        targets.push(target(pc, offset))?;
        rest = after;
    }
    Ok((targets, rest))
}

fn len_between(low: i32, high: i32) -> u64
    ensures { result ≡ table_len low high }
{
    (i64::from(high) - i64::from(low)).unsigned_abs() + 1
}

/// A tableswitch at a pc, from the bytes after its opcode.
#[tactic(auto, unfolding(crate::specs::Reading::Switches::table_at))]
pub fn table(alloc: Global, pc: u16, bytes: &[u8]) -> Result<(Instr, &[u8]), OpError>
    ensures { Gives (λ x. (x.0, x.1.now)) result (table_at pc bytes.now) }
{
    let rest = padded(3 - pc % 4, bytes)?;
    let (default, rest) = i32_at(rest)?;
    let (low, rest) = i32_at(rest)?;
    let (high, rest) = i32_at(rest)?;
    if high < low {
        return Err(OpError::Switch);
    }
    let (targets, rest) = targets(alloc, pc, len_between(low, high), rest)?;
    let default = target(pc, default);
    let switch = TableSwitch {
        low,
        targets,
        default,
    };
    Ok((Instruction::TableSwitch(switch), rest))
}

/// Whether a key may follow another.
pub fn rises(before: Option<i32>, key: i32) -> bool
    ensures { result ≡ rises_of before key }
{
    match before {
        None => true,
        Some(before) => before < key,
    }
}

fn pairs(
    alloc: Global,
    pc: u16,
    count: u32,
    bytes: &[u8],
) -> Result<(Vec<(i32, u16)>, &[u8]), OpError>
    ensures { Gives (λ x. (x.0.items, x.1.now)) result (pairs_at pc None count bytes.now) }
{
    let mut pairs = Vec::new(alloc);
    let mut before = None;
    let mut rest = bytes;
    for _ in 0..count {
        let (key, after) = i32_at(rest)?;
        if !rises(before, key) {
            return Err(OpError::Switch);
        }
        let (offset, after) = i32_at(after)?;
        pairs.push((key, target(pc, offset)))?;
        before = Some(key);
        rest = after;
    }
    Ok((pairs, rest))
}

/// A lookupswitch at a pc, from the bytes after its opcode.
#[tactic(auto, unfolding(crate::specs::Reading::Switches::lookup_at))]
pub fn lookup(alloc: Global, pc: u16, bytes: &[u8]) -> Result<(Instr, &[u8]), OpError>
    ensures { Gives (λ x. (x.0, x.1.now)) result (lookup_at pc bytes.now) }
{
    let rest = padded(3 - pc % 4, bytes)?;
    let (default, rest) = i32_at(rest)?;
    let (count, rest) = i32_at(rest)?;
    if count < 0 {
        return Err(OpError::Switch);
    }
    let (pairs, rest) = pairs(alloc, pc, count.unsigned_abs(), rest)?;
    let default = target(pc, default);
    Ok((
        Instruction::LookupSwitch(LookupSwitch { pairs, default }),
        rest,
    ))
}
