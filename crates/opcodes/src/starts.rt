//! Where instructions begin: a table of the pcs, and whether branches lead to them.

ghost use Rattle.std.specs.Prelude.{◌≡◌, ◌+◌, ◌≤◌, ◌==◌, ℕ, true, false, if◌then◌else◌, OnOk, vec_len, map};
ghost use Rattle.std.specs.Prelude.{slice_index_or};
ghost use Rattle.std.specs.List.{list_all};
ghost use Rattle.model.specs.Bytecode.{targets};
ghost use Rattle.opcodes.specs.Starts.{is_start, lands, all_land};

use model::bytecode::{Instr, Located};
use model::instructions::Instruction;
use std::alloc::AllocError;

/// Notes that an instruction begins at a pc that is not below the table's length.
pub fn mark(starts: &mut Vec<bool>, pc: usize) -> Result<(), AllocError>
    requires { vec_len starts.old ≤ pc }
    ensures marked { OnOk result ((k : ℕ) → is_start starts.new.items k
        ≡ (if k == pc then true else is_start starts.old.items k)) }
    ensures len { OnOk result (vec_len starts.new ≡ pc + 1) }
{
    for _ in starts.len()..pc {
        starts.push(false)?;
    }
    starts.push(true)?;
    Ok(())
}

fn begins(starts: &[bool], pc: u16) -> bool
    ensures { result ≡ is_start starts.now pc }
{
    starts.get(usize::from(pc)).copied().unwrap_or(false)
}

fn all_begin(starts: &[bool], targets: &[u16]) -> bool
    ensures { result ≡ list_all (is_start starts.now) targets.now }
{
    targets.iter().all(|target| begins(starts, *target))
}

fn all_pairs_begin(starts: &[bool], pairs: &[(i32, u16)]) -> bool
    ensures { result ≡ list_all (is_start starts.now) (map (λ p. p.1) pairs.now) }
{
    for pair in pairs {
        if !begins(starts, pair.1) {
            return false;
        }
    }
    true
}

/// Whether an instruction begins wherever a given one may branch to.
pub fn lands_well(starts: &[bool], instruction: &Instr) -> bool
    ensures { result ≡ lands starts.now instruction.now }
{
    match instruction {
        Instruction::Branch(_, target) => begins(starts, *target),
        Instruction::TableSwitch(switch) => {
            begins(starts, switch.default) && all_begin(starts, &switch.targets)
        }
        Instruction::LookupSwitch(switch) => {
            begins(starts, switch.default) && all_pairs_begin(starts, &switch.pairs)
        }
        Instruction::Nop
        | Instruction::Constant(_)
        | Instruction::Local(_)
        | Instruction::Stack(_)
        | Instruction::Number(_)
        | Instruction::Return(_)
        | Instruction::Static(_, _)
        | Instruction::Field(_, _)
        | Instruction::Array(_)
        | Instruction::Class(_, _)
        | Instruction::Invoke(_, _)
        | Instruction::Throw
        | Instruction::Monitor(_) => true,
    }
}
