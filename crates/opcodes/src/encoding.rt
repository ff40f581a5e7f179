//! Bytes from instructions.

ghost use Rattle.std.specs.Prelude.{◌≡◌, ◌++◌, ◌≤◌, ℕ, List, length, vec_len, IfOk, IfErr, OnOk, MatchResult};
ghost use Rattle.model.specs.Bytecode.{spelling, IsCode, instructions_of};
ghost use Rattle.model.specs.Bytecode.Operands.{operands};
ghost use Rattle.model.specs.Bytecode.Ranges.{Fits};
ghost use Rattle.model.specs.declared.bytecode.Located.{Located};
ghost use Rattle.opcodes.specs.Starts.{all_land};
ghost use Rattle.opcodes.specs.Writing.{IsSpelled};
ghost use Rattle.opcodes.specs.declared.error.OpError.TheVariants as error;

use crate::error::OpError;
use crate::opcode_of::opcode;
use crate::put_switches::{put_lookup, put_table};
use crate::starts::{lands_well, mark};
use crate::writing::{put_access, put_array, put_branch, put_constant, put_invoke, put_u2};
use model::bytecode::Instr;
use model::instructions::Instruction;
use std::alloc::Global;

fn put_operands(out: &mut Vec<u8>, pc: u16, instruction: &Instr) -> Result<(), OpError>
    ensures ok { OnOk result (Fits pc instruction.now
        × (out.new.items ≡ out.old.items ++ operands pc instruction.now)) }
    ensures err { IfErr result (λ e. Fits pc instruction.now → e ≡ error.Memory) }
{
    match instruction {
        Instruction::Constant(constant) => put_constant(out, *constant)?,
        Instruction::Local(access) => put_access(out, *access)?,
        Instruction::Branch(test, target) => put_branch(out, pc, *test, *target)?,
        Instruction::TableSwitch(switch) => put_table(out, pc, switch)?,
        Instruction::LookupSwitch(switch) => put_lookup(out, pc, switch)?,
        Instruction::Static(_, n) | Instruction::Field(_, n) | Instruction::Class(_, n) => {
            put_u2(out, *n)?;
        }
        Instruction::Array(operation) => put_array(out, operation)?,
        Instruction::Invoke(how, n) => put_invoke(out, *how, *n)?,
        Instruction::Nop
        | Instruction::Stack(_)
        | Instruction::Number(_)
        | Instruction::Return(_)
        | Instruction::Throw
        | Instruction::Monitor(_) => {}
    }
    Ok(())
}

fn put(out: &mut Vec<u8>, pc: u16, instruction: &Instr) -> Result<(), OpError>
    ensures fits { OnOk result (Fits pc instruction.now) }
    ensures bytes { OnOk result (out.new.items ≡ out.old.items ++ spelling pc instruction.now) }
    ensures err { IfErr result (λ e. Fits pc instruction.now → e ≡ error.Memory) }
{
    out.push(opcode(instruction))?;
    put_operands(out, pc, instruction)?;
    Ok(())
}

fn spelled(alloc: Global, instructions: &[Instr]) -> Result<(Vec<u8>, Vec<bool>), OpError>
    ensures found { IfOk result (λ x. IsSpelled instructions.now x.0.items x.1.items) }
    ensures few { IfOk result (λ x. vec_len x.0 ≤ 65535) }
    ensures len { IfOk result (λ x. vec_len x.1 ≤ vec_len x.0) }
    ensures err { IfErr result (λ e. (bytes : List ℕ) (items : List Located) → IsCode bytes items
        → instructions_of items ≡ instructions.now → e ≡ error.Memory) }
{
    let mut out = Vec::new(alloc);
    let mut starts = Vec::new(alloc);
    for instruction in instructions {
        let pc = out.len();
        put(&mut out, pc as u16, instruction)?;
        if out.len() > 65535 {
            return Err(OpError::Length);
        }
        mark(&mut starts, pc)?;
    }
    Ok((out, starts))
}

fn each_lands_well(starts: &[bool], instructions: &[Instr]) -> bool
    ensures { result ≡ all_land starts.now instructions.now }
{
    for instruction in instructions {
        if !lands_well(starts, instruction) {
            return false;
        }
    }
    true
}

/// The bytes of the instructions, one after another from pc 0 on (JVMS 4.7.3). `Operand` where an operand has no room
/// for its number, as a short `ldc` for a number above 255 or a short branch for a far target; `Switch` where keys
/// don't rise or a table is empty or ends past the greatest int; `Length` where there is no byte or there are more than
/// 65,535; `Branch` where a target is no instruction's pc; `Memory` where memory runs out.
pub fn encode(alloc: Global, instructions: &[Instr]) -> Result<Vec<u8>, OpError>
    // The bytes are the code of the instructions.
    ensures found { IfOk result (λ bytes. (items : List Located) × IsCode bytes.items items
        × (instructions_of items ≡ instructions.now)) }
    // Where instructions have code, it is given, unless memory runs out.
    ensures only { (bytes : List ℕ) (items : List Located) → IsCode bytes items
        → instructions_of items ≡ instructions.now → MatchResult result (λ v. v.items ≡ bytes) (λ e. e ≡ error.Memory) }
{
    let (bytes, starts) = spelled(alloc, instructions)?;
    if bytes.is_empty() {
        return Err(OpError::Length);
    }
    if !each_lands_well(&starts, instructions) {
        return Err(OpError::Branch);
    }
    Ok(bytes)
}
