//! Code from bytes.

ghost use Rattle.std.specs.Prelude.{◌≡◌, ◌↔◌, ◌≤◌, ℕ, List, true, length, vec_len, IfOk, IfErr, OnOk, MatchResult};
ghost use Rattle.std.specs.List.{list_all};
ghost use Rattle.model.specs.Bytecode.{StandFrom, IsPc, IsCode, instructions_of};
ghost use Rattle.model.specs.declared.bytecode.Located.{Located};
ghost use Rattle.opcodes.specs.Starts.{is_start, lands, all_land, AreReal};
ghost use Rattle.opcodes.specs.declared.error.OpError.TheVariants as error;

use crate::code::Code;
use crate::error::OpError;
use crate::reading::instruction;
use crate::starts::{lands_well, mark};
use model::bytecode::Located;
use std::alloc::Global;

fn located(alloc: Global, bytes: &[u8]) -> Result<(Vec<Located>, Vec<bool>), OpError>
    requires { length bytes.now ≤ 65535 }
    ensures found { IfOk result (λ x. AreReal x.0.items → StandFrom 0 x.0.items bytes.now) }
    ensures only { IfOk result (λ x. (items : List Located) → AreReal items → StandFrom 0 items bytes.now
        → items ≡ x.0.items) }
    ensures starts { IfOk result (λ x. (k : ℕ) → (is_start x.1.items k ≡ true) ↔ IsPc x.0.items k) }
    ensures len { IfOk result (λ x. vec_len x.1 ≤ length bytes.now) }
    ensures err { IfErr result (λ e. (items : List Located) → AreReal items → StandFrom 0 items bytes.now
        → e ≡ error.Memory) }
{
    let mut items = Vec::new(alloc);
    let mut starts = Vec::new(alloc);
    let mut rest = bytes;
    while !rest.is_empty() {
        let pc = bytes.len() - rest.len();
        let (instruction, after) = instruction(alloc, pc as u16, rest)?;
        mark(&mut starts, pc)?;
        items.push(Located {
            pc: pc as u16,
            next: (bytes.len() - after.len()) as u16,
            instruction,
        })?;
        rest = after;
    }
    Ok((items, starts))
}

fn all_land_well(starts: &[bool], items: &[Located]) -> bool
    ensures { result ≡ all_land starts.now (instructions_of items.now) }
{
    for item in items {
        if !lands_well(starts, &item.instruction) {
            return false;
        }
    }
    true
}

/// The code that the bytes are (JVMS 4.7.3). `Length` first, then the first `Opcode`, `Operand` or `Switch` in the
/// order of the bytes, then `Branch`; `Memory` where memory runs out.
pub fn decode(alloc: Global, bytes: &[u8]) -> Result<Code, OpError>
    // What is decoded is the code.
    ensures found { IfOk result (λ code. IsCode bytes.now code) }
    // What is code is decoded, unless memory runs out.
    ensures only { (items : List Located) → IsCode bytes.now items
        → MatchResult result (λ code. code ≡ items) (λ e. e ≡ error.Memory) }
{
    if bytes.is_empty() || bytes.len() > 65535 {
        return Err(OpError::Length);
    }
    let (items, starts) = located(alloc, bytes)?;
    if !all_land_well(&starts, &items) {
        return Err(OpError::Branch);
    }
    Ok(Code::new(items))
}
