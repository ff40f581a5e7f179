//! The operands of each instruction, at the end of bytes.

ghost use Rattle.std.specs.Prelude.{◌≡◌, ◌++◌, OnOk, IfErr, replicate};
ghost use Rattle.std.specs.Int.{w8, w16, w32};
ghost use Rattle.std.specs.Int.RustNames.{FitsSigned};
ghost use Rattle.model.specs.Bytecode.Fields.{u2, signed, offset, pad};
ghost use Rattle.model.specs.Bytecode.Operands.{constant_operands, access_operands, branch_width, array_operands};
ghost use Rattle.model.specs.Bytecode.Operands.{invoke_operands, primitive_number};
ghost use Rattle.model.specs.Bytecode.Ranges.{ConstantFits, AccessFits, ArrayFits, InvokeFits};
ghost use Rattle.opcodes.specs.declared.error.OpError.TheVariants as error;

use crate::error::OpError;
use crate::opcode_of::{load, store};
use model::instructions::{
    ArrayOperation, Constant, Increment, Invocation, Local, LocalAccess, Primitive, Test, Width,
};
use std::alloc::AllocError;

/// Writes an unsigned number in two bytes.
#[tactic(auto, unfolding(model::specs::Bytecode::Fields::u2))]
pub fn put_u2(out: &mut Vec<u8>, n: u16) -> Result<(), AllocError>
    ensures { OnOk result (out.new.items ≡ out.old.items ++ u2 n) }
{
    out.extend_from_slice(&n.to_be_bytes())
}

/// Writes a signed number in a byte.
#[tactic(auto, unfolding(model::specs::Bytecode::Fields::signed))]
pub fn put_i8(out: &mut Vec<u8>, z: i8) -> Result<(), AllocError>
    ensures { OnOk result (out.new.items ≡ out.old.items ++ signed w8 z) }
{
    out.extend_from_slice(&z.to_be_bytes())
}

/// Writes a signed number in two bytes.
#[tactic(auto, unfolding(model::specs::Bytecode::Fields::signed))]
pub fn put_i16(out: &mut Vec<u8>, z: i16) -> Result<(), AllocError>
    ensures { OnOk result (out.new.items ≡ out.old.items ++ signed w16 z) }
{
    out.extend_from_slice(&z.to_be_bytes())
}

/// Writes a signed number in four bytes.
#[tactic(auto, unfolding(model::specs::Bytecode::Fields::signed))]
pub fn put_i32(out: &mut Vec<u8>, z: i32) -> Result<(), AllocError>
    ensures { OnOk result (out.new.items ≡ out.old.items ++ signed w32 z) }
{
    out.extend_from_slice(&z.to_be_bytes())
}

/// The branch offset from a pc to a target.
pub fn way(pc: u16, target: u16) -> i32
    ensures value { result ≡ offset pc target }
    ensures fits { FitsSigned w32 (offset pc target) }
{
    i32::from(target) - i32::from(pc)
}

/// Writes the operand of a constant. `Operand` where its constant-pool index has no room.
pub fn put_constant(out: &mut Vec<u8>, constant: Constant<u16, u16>) -> Result<(), OpError>
    ensures ok { OnOk result (ConstantFits constant × (out.new.items ≡ out.old.items ++ constant_operands constant)) }
    ensures err { IfErr result (λ e. ConstantFits constant → e ≡ error.Memory) }
{
    match constant {
        Constant::Null | Constant::SmallInt(_) | Constant::SmallLong(_) => {}
        Constant::Byte(z) => put_i8(out, z)?,
        Constant::Short(z) => put_i16(out, z)?,
        Constant::Int(Width::Narrow, n) => {
            if n > 255 {
                return Err(OpError::Operand);
            }
            out.push(n as u8)?;
        }
        Constant::Int(Width::Wide, n) | Constant::Long(n) => put_u2(out, n)?,
    }
    Ok(())
}

/// Writes what stands after the opcode of an access to a local.
pub fn put_access(out: &mut Vec<u8>, access: LocalAccess) -> Result<(), AllocError>
    ensures { OnOk result (AccessFits access × (out.new.items ≡ out.old.items ++ access_operands access)) }
{
    match access {
        LocalAccess::Load(_, Local::First(_)) | LocalAccess::Store(_, Local::First(_)) => {}
        LocalAccess::Load(_, Local::Byte(n)) | LocalAccess::Store(_, Local::Byte(n)) => {
            out.push(n)?;
        }
        LocalAccess::Load(kind, Local::Wide(n)) => {
            out.push(load(kind))?;
            put_u2(out, n)?;
        }
        LocalAccess::Store(kind, Local::Wide(n)) => {
            out.push(store(kind))?;
            put_u2(out, n)?;
        }
        LocalAccess::Increment(Increment::Byte(n, by)) => {
            out.push(n)?;
            put_i8(out, by)?;
        }
        LocalAccess::Increment(Increment::Wide(n, by)) => {
            out.push(132)?;
            put_u2(out, n)?;
            put_i16(out, by)?;
        }
    }
    Ok(())
}

/// Writes the offset of a branch at a pc. `Operand` where it has no room.
pub fn put_branch(out: &mut Vec<u8>, pc: u16, test: Test, target: u16) -> Result<(), OpError>
    ensures ok { OnOk result (FitsSigned (branch_width test) (offset pc target)
        × (out.new.items ≡ out.old.items ++ signed (branch_width test) (offset pc target))) }
    ensures err { IfErr result (λ e. FitsSigned (branch_width test) (offset pc target) → e ≡ error.Memory) }
{
    let offset = way(pc, target);
    match test {
        Test::Always(Width::Wide) => put_i32(out, offset)?,
        Test::Always(Width::Narrow)
        | Test::Zero(_)
        | Test::Ints(_)
        | Test::Refs(_)
        | Test::Null(_) => match i16::try_from(offset) {
            Ok(offset) => put_i16(out, offset)?,
            Err(_) => return Err(OpError::Operand),
        },
    }
    Ok(())
}

fn number_of(primitive: Primitive) -> u8
    ensures { result ≡ primitive_number primitive }
{
    match primitive {
        Primitive::Char => 5,
        Primitive::Byte => 8,
        Primitive::Short => 9,
        Primitive::Int => 10,
        Primitive::Long => 11,
    }
}

/// Writes what stands after the opcode of an instruction on arrays.
pub fn put_array(out: &mut Vec<u8>, operation: &ArrayOperation<u16>) -> Result<(), AllocError>
    ensures { OnOk result (ArrayFits operation.now × (out.new.items ≡ out.old.items ++ array_operands operation.now)) }
{
    match operation {
        ArrayOperation::New(primitive) => out.push(number_of(*primitive))?,
        ArrayOperation::NewOf(n) => put_u2(out, *n)?,
        ArrayOperation::Length | ArrayOperation::Load(_) | ArrayOperation::Store(_) => {}
    }
    Ok(())
}

/// Writes what stands after the opcode of a call.
pub fn put_invoke(out: &mut Vec<u8>, how: Invocation, n: u16) -> Result<(), AllocError>
    ensures { OnOk result (InvokeFits how n × (out.new.items ≡ out.old.items ++ invoke_operands how n)) }
{
    put_u2(out, n)?;
    match how {
        Invocation::Virtual | Invocation::Special | Invocation::Static => {}
        Invocation::Interface(count) => {
            out.push(count)?;
            out.push(0)?;
        }
    }
    Ok(())
}

/// Writes the zero bytes after the opcode of a switch at a pc.
pub fn put_pad(out: &mut Vec<u8>, pc: u16) -> Result<(), AllocError>
    ensures { OnOk result (out.new.items ≡ out.old.items ++ pad pc) }
{
    let count = 3 - pc % 4;
    for _ in 0..count {
        out.push(0)?;
    }
    Ok(())
}
