//! Reading an instruction from the front of bytes.

ghost use Rattle.std.specs.Prelude.{◌≡◌};
ghost use Rattle.opcodes.specs.Reading.Steps.{AsksForNone, Gives};
ghost use Rattle.opcodes.specs.Reading.{by_name, increment_at, interface_at, new_array_at, wide_at, layout_at};
ghost use Rattle.opcodes.specs.Reading.{instruction_at};

use crate::error::OpError;
use crate::fields::{i8_at, i16_at, u8_at, u16_at};
use crate::layout::{Layout, Named};
use crate::switches::{branch, lookup, table};
use crate::tables::{bare, layout, primitive};
use model::bytecode::Instr;
use model::instructions::{
    ArrayOperation, Constant, Increment, Instruction, Invocation, Local, LocalAccess, Width,
};
use std::alloc::Global;

fn named(what: Named, n: u16) -> Instr
    ensures { result ≡ by_name what n }
{
    match what {
        Named::Int => Instruction::Constant(Constant::Int(Width::Wide, n)),
        Named::Long => Instruction::Constant(Constant::Long(n)),
        Named::Static(access) => Instruction::Static(access, n),
        Named::Field(access) => Instruction::Field(access, n),
        Named::InvokeVirtual => Instruction::Invoke(Invocation::Virtual, n),
        Named::InvokeSpecial => Instruction::Invoke(Invocation::Special, n),
        Named::InvokeStatic => Instruction::Invoke(Invocation::Static, n),
        Named::NewArray => Instruction::Array(ArrayOperation::NewOf(n)),
        Named::Class(operation) => Instruction::Class(operation, n),
    }
}

#[tactic(auto, unfolding(crate::specs::Reading::increment_at))]
fn increment(bytes: &[u8]) -> Result<(Instr, &[u8]), OpError>
    ensures gives { Gives (λ x. (x.0, x.1.now)) result (increment_at bytes.now) }
    ensures memory { AsksForNone result }
{
    let (n, rest) = u8_at(bytes)?;
    let (by, rest) = i8_at(rest)?;
    let access = LocalAccess::Increment(Increment::Byte(n, by));
    Ok((Instruction::Local(access), rest))
}

#[tactic(auto, unfolding(crate::specs::Reading::interface_at))]
fn interface(bytes: &[u8]) -> Result<(Instr, &[u8]), OpError>
    ensures gives { Gives (λ x. (x.0, x.1.now)) result (interface_at bytes.now) }
    ensures memory { AsksForNone result }
{
    let (n, rest) = u16_at(bytes)?;
    let (count, rest) = u8_at(rest)?;
    let (last, rest) = u8_at(rest)?;
    match last {
        0 => Ok((Instruction::Invoke(Invocation::Interface(count), n), rest)),
        _ => Err(OpError::Opcode),
    }
}

#[tactic(auto, unfolding(crate::specs::Reading::new_array_at))]
fn new_array(bytes: &[u8]) -> Result<(Instr, &[u8]), OpError>
    ensures gives { Gives (λ x. (x.0, x.1.now)) result (new_array_at bytes.now) }
    ensures memory { AsksForNone result }
{
    let (n, rest) = u8_at(bytes)?;
    match primitive(n) {
        None => Err(OpError::Opcode),
        Some(element) => Ok((Instruction::Array(ArrayOperation::New(element)), rest)),
    }
}

#[tactic(auto, unfolding(crate::specs::Reading::wide_at))]
fn wide(bytes: &[u8]) -> Result<(Instr, &[u8]), OpError>
    ensures gives { Gives (λ x. (x.0, x.1.now)) result (wide_at bytes.now) }
    ensures memory { AsksForNone result }
{
    let (opcode, rest) = u8_at(bytes)?;
    match layout(opcode) {
        Some(Layout::Load(kind)) => {
            let (n, rest) = u16_at(rest)?;
            let access = LocalAccess::Load(kind, Local::Wide(n));
            Ok((Instruction::Local(access), rest))
        }
        Some(Layout::Store(kind)) => {
            let (n, rest) = u16_at(rest)?;
            let access = LocalAccess::Store(kind, Local::Wide(n));
            Ok((Instruction::Local(access), rest))
        }
        Some(Layout::Increment) => {
            let (n, rest) = u16_at(rest)?;
            let (by, rest) = i16_at(rest)?;
            let access = LocalAccess::Increment(Increment::Wide(n, by));
            Ok((Instruction::Local(access), rest))
        }
        None
        | Some(
            Layout::Byte
            | Layout::Short
            | Layout::NarrowInt
            | Layout::Branch(_)
            | Layout::Named(_)
            | Layout::InvokeInterface
            | Layout::NewArray
            | Layout::TableSwitch
            | Layout::LookupSwitch
            | Layout::Wide,
        ) => Err(OpError::Opcode),
    }
}

#[tactic(auto, unfolding(crate::specs::Reading::layout_at))]
fn operands(alloc: Global, pc: u16, layout: Layout, bytes: &[u8]) -> Result<(Instr, &[u8]), OpError>
    ensures { Gives (λ x. (x.0, x.1.now)) result (layout_at pc layout bytes.now) }
{
    match layout {
        Layout::Byte => {
            let (value, rest) = i8_at(bytes)?;
            Ok((Instruction::Constant(Constant::Byte(value)), rest))
        }
        Layout::Short => {
            let (value, rest) = i16_at(bytes)?;
            Ok((Instruction::Constant(Constant::Short(value)), rest))
        }
        Layout::NarrowInt => {
            let (n, rest) = u8_at(bytes)?;
            let constant = Constant::Int(Width::Narrow, u16::from(n));
            Ok((Instruction::Constant(constant), rest))
        }
        Layout::Load(kind) => {
            let (n, rest) = u8_at(bytes)?;
            let access = LocalAccess::Load(kind, Local::Byte(n));
            Ok((Instruction::Local(access), rest))
        }
        Layout::Store(kind) => {
            let (n, rest) = u8_at(bytes)?;
            let access = LocalAccess::Store(kind, Local::Byte(n));
            Ok((Instruction::Local(access), rest))
        }
        Layout::Increment => increment(bytes),
        Layout::Branch(test) => branch(pc, test, bytes),
        Layout::Named(what) => {
            let (n, rest) = u16_at(bytes)?;
            Ok((named(what, n), rest))
        }
        Layout::InvokeInterface => interface(bytes),
        Layout::NewArray => new_array(bytes),
        Layout::TableSwitch => table(alloc, pc, bytes),
        Layout::LookupSwitch => lookup(alloc, pc, bytes),
        Layout::Wide => wide(bytes),
    }
}

/// The instruction at a pc from the front of the bytes, and the bytes after it. The first of `Opcode`, `Operand` and
/// `Switch` that is met, or `Memory`.
#[tactic(auto, unfolding(crate::specs::Reading::instruction_at))]
pub fn instruction(alloc: Global, pc: u16, bytes: &[u8]) -> Result<(Instr, &[u8]), OpError>
    ensures { Gives (λ x. (x.0, x.1.now)) result (instruction_at pc bytes.now) }
{
    let (opcode, rest) = u8_at(bytes)?;
    match bare(opcode) {
        Some(instruction) => Ok((instruction, rest)),
        None => match layout(opcode) {
            Some(layout) => operands(alloc, pc, layout, rest),
            None => Err(OpError::Opcode),
        },
    }
}
