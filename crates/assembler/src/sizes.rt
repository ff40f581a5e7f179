//! The sizes of a text's instructions.
ghost use Rattle.std.specs.Prelude.{◌≡◌, ◌≤◌, ◌<◌, ◌+◌, ◌*◌, map, MatchOption};
ghost use Rattle.model.specs.Sizes.{constant_size, index_size, local_size, branch_size, array_size, invoke_size};
ghost use Rattle.model.specs.Sizes.{pad_at, size_at};
ghost use Rattle.model.specs.Texts.Assembling.{size_is_right};
ghost use Rattle.model.specs.Texts.Labels.{pc_following};
ghost use Rattle.model.specs.Texts.Widths.{widened, widened_constant, widened_line};

use crate::ldc_numbers::among;
use model::instructions::{
    ArrayOperation, Constant, Increment, Instruction, Invocation, Local, LocalAccess, Test, Width,
};
use model::names::Name;
use model::trees::{TextLine, Written};

/// The size of lines that hold code, if it is 65,535 at most. `narrow` are the numbers that go with `ldc`.
fn code_size(narrow: &[i32], lines: &[TextLine]) -> Option<u16>
    ensures { MatchOption result (65535 < pc_following 0 (map (widened_line narrow.now) lines.now)) (λ size. size
        ≡ pc_following 0 (map (widened_line narrow.now) lines.now)) }
{
    let mut pc = 0u16;
    for line in lines {
        match line {
            TextLine::Label(_) => {}
            TextLine::Instruction(instruction) => match pc_after(narrow, pc, instruction) {
                Some(next) => pc = next,
                None => return None,
            },
        }
    }
    Some(pc)
}

/// Whether lines hold 1 to 65,535 bytes of code.
pub fn has_right_size(narrow: &[i32], lines: &[TextLine]) -> bool
    ensures { result ≡ size_is_right (pc_following 0 (map (widened_line narrow.now) lines.now)) }
{
    match code_size(narrow, lines) {
        Some(size) => size >= 1,
        None => false,
    }
}

/// The pc after an instruction, if it is 65,535 at most.
pub fn pc_after(narrow: &[i32], pc: u16, instruction: &Written) -> Option<u16>
    ensures { MatchOption result (65535 < pc + size_at pc (widened narrow.now instruction.now)) (λ next. next
        ≡ pc + size_at pc (widened narrow.now instruction.now)) }
{
    match size_of(narrow, pc, instruction) {
        Some(size) => pc.checked_add(size),
        None => None,
    }
}

/// The size of an instruction at a pc, if it is 65,535 at most.
fn size_of(narrow: &[i32], pc: u16, instruction: &Written) -> Option<u16>
    ensures { MatchOption result (65535 < size_at pc (widened narrow.now instruction.now)) (λ size. size
        ≡ size_at pc (widened narrow.now instruction.now)) }
{
    match instruction {
        Instruction::Nop => Some(1),
        Instruction::Constant(constant) => Some(constant_size(narrow, *constant)),
        Instruction::Local(access) => Some(local_size(*access)),
        Instruction::Stack(_) => Some(1),
        Instruction::Number(_) => Some(1),
        Instruction::Branch(test, _) => Some(branch_size(*test)),
        Instruction::TableSwitch(table) => switch_size(pc, 13, 4, table.targets.len()),
        Instruction::LookupSwitch(lookup) => switch_size(pc, 9, 8, lookup.pairs.len()),
        Instruction::Return(_) => Some(1),
        Instruction::Static(_, _) => Some(3),
        Instruction::Field(_, _) => Some(3),
        Instruction::Array(operation) => Some(array_size(operation)),
        Instruction::Class(_, _) => Some(3),
        Instruction::Invoke(invocation, _) => Some(invoke_size(*invocation)),
        Instruction::Throw => Some(1),
        Instruction::Monitor(_) => Some(1),
    }
}

fn constant_size(narrow: &[i32], constant: Constant<i32, i64>) -> u16
    ensures { result ≡ constant_size (widened_constant narrow.now constant) }
{
    match constant {
        Constant::Null | Constant::SmallInt(_) | Constant::SmallLong(_) => 1,
        Constant::Byte(_) => 2,
        Constant::Short(_) => 3,
        Constant::Int(Width::Narrow, n) => { if among(narrow, n) { 2 } else { 3 } }
        Constant::Int(Width::Wide, _) => 3,
        Constant::Long(_) => 3,
    }
}

fn local_size(access: LocalAccess) -> u16
    ensures { result ≡ local_size access }
{
    match access {
        LocalAccess::Load(_, index) | LocalAccess::Store(_, index) => index_size(index),
        LocalAccess::Increment(Increment::Byte(_, _)) => 3,
        LocalAccess::Increment(Increment::Wide(_, _)) => 6,
    }
}

fn index_size(index: Local) -> u16
    ensures { result ≡ index_size index }
{
    match index {
        Local::First(_) => 1,
        Local::Byte(_) => 2,
        Local::Wide(_) => 4,
    }
}

fn branch_size(test: Test) -> u16
    ensures { result ≡ branch_size test }
{
    match test {
        Test::Always(Width::Narrow) => 3,
        Test::Always(Width::Wide) => 5,
        Test::Zero(_) | Test::Ints(_) | Test::Refs(_) | Test::Null(_) => 3,
    }
}

fn array_size(operation: &ArrayOperation<Name>) -> u16
    ensures { result ≡ array_size operation.now }
{
    match operation {
        ArrayOperation::New(_) => 2,
        ArrayOperation::NewOf(_) => 3,
        ArrayOperation::Length => 1,
        ArrayOperation::Load(_) => 1,
        ArrayOperation::Store(_) => 1,
    }
}

fn invoke_size(invocation: Invocation) -> u16
    ensures { result ≡ invoke_size invocation }
{
    match invocation {
        Invocation::Virtual | Invocation::Special | Invocation::Static => 3,
        Invocation::Interface(_) => 5,
    }
}

/// The size of a switch at a pc: pads, a head and a number of rows.
fn switch_size(pc: u16, head: u16, row: u16, rows: usize) -> Option<u16>
    requires head_small { head ≤ 13 }
    requires row_least { 4 ≤ row }
    requires row_small { row ≤ 8 }
    ensures { MatchOption result (65535 < pad_at pc + head + row * rows) (λ size. size
        ≡ pad_at pc + head + row * rows) }
{
    if rows > 16_383 {
        return None;
    }
    let size = u32::from(3 - pc % 4) + u32::from(head) + u32::from(row) * rows as u32;
    if size <= 65_535 {
        Some(size as u16)
    } else {
        None
    }
}
