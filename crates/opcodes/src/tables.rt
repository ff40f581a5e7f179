//! Which instruction or layout an opcode stands for (JVMS 7).

ghost use Rattle.std.specs.Prelude.{◌≡◌};
ghost use Rattle.opcodes.specs.Reading.Steps.{entry_at};
ghost use Rattle.opcodes.specs.Reading.Tables.{constants_and_loads, stores_and_stack, numbers_and_returns, bare_of};
ghost use Rattle.opcodes.specs.Reading.Tables.{low_layouts, high_layouts, layout_of, primitives};

use crate::layout::{Layout, Named};
use model::bytecode::Instr;
use model::instructions::{
    Access, ArrayOperation, ClassOperation, Comparison, Constant, Conversion, ElementKind,
    FirstLocal, Identity, Instruction, Local, LocalAccess, MonitorOperation, NumberKind,
    NumberOperation, Operator, Primitive, SmallInt, SmallLong, StackOperation, Test, Width,
};
use model::values::Kind;

fn constant_or_load(opcode: u8) -> Option<Instr>
    ensures { result ≡ entry_at constants_and_loads opcode }
{
    Some(match opcode {
        0 => Instruction::Nop,
        1 => Instruction::Constant(Constant::Null),
        2 => Instruction::Constant(Constant::SmallInt(SmallInt::MinusOne)),
        3 => Instruction::Constant(Constant::SmallInt(SmallInt::Zero)),
        4 => Instruction::Constant(Constant::SmallInt(SmallInt::One)),
        5 => Instruction::Constant(Constant::SmallInt(SmallInt::Two)),
        6 => Instruction::Constant(Constant::SmallInt(SmallInt::Three)),
        7 => Instruction::Constant(Constant::SmallInt(SmallInt::Four)),
        8 => Instruction::Constant(Constant::SmallInt(SmallInt::Five)),
        9 => Instruction::Constant(Constant::SmallLong(SmallLong::Zero)),
        10 => Instruction::Constant(Constant::SmallLong(SmallLong::One)),
        26 => Instruction::Local(LocalAccess::Load(Kind::Int, Local::First(FirstLocal::Zero))),
        27 => Instruction::Local(LocalAccess::Load(Kind::Int, Local::First(FirstLocal::One))),
        28 => Instruction::Local(LocalAccess::Load(Kind::Int, Local::First(FirstLocal::Two))),
        29 => Instruction::Local(LocalAccess::Load(Kind::Int, Local::First(FirstLocal::Three))),
        30 => Instruction::Local(LocalAccess::Load(Kind::Long, Local::First(FirstLocal::Zero))),
        31 => Instruction::Local(LocalAccess::Load(Kind::Long, Local::First(FirstLocal::One))),
        32 => Instruction::Local(LocalAccess::Load(Kind::Long, Local::First(FirstLocal::Two))),
        33 => Instruction::Local(LocalAccess::Load(Kind::Long, Local::First(FirstLocal::Three))),
        42 => Instruction::Local(LocalAccess::Load(Kind::Ref, Local::First(FirstLocal::Zero))),
        43 => Instruction::Local(LocalAccess::Load(Kind::Ref, Local::First(FirstLocal::One))),
        44 => Instruction::Local(LocalAccess::Load(Kind::Ref, Local::First(FirstLocal::Two))),
        45 => Instruction::Local(LocalAccess::Load(Kind::Ref, Local::First(FirstLocal::Three))),
        46 => Instruction::Array(ArrayOperation::Load(ElementKind::Int)),
        47 => Instruction::Array(ArrayOperation::Load(ElementKind::Long)),
        50 => Instruction::Array(ArrayOperation::Load(ElementKind::Ref)),
        51 => Instruction::Array(ArrayOperation::Load(ElementKind::Byte)),
        52 => Instruction::Array(ArrayOperation::Load(ElementKind::Char)),
        53 => Instruction::Array(ArrayOperation::Load(ElementKind::Short)),
        _ => return None,
    })
}

fn store_or_stack(opcode: u8) -> Option<Instr>
    ensures { result ≡ entry_at stores_and_stack opcode }
{
    Some(match opcode {
        59 => Instruction::Local(LocalAccess::Store(Kind::Int, Local::First(FirstLocal::Zero))),
        60 => Instruction::Local(LocalAccess::Store(Kind::Int, Local::First(FirstLocal::One))),
        61 => Instruction::Local(LocalAccess::Store(Kind::Int, Local::First(FirstLocal::Two))),
        62 => Instruction::Local(LocalAccess::Store(Kind::Int, Local::First(FirstLocal::Three))),
        63 => Instruction::Local(LocalAccess::Store(Kind::Long, Local::First(FirstLocal::Zero))),
        64 => Instruction::Local(LocalAccess::Store(Kind::Long, Local::First(FirstLocal::One))),
        65 => Instruction::Local(LocalAccess::Store(Kind::Long, Local::First(FirstLocal::Two))),
        66 => Instruction::Local(LocalAccess::Store(Kind::Long, Local::First(FirstLocal::Three))),
        75 => Instruction::Local(LocalAccess::Store(Kind::Ref, Local::First(FirstLocal::Zero))),
        76 => Instruction::Local(LocalAccess::Store(Kind::Ref, Local::First(FirstLocal::One))),
        77 => Instruction::Local(LocalAccess::Store(Kind::Ref, Local::First(FirstLocal::Two))),
        78 => Instruction::Local(LocalAccess::Store(Kind::Ref, Local::First(FirstLocal::Three))),
        79 => Instruction::Array(ArrayOperation::Store(ElementKind::Int)),
        80 => Instruction::Array(ArrayOperation::Store(ElementKind::Long)),
        83 => Instruction::Array(ArrayOperation::Store(ElementKind::Ref)),
        84 => Instruction::Array(ArrayOperation::Store(ElementKind::Byte)),
        85 => Instruction::Array(ArrayOperation::Store(ElementKind::Char)),
        86 => Instruction::Array(ArrayOperation::Store(ElementKind::Short)),
        87 => Instruction::Stack(StackOperation::Pop),
        88 => Instruction::Stack(StackOperation::Pop2),
        89 => Instruction::Stack(StackOperation::Dup),
        90 => Instruction::Stack(StackOperation::DupX1),
        91 => Instruction::Stack(StackOperation::DupX2),
        92 => Instruction::Stack(StackOperation::Dup2),
        93 => Instruction::Stack(StackOperation::Dup2X1),
        94 => Instruction::Stack(StackOperation::Dup2X2),
        95 => Instruction::Stack(StackOperation::Swap),
        _ => return None,
    })
}

fn number_or_return(opcode: u8) -> Option<Instr>
    ensures { result ≡ entry_at numbers_and_returns opcode }
{
    Some(match opcode {
        96 => Instruction::Number(NumberOperation::Binary(NumberKind::Int, Operator::Add)),
        97 => Instruction::Number(NumberOperation::Binary(NumberKind::Long, Operator::Add)),
        100 => Instruction::Number(NumberOperation::Binary(NumberKind::Int, Operator::Sub)),
        101 => Instruction::Number(NumberOperation::Binary(NumberKind::Long, Operator::Sub)),
        104 => Instruction::Number(NumberOperation::Binary(NumberKind::Int, Operator::Mul)),
        105 => Instruction::Number(NumberOperation::Binary(NumberKind::Long, Operator::Mul)),
        108 => Instruction::Number(NumberOperation::Binary(NumberKind::Int, Operator::Div)),
        109 => Instruction::Number(NumberOperation::Binary(NumberKind::Long, Operator::Div)),
        112 => Instruction::Number(NumberOperation::Binary(NumberKind::Int, Operator::Rem)),
        113 => Instruction::Number(NumberOperation::Binary(NumberKind::Long, Operator::Rem)),
        116 => Instruction::Number(NumberOperation::Negate(NumberKind::Int)),
        117 => Instruction::Number(NumberOperation::Negate(NumberKind::Long)),
        120 => Instruction::Number(NumberOperation::Binary(NumberKind::Int, Operator::Shl)),
        121 => Instruction::Number(NumberOperation::Binary(NumberKind::Long, Operator::Shl)),
        122 => Instruction::Number(NumberOperation::Binary(NumberKind::Int, Operator::Shr)),
        123 => Instruction::Number(NumberOperation::Binary(NumberKind::Long, Operator::Shr)),
        124 => Instruction::Number(NumberOperation::Binary(NumberKind::Int, Operator::Ushr)),
        125 => Instruction::Number(NumberOperation::Binary(NumberKind::Long, Operator::Ushr)),
        126 => Instruction::Number(NumberOperation::Binary(NumberKind::Int, Operator::And)),
        127 => Instruction::Number(NumberOperation::Binary(NumberKind::Long, Operator::And)),
        128 => Instruction::Number(NumberOperation::Binary(NumberKind::Int, Operator::Or)),
        129 => Instruction::Number(NumberOperation::Binary(NumberKind::Long, Operator::Or)),
        130 => Instruction::Number(NumberOperation::Binary(NumberKind::Int, Operator::Xor)),
        131 => Instruction::Number(NumberOperation::Binary(NumberKind::Long, Operator::Xor)),
        133 => Instruction::Number(NumberOperation::Convert(Conversion::IntToLong)),
        136 => Instruction::Number(NumberOperation::Convert(Conversion::LongToInt)),
        145 => Instruction::Number(NumberOperation::Convert(Conversion::IntToByte)),
        146 => Instruction::Number(NumberOperation::Convert(Conversion::IntToChar)),
        147 => Instruction::Number(NumberOperation::Convert(Conversion::IntToShort)),
        148 => Instruction::Number(NumberOperation::CompareLongs),
        172 => Instruction::Return(Some(Kind::Int)),
        173 => Instruction::Return(Some(Kind::Long)),
        176 => Instruction::Return(Some(Kind::Ref)),
        177 => Instruction::Return(None),
        190 => Instruction::Array(ArrayOperation::Length),
        191 => Instruction::Throw,
        194 => Instruction::Monitor(MonitorOperation::Enter),
        195 => Instruction::Monitor(MonitorOperation::Exit),
        _ => return None,
    })
}

/// The instruction of an opcode that has no operands.
#[tactic(auto, unfolding(crate::specs::Reading::Tables::bare_of))]
pub fn bare(opcode: u8) -> Option<Instr>
    ensures { result ≡ bare_of opcode }
{
    if opcode < 54 {
        constant_or_load(opcode)
    } else if opcode < 96 {
        store_or_stack(opcode)
    } else {
        number_or_return(opcode)
    }
}

fn low_layout(opcode: u8) -> Option<Layout>
    ensures { result ≡ entry_at low_layouts opcode }
{
    Some(match opcode {
        16 => Layout::Byte,
        17 => Layout::Short,
        18 => Layout::NarrowInt,
        19 => Layout::Named(Named::Int),
        20 => Layout::Named(Named::Long),
        21 => Layout::Load(Kind::Int),
        22 => Layout::Load(Kind::Long),
        25 => Layout::Load(Kind::Ref),
        54 => Layout::Store(Kind::Int),
        55 => Layout::Store(Kind::Long),
        58 => Layout::Store(Kind::Ref),
        132 => Layout::Increment,
        153 => Layout::Branch(Test::Zero(Comparison::Equal)),
        154 => Layout::Branch(Test::Zero(Comparison::NotEqual)),
        155 => Layout::Branch(Test::Zero(Comparison::Less)),
        156 => Layout::Branch(Test::Zero(Comparison::GreaterOrEqual)),
        157 => Layout::Branch(Test::Zero(Comparison::Greater)),
        158 => Layout::Branch(Test::Zero(Comparison::LessOrEqual)),
        159 => Layout::Branch(Test::Ints(Comparison::Equal)),
        160 => Layout::Branch(Test::Ints(Comparison::NotEqual)),
        161 => Layout::Branch(Test::Ints(Comparison::Less)),
        162 => Layout::Branch(Test::Ints(Comparison::GreaterOrEqual)),
        163 => Layout::Branch(Test::Ints(Comparison::Greater)),
        164 => Layout::Branch(Test::Ints(Comparison::LessOrEqual)),
        165 => Layout::Branch(Test::Refs(Identity::Same)),
        166 => Layout::Branch(Test::Refs(Identity::Different)),
        167 => Layout::Branch(Test::Always(Width::Narrow)),
        _ => return None,
    })
}

fn high_layout(opcode: u8) -> Option<Layout>
    ensures { result ≡ entry_at high_layouts opcode }
{
    Some(match opcode {
        170 => Layout::TableSwitch,
        171 => Layout::LookupSwitch,
        178 => Layout::Named(Named::Static(Access::Get)),
        179 => Layout::Named(Named::Static(Access::Put)),
        180 => Layout::Named(Named::Field(Access::Get)),
        181 => Layout::Named(Named::Field(Access::Put)),
        182 => Layout::Named(Named::InvokeVirtual),
        183 => Layout::Named(Named::InvokeSpecial),
        184 => Layout::Named(Named::InvokeStatic),
        185 => Layout::InvokeInterface,
        187 => Layout::Named(Named::Class(ClassOperation::New)),
        188 => Layout::NewArray,
        189 => Layout::Named(Named::NewArray),
        192 => Layout::Named(Named::Class(ClassOperation::CheckCast)),
        193 => Layout::Named(Named::Class(ClassOperation::InstanceOf)),
        196 => Layout::Wide,
        198 => Layout::Branch(Test::Null(Identity::Same)),
        199 => Layout::Branch(Test::Null(Identity::Different)),
        200 => Layout::Branch(Test::Always(Width::Wide)),
        _ => return None,
    })
}

/// What stands after an opcode that has operands.
#[tactic(auto, unfolding(crate::specs::Reading::Tables::layout_of))]
pub fn layout(opcode: u8) -> Option<Layout>
    ensures { result ≡ layout_of opcode }
{
    if opcode < 170 {
        low_layout(opcode)
    } else {
        high_layout(opcode)
    }
}

/// The element type that a number stands for in `newarray`.
pub fn primitive(number: u8) -> Option<Primitive>
    ensures { result ≡ entry_at primitives number }
{
    match number {
        5 => Some(Primitive::Char),
        8 => Some(Primitive::Byte),
        9 => Some(Primitive::Short),
        10 => Some(Primitive::Int),
        11 => Some(Primitive::Long),
        _ => None,
    }
}
