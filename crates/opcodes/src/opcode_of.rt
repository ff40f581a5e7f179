//! The opcode of each instruction (JVMS 6.5, 7).

ghost use Rattle.std.specs.Prelude.{◌≡◌, ◌≤◌};
ghost use Rattle.model.specs.Bytecode.Opcodes as spec;

use model::bytecode::Instr;
use model::instructions::{
    Access, ArrayOperation, ClassOperation, Comparison, Constant, Conversion, ElementKind,
    FirstLocal, Identity, Increment, Instruction, Invocation, Local, LocalAccess, MonitorOperation,
    NumberKind, NumberOperation, Operator, SmallInt, SmallLong, StackOperation, Test, Width,
};
use model::values::Kind;

fn constant(constant: Constant<u16, u16>) -> u8
    ensures { result ≡ spec.constant_opcode constant }
{
    match constant {
        Constant::Null => 1,
        Constant::SmallInt(SmallInt::MinusOne) => 2,
        Constant::SmallInt(SmallInt::Zero) => 3,
        Constant::SmallInt(SmallInt::One) => 4,
        Constant::SmallInt(SmallInt::Two) => 5,
        Constant::SmallInt(SmallInt::Three) => 6,
        Constant::SmallInt(SmallInt::Four) => 7,
        Constant::SmallInt(SmallInt::Five) => 8,
        Constant::SmallLong(SmallLong::Zero) => 9,
        Constant::SmallLong(SmallLong::One) => 10,
        Constant::Byte(_) => 16,
        Constant::Short(_) => 17,
        Constant::Int(Width::Narrow, _) => 18,
        Constant::Int(Width::Wide, _) => 19,
        Constant::Long(_) => 20,
    }
}

/// The opcode of `iload` and its kin.
pub fn load(kind: Kind) -> u8
    ensures { result ≡ spec.load_opcode kind }
{
    match kind {
        Kind::Int => 21,
        Kind::Long => 22,
        Kind::Ref => 25,
    }
}

/// The opcode of `istore` and its kin.
pub fn store(kind: Kind) -> u8
    ensures { result ≡ spec.store_opcode kind }
{
    match kind {
        Kind::Int => 54,
        Kind::Long => 55,
        Kind::Ref => 58,
    }
}

fn load_0(kind: Kind) -> u8
    ensures value { result ≡ spec.load_0_opcode kind }
    ensures small { result ≤ 75 }
{
    match kind {
        Kind::Int => 26,
        Kind::Long => 30,
        Kind::Ref => 42,
    }
}

fn store_0(kind: Kind) -> u8
    ensures value { result ≡ spec.store_0_opcode kind }
    ensures small { result ≤ 75 }
{
    match kind {
        Kind::Int => 59,
        Kind::Long => 63,
        Kind::Ref => 75,
    }
}

fn first(local: FirstLocal) -> u8
    ensures value { result ≡ spec.first_number local }
    ensures small { result ≤ 3 }
{
    match local {
        FirstLocal::Zero => 0,
        FirstLocal::One => 1,
        FirstLocal::Two => 2,
        FirstLocal::Three => 3,
    }
}

fn access(access: LocalAccess) -> u8
    ensures { result ≡ spec.access_opcode access }
{
    match access {
        LocalAccess::Load(kind, Local::First(local)) => load_0(kind) + first(local),
        LocalAccess::Load(kind, Local::Byte(_)) => load(kind),
        LocalAccess::Load(_, Local::Wide(_)) => 196,
        LocalAccess::Store(kind, Local::First(local)) => store_0(kind) + first(local),
        LocalAccess::Store(kind, Local::Byte(_)) => store(kind),
        LocalAccess::Store(_, Local::Wide(_)) => 196,
        LocalAccess::Increment(Increment::Byte(_, _)) => 132,
        LocalAccess::Increment(Increment::Wide(_, _)) => 196,
    }
}

fn stack(operation: StackOperation) -> u8
    ensures { result ≡ spec.stack_opcode operation }
{
    match operation {
        StackOperation::Pop => 87,
        StackOperation::Pop2 => 88,
        StackOperation::Dup => 89,
        StackOperation::DupX1 => 90,
        StackOperation::DupX2 => 91,
        StackOperation::Dup2 => 92,
        StackOperation::Dup2X1 => 93,
        StackOperation::Dup2X2 => 94,
        StackOperation::Swap => 95,
    }
}

fn operator(operator: Operator) -> u8
    ensures value { result ≡ spec.operator_opcode operator }
    ensures small { result ≤ 130 }
{
    match operator {
        Operator::Add => 96,
        Operator::Sub => 100,
        Operator::Mul => 104,
        Operator::Div => 108,
        Operator::Rem => 112,
        Operator::Shl => 120,
        Operator::Shr => 122,
        Operator::Ushr => 124,
        Operator::And => 126,
        Operator::Or => 128,
        Operator::Xor => 130,
    }
}

fn number(operation: NumberOperation) -> u8
    ensures { result ≡ spec.number_opcode operation }
{
    match operation {
        NumberOperation::Binary(NumberKind::Int, op) => operator(op),
        NumberOperation::Binary(NumberKind::Long, op) => operator(op) + 1,
        NumberOperation::Negate(NumberKind::Int) => 116,
        NumberOperation::Negate(NumberKind::Long) => 117,
        NumberOperation::Convert(Conversion::IntToLong) => 133,
        NumberOperation::Convert(Conversion::LongToInt) => 136,
        NumberOperation::Convert(Conversion::IntToByte) => 145,
        NumberOperation::Convert(Conversion::IntToChar) => 146,
        NumberOperation::Convert(Conversion::IntToShort) => 147,
        NumberOperation::CompareLongs => 148,
    }
}

fn comparison(comparison: Comparison) -> u8
    ensures value { result ≡ spec.comparison_number comparison }
    ensures small { result ≤ 5 }
{
    match comparison {
        Comparison::Equal => 0,
        Comparison::NotEqual => 1,
        Comparison::Less => 2,
        Comparison::GreaterOrEqual => 3,
        Comparison::Greater => 4,
        Comparison::LessOrEqual => 5,
    }
}

fn branch(test: Test) -> u8
    ensures { result ≡ spec.branch_opcode test }
{
    match test {
        Test::Always(Width::Narrow) => 167,
        Test::Always(Width::Wide) => 200,
        Test::Zero(c) => 153 + comparison(c),
        Test::Ints(c) => 159 + comparison(c),
        Test::Refs(Identity::Same) => 165,
        Test::Refs(Identity::Different) => 166,
        Test::Null(Identity::Same) => 198,
        Test::Null(Identity::Different) => 199,
    }
}

fn element_load(kind: ElementKind) -> u8
    ensures { result ≡ spec.element_load_opcode kind }
{
    match kind {
        ElementKind::Int => 46,
        ElementKind::Long => 47,
        ElementKind::Ref => 50,
        ElementKind::Byte => 51,
        ElementKind::Char => 52,
        ElementKind::Short => 53,
    }
}

fn element_store(kind: ElementKind) -> u8
    ensures { result ≡ spec.element_store_opcode kind }
{
    match kind {
        ElementKind::Int => 79,
        ElementKind::Long => 80,
        ElementKind::Ref => 83,
        ElementKind::Byte => 84,
        ElementKind::Char => 85,
        ElementKind::Short => 86,
    }
}

fn array(operation: &ArrayOperation<u16>) -> u8
    ensures { result ≡ spec.array_opcode operation.now }
{
    match operation {
        ArrayOperation::New(_) => 188,
        ArrayOperation::NewOf(_) => 189,
        ArrayOperation::Length => 190,
        ArrayOperation::Load(kind) => element_load(*kind),
        ArrayOperation::Store(kind) => element_store(*kind),
    }
}

/// The opcode that the spelling of an instruction begins with.
pub fn opcode(instruction: &Instr) -> u8
    ensures { result ≡ spec.opcode instruction.now }
{
    match instruction {
        Instruction::Nop => 0,
        Instruction::Constant(c) => constant(*c),
        Instruction::Local(a) => access(*a),
        Instruction::Stack(operation) => stack(*operation),
        Instruction::Number(operation) => number(*operation),
        Instruction::Branch(test, _) => branch(*test),
        Instruction::TableSwitch(_) => 170,
        Instruction::LookupSwitch(_) => 171,
        Instruction::Return(None) => 177,
        Instruction::Return(Some(Kind::Int)) => 172,
        Instruction::Return(Some(Kind::Long)) => 173,
        Instruction::Return(Some(Kind::Ref)) => 176,
        Instruction::Static(Access::Get, _) => 178,
        Instruction::Static(Access::Put, _) => 179,
        Instruction::Field(Access::Get, _) => 180,
        Instruction::Field(Access::Put, _) => 181,
        Instruction::Array(operation) => array(operation),
        Instruction::Class(ClassOperation::New, _) => 187,
        Instruction::Class(ClassOperation::CheckCast, _) => 192,
        Instruction::Class(ClassOperation::InstanceOf, _) => 193,
        Instruction::Invoke(Invocation::Virtual, _) => 182,
        Instruction::Invoke(Invocation::Special, _) => 183,
        Instruction::Invoke(Invocation::Static, _) => 184,
        Instruction::Invoke(Invocation::Interface(_), _) => 185,
        Instruction::Throw => 191,
        Instruction::Monitor(MonitorOperation::Enter) => 194,
        Instruction::Monitor(MonitorOperation::Exit) => 195,
    }
}
