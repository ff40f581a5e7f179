//! Instructions.
ghost use Rattle.std.specs.Prelude.{◌≡◌, ◌≢◌, ◌∷◌, pos, None, Some, MatchResult, IfOk};
ghost use Rattle.std.specs.Option.{option_and_then};
ghost use Rattle.model.specs.declared.mnemonics.Mnemonic.TheVariants as variant;
ghost use Rattle.jasmin.specs.Locals.{local_instruction};
ghost use Rattle.model.specs.Texts.Instructions.{instruction_by, wide_by, wide_instruction, operand_of, field_of};
ghost use Rattle.model.specs.Texts.Instructions.{interface_call};
ghost use Rattle.model.specs.Texts.Numbers.{number_in};
ghost use Rattle.model.specs.Texts.Operands.{only, both, method_named, class_named, type_named, label_named};
ghost use Rattle.model.specs.Texts.Operands.{primitives};
ghost use Rattle.model.specs.Texts.Tables.{named};

use crate::errors::Fault;
use crate::locals::local_by;
use crate::mnemonics::mnemonic;
use crate::operands::{alone, both, only, only_number};
use crate::signatures;
use crate::tables::named;
use crate::written_numbers::integer;
use jasmin_words::words::Words;
use model::descriptors::is_array_descriptor;
use model::good_names::{is_class_name, is_part};
use model::instructions::{
    Access, ArrayOperation, ClassOperation, Constant, Instruction, Invocation, Primitive, Test,
    Width,
};
use model::mnemonics::{LocalMnemonic, Mnemonic};
use model::names::{Member, Name};
use model::trees::Written;
use std::alloc::Global;

/// The primitive types of elements.
const PRIMITIVES: [(&str, Primitive); 5] = [
    ("char", Primitive::Char),
    ("byte", Primitive::Byte),
    ("short", Primitive::Short),
    ("int", Primitive::Int),
    ("long", Primitive::Long),
];

/// The instruction of a mnemonic, by its operands.
pub fn instruction_by(
    alloc: Global,
    mnemonic: Mnemonic,
    operands: Words<'_>,
) -> Result<Written, Fault>
    ensures { MatchResult result (λ i. instruction_by mnemonic operands.entry ≡ Some i) (λ e. e ≢ Fault.Memory
        → instruction_by mnemonic operands.entry ≡ None) }
{
    match mnemonic {
        Mnemonic::Nop => alone(Instruction::Nop, operands),
        Mnemonic::Null => alone(Instruction::Constant(Constant::Null), operands),
        Mnemonic::SmallInt(n) => alone(Instruction::Constant(Constant::SmallInt(n)), operands),
        Mnemonic::SmallLong(n) => alone(Instruction::Constant(Constant::SmallLong(n)), operands),
        Mnemonic::Byte => byte(operands),
        Mnemonic::Short => short(operands),
        Mnemonic::Int(width) => int(width, operands),
        Mnemonic::Long => long(operands),
        Mnemonic::Local(m) => local(Width::Narrow, m, operands),
        Mnemonic::FirstLocal(access) => alone(Instruction::Local(access), operands),
        Mnemonic::Stack(operation) => alone(Instruction::Stack(operation), operands),
        Mnemonic::Number(operation) => alone(Instruction::Number(operation), operands),
        Mnemonic::Branch(test) => branch(alloc, test, operands),
        Mnemonic::Return(kind) => alone(Instruction::Return(kind), operands),
        Mnemonic::Static(access) => static_access(alloc, access, operands),
        Mnemonic::Field(access) => field_access(alloc, access, operands),
        Mnemonic::NewArray => new_array(operands),
        Mnemonic::NewArrayOf => new_array_of(alloc, operands),
        Mnemonic::ArrayLength => alone(Instruction::Array(ArrayOperation::Length), operands),
        Mnemonic::ArrayLoad(kind) => alone(
            Instruction::Array(ArrayOperation::Load(kind)),
            operands,
        ),
        Mnemonic::ArrayStore(kind) => {
            alone(Instruction::Array(ArrayOperation::Store(kind)), operands)
        }
        Mnemonic::Class(operation) => class_operation(alloc, operation, operands),
        Mnemonic::Invoke(invocation) => invoke(alloc, invocation, operands),
        Mnemonic::InvokeInterface => invoke_interface(alloc, operands),
        Mnemonic::Throw => alone(Instruction::Throw, operands),
        Mnemonic::Monitor(operation) => alone(Instruction::Monitor(operation), operands),
    }
}

/// The instruction of `bipush`, by its operands, and so on below.
fn byte(operands: Words<'_>) -> Result<Written, Fault>
    ensures { MatchResult result (λ i. instruction_by variant.Byte operands.entry
        ≡ Some i) (λ _. instruction_by variant.Byte operands.entry ≡ None) }
{
    let n = only_number(operands, -0x80, 0x7f)?;
    Ok(Instruction::Constant(Constant::Byte(n as i8)))
}

fn short(operands: Words<'_>) -> Result<Written, Fault>
    ensures { MatchResult result (λ i. instruction_by variant.Short operands.entry
        ≡ Some i) (λ _. instruction_by variant.Short operands.entry ≡ None) }
{
    let n = only_number(operands, -0x8000, 0x7fff)?;
    Ok(Instruction::Constant(Constant::Short(n as i16)))
}

fn int(width: Width, operands: Words<'_>) -> Result<Written, Fault>
    ensures { MatchResult result (λ i. instruction_by (variant.Int width) operands.entry
        ≡ Some i) (λ _. instruction_by (variant.Int width) operands.entry ≡ None) }
{
    let n = only_number(operands, -0x8000_0000, 0x7fff_ffff)?;
    Ok(Instruction::Constant(Constant::Int(width, n as i32)))
}

fn long(operands: Words<'_>) -> Result<Written, Fault>
    ensures { MatchResult result (λ i. instruction_by variant.Long operands.entry
        ≡ Some i) (λ _. instruction_by variant.Long operands.entry ≡ None) }
{
    let n = only_number(operands, i64::MIN, i64::MAX)?;
    Ok(Instruction::Constant(Constant::Long(n)))
}

fn local(width: Width, mnemonic: LocalMnemonic, operands: Words<'_>) -> Result<Written, Fault>
    ensures { MatchResult result (λ i. local_instruction width mnemonic operands.entry
        ≡ Some i) (λ _. local_instruction width mnemonic operands.entry ≡ None) }
{
    Ok(Instruction::Local(local_by(width, mnemonic, operands)?))
}

fn branch(alloc: Global, test: Test, operands: Words<'_>) -> Result<Written, Fault>
    ensures { MatchResult result (λ i. instruction_by (variant.Branch test) operands.entry ≡ Some i) (λ e. e
        ≢ Fault.Memory → instruction_by (variant.Branch test) operands.entry ≡ None) }
{
    let label = label_named(alloc, only(operands)?)?;
    Ok(Instruction::Branch(test, label))
}

fn static_access(alloc: Global, access: Access, operands: Words<'_>) -> Result<Written, Fault>
    ensures { MatchResult result (λ i. instruction_by (variant.Static access) operands.entry ≡ Some i) (λ e. e
        ≢ Fault.Memory → instruction_by (variant.Static access) operands.entry ≡ None) }
{
    Ok(Instruction::Static(access, field_of(alloc, operands)?))
}

fn field_access(alloc: Global, access: Access, operands: Words<'_>) -> Result<Written, Fault>
    ensures { MatchResult result (λ i. instruction_by (variant.Field access) operands.entry ≡ Some i) (λ e. e
        ≢ Fault.Memory → instruction_by (variant.Field access) operands.entry ≡ None) }
{
    Ok(Instruction::Field(access, field_of(alloc, operands)?))
}

fn new_array(operands: Words<'_>) -> Result<Written, Fault>
    ensures { MatchResult result (λ i. instruction_by variant.NewArray operands.entry
        ≡ Some i) (λ _. instruction_by variant.NewArray operands.entry ≡ None) }
{
    let primitive = named(&PRIMITIVES, only(operands)?).ok_or(Fault::Operand)?;
    Ok(Instruction::Array(ArrayOperation::New(primitive)))
}

fn new_array_of(alloc: Global, operands: Words<'_>) -> Result<Written, Fault>
    ensures { MatchResult result (λ i. instruction_by variant.NewArrayOf operands.entry ≡ Some i) (λ e. e
        ≢ Fault.Memory → instruction_by variant.NewArrayOf operands.entry ≡ None) }
{
    let class = type_named(alloc, only(operands)?)?;
    Ok(Instruction::Array(ArrayOperation::NewOf(class)))
}

fn class_operation(
    alloc: Global,
    operation: ClassOperation,
    operands: Words<'_>,
) -> Result<Written, Fault>
    ensures { MatchResult result (λ i. instruction_by (variant.Class operation) operands.entry ≡ Some i) (λ e. e
        ≢ Fault.Memory → instruction_by (variant.Class operation) operands.entry ≡ None) }
{
    let class = operand_of(alloc, operation, only(operands)?)?;
    Ok(Instruction::Class(operation, class))
}

fn invoke(alloc: Global, invocation: Invocation, operands: Words<'_>) -> Result<Written, Fault>
    ensures { MatchResult result (λ i. instruction_by (variant.Invoke invocation) operands.entry ≡ Some i) (λ e. e
        ≢ Fault.Memory → instruction_by (variant.Invoke invocation) operands.entry ≡ None) }
{
    let method = method_named(alloc, only(operands)?)?;
    Ok(Instruction::Invoke(invocation, method))
}

fn invoke_interface(alloc: Global, operands: Words<'_>) -> Result<Written, Fault>
    ensures { MatchResult result (λ i. instruction_by variant.InvokeInterface operands.entry ≡ Some i) (λ e. e
        ≢ Fault.Memory → instruction_by variant.InvokeInterface operands.entry ≡ None) }
{
    let (word, count) = both(operands)?;
    interface_call(alloc, word, count)
}

/// The instruction after `wide`, which asks for the wide form of a local.
pub fn wide_instruction(mut operands: Words<'_>) -> Result<Written, Fault>
    ensures { MatchResult result (λ i. wide_instruction operands.entry ≡ Some i) (λ _. wide_instruction operands.entry
        ≡ None) }
{
    let word = operands.next_word().ok_or(Fault::Operand)?;
    match mnemonic(word) {
        Some(Mnemonic::Local(m)) => local(Width::Wide, m, operands),
        Some(_) => Err(Fault::Operand),
        None => Err(Fault::Mnemonic),
    }
}

/// The field that two operands name, in names of its own.
fn field_of(alloc: Global, operands: Words<'_>) -> Result<Member, Fault>
    ensures { MatchResult result (λ m. field_of operands.entry ≡ Some m) (λ e. e ≢ Fault.Memory
        → field_of operands.entry ≡ None) }
{
    let (path, descriptor) = both(operands)?;
    let Some(named) = signatures::field_named(path, descriptor) else {
        return Err(Fault::Operand);
    };
    copied(alloc, named)
}

/// The method that a word names, in names of its own.
fn method_named(alloc: Global, word: &[u8]) -> Result<Member, Fault>
    ensures { MatchResult result (λ m. method_named word.now ≡ Some m) (λ e. e ≢ Fault.Memory
        → method_named word.now ≡ None) }
{
    let Some(named) = signatures::method_named(word) else {
        return Err(Fault::Operand);
    };
    copied(alloc, named)
}

/// A member in names of its own.
fn copied(alloc: Global, named: signatures::MemberName<'_>) -> Result<Member, Fault>
    ensures { MatchResult result (λ m. m ≡ record {
      class = named.entry.class.now;
      name = named.entry.name.now;
      descriptor = named.entry.descriptor.now;
    }) (λ e. e ≡ Fault.Memory) }
{
    Ok(Member {
        class: Name::copy_of(alloc, named.class)?,
        name: Name::copy_of(alloc, named.name)?,
        descriptor: Name::copy_of(alloc, named.descriptor)?,
    })
}

/// The call of an interface's method, with a count of 1 to 255.
fn interface_call(alloc: Global, word: &[u8], count: &[u8]) -> Result<Written, Fault>
    ensures { MatchResult result (λ i. interface_call (method_named word.now) (number_in (pos 1) (pos 255) count.now)
        ≡ Some i) (λ e. e ≢ Fault.Memory → interface_call (method_named word.now)
        (number_in (pos 1) (pos 255) count.now) ≡ None) }
{
    let method = method_named(alloc, word)?;
    let count = integer(count, 1, 255)?;
    Ok(Instruction::Invoke(Invocation::Interface(count as u8), method))
}

/// A new object's class, or what is tested against.
fn operand_of(alloc: Global, operation: ClassOperation, word: &[u8]) -> Result<Name, Fault>
    ensures { MatchResult result (λ name. operand_of operation word.now ≡ Some name) (λ e. e ≢ Fault.Memory
        → operand_of operation word.now ≡ None) }
{
    match operation {
        ClassOperation::New => class_named(alloc, word),
        ClassOperation::CheckCast | ClassOperation::InstanceOf => type_named(alloc, word),
    }
}

/// A class, in a name of its own.
pub fn class_named(alloc: Global, word: &[u8]) -> Result<Name, Fault>
    ensures { MatchResult result (λ name. class_named word.now ≡ Some name) (λ e. e ≢ Fault.Memory
        → class_named word.now ≡ None) }
{
    if !is_class_name(word) {
        return Err(Fault::Operand);
    }
    Ok(Name::copy_of(alloc, word)?)
}

/// A label, in a name of its own.
pub fn label_named(alloc: Global, word: &[u8]) -> Result<Name, Fault>
    ensures { MatchResult result (λ name. label_named word.now ≡ Some name) (λ e. e ≢ Fault.Memory
        → label_named word.now ≡ None) }
{
    if !is_part(word) {
        return Err(Fault::Operand);
    }
    Ok(Name::copy_of(alloc, word)?)
}

/// A class or an array's descriptor, in a name of its own.
fn type_named(alloc: Global, word: &[u8]) -> Result<Name, Fault>
    ensures { MatchResult result (λ name. type_named word.now ≡ Some name) (λ e. e ≢ Fault.Memory
        → type_named word.now ≡ None) }
{
    if !(is_class_name(word) || is_array_descriptor(word)) {
        return Err(Fault::Operand);
    }
    Ok(Name::copy_of(alloc, word)?)
}
