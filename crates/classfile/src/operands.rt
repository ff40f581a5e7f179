//! What the instructions of a method name in the constant pool.

ghost use Rattle.std.specs.Prelude.{◌≡◌};
ghost use Rattle.std.specs.Option.{option_copied};
ghost use Rattle.model.specs.ClassFiles.Codes as definition;
ghost use Rattle.classfile.specs.Reading.Codes.{are_sound};

use crate::heads::is_class;
use model::bytecode::{Instr, Located};
use model::class_files::Entry;
use model::instructions::{ArrayOperation, ClassOperation, Constant, Instruction, Invocation};
use pool::Pool;

const INTEGER: u8 = 3;

const LONG: u8 = 5;

const CLASS: u8 = 7;

const FIELDREF: u8 = 9;

const METHODREF: u8 = 10;

const INTERFACE_METHODREF: u8 = 11;

/// The tag of an entry, 0 where there is none.
fn tag_of(entry: Option<&Entry>) -> u8
    ensures { result ≡ definition.tag_of (option_copied entry.entry) }
{
    match entry {
        None => 0,
        Some(Entry::Utf8(_)) => 1,
        Some(Entry::Integer(_)) => INTEGER,
        Some(Entry::Long(_)) => LONG,
        Some(Entry::Class(_)) => CLASS,
        Some(Entry::Fieldref(_, _)) => FIELDREF,
        Some(Entry::Methodref(_, _)) => METHODREF,
        Some(Entry::InterfaceMethodref(_, _)) => INTERFACE_METHODREF,
        Some(Entry::NameAndType(_, _)) => 12,
    }
}

/// Whether an entry with this tag stands under a number.
pub fn has_tag(pool: &Pool, tag: u8, number: u16) -> bool
    ensures { result ≡ definition.has_tag pool.now tag number }
{
    tag_of(pool.entry(number)) == tag
}

fn is_sound_constant(pool: &Pool, constant: Constant<u16, u16>) -> bool
    ensures { result ≡ definition.is_sound_constant pool.now constant }
{
    match constant {
        Constant::Int(_, number) => has_tag(pool, INTEGER, number),
        Constant::Long(number) => has_tag(pool, LONG, number),
        Constant::Null
        | Constant::SmallInt(_)
        | Constant::SmallLong(_)
        | Constant::Byte(_)
        | Constant::Short(_) => true,
    }
}

fn is_sound_array(pool: &Pool, operation: &ArrayOperation<u16>) -> bool
    ensures { result ≡ definition.is_sound_array pool.now operation.now }
{
    match operation {
        ArrayOperation::NewOf(number) => has_tag(pool, CLASS, *number),
        ArrayOperation::New(_)
        | ArrayOperation::Length
        | ArrayOperation::Load(_)
        | ArrayOperation::Store(_) => true,
    }
}

/// What `new` makes is no array.
fn is_sound_class(pool: &Pool, operation: ClassOperation, number: u16) -> bool
    ensures { result ≡ definition.is_sound_class pool.now operation number }
{
    match operation {
        ClassOperation::New => is_class(pool, number),
        ClassOperation::CheckCast | ClassOperation::InstanceOf => has_tag(pool, CLASS, number),
    }
}

fn is_sound_invocation(pool: &Pool, how: Invocation, number: u16) -> bool
    ensures { result ≡ definition.is_sound_invocation pool.now how number }
{
    match how {
        Invocation::Virtual | Invocation::Special | Invocation::Static => {
            has_tag(pool, METHODREF, number)
        }
        Invocation::Interface(_) => has_tag(pool, INTERFACE_METHODREF, number),
    }
}

/// Whether the number that an instruction has is of an entry of the kind that it wants (JVMS 4.9.1).
fn is_sound(pool: &Pool, instruction: &Instr) -> bool
    ensures { result ≡ definition.is_sound pool.now instruction.now }
{
    match instruction {
        Instruction::Constant(constant) => is_sound_constant(pool, *constant),
        Instruction::Static(_, number) | Instruction::Field(_, number) => {
            has_tag(pool, FIELDREF, *number)
        }
        Instruction::Array(operation) => is_sound_array(pool, operation),
        Instruction::Class(operation, number) => is_sound_class(pool, *operation, *number),
        Instruction::Invoke(how, number) => is_sound_invocation(pool, *how, *number),
        Instruction::Nop
        | Instruction::Local(_)
        | Instruction::Stack(_)
        | Instruction::Number(_)
        | Instruction::Branch(_, _)
        | Instruction::TableSwitch(_)
        | Instruction::LookupSwitch(_)
        | Instruction::Return(_)
        | Instruction::Throw
        | Instruction::Monitor(_) => true,
    }
}

/// Whether each instruction names what it should.
pub fn all_sound(pool: &Pool, items: &[Located]) -> bool
    ensures { result ≡ are_sound pool.now items.now }
{
    for item in items {
        if !is_sound(pool, &item.instruction) {
            return false;
        }
    }
    true
}
