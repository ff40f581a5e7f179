//! Instructions as a text has them, each without its newline.
ghost use Rattle.std.specs.Prelude.{◌≡◌, ◌++◌, codes, decimal, OnOk};
ghost use Rattle.std.specs.Fmt.{signed_decimal};
ghost use Rattle.std.specs.List.{flat_map};
ghost use Rattle.model.specs.Texts.Disassembling as definition;
ghost use Rattle.model.specs.declared.mnemonics.Mnemonic.TheVariants as family;
ghost use Rattle.jasmin.specs.Words.{word_of};

use crate::words;
use crate::words::{put, put_label, put_mnemonic, put_natural, put_number, put_number_line};
use model::instructions::{
    ArrayOperation, Constant, Increment, Invocation, Local, LocalAccess, LookupSwitch, TableSwitch,
    Width,
};
use model::listings::Listed;
use model::mnemonics::{LocalMnemonic, Mnemonic};
use model::names::{Member, Name};
use std::alloc::AllocError;

/// Writes a name at the end.
pub fn put_name(out: &mut Vec<u8>, name: &Name) -> Result<(), AllocError>
    ensures { OnOk result (out.new.items ≡ out.old.items ++ name.now) }
{
    out.extend_from_slice(name.as_bytes())
}

/// Writes a mnemonic and a number at the end.
fn put_with_number(out: &mut Vec<u8>, mnemonic: Mnemonic, number: i64) -> Result<(), AllocError>
    ensures { OnOk result (out.new.items ≡ out.old.items
        ++ (word_of mnemonic ++ (codes " " ++ signed_decimal number))) }
{
    put_mnemonic(out, mnemonic)?;
    put(out, " ")?;
    put_number(out, number)
}

/// Writes a constant's instruction at the end.
#[tactic(auto, using(crate::proofs::Back::Mnemonics::said))]
fn put_constant(out: &mut Vec<u8>, constant: Constant<i32, i64>) -> Result<(), AllocError>
    ensures { OnOk result (out.new.items ≡ out.old.items ++ definition.constant_text constant) }
{
    match constant {
        Constant::Null => put_mnemonic(out, Mnemonic::Null),
        Constant::SmallInt(number) => put_mnemonic(out, Mnemonic::SmallInt(number)),
        Constant::SmallLong(number) => put_mnemonic(out, Mnemonic::SmallLong(number)),
        Constant::Byte(number) => put_with_number(out, Mnemonic::Byte, i64::from(number)),
        Constant::Short(number) => put_with_number(out, Mnemonic::Short, i64::from(number)),
        Constant::Int(Width::Narrow, number) => {
            put_with_number(out, Mnemonic::Int(Width::Narrow), i64::from(number))
        }
        Constant::Int(Width::Wide, number) => {
            put_with_number(out, Mnemonic::Int(Width::Wide), i64::from(number))
        }
        Constant::Long(number) => put_with_number(out, Mnemonic::Long, number),
    }
}

/// Writes a mnemonic and the number of its local at the end.
fn put_with_local(out: &mut Vec<u8>, mnemonic: LocalMnemonic, index: u16) -> Result<(), AllocError>
    ensures { OnOk result (out.new.items ≡ out.old.items
        ++ (word_of (family.Local mnemonic) ++ (codes " " ++ decimal index))) }
{
    put_mnemonic(out, Mnemonic::Local(mnemonic))?;
    put(out, " ")?;
    put_natural(out, index)
}

/// Writes an `iinc` at the end.
#[tactic(auto, unfolding(jasmin::specs::Words::word_of))]
fn put_increment(out: &mut Vec<u8>, increment: Increment) -> Result<(), AllocError>
    ensures { OnOk result (out.new.items ≡ out.old.items ++ definition.increment_text increment) }
{
    match increment {
        Increment::Byte(index, number) => {
            put_with_local(out, LocalMnemonic::Increment, u16::from(index))?;
            put(out, " ")?;
            put_number(out, i64::from(number))
        }
        Increment::Wide(index, number) => {
            put(out, "wide ")?;
            put_with_local(out, LocalMnemonic::Increment, index)?;
            put(out, " ")?;
            put_number(out, i64::from(number))
        }
    }
}

/// Writes an instruction on a local in its wide form at the end.
fn put_wide(out: &mut Vec<u8>, mnemonic: LocalMnemonic, index: u16) -> Result<(), AllocError>
    ensures { OnOk result (out.new.items ≡ out.old.items
        ++ (codes "wide " ++ (word_of (family.Local mnemonic) ++ (codes " " ++ decimal index)))) }
{
    put(out, "wide ")?;
    put_with_local(out, mnemonic, index)
}

/// Writes an instruction on a local at the end: in one word, with the local after a space, or in the wide form.
#[tactic(auto, using(crate::proofs::Back::Mnemonics::said))]
fn put_local(out: &mut Vec<u8>, access: LocalAccess) -> Result<(), AllocError>
    ensures { OnOk result (out.new.items ≡ out.old.items ++ definition.local_text access) }
{
    match access {
        LocalAccess::Load(_, Local::First(_)) => put_mnemonic(out, Mnemonic::FirstLocal(access)),
        LocalAccess::Load(kind, Local::Byte(index)) => {
            put_with_local(out, LocalMnemonic::Load(kind), u16::from(index))
        }
        LocalAccess::Load(kind, Local::Wide(index)) => {
            put_wide(out, LocalMnemonic::Load(kind), index)
        }
        LocalAccess::Store(_, Local::First(_)) => put_mnemonic(out, Mnemonic::FirstLocal(access)),
        LocalAccess::Store(kind, Local::Byte(index)) => {
            put_with_local(out, LocalMnemonic::Store(kind), u16::from(index))
        }
        LocalAccess::Store(kind, Local::Wide(index)) => {
            put_wide(out, LocalMnemonic::Store(kind), index)
        }
        LocalAccess::Increment(increment) => put_increment(out, increment),
    }
}

/// Writes the label of a pc and a newline at the end.
fn put_target(out: &mut Vec<u8>, pc: u16) -> Result<(), AllocError>
    ensures { OnOk result (out.new.items ≡ out.old.items ++ definition.target_line pc) }
{
    put_label(out, pc)?;
    put(out, "\n")
}

/// Writes the lines of a table's labels at the end.
fn put_targets(out: &mut Vec<u8>, targets: &[u16]) -> Result<(), AllocError>
    ensures { OnOk result (out.new.items ≡ out.old.items ++ flat_map definition.target_line targets.now) }
{
    for target in targets {
        put_target(out, *target)?;
    }
    Ok(())
}

/// Writes the last line of a switch at the end.
#[tactic(auto, unfolding(model::specs::Texts::Disassembling::default_text))]
fn put_default(out: &mut Vec<u8>, pc: u16) -> Result<(), AllocError>
    ensures { OnOk result (out.new.items ≡ out.old.items ++ definition.default_text pc) }
{
    put(out, "default : ")?;
    put_label(out, pc)
}

/// Writes the first line of a `tableswitch` at the end.
#[tactic(auto, unfolding(model::specs::Texts::Disassembling::table_head))]
fn put_table_head(out: &mut Vec<u8>, low: i32) -> Result<(), AllocError>
    ensures { OnOk result (out.new.items ≡ out.old.items ++ definition.table_head low) }
{
    put_number_line(out, "tableswitch ", i64::from(low))
}

/// Writes a `tableswitch` at the end.
fn put_table(out: &mut Vec<u8>, switch: &TableSwitch<u16>) -> Result<(), AllocError>
    ensures { OnOk result (out.new.items ≡ out.old.items ++ definition.table_text switch.now) }
{
    put_table_head(out, switch.low)?;
    put_targets(out, switch.targets.as_slice())?;
    put_default(out, switch.default)
}

/// Writes the line of a key and its label at the end.
fn put_pair(out: &mut Vec<u8>, pair: (i32, u16)) -> Result<(), AllocError>
    ensures { OnOk result (out.new.items ≡ out.old.items ++ definition.pair_line pair) }
{
    put_number(out, i64::from(pair.0))?;
    put(out, " : ")?;
    put_target(out, pair.1)
}

/// Writes the lines of a lookup's keys at the end.
fn put_pairs(out: &mut Vec<u8>, pairs: &[(i32, u16)]) -> Result<(), AllocError>
    ensures { OnOk result (out.new.items ≡ out.old.items ++ flat_map definition.pair_line pairs.now) }
{
    for pair in pairs {
        put_pair(out, *pair)?;
    }
    Ok(())
}

/// Writes the first line of a `lookupswitch` at the end.
#[tactic(auto, unfolding(model::specs::Texts::Disassembling::lookup_head))]
fn put_lookup_head(out: &mut Vec<u8>) -> Result<(), AllocError>
    ensures { OnOk result (out.new.items ≡ out.old.items ++ definition.lookup_head) }
{
    put(out, "lookupswitch\n")
}

/// Writes a `lookupswitch` at the end.
fn put_lookup(out: &mut Vec<u8>, switch: &LookupSwitch<u16>) -> Result<(), AllocError>
    ensures { OnOk result (out.new.items ≡ out.old.items ++ definition.lookup_text switch.now) }
{
    put_lookup_head(out)?;
    put_pairs(out, switch.pairs.as_slice())?;
    put_default(out, switch.default)
}

/// Writes a mnemonic and a word at the end.
fn put_with_word(out: &mut Vec<u8>, mnemonic: Mnemonic, word: &[u8]) -> Result<(), AllocError>
    ensures { OnOk result (out.new.items ≡ out.old.items ++ (word_of mnemonic ++ (codes " " ++ word.now))) }
{
    put_mnemonic(out, mnemonic)?;
    put(out, " ")?;
    out.extend_from_slice(word)
}

/// Writes a mnemonic and a label at the end.
fn put_with_label(out: &mut Vec<u8>, mnemonic: Mnemonic, pc: u16) -> Result<(), AllocError>
    ensures { OnOk result (out.new.items ≡ out.old.items ++ (word_of mnemonic ++ (codes " " ++ definition.label pc))) }
{
    put_mnemonic(out, mnemonic)?;
    put(out, " ")?;
    put_label(out, pc)
}

/// Writes a mnemonic and a field's two words at the end.
fn put_with_field(out: &mut Vec<u8>, mnemonic: Mnemonic, field: &Member) -> Result<(), AllocError>
    ensures { OnOk result (out.new.items ≡ out.old.items
        ++ (word_of mnemonic ++ (codes " " ++ definition.field_words field.now))) }
{
    put_with_word(out, mnemonic, field.class.as_bytes())?;
    put(out, "/")?;
    put_name(out, &field.name)?;
    put(out, " ")?;
    put_name(out, &field.descriptor)
}

/// Writes a method's one word at the end.
fn put_method_word(out: &mut Vec<u8>, method: &Member) -> Result<(), AllocError>
    ensures { OnOk result (out.new.items ≡ out.old.items ++ definition.method_word method.now) }
{
    put_name(out, &method.class)?;
    put(out, "/")?;
    put_name(out, &method.name)?;
    put_name(out, &method.descriptor)
}

/// Writes an instruction on arrays at the end.
#[tactic(auto, using(crate::proofs::Back::Mnemonics::said))]
fn put_array(out: &mut Vec<u8>, operation: &ArrayOperation<Name>) -> Result<(), AllocError>
    ensures { OnOk result (out.new.items ≡ out.old.items ++ definition.array_text operation.now) }
{
    match operation {
        ArrayOperation::New(primitive) => {
            put_with_word(
                out,
                Mnemonic::NewArray,
                words::primitive(*primitive).as_bytes(),
            )
        }
        ArrayOperation::NewOf(class) => put_with_word(out, Mnemonic::NewArrayOf, class.as_bytes()),
        ArrayOperation::Length => put_mnemonic(out, Mnemonic::ArrayLength),
        ArrayOperation::Load(kind) => put_mnemonic(out, Mnemonic::ArrayLoad(*kind)),
        ArrayOperation::Store(kind) => put_mnemonic(out, Mnemonic::ArrayStore(*kind)),
    }
}

/// Writes the count of units at the end that stands after the method of an interface.
fn put_count(out: &mut Vec<u8>, invocation: Invocation) -> Result<(), AllocError>
    ensures { OnOk result (out.new.items ≡ out.old.items ++ definition.count_text invocation) }
{
    match invocation {
        Invocation::Virtual | Invocation::Special | Invocation::Static => Ok(()),
        Invocation::Interface(count) => {
            put(out, " ")?;
            put_natural(out, u16::from(count))
        }
    }
}

/// The mnemonic of a call.
#[tactic(auto, using(crate::proofs::Back::Mnemonics::said))]
fn call_mnemonic(invocation: Invocation) -> Mnemonic
    ensures { word_of result ≡ definition.invocation_name invocation }
{
    match invocation {
        Invocation::Virtual => Mnemonic::Invoke(Invocation::Virtual),
        Invocation::Special => Mnemonic::Invoke(Invocation::Special),
        Invocation::Static => Mnemonic::Invoke(Invocation::Static),
        Invocation::Interface(_) => Mnemonic::InvokeInterface,
    }
}

/// Writes a call at the end.
fn put_call(out: &mut Vec<u8>, invocation: Invocation, method: &Member) -> Result<(), AllocError>
    ensures { OnOk result (out.new.items ≡ out.old.items ++ definition.call_text invocation method.now) }
{
    put_mnemonic(out, call_mnemonic(invocation))?;
    put(out, " ")?;
    put_method_word(out, method)?;
    put_count(out, invocation)
}

/// Writes an instruction at the end.
#[tactic(auto, using(crate::proofs::Back::Mnemonics::said))]
pub fn put_instruction(out: &mut Vec<u8>, instruction: &Listed) -> Result<(), AllocError>
    ensures { OnOk result (out.new.items ≡ out.old.items ++ definition.instruction_text instruction.now) }
{
    match instruction {
        Listed::Nop => put_mnemonic(out, Mnemonic::Nop),
        Listed::Constant(constant) => put_constant(out, *constant),
        Listed::Local(access) => put_local(out, *access),
        Listed::Stack(operation) => put_mnemonic(out, Mnemonic::Stack(*operation)),
        Listed::Number(operation) => put_mnemonic(out, Mnemonic::Number(*operation)),
        Listed::Branch(test, target) => put_with_label(out, Mnemonic::Branch(*test), *target),
        Listed::TableSwitch(switch) => put_table(out, switch),
        Listed::LookupSwitch(switch) => put_lookup(out, switch),
        Listed::Return(kind) => put_mnemonic(out, Mnemonic::Return(*kind)),
        Listed::Static(access, field) => put_with_field(out, Mnemonic::Static(*access), field),
        Listed::Field(access, field) => put_with_field(out, Mnemonic::Field(*access), field),
        Listed::Array(operation) => put_array(out, operation),
        Listed::Class(operation, class) => {
            put_with_word(out, Mnemonic::Class(*operation), class.as_bytes())
        }
        Listed::Invoke(invocation, method) => put_call(out, *invocation, method),
        Listed::Throw => put_mnemonic(out, Mnemonic::Throw),
        Listed::Monitor(operation) => put_mnemonic(out, Mnemonic::Monitor(*operation)),
    }
}
