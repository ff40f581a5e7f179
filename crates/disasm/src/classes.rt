//! A class as a text has it.
ghost use Rattle.std.specs.Prelude.{◌≡◌, ◌++◌, IfOk, OnOk, map};
ghost use Rattle.std.specs.List.{flat_map};
ghost use Rattle.model.specs.Texts.Flags.{has};
ghost use Rattle.model.specs.Texts.Disassembling as definition;

use crate::code::put_code;
use crate::instructions::put_name;
use crate::words::{put, put_line, put_number};
use bitflags::Flags;
use classfile::flags::INTERFACE;
use model::flags::{
    CLASS_FLAGS, ClassFlags, FIELD_FLAGS, INTERFACE_FLAGS, METHOD_FLAGS, MethodFlags,
};
use model::listings::{Code, Constant, Field, Listing, Method};
use model::names::Name;
use std::alloc::{AllocError, Global};

/// Writes the word of a flag at the end, where it is set.
fn put_flag(out: &mut Vec<u8>, word: &str, bit: u16, flags: u16) -> Result<(), AllocError>
    ensures { OnOk result (out.new.items ≡ out.old.items ++ definition.flag_word flags (word.now, bit)) }
{
    if flags & bit != 0 {
        put(out, word)?;
        put(out, " ")?;
    }
    Ok(())
}

/// Writes the words of the flags of a table at the end that are set, in its order.
fn put_flags(out: &mut Vec<u8>, table: &[(&str, u16)], flags: u16) -> Result<(), AllocError>
    ensures { OnOk result (out.new.items ≡ out.old.items
        ++ definition.flags_text (map (λ row. (row.0.now, row.1)) table.now) flags) }
{
    for row in table {
        put_flag(out, row.0, row.1, flags)?;
    }
    Ok(())
}

/// Writes a `.class` or an `.interface` at the end.
fn put_head(out: &mut Vec<u8>, flags: ClassFlags, name: &Name) -> Result<(), AllocError>
    ensures { OnOk result (out.new.items ≡ out.old.items
        ++ definition.class_line (has flags.0 0x0200) flags.0 name.now) }
{
    let flags = flags.bits();
    if flags & INTERFACE != 0 {
        put(out, ".interface ")?;
        put_flags(out, &INTERFACE_FLAGS, flags)?;
    } else {
        put(out, ".class ")?;
        put_flags(out, &CLASS_FLAGS, flags)?;
    }
    put_name(out, name)?;
    put(out, "\n")
}

/// Writes a `.super` at the end.
fn put_super(out: &mut Vec<u8>, name: &Name) -> Result<(), AllocError>
    ensures { OnOk result (out.new.items ≡ out.old.items ++ definition.super_line name.now) }
{
    put(out, ".super ")?;
    put_name(out, name)?;
    put(out, "\n")
}

/// Writes an `.implements` at the end.
#[tactic(auto, unfolding(model::specs::Texts::Disassembling::interface_line))]
fn put_interface(out: &mut Vec<u8>, name: &Name) -> Result<(), AllocError>
    ensures { OnOk result (out.new.items ≡ out.old.items ++ definition.interface_line name.now) }
{
    put_line(out, ".implements ", name.as_bytes())
}

/// Writes an `.implements` for each name at the end.
fn put_interfaces(out: &mut Vec<u8>, names: &[Name]) -> Result<(), AllocError>
    ensures { OnOk result (out.new.items ≡ out.old.items ++ flat_map definition.interface_line names.now) }
{
    for name in names {
        put_interface(out, name)?;
    }
    Ok(())
}

/// The number that a field begins with.
fn number_of(value: Constant) -> i64
    ensures { result ≡ definition.number_of_value value }
{
    match value {
        Constant::Int(number) => i64::from(number),
        Constant::Long(number) => number,
    }
}

/// Writes the value of a field at the end, where it has one.
fn put_value(out: &mut Vec<u8>, value: Option<Constant>) -> Result<(), AllocError>
    ensures { OnOk result (out.new.items ≡ out.old.items ++ definition.value_text value) }
{
    match value {
        None => Ok(()),
        Some(value) => {
            put(out, " = ")?;
            put_number(out, number_of(value))
        }
    }
}

/// Writes a `.field` at the end.
fn put_field(out: &mut Vec<u8>, field: &Field) -> Result<(), AllocError>
    ensures { OnOk result (out.new.items ≡ out.old.items ++ definition.field_line field.now) }
{
    put(out, ".field ")?;
    put_flags(out, &FIELD_FLAGS, field.flags.bits())?;
    put_name(out, &field.name)?;
    put(out, " ")?;
    put_name(out, &field.descriptor)?;
    put_value(out, field.constant)?;
    put(out, "\n")
}

/// Writes fields at the end, in order.
fn put_fields(out: &mut Vec<u8>, fields: &[Field]) -> Result<(), AllocError>
    ensures { OnOk result (out.new.items ≡ out.old.items ++ flat_map definition.field_line fields.now) }
{
    for field in fields {
        put_field(out, field)?;
    }
    Ok(())
}

/// Writes the body of a method at the end, where it has one.
fn put_body(alloc: Global, out: &mut Vec<u8>, code: &Option<Code>) -> Result<(), AllocError>
    ensures { OnOk result (out.new.items ≡ out.old.items ++ definition.body_text code.now) }
{
    match code {
        None => Ok(()),
        Some(code) => put_code(alloc, out, code),
    }
}

/// Writes the words of a method's flags at the end.
#[tactic(auto, unfolding(model::specs::Texts::Disassembling::method_flag_words))]
fn put_method_flags(out: &mut Vec<u8>, flags: MethodFlags) -> Result<(), AllocError>
    ensures { OnOk result (out.new.items ≡ out.old.items ++ definition.method_flag_words flags.0) }
{
    put_flags(out, &METHOD_FLAGS, flags.bits())
}

/// Writes the words after `.method` at the end.
fn put_method_words(out: &mut Vec<u8>, method: &Method) -> Result<(), AllocError>
    ensures { OnOk result (out.new.items ≡ out.old.items ++ definition.method_words method.now) }
{
    put_method_flags(out, method.flags)?;
    put_name(out, &method.name)?;
    put_name(out, &method.descriptor)?;
    put(out, "\n")
}

/// Writes a `.method` at the end.
#[tactic(auto, unfolding(model::specs::Texts::Disassembling::method_line))]
fn put_method_line(out: &mut Vec<u8>, method: &Method) -> Result<(), AllocError>
    ensures { OnOk result (out.new.items ≡ out.old.items ++ definition.method_line method.now) }
{
    put(out, ".method ")?;
    put_method_words(out, method)
}

/// Writes an `.end method` at the end.
#[tactic(auto, unfolding(model::specs::Texts::Disassembling::end_line))]
fn put_end(out: &mut Vec<u8>) -> Result<(), AllocError>
    ensures { OnOk result (out.new.items ≡ out.old.items ++ definition.end_line) }
{
    put(out, ".end method\n")
}

/// Writes a method at the end, from its `.method` to its `.end method`.
fn put_method(alloc: Global, out: &mut Vec<u8>, method: &Method) -> Result<(), AllocError>
    ensures { OnOk result (out.new.items ≡ out.old.items ++ definition.method_text method.now) }
{
    put_method_line(out, method)?;
    put_body(alloc, out, &method.code)?;
    put_end(out)
}

/// Writes methods at the end, in order.
fn put_methods(alloc: Global, out: &mut Vec<u8>, methods: &[Method]) -> Result<(), AllocError>
    ensures { OnOk result (out.new.items ≡ out.old.items ++ flat_map definition.method_text methods.now) }
{
    for method in methods {
        put_method(alloc, out, method)?;
    }
    Ok(())
}

/// The Jasmin text of a listing: its statements in the order of the grammar, words separated by one space, flags by
/// rising bit, and before each pc that a row, a branch or a switch names the label `L` and that pc. `AllocError` where
/// memory runs out.
#[tactic(auto, unfolding(model::specs::Texts::Disassembling::text_of))]
pub fn text(alloc: Global, listing: &Listing) -> Result<Vec<u8>, AllocError>
    ensures { IfOk result (λ text. text.items ≡ definition.text_of listing.now) }
{
    let mut out = Vec::new(alloc);
    put_head(&mut out, listing.flags, &listing.name)?;
    put_super(&mut out, &listing.superclass)?;
    put_interfaces(&mut out, listing.interfaces.as_slice())?;
    put_fields(&mut out, listing.fields.as_slice())?;
    put_methods(alloc, &mut out, listing.methods.as_slice())?;
    Ok(out)
}
