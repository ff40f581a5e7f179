//! The words that a text is made of.
ghost use Rattle.std.specs.Prelude.{◌≡◌, ◌++◌, decimal, OnOk};
ghost use Rattle.std.specs.Fmt.{signed_decimal};
ghost use Rattle.model.specs.Texts.Disassembling as definition;
ghost use Rattle.jasmin.specs.Words.{word_of};

use itoa::Buffer;
use jasmin::word_of;
use model::instructions::Primitive;
use model::mnemonics::Mnemonic;
use std::alloc::AllocError;

/// Writes a word at the end.
pub fn put(out: &mut Vec<u8>, word: &str) -> Result<(), AllocError>
    ensures { OnOk result (out.new.items ≡ out.old.items ++ word.now) }
{
    out.extend_from_slice(word.as_bytes())
}

/// Writes a number without a sign at the end, in decimal.
pub fn put_natural(out: &mut Vec<u8>, number: u16) -> Result<(), AllocError>
    ensures { OnOk result (out.new.items ≡ out.old.items ++ decimal number) }
{
    let mut buffer = Buffer::new();
    put(out, buffer.format(number))
}

/// Writes a number at the end, in decimal.
pub fn put_number(out: &mut Vec<u8>, number: i64) -> Result<(), AllocError>
    ensures { OnOk result (out.new.items ≡ out.old.items ++ signed_decimal number) }
{
    let mut buffer = Buffer::new();
    put(out, buffer.format(number))
}

/// Writes a line of a word and bytes at the end.
pub fn put_line(out: &mut Vec<u8>, word: &str, bytes: &[u8]) -> Result<(), AllocError>
    ensures { OnOk result (out.new.items ≡ out.old.items ++ (word.now ++ (bytes.now ++ definition.newline))) }
{
    put(out, word)?;
    out.extend_from_slice(bytes)?;
    put(out, "\n")
}

/// Writes a line of a word and a number without a sign at the end.
pub fn put_natural_line(out: &mut Vec<u8>, word: &str, number: u16) -> Result<(), AllocError>
    ensures { OnOk result (out.new.items ≡ out.old.items ++ (word.now ++ (decimal number ++ definition.newline))) }
{
    put(out, word)?;
    put_natural(out, number)?;
    put(out, "\n")
}

/// Writes a line of a word and a number at the end.
pub fn put_number_line(out: &mut Vec<u8>, word: &str, number: i64) -> Result<(), AllocError>
    ensures { OnOk result (out.new.items ≡ out.old.items
        ++ (word.now ++ (signed_decimal number ++ definition.newline))) }
{
    put(out, word)?;
    put_number(out, number)?;
    put(out, "\n")
}

/// Writes the label of a pc at the end.
pub fn put_label(out: &mut Vec<u8>, pc: u16) -> Result<(), AllocError>
    ensures { OnOk result (out.new.items ≡ out.old.items ++ definition.label pc) }
{
    put(out, "L")?;
    put_natural(out, pc)
}

/// Writes a mnemonic at the end.
pub fn put_mnemonic(out: &mut Vec<u8>, mnemonic: Mnemonic) -> Result<(), AllocError>
    ensures { OnOk result (out.new.items ≡ out.old.items ++ word_of mnemonic) }
{
    put(out, word_of(mnemonic))
}

/// The element types of `newarray`.
pub fn primitive(primitive: Primitive) -> &'static str
    ensures { result.now ≡ definition.primitive_name primitive }
{
    match primitive {
        Primitive::Char => "char",
        Primitive::Byte => "byte",
        Primitive::Short => "short",
        Primitive::Int => "int",
        Primitive::Long => "long",
    }
}
