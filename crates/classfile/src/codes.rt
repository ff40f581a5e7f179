//! Code attributes.

ghost use Rattle.std.specs.Prelude.{◌≡◌, ◌++◌, ◌<◌, ◌≤◌, ◌^◌, length, OnOk};
ghost use Rattle.pool.specs.Reading.Steps.{AsksForNone, Gives};
ghost use Rattle.classfile.specs.Reading.Answers.{Answers};
ghost use Rattle.classfile.specs.Reading.Codes as reading;
ghost use Rattle.classfile.specs.Reading.Codes.{sound_from, limits_from, tail_from, body_from, code_from};
ghost use Rattle.classfile.specs.Writing.{code_bytes, code_info, code_attribute_bytes};

use crate::attributes::{sized_at, skip_attributes};
use crate::error::ClassError;
use crate::exception_rows::{CodeRow, put_rows, rows_at};
use crate::instructions::{Instructions, Signature};
use crate::operands::all_sound;
use model::class_files::FormatFault;
use pool::fields::u16_at;
use pool::{Pool, ReadError};
use std::alloc::{AllocError, Global};
use std::marker::Model;

/// A Code attribute (JVMS 4.7.3): the number of its name, the limits of a frame, instructions and exception rows.
/// Attributes in it aren't kept.
#[derive(Drop)]
pub struct CodeEntry {
    pub name: u16,
    pub max_stack: u16,
    pub max_locals: u16,
    pub instructions: Instructions,
    pub rows: Vec<CodeRow>,
}

impl Model for CodeEntry {
    ghost use Rattle.model.specs.ClassFiles.Codes.{CodePart};

    ghost Value = { CodePart };

    ghost view = { λ a. record {
      name = a.name;
      max_stack = a.max_stack;
      max_locals = a.max_locals;
      instructions = a.instructions;
      rows = a.rows.items;
    } };
}

/// What stands before the exception rows of a Code attribute.
#[derive(Clone, Copy)]
struct Limits<'a> {
    max_stack: u16,
    max_locals: u16,
    code: &'a [u8],
}

/// The limits and the bytes of the code.
#[tactic(auto, unfolding(crate::specs::Reading::Codes::limits_from))]
fn limits_at(bytes: &[u8]) -> Result<(Limits<'_>, &[u8]), ReadError>
    ensures gives { Gives (λ x. (((x.0.max_stack, x.0.max_locals), x.0.code.now), x.1.now)) result (limits_from bytes.now) }
    ensures memory { AsksForNone result }
{
    let (max_stack, rest) = u16_at(bytes)?;
    let (max_locals, rest) = u16_at(rest)?;
    let (code, rest) = sized_at(rest)?;
    let limits = Limits {
        max_stack,
        max_locals,
        code,
    };
    Ok((limits, rest))
}

/// The instructions of the code. C6 where one of them names what it shouldn't.
#[tactic(auto, unfolding(crate::specs::Reading::Codes::sound_from))]
fn sound_code(
    alloc: Global,
    pool: &Pool,
    method: Signature,
    code: &[u8],
) -> Result<Instructions, ClassError>
    ensures { Answers (λ x. x) result (sound_from pool.now code.now) }
{
    let (instructions, items) = Instructions::read(alloc, method, code)?;
    if all_sound(pool, items.as_slice()) {
        Ok(instructions)
    } else {
        Err(ClassError::Format(FormatFault::Index))
    }
}

/// The exception rows. C8 where bytes are left after them and the attributes.
#[tactic(auto, unfolding(crate::specs::Reading::Codes::tail_from))]
fn tail_of(alloc: Global, pool: &Pool, bytes: &[u8]) -> Result<Vec<CodeRow>, ReadError>
    ensures { Gives (λ x. x.items) result (tail_from pool.now bytes.now) }
{
    let (rows, rest) = rows_at(alloc, pool, bytes)?;
    let rest = skip_attributes(pool, rest)?;
    match rest {
        [] => Ok(rows),
        [_, ..] => Err(ReadError::Format(FormatFault::Attribute)),
    }
}

/// What stands in a Code attribute.
#[tactic(auto, unfolding(crate::specs::Reading::Codes::body_from))]
fn body_of(
    alloc: Global,
    pool: &Pool,
    method: Signature,
    name: u16,
    info: &[u8],
) -> Result<CodeEntry, ClassError>
    ensures { Answers (λ x. x) result (body_from pool.now name info.now) }
{
    let (limits, rest) = limits_at(info)?;
    let instructions = sound_code(alloc, pool, method, limits.code)?;
    let rows = tail_of(alloc, pool, rest)?;
    Ok(CodeEntry {
        name,
        max_stack: limits.max_stack,
        max_locals: limits.max_locals,
        instructions,
        rows,
    })
}

/// A fault as it is reported inside an attribute: what is cut short there passes the attribute's end.
fn inside(fault: FormatFault) -> FormatFault
    ensures { result ≡ reading.inside fault }
{
    match fault {
        FormatFault::Short => FormatFault::Attribute,
        other => other,
    }
}

/// The Code attribute with these bytes under this name. Faulty code is reported with its method, before C6 for what its
/// instructions name, and this before the exception rows. C8 where an item passes the attribute's end.
#[tactic(auto, unfolding(crate::specs::Reading::Codes::code_from))]
pub fn code_of(
    alloc: Global,
    pool: &Pool,
    method: Signature,
    name: u16,
    info: &[u8],
) -> Result<CodeEntry, ClassError>
    ensures { Answers (λ x. x) result (code_from pool.now name info.now) }
{
    match body_of(alloc, pool, method, name, info) {
        Ok(code) => Ok(code),
        Err(ClassError::Format(fault)) => Err(ClassError::Format(inside(fault))),
        Err(error) => Err(error),
    }
}

/// How many bytes a Code attribute takes after its length.
fn info_length(code: &CodeEntry) -> u32
    requires code { length (code_bytes code.now.instructions) ≤ 65535 }
    requires rows { length code.now.rows < 2 ^ 16 }
    ensures { result ≡ length (code_info code.now) }
{
    12 + code.instructions.bytes().len() as u32 + 8 * code.rows.as_slice().len() as u32
}

/// Writes what stands in a Code attribute at the end.
#[tactic(auto, unfolding(crate::specs::Writing::code_info))]
fn put_info(out: &mut Vec<u8>, code: &CodeEntry) -> Result<(), AllocError>
    requires code { length (code_bytes code.now.instructions) ≤ 65535 }
    requires rows { length code.now.rows < 2 ^ 16 }
    ensures { OnOk result (out.new.items ≡ out.old.items ++ code_info code.now) }
{
    let bytes = code.instructions.bytes();
    let rows = code.rows.as_slice();
    out.extend_from_slice(&code.max_stack.to_be_bytes())?;
    out.extend_from_slice(&code.max_locals.to_be_bytes())?;
    out.extend_from_slice(&(bytes.len() as u32).to_be_bytes())?;
    out.extend_from_slice(bytes)?;
    out.extend_from_slice(&(rows.len() as u16).to_be_bytes())?;
    put_rows(out, rows)?;
    out.extend_from_slice(&[0, 0])
}

/// Writes a Code attribute at the end, without attributes in it.
pub fn put_code(out: &mut Vec<u8>, code: &CodeEntry) -> Result<(), AllocError>
    requires code { length (code_bytes code.now.instructions) ≤ 65535 }
    requires rows { length code.now.rows < 2 ^ 16 }
    ensures { OnOk result (out.new.items ≡ out.old.items ++ code_attribute_bytes code.now) }
{
    out.extend_from_slice(&code.name.to_be_bytes())?;
    out.extend_from_slice(&info_length(code).to_be_bytes())?;
    put_info(out, code)
}
