//! Whether methods may stand in a class file.

ghost use Rattle.std.specs.Prelude.{◌≡◌, ◌↔◌, ◌&&◌, ◌||◌, ◌==◌, ◌<◌, ◌^◌, true, IfOk};
ghost use Rattle.std.specs.List.{AllByRecursion};
ghost use Rattle.model.specs.Texts.Names.{is_method_name as method_name_test};
ghost use Rattle.model.specs.ClassFiles.Attributes.{passes};
ghost use Rattle.model.specs.ClassFiles.Codes.{RowFits, has_tag as has_tag_test};
ghost use Rattle.model.specs.ClassFiles.Methods as definition;
ghost use Rattle.model.specs.ClassFiles.References.{text_at};
ghost use Rattle.model.specs.Texts.Flags.{has};
ghost use Rattle.classfile.specs.Reading.Codes.{are_sound};
ghost use Rattle.classfile.specs.Reading.Methods as reading;
ghost use Rattle.classfile.specs.Reading.Methods.{method_type_test};
ghost use Rattle.classfile.specs.Sound.{CodeStands, CodesStand, MethodStands};

use crate::codes::CodeEntry;
use crate::exception_rows::CodeRow;
use crate::fields::is_static;
use crate::methods::{MethodEntry, are_method_flags, is_code_name, is_method_type, wants_code};
use crate::operands::{all_sound, has_tag};
use crate::sound_fields::{both, is_count};
use bitflags::Flags;
use model::bytecode::Located;
use pool::Pool;
use std::alloc::{AllocError, Global};

/// Whether a row of these numbers may stand in an exception table: its class is one, or 0.
fn is_row(pool: &Pool, start: u16, end: u16, handler: u16, class: u16) -> bool
    ensures is { result ≡ (class == 0 || has_tag_test pool.now 7 class) }
    ensures fits { (start < 2 ^ 16) × (end < 2 ^ 16) × (handler < 2 ^ 16) × (class < 2 ^ 16) }
{
    class == 0 || has_tag(pool, 7, class)
}

/// Whether a row may stand in an exception table.
fn row_stands(pool: &Pool, row: &CodeRow) -> bool
    ensures { (result ≡ true) ↔ RowFits pool.now row.now }
{
    is_row(pool, row.start, row.end, row.handler, row.class)
}

/// Whether the classes that rows take are some.
fn rows_stand(pool: &Pool, rows: &[CodeRow]) -> bool
    ensures { (result ≡ true) ↔ AllByRecursion (RowFits pool.now) rows.now }
{
    for row in rows {
        if !row_stands(pool, row) {
            return false;
        }
    }
    true
}

/// Whether the text under a number is the name of a Code attribute.
fn names_code(pool: &Pool, number: u16) -> bool
    ensures { result ≡ passes reading.is_code_name (text_at pool.now number) }
{
    match pool.text(number) {
        None => false,
        Some(text) => is_code_name(text),
    }
}

/// Whether these instructions may stand in a Code attribute of this name, and so many rows.
fn is_code(
    pool: &Pool,
    name: u16,
    max_stack: u16,
    max_locals: u16,
    instructions: &[Located],
) -> bool
    ensures is { result ≡ (passes reading.is_code_name (text_at pool.now name) && are_sound pool.now instructions.now) }
    ensures fits { (name < 2 ^ 16) × (max_stack < 2 ^ 16) × (max_locals < 2 ^ 16) }
{
    names_code(pool, name) && all_sound(pool, instructions)
}

/// Whether code may stand in a class file with this pool.
fn code_stands(alloc: Global, pool: &Pool, code: &CodeEntry) -> Result<bool, AllocError>
    ensures { IfOk result (λ stands. (stands ≡ true) ↔ CodeStands pool.now code.now) }
{
    let rows = code.rows.as_slice();
    let fit = both(is_count(rows.len()), rows_stand(pool, rows));
    let items = code.instructions.decoded(alloc)?;
    let instructions = items.as_slice();
    let is_sound = is_code(
        pool,
        code.name,
        code.max_stack,
        code.max_locals,
        instructions,
    );
    Ok(both(is_sound, fit))
}

/// Whether a method has code, and such as may stand there, where one is wanted, and else none.
fn codes_stand(
    alloc: Global,
    pool: &Pool,
    wanted: bool,
    code: &Option<CodeEntry>,
) -> Result<bool, AllocError>
    ensures { IfOk result (λ stand. (stand ≡ true) ↔ CodesStand pool.now wanted code.now) }
{
    match code {
        None => Ok(!wanted),
        Some(code) => {
            if wanted {
                code_stands(alloc, pool, code)
            } else {
                Ok(false)
            }
        }
    }
}

/// Whether what a method says beside its code goes together.
fn is_method(pool: &Pool, class: u16, flags: u16, name: u16, descriptor: u16) -> bool
    ensures is { result ≡ (definition.are_method_flags class flags && passes method_name_test (text_at pool.now name)
        && passes (method_type_test (has flags 8)) (text_at pool.now descriptor)) }
    ensures fits { (flags < 2 ^ 16) × (name < 2 ^ 16) × (descriptor < 2 ^ 16) }
{
    are_method_flags(class, flags)
        && pool.is_method_name(name)
        && is_method_type(pool, is_static(flags), descriptor)
}

/// Whether a method may stand in a class of these flags.
fn method_stands(
    alloc: Global,
    pool: &Pool,
    class: u16,
    method: &MethodEntry,
) -> Result<bool, AllocError>
    ensures { IfOk result (λ stands. (stands ≡ true) ↔ MethodStands pool.now class method.now) }
{
    let flags = method.flags.bits();
    let has_code = codes_stand(alloc, pool, wants_code(flags), &method.code)?;
    let is_sound = is_method(pool, class, flags, method.name, method.descriptor);
    Ok(both(is_sound, has_code))
}

/// Whether methods may stand in a class of these flags.
pub fn methods_stand(
    alloc: Global,
    pool: &Pool,
    class: u16,
    methods: &[MethodEntry],
) -> Result<bool, AllocError>
    ensures { IfOk result (λ stand. (stand ≡ true) ↔ AllByRecursion (MethodStands pool.now class) methods.now) }
{
    for method in methods {
        if !method_stands(alloc, pool, class, method)? {
            return Ok(false);
        }
    }
    Ok(true)
}
