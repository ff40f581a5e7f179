//! Calls of the machine's own methods: one turn, and no frame.
ghost use Rattle.std.specs.Prelude.{◌≡◌, IfOk};
ghost use Rattle.model.specs.Printing.{decimal_line, low_byte};
ghost use Rattle.model.specs.Table.Builtins.{builtin_call};
ghost use Rattle.model.specs.declared.builtins.Builtin.TheVariants.{PrintInt, PrintLong, PutByte};
ghost use Rattle.ideal_run.specs.Completed.{reported, plainly, prints_in};

use crate::completions::{Change, Completion, Site};
use crate::frames::replaced;
use crate::operands::{int_on, long_on};
use crate::threads::{joined, started};
use itoa::Buffer;
use model::builtins::Builtin;
use std::alloc::{AllocError, Global};

/// An int in decimal and a newline. `AllocError` where memory runs out.
fn int_line(alloc: Global, int: i32) -> Result<Vec<u8>, AllocError>
    ensures { IfOk result (λ line. line.items ≡ decimal_line int) }
{
    let mut buffer = Buffer::new();
    let mut line = Vec::from_slice(alloc, buffer.format(int).as_bytes())?;
    line.push(b'\n')?;
    Ok(line)
}

/// A long in decimal and a newline. `AllocError` where memory runs out.
fn long_line(alloc: Global, long: i64) -> Result<Vec<u8>, AllocError>
    ensures { IfOk result (λ line. line.items ≡ decimal_line long) }
{
    let mut buffer = Buffer::new();
    let mut line = Vec::from_slice(alloc, buffer.format(long).as_bytes())?;
    line.push(b'\n')?;
    Ok(line)
}

/// The low 8 bits of an int.
fn low_byte(alloc: Global, int: i32) -> Result<Vec<u8>, AllocError>
    ensures { IfOk result (λ byte. byte.items ≡ low_byte int) }
{
    Vec::from_slice(alloc, &[(int.cast_unsigned() & 0xff) as u8])
}

/// The operand goes once the bytes are printed.
fn prints(site: &Site<'_, '_>, bytes: Vec<u8>) -> Result<Completion, AllocError>
    ensures { IfOk result (λ c. reported site.now.world site.now.thread c ≡ prints_in site.now bytes.items) }
{
    let frame = replaced(site.alloc(), site.next(), site.frame(), 1, &[])?;
    Ok(Completion::Prints(frame, bytes))
}

fn print_int(site: &Site<'_, '_>) -> Result<Completion, AllocError>
    ensures { IfOk result (λ c. reported site.now.world site.now.thread c ≡ plainly (builtin_call site.now PrintInt)) }
{
    match int_on(site.stack()) {
        Err(fault) => Ok(Completion::Faults(fault)),
        Ok(int) => prints(site, int_line(site.alloc(), int)?),
    }
}

fn print_long(site: &Site<'_, '_>) -> Result<Completion, AllocError>
    ensures { IfOk result (λ c. reported site.now.world site.now.thread c ≡ plainly (builtin_call site.now PrintLong)) }
{
    match long_on(site.stack()) {
        Err(fault) => Ok(Completion::Faults(fault)),
        Ok(long) => prints(site, long_line(site.alloc(), long)?),
    }
}

fn put_byte(site: &Site<'_, '_>) -> Result<Completion, AllocError>
    ensures { IfOk result (λ c. reported site.now.world site.now.thread c ≡ plainly (builtin_call site.now PutByte)) }
{
    match int_on(site.stack()) {
        Err(fault) => Ok(Completion::Faults(fault)),
        Ok(int) => prints(site, low_byte(site.alloc(), int)?),
    }
}

/// A call of one of the machine's own methods. `AllocError` where memory runs out.
pub fn builtin_call(site: &Site<'_, '_>, builtin: Builtin) -> Result<Completion, AllocError>
    ensures { IfOk result (λ c. reported site.now.world site.now.thread c ≡ plainly (builtin_call site.now builtin)) }
{
    match builtin {
        Builtin::PrintInt => print_int(site),
        Builtin::PrintLong => print_long(site),
        Builtin::PutByte => put_byte(site),
        Builtin::Initialize => site.pops(1, Change::Nothing),
        Builtin::RunThread => site.pops(1, Change::Nothing),
        Builtin::StartThread => started(site),
        Builtin::JoinThread => joined(site),
    }
}
