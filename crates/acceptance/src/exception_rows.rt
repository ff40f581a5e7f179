//! What is asked of exception rows (JVMS 4.7.3).
ghost use Rattle.std.specs.Prelude.{◌≡◌, ◌==◌, ◌&&◌, ◌||◌, nat_lt, IfOk};
ghost use Rattle.std.specs.List.{list_any};
ghost use Rattle.model.specs.Accepted.ExceptionRows.{is_instruction, code_length, is_bad_row, is_no_throwable};
ghost use Rattle.model.specs.Accepted.ExceptionRows.{has_bad_row_in, has_bad_row};

use crate::pcs::Pcs;
use model::listings::{Code, ExceptionRow, Listing, Method};
use resolve::classes::Classes;
use std::alloc::{AllocError, Global};

/// Whether an exception row may end at this pc: at an instruction, or at the code's length.
fn is_end(code: &Code, pcs: &Pcs<'_>, pc: u16) -> bool
    requires { pcs.now ≡ code.now.instructions }
    ensures { result ≡ (is_instruction code.now pc || pc == code_length code.now) }
{
    pcs.has(pc)
        || match code.instructions.last() {
            Some(placed) => pc == placed.next,
            None => pc == 0,
        }
}

fn is_no_throwable(classes: &Classes<'_>, row: &ExceptionRow) -> bool
    ensures { result ≡ is_no_throwable classes.now row.now.class }
{
    match &row.class {
        Some(name) => !classes.is_subclass(name.as_bytes(), b"java/lang/Throwable"),
        None => false,
    }
}

/// Whether the bounds and the handler of a row are right.
fn is_placed(code: &Code, pcs: &Pcs<'_>, row: &ExceptionRow) -> bool
    requires { pcs.now ≡ code.now.instructions }
    ensures { result ≡ (nat_lt row.now.start row.now.end && is_instruction code.now row.now.start
        && is_instruction code.now row.now.handler
        && (is_instruction code.now row.now.end || row.now.end == code_length code.now)) }
{
    row.start < row.end && pcs.has(row.start) && pcs.has(row.handler) && is_end(code, pcs, row.end)
}

fn is_bad_row(classes: &Classes<'_>, code: &Code, pcs: &Pcs<'_>, row: &ExceptionRow) -> bool
    requires { pcs.now ≡ code.now.instructions }
    ensures { result ≡ is_bad_row classes.now code.now row.now }
{
    !is_placed(code, pcs, row) || is_no_throwable(classes, row)
}

fn is_one_bad(classes: &Classes<'_>, code: &Code, pcs: &Pcs<'_>) -> bool
    requires { pcs.now ≡ code.now.instructions }
    ensures { result ≡ list_any (is_bad_row classes.now code.now) code.now.rows }
{
    for row in &code.rows {
        if is_bad_row(classes, code, pcs, row) {
            return true;
        }
    }
    false
}

/// Whether a row of the method is bad. Where it has none, its pcs aren't looked at. `AllocError` where memory runs out,
/// here and below.
fn has_bad_row_in(alloc: Global, classes: &Classes<'_>, method: &Method) -> Result<bool, AllocError>
    ensures { IfOk result (λ bad. bad ≡ has_bad_row_in classes.now method.now.code) }
{
    let Some(code) = &method.code else {
        return Ok(false);
    };
    if code.rows.is_empty() {
        return Ok(false);
    }
    let pcs = Pcs::new(alloc, &code.instructions)?;
    Ok(is_one_bad(classes, code, &pcs))
}

/// Whether an exception row of the class doesn't begin below its end, has a bound or handler that is no instruction,
/// where its end may be the code's length, or has a class that is no Throwable.
#[tactic(auto, unfolding(model::specs::Accepted::ExceptionRows::has_bad_row))]
pub fn has_bad_row(
    alloc: Global,
    classes: &Classes<'_>,
    class: &Listing,
) -> Result<bool, AllocError>
    ensures { IfOk result (λ bad. bad ≡ has_bad_row classes.now class.now) }
{
    for method in &class.methods {
        if has_bad_row_in(alloc, classes, method)? {
            return Ok(true);
        }
    }
    Ok(false)
}
