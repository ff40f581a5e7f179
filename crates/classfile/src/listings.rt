//! The listing of a class file.

ghost use Rattle.std.specs.Prelude.{◌≡◌, map, IfOk};
ghost use Rattle.model.specs.ClassFiles.Listing as listing;
ghost use Rattle.model.specs.ClassFiles.Listing.{listing_of};

use crate::flags::BUT_SUPER;
use crate::listed_code::listed_instructions;
use crate::listed_members::{class_names, listed_fields};
use crate::{ClassFile, CodeEntry, CodeRow, MethodEntry};
use bitflags::Flags;
use model::flags::ClassFlags;
use model::listings::{Code, ExceptionRow, Listing, Method};
use pool::Pool;
use std::alloc::{AllocError, Global};

/// What a class file declares, with names in place of pool numbers. `AllocError` where memory runs out, and for nothing
/// else.
#[tactic(auto, unfolding(model::specs::ClassFiles::Listing::listing_of))]
pub fn listing(alloc: Global, file: &ClassFile) -> Result<Listing, AllocError>
    ensures { IfOk result (λ listing. listing ≡ listing_of file.now) }
{
    let head = file.head();
    let pool = head.pool();
    Ok(Listing {
        name: pool.class_name(head.class())?,
        flags: listed_flags(head.flags()),
        superclass: pool.class_name(head.superclass())?,
        interfaces: class_names(alloc, pool, head.interfaces())?,
        fields: listed_fields(alloc, pool, head.fields())?,
        methods: listed_methods(alloc, pool, file.methods())?,
    })
}

/// A class's flags without SUPER.
fn listed_flags(flags: u16) -> ClassFlags
    ensures { result ≡ listing.listed_flags (record { 0 = flags }) }
{
    ClassFlags::from_bits_retain(flags & BUT_SUPER)
}

fn listed_methods(
    alloc: Global,
    pool: &Pool,
    methods: &[MethodEntry],
) -> Result<Vec<Method>, AllocError>
    ensures { IfOk result (λ all. all.items ≡ map (listing.listed_method pool.now) methods.now) }
{
    let mut all = Vec::new(alloc);
    for method in methods {
        all.push(listed_method(alloc, pool, method)?)?;
    }
    Ok(all)
}

fn listed_method(alloc: Global, pool: &Pool, method: &MethodEntry) -> Result<Method, AllocError>
    ensures { IfOk result (λ listed. listed ≡ listing.listed_method pool.now method.now) }
{
    let code = match &method.code {
        Some(code) => Some(listed_code(alloc, pool, code)?),
        None => None,
    };
    Ok(Method {
        flags: method.flags,
        name: pool.name(method.name)?,
        descriptor: pool.name(method.descriptor)?,
        code,
    })
}

fn listed_code(alloc: Global, pool: &Pool, code: &CodeEntry) -> Result<Code, AllocError>
    ensures { IfOk result (λ listed. listed ≡ listing.listed_code pool.now code.now) }
{
    let items = code.instructions.decoded(alloc)?;
    Ok(Code {
        max_stack: code.max_stack,
        max_locals: code.max_locals,
        rows: listed_rows(alloc, pool, &code.rows)?,
        instructions: listed_instructions(alloc, pool, items.as_slice())?,
    })
}

fn listed_rows(
    alloc: Global,
    pool: &Pool,
    rows: &[CodeRow],
) -> Result<Vec<ExceptionRow>, AllocError>
    ensures { IfOk result (λ all. all.items ≡ map (listing.listed_row pool.now) rows.now) }
{
    let mut all = Vec::new(alloc);
    for row in rows {
        all.push(listed_row(pool, row)?)?;
    }
    Ok(all)
}

fn listed_row(pool: &Pool, row: &CodeRow) -> Result<ExceptionRow, AllocError>
    ensures { IfOk result (λ listed. listed ≡ listing.listed_row pool.now row.now) }
{
    let class = if row.class == 0 {
        None
    } else {
        Some(pool.class_name(row.class)?)
    };
    Ok(ExceptionRow {
        start: row.start,
        end: row.end,
        handler: row.handler,
        class,
    })
}
