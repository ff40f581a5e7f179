//! Fields and classes with names in place of constant-pool indices.

ghost use Rattle.std.specs.Prelude.{◌≡◌, map, IfOk};
ghost use Rattle.model.specs.ClassFiles.Listing as listing;

use model::class_files::FieldEntry;
use model::listings::Field;
use model::names::Name;
use pool::Pool;
use std::alloc::{AllocError, Global};

/// The fields of a class file, with names in place of constant-pool indices.
pub fn listed_fields(
    alloc: Global,
    pool: &Pool,
    fields: &[FieldEntry],
) -> Result<Vec<Field>, AllocError>
    ensures { IfOk result (λ all. all.items ≡ map (listing.listed_field pool.now) fields.now) }
{
    let mut all = Vec::new(alloc);
    for field in fields {
        all.push(listed_field(pool, field)?)?;
    }
    Ok(all)
}

fn listed_field(pool: &Pool, field: &FieldEntry) -> Result<Field, AllocError>
    ensures { IfOk result (λ listed. listed ≡ listing.listed_field pool.now field.now) }
{
    let constant = match field.constant {
        Some(constant) => pool.value(constant.value),
        None => None,
    };
    Ok(Field {
        flags: field.flags,
        name: pool.name(field.name)?,
        descriptor: pool.name(field.descriptor)?,
        constant,
    })
}

/// The names of classes in place of their numbers.
pub fn class_names(alloc: Global, pool: &Pool, numbers: &[u16]) -> Result<Vec<Name>, AllocError>
    ensures { IfOk result (λ names. names.items ≡ map (listing.class_at pool.now) numbers.now) }
{
    let mut names = Vec::new(alloc);
    for number in numbers {
        names.push(pool.class_name(*number)?)?;
    }
    Ok(names)
}
