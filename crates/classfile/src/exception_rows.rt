//! The rows of an exception table.

ghost use Rattle.std.specs.Prelude.{◌≡◌, ◌++◌, OnOk};
ghost use Rattle.std.specs.List.{flat_map};
ghost use Rattle.model.specs.ClassFiles.Codes.{row_bytes};
ghost use Rattle.pool.specs.Reading.Steps.{AsksForNone, Gives};
ghost use Rattle.classfile.specs.Reading.Codes.{row_from};
ghost use Rattle.classfile.specs.Reading.Lists.{repeated, list_from};

use crate::operands::has_tag;
use model::class_files::FormatFault;
use pool::fields::u16_at;
use pool::{Pool, ReadError};
use std::alloc::{AllocError, Global};
use std::marker::Model;

/// A row of an exception table (JVMS 4.7.3): the pcs from `start` to below `end`, the pc of the handler, and the number
/// of the class that it takes, 0 where it takes anything.
#[derive(Debug, Drop)]
pub struct CodeRow {
    pub start: u16,
    pub end: u16,
    pub handler: u16,
    pub class: u16,
}

impl Model for CodeRow {
    ghost use Rattle.model.specs.ClassFiles.Codes.{CodeRow as Row};

    ghost Value = { Row };

    ghost view = { λ a. record { start = a.start; end = a.end; handler = a.handler; class = a.class } };
}

/// A row of an exception table. C6 where its class is no class's number and not 0.
#[tactic(auto, unfolding(crate::specs::Reading::Codes::row_from))]
fn row_at<'a>(pool: &Pool, bytes: &'a [u8]) -> Result<(CodeRow, &'a [u8]), ReadError>
    ensures gives { Gives (λ x. (x.0, x.1.now)) result (row_from pool.now bytes.now) }
    ensures memory { AsksForNone result }
{
    let (start, rest) = u16_at(bytes)?;
    let (end, rest) = u16_at(rest)?;
    let (handler, rest) = u16_at(rest)?;
    let (class, rest) = u16_at(rest)?;
    if class != 0 && !has_tag(pool, 7, class) {
        return Err(ReadError::Format(FormatFault::Index));
    }
    let row = CodeRow {
        start,
        end,
        handler,
        class,
    };
    Ok((row, rest))
}

/// So many rows.
fn some_rows_at<'a>(
    alloc: Global,
    pool: &Pool,
    count: u16,
    bytes: &'a [u8],
) -> Result<(Vec<CodeRow>, &'a [u8]), ReadError>
    ensures { Gives (λ x. (x.0.items, x.1.now)) result (repeated (row_from pool.now) count bytes.now) }
{
    let mut rows = Vec::new(alloc);
    let mut rest = bytes;
    for _ in 0..count {
        let (row, after) = row_at(pool, rest)?;
        rows.push(row)?;
        rest = after;
    }
    Ok((rows, rest))
}

/// Rows after their count.
#[tactic(auto, unfolding(crate::specs::Reading::Lists::list_from))]
pub fn rows_at<'a>(
    alloc: Global,
    pool: &Pool,
    bytes: &'a [u8],
) -> Result<(Vec<CodeRow>, &'a [u8]), ReadError>
    ensures { Gives (λ x. (x.0.items, x.1.now)) result (list_from (row_from pool.now) bytes.now) }
{
    let (count, rest) = u16_at(bytes)?;
    some_rows_at(alloc, pool, count, rest)
}

/// Writes rows at the end.
pub fn put_rows(out: &mut Vec<u8>, rows: &[CodeRow]) -> Result<(), AllocError>
    ensures { OnOk result (out.new.items ≡ out.old.items ++ flat_map row_bytes rows.now) }
{
    for row in rows {
        out.extend_from_slice(&row.start.to_be_bytes())?;
        out.extend_from_slice(&row.end.to_be_bytes())?;
        out.extend_from_slice(&row.handler.to_be_bytes())?;
        out.extend_from_slice(&row.class.to_be_bytes())?;
    }
    Ok(())
}
