//! Pools by hand: read, written, and made entry by entry.
//!
//! What is asked of a pool or a builder stands in functions that borrow it, and one function makes and drops each.

use model::class_files::{Entry, FormatFault};
use model::listings::Constant;
use model::names::{Member, Name};
use pool::{AddError, Pool, PoolBuilder, ReadError};
use std::alloc::{AllocError, Global};

/// The pool of a class E over java/lang/Object with a method `main()V` with code, and four bytes after it.
const BYTES: [u8; 60] = [
    0, 9, 1, 0, 1, b'E', 7, 0, 1, 1, 0, 16, b'j', b'a', b'v', b'a', b'/', b'l', b'a', b'n', b'g',
    b'/', b'O', b'b', b'j', b'e', b'c', b't', 7, 0, 3, 1, 0, 4, b'm', b'a', b'i', b'n', 1, 0, 3,
    b'(', b')', b'V', 1, 0, 4, b'C', b'o', b'd', b'e', 12, 0, 5, 0, 6, 0, 33, 0, 2,
];

/// Whether a pool has the entries of these bytes.
fn is_of_e(pool: &Pool) -> bool {
    pool.count() == 9
        && pool.text(1) == Some(b"E".as_slice())
        && pool.class(2) == Some(1)
        && pool.name_and_type(8) == Some((5, 6))
        && pool.entry(0).is_none()
        && pool.entry(9).is_none()
        && matches!(pool.entry(4), Some(Entry::Class(3)))
}

/// Whether a pool is sound, and its bytes are these.
fn has_bytes(alloc: Global, pool: &Pool, wanted: &[u8]) -> Result<bool, AllocError> {
    let mut bytes = Vec::new(alloc);
    pool.write(&mut bytes)?;
    Ok(pool.check().is_ok() && bytes.as_slice() == wanted)
}

/// Whether E's pool is read, up to the bytes after it, and written again.
fn comes_back(alloc: Global) -> Result<bool, ReadError> {
    let (pool, rest) = Pool::read(alloc, &BYTES)?;
    let is_whole = rest == [0, 33, 0, 2].as_slice() && is_of_e(&pool);
    Ok(is_whole && has_bytes(alloc, &pool, &BYTES[..56])?)
}

#[test]
fn a_pool_is_read_and_written(rt: HostRuntime) {
    assert!(rt; comes_back(rt.alloc()) == Ok(true));
}

/// An entry of a row.
#[derive(Clone, Copy)]
pub enum Word {
    Text(&'static str),
    Class(u16),
    Both(u16, u16),
    Field(u16, u16),
    Method(u16, u16),
    Int(i32),
    Long(i64),
}

fn entry(alloc: Global, word: Word) -> Result<Entry, AllocError> {
    Ok(match word {
        Word::Text(text) => Entry::Utf8(Name::copy_of(alloc, text.as_bytes())?),
        Word::Class(name) => Entry::Class(name),
        Word::Both(name, descriptor) => Entry::NameAndType(name, descriptor),
        Word::Field(class, both) => Entry::Fieldref(class, both),
        Word::Method(class, both) => Entry::Methodref(class, both),
        Word::Int(value) => Entry::Integer(value),
        Word::Long(value) => Entry::Long(value),
    })
}

/// What entries are to come to.
#[derive(Clone, Copy)]
enum Wanted {
    /// The pool of E.
    E,
    /// A pool with this count.
    Count(u16),
    /// A pool with `vm/Sys/print(I)V` and two constants.
    Print,
    /// No pool.
    Fault(FormatFault),
}

/// Rows of entries, each with the number that it is to have.
const E: &[(Word, u16)] = &[
    (Word::Text("E"), 1),
    (Word::Class(1), 2),
    (Word::Text("java/lang/Object"), 3),
    (Word::Class(3), 4),
    // both were added
    (Word::Text("E"), 1),
    (Word::Class(1), 2),
    (Word::Text("main"), 5),
    (Word::Text("()V"), 6),
    (Word::Text("Code"), 7),
    (Word::Both(5, 6), 8),
];

/// An entry that is there has its number still, and another one the next.
const KEPT: &[(Word, u16)] = &[
    (Word::Text("E"), 1),
    (Word::Class(1), 2),
    (Word::Text("java/lang/Object"), 3),
    (Word::Class(3), 4),
    (Word::Text("main"), 5),
    (Word::Text("()V"), 6),
    (Word::Text("Code"), 7),
    (Word::Class(3), 4),
    (Word::Class(5), 8),
];

/// A long takes two numbers.
const LONGS: &[(Word, u16)] = &[
    (Word::Long(7), 1),
    (Word::Int(7), 3),
    (Word::Long(-7), 4),
    (Word::Long(7), 1),
    (Word::Int(-7), 6),
];

const PRINT: &[(Word, u16)] = &[
    (Word::Text("vm/Sys"), 1),
    (Word::Class(1), 2),
    (Word::Text("print"), 3),
    (Word::Text("(I)V"), 4),
    (Word::Both(3, 4), 5),
    (Word::Method(2, 5), 6),
    (Word::Long(-7), 7),
    (Word::Int(8), 9),
];

/// A class that names no text, one whose name is none, and a reference that names itself.
const NO_TEXT: &[(Word, u16)] = &[(Word::Class(2), 1)];

const NO_NAME: &[(Word, u16)] = &[(Word::Class(2), 1), (Word::Text("E/"), 2)];

const ITSELF: &[(Word, u16)] = &[(Word::Field(1, 1), 1)];

/// A byte past 7F is reported before the class that names nothing.
const PAST_7F: &[(Word, u16)] = &[(Word::Class(9), 1), (Word::Text("\u{80}"), 2)];

const TEXT: &[(Word, u16)] = &[(Word::Text("E/"), 1)];

/// Whether entries that were added have their numbers, and one that wasn't has none.
fn knows(alloc: Global, builder: &PoolBuilder, rows: &[(Word, u16)]) -> Result<bool, AllocError> {
    for (word, number) in rows {
        if builder.number(&entry(alloc, *word)?) != Some(*number) {
            return Ok(false);
        }
    }
    Ok(builder.number(&Entry::Class(4)).is_none())
}

/// Adds entries; whether each has the number beside it, then and at the end.
pub fn add(
    alloc: Global,
    builder: &mut PoolBuilder,
    rows: &[(Word, u16)],
) -> Result<bool, AllocError> {
    for (word, number) in rows {
        if builder.add(entry(alloc, *word)?) != Ok(*number) {
            return Ok(false);
        }
    }
    knows(alloc, builder, rows)
}

/// Whether a member is `vm/Sys/print(I)V`.
fn is_print(member: &Member) -> bool {
    member.class.is("vm/Sys") && member.name.is("print") && member.descriptor.is("(I)V")
}

/// Whether a pool has `vm/Sys/print(I)V` as number 6.
fn has_print(pool: &Pool) -> Result<bool, AllocError> {
    Ok(pool.name(3)?.is("print") && pool.class_name(2)?.is("vm/Sys") && is_print(&pool.member(6)?))
}

/// Whether a pool has a long as number 7, an int as 9, and no constant as 2.
fn has_constants(pool: &Pool) -> bool {
    (pool.long(7), pool.int(9)) == (-7, 8)
        && pool.value(7) == Some(Constant::Long(-7))
        && pool.value(9) == Some(Constant::Int(8))
        && pool.value(2).is_none()
}

fn is_pool(alloc: Global, pool: &Pool, wanted: Wanted) -> Result<bool, AllocError> {
    match wanted {
        Wanted::E => has_bytes(alloc, pool, &BYTES[..56]),
        Wanted::Count(count) => Ok(pool.count() == count),
        Wanted::Print => Ok(has_print(pool)? && has_constants(pool)),
        Wanted::Fault(_) => Ok(false),
    }
}

fn is_refusal(error: ReadError, wanted: Wanted) -> bool {
    match (error, wanted) {
        (ReadError::Format(fault), Wanted::Fault(wanted)) => fault == wanted,
        _ => false,
    }
}

/// Whether entries have their numbers, and come to what is wanted.
fn come_to(alloc: Global, rows: &[(Word, u16)], wanted: Wanted) -> Result<bool, AllocError> {
    let mut builder = PoolBuilder::new(alloc);
    if !add(alloc, &mut builder, rows)? {
        return Ok(false);
    }
    match builder.finish() {
        Ok(pool) => is_pool(alloc, &pool, wanted),
        Err(error) => Ok(is_refusal(error, wanted)),
    }
}

/// Entries with what they come to.
const POOLS: &[(&[(Word, u16)], Wanted)] = &[
    (E, Wanted::E),
    (KEPT, Wanted::Count(9)),
    (LONGS, Wanted::Count(7)),
    (PRINT, Wanted::Print),
    (NO_TEXT, Wanted::Fault(FormatFault::Index)),
    (NO_NAME, Wanted::Fault(FormatFault::Name)),
    (ITSELF, Wanted::Fault(FormatFault::Index)),
    (PAST_7F, Wanted::Fault(FormatFault::Name)),
    (TEXT, Wanted::Count(2)),
];

#[test]
fn pools_entry_by_entry(rt: HostRuntime) {
    for (rows, wanted) in POOLS {
        assert!(rt; come_to(rt.alloc(), rows, *wanted) == Ok(true));
    }
}

/// A builder with so many ints.
fn with_ints(alloc: Global, count: i32) -> PoolBuilder {
    let mut builder = PoolBuilder::new(alloc);
    for z in 0..count {
        let _number = builder.add(Entry::Integer(z)).is_ok();
    }
    builder
}

/// Whether one number more is all that a builder has room for, and what is there has its number still.
fn fills(builder: &mut PoolBuilder) -> bool {
    builder.add(Entry::Long(0)) == Err(AddError::Full)
        && builder.add(Entry::Integer(-1)) == Ok(65534)
        && builder.add(Entry::Integer(-2)) == Err(AddError::Full)
        && builder.add(Entry::Integer(65532)) == Ok(65533)
}

/// The count of the pool that is full.
fn full_count(alloc: Global) -> Option<u16> {
    let mut builder = with_ints(alloc, 65533);
    if !fills(&mut builder) {
        return None;
    }
    match builder.finish() {
        Ok(pool) => Some(pool.count()),
        Err(_) => None,
    }
}

#[test]
fn a_full_pool(rt: HostRuntime) {
    assert!(rt; full_count(rt.alloc()) == Some(65535));
}
