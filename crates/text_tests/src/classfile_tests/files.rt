//! Whole class files.

use crate::class_bytes::{E, hex};
use classfile::{ClassError, ClassFile, again, one_class_file, read, write};
use model::class_files::FormatFault;
use model::instructions::Instruction;
use std::alloc::{AllocError, Global};

/// Whether this is E: its head, its one method, and its one instruction.
fn is_e(alloc: Global, file: &ClassFile) -> bool {
    let head = file.head();
    let [main] = file.methods() else {
        return false;
    };
    let Some(code) = &main.code else {
        return false;
    };
    let Ok(items) = code.instructions.decoded(alloc) else {
        return false;
    };
    let [end] = items.as_slice() else {
        return false;
    };
    (head.class(), head.superclass(), head.flags()) == (2, 4, 0x0021)
        && (head.interfaces().len(), head.fields().len()) == (0, 0)
        && (main.name, main.descriptor, code.max_stack, code.max_locals) == (5, 6, 0, 0)
        && (end.pc, end.next) == (0, 1)
        && matches!(&end.instruction, Instruction::Return(None))
}

/// Whether a class file is written as these bytes.
fn has_bytes(alloc: Global, file: &ClassFile, wanted: &[u8]) -> bool {
    match write(alloc, file) {
        Ok(bytes) => bytes.as_slice() == wanted,
        Err(_) => false,
    }
}

/// Whether a copy of a class file is E, and written as these bytes.
fn copy_is_e(alloc: Global, file: &ClassFile, wanted: &[u8]) -> bool {
    match again(alloc, file) {
        Ok(copy) => is_e(alloc, &copy) && has_bytes(alloc, &copy, wanted),
        Err(_) => false,
    }
}

/// Whether a class file is written as these bytes; where that is E, also whether it is E, and its copy.
fn is_written_as(alloc: Global, file: &ClassFile, wanted: &[u8], is_of_e: bool) -> bool {
    has_bytes(alloc, file, wanted) && (!is_of_e || copy_is_e(alloc, file, wanted))
}

/// The same of the class file of some bytes.
fn are_written_as(alloc: Global, bytes: &[u8], wanted: &[u8], is_of_e: bool) -> bool {
    match read(alloc, bytes) {
        Ok(file) => is_written_as(alloc, &file, wanted, is_of_e),
        Err(_) => false,
    }
}

/// E with an attribute of its code.
const WITH_ATTRIBUTE: &str =
    "cafebabe 0000 0031 0008 01000145 070001 0100106a6176612f6c616e672f4f626a656374 070003
    0100046d61696e 010003282956 010004436f6465 0021 0002 0004 0000 0000 0001
    0009 0005 0006 0001 0007 00000014 0000 0000 00000001 b1 0000 0001 0007 00000001 09 0000";

/// E with two exception rows for all of its code, for class 2 and for any.
const WITH_ROWS: &str =
    "cafebabe 0000 0031 0008 01000145 070001 0100106a6176612f6c616e672f4f626a656374 070003
    0100046d61696e 010003282956 010004436f6465 0021 0002 0004 0000 0000 0001
    0009 0005 0006 0001 0007 0000001d 0000 0000 00000001 b1 0002 0000000100000002 0000000100000000 0000 0000";

/// Class files, and as what they are written: an attribute of code is left out.
const WRITTEN: &[(&str, &str, bool)] = &[
    (E, E, true),
    (WITH_ATTRIBUTE, E, true),
    (WITH_ROWS, WITH_ROWS, false),
];

fn are_written(
    alloc: Global,
    digits: &str,
    wanted: &str,
    is_of_e: bool,
) -> Result<bool, AllocError> {
    let bytes = hex(alloc, digits)?;
    let wanted = hex(alloc, wanted)?;
    Ok(are_written_as(alloc, &bytes, &wanted, is_of_e))
}

/// Whether these errors, one after another, are printed so.
fn codes_are_reported(alloc: Global) -> Result<bool, AllocError> {
    let (full, memory) = (ClassError::PoolFull, ClassError::Memory);
    let short = ClassError::Format(FormatFault::Short);
    let flags = ClassError::Format(FormatFault::Flags);
    Ok(format!(in alloc; "{full} {memory} {short} {flags}")?.as_str() == "C9 C10 C3 C11")
}

#[test]
fn class_files_are_written(rt: HostRuntime) {
    for (digits, wanted, is_of_e) in WRITTEN {
        assert!(rt;
            are_written(rt.alloc(), digits, wanted, *is_of_e) == Ok(true),
            "{digits}"
        );
    }
    assert!(rt; codes_are_reported(rt.alloc()) == Ok(true), "codes");
    one_class_file();
}
