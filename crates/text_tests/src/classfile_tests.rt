//! Class files by hand.

mod builder;
mod files;

use crate::class_bytes::{E, hex};
use classfile::{ClassHead, one_head};
use pool::ReadError;
use std::alloc::{AllocError, Global};

/// E's bytes.
fn e(alloc: Global) -> Result<Vec<u8>, AllocError> {
    hex(alloc, E)
}

/// How many bytes stand after the head of these, and the head as it is written again.
fn head_again(alloc: Global, digits: &str) -> Result<(usize, Vec<u8>), ReadError> {
    let bytes = hex(alloc, digits)?;
    let (head, rest) = ClassHead::read(alloc, &bytes)?;
    let mut written = Vec::new(alloc);
    head.write(&mut written)?;
    Ok((rest.len(), written))
}

/// Whether the head of E ends where it does, and is written as it is.
fn is_head_of_e(alloc: Global) -> Result<bool, ReadError> {
    let (following, written) = head_again(alloc, E)?;
    Ok(following == 31 && e(alloc)?.get(..69) == Some(written.as_slice()))
}

/// A class A over O with the static field `x I`, which is deprecated and has a value.
const A: &str = "cafebabe 0000 0031 000a 01000141 070001 0100014f 070003 01000178 01000149
    01000d436f6e7374616e7456616c7565 0300000007 01000a44657072656361746564 0021 0002 0004 0000 0001
    0008 0005 0006 0002 0009 00000000 0007 00000002 0008 0000 0000";

/// Whether the head is written so: the attribute Deprecated is left out, and the count of attributes is one less.
fn is_shorter(alloc: Global) -> Result<bool, ReadError> {
    let (following, written) = head_again(alloc, A)?;
    Ok(following == 4 && written.len() == 92 && written.get(83) == Some(&1))
}

#[test]
fn heads_are_read_and_written(rt: HostRuntime) {
    assert!(rt; is_head_of_e(rt.alloc()) == Ok(true), "E");
    assert!(rt; is_shorter(rt.alloc()) == Ok(true), "a field");
    one_head();
}
