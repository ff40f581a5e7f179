//! What a program has for instructions that name something, by hand: classes, slots and words counted from 0.

use crate::texts::program;
use linking::operations::Operation;
use loader::programs::Program;
use std::alloc::Global;
use std::test::Fail;

/// A is 0, B 1 and C 2; C has its own x.
const CLASSES: &str =
    "|return|end; class B < A|.field public y J|.field static u LA;; class C < B|.field public x B";

fn first_operation(program: &Program) -> Operation {
    program.step(program.main(), 0).operation
}

/// The operation at main's start, where this instruction stands.
fn operation_of(alloc: Global, words: &str) -> Result<Operation, Fail> {
    let row = format!(in alloc;
        "class A|.field public x B|.field static t I|main:|{words}{CLASSES}"
    )?;
    Ok(first_operation(&program(alloc, row.as_str())?))
}

/// The mnemonic of some operations, and what they carry.
fn reported(operation: Operation) -> (&'static str, u32, u16, u16) {
    match operation {
        Operation::Getstatic(slot) => ("getstatic", slot, 0, 0),
        Operation::Putfield(class, word, storage) => ("putfield", u32::from(class), word, storage),
        Operation::PrintInt => ("print", 0, 0, 0),
        Operation::New(class) => ("new", u32::from(class), 0, 0),
        _ => ("another", 0, 0, 0),
    }
}

const OPERATIONS: &[(&str, (&str, u32, u16, u16))] = &[
    ("getstatic A/t I", ("getstatic", 0, 0, 0)),
    ("getstatic C/u LA;", ("getstatic", 1, 0, 0)),
    ("putfield A/x B", ("putfield", 0, 0, 0)),
    ("putfield B/x B", ("putfield", 1, 0, 0)),
    ("putfield C/x B", ("putfield", 2, 2, 2)),
    ("putfield C/y J", ("putfield", 2, 1, 1)),
    ("invokestatic vm/Sys/print(I)V", ("print", 0, 0, 0)),
    ("new B", ("new", 1, 0, 0)),
];

/// Only the instructions that the machine carries out come so far.
#[test]
fn names_become_numbers(rt: HostRuntime) -> Result<(), Fail> {
    for (words, wanted) in OPERATIONS {
        assert!(rt;
            reported(operation_of(rt.alloc(), words)?) == *wanted,
            "{words}"
        );
    }
    Ok(())
}
