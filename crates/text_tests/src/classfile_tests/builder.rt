//! Class files that are made part by part.

use super::e;
use crate::pool_tests::{Word, add};
use bitflags::Flags;
use classfile::{
    Body, ClassError, ClassFile, CodeEntry, CodeRow, Instructions, MethodEntry, write,
};
use model::class_files::{ConstantValue, Entry, FieldEntry, FormatFault};
use model::flags::{ClassFlags, FieldFlags, MethodFlags};
use model::instructions::{ClassOperation, Instruction, Test, Width};
use opcodes::OpError;
use pool::{AddError, PoolBuilder};
use std::alloc::{AllocError, Global};
use std::test::*;

/// E's seven entries.
const ENTRIES: &[(Word, u16)] = &[
    (Word::Text("E"), 1),
    (Word::Class(1), 2),
    (Word::Text("java/lang/Object"), 3),
    (Word::Class(3), 4),
    (Word::Text("main"), 5),
    (Word::Text("()V"), 6),
    (Word::Text("Code"), 7),
];

/// The same, and what a field of type I with a value names.
const WITH_VALUE: &[(Word, u16)] = &[
    (Word::Text("E"), 1),
    (Word::Class(1), 2),
    (Word::Text("java/lang/Object"), 3),
    (Word::Class(3), 4),
    (Word::Text("main"), 5),
    (Word::Text("()V"), 6),
    (Word::Text("Code"), 7),
    (Word::Text("ConstantValue"), 8),
    (Word::Int(7), 9),
    (Word::Text("I"), 10),
];

/// E's class without a method.
fn e_body(alloc: Global) -> Body {
    Body {
        flags: ClassFlags::from_bits_retain(0x0021),
        class: 2,
        superclass: 4,
        interfaces: Vec::new(alloc),
        fields: Vec::new(alloc),
        methods: Vec::new(alloc),
    }
}

/// Code under this name, with these rows: one return, or `new` of the class under a number.
fn code(alloc: Global, name: u16, new: Option<u16>, rows: Vec<CodeRow>) -> Result<CodeEntry, Fail> {
    let instruction = match new {
        None => Instruction::Return(None),
        Some(class) => Instruction::Class(ClassOperation::New, class),
    };
    Ok(CodeEntry {
        name,
        max_stack: 0,
        max_locals: 0,
        instructions: Instructions::encode(alloc, &[instruction])?,
        rows,
    })
}

/// E's method with these flags and this code.
fn main(flags: u16, code: Option<CodeEntry>) -> MethodEntry {
    MethodEntry {
        flags: MethodFlags::from_bits_retain(flags),
        name: 5,
        descriptor: 6,
        code,
    }
}

/// A row for the classes under this number.
fn row(alloc: Global, class: u16) -> Result<Vec<CodeRow>, Fail> {
    let row = CodeRow {
        start: 0,
        end: 1,
        handler: 0,
        class,
    };
    Ok(vec![in alloc; row]?)
}

/// What E's class has.
#[derive(Clone, Copy)]
enum Part {
    /// These flags, this superclass, and an interface.
    Class(u16, u16, u16),
    /// Its method with these flags and no code.
    Bare(u16),
    /// Its method with these flags, and with code under this name: one return, or `new` of the class under a number.
    Code(u16, u16, Option<u16>),
    /// Its method, whose code has a row for the classes under this number.
    Row(u16),
    /// A static field with a method's descriptor.
    Field,
    /// A field of type I with these flags, whose ConstantValue has this number.
    Value(u16, u16),
}

/// A field `main`.
fn field(flags: u16, descriptor: u16, constant: Option<ConstantValue>) -> FieldEntry {
    FieldEntry {
        flags: FieldFlags::from_bits_retain(flags),
        name: 5,
        descriptor,
        constant,
    }
}

/// E's method as a part has it; without code where none is given.
fn method(alloc: Global, part: Part) -> Result<MethodEntry, Fail> {
    match part {
        Part::Code(flags, name, new) => {
            Ok(main(flags, Some(code(alloc, name, new, Vec::new(alloc))?)))
        }
        Part::Row(class) => Ok(main(9, Some(code(alloc, 7, None, row(alloc, class)?)?))),
        Part::Bare(flags) => Ok(main(flags, None)),
        Part::Class(_, _, _) | Part::Field | Part::Value(_, _) => Ok(main(9, None)),
    }
}

fn add_part(alloc: Global, body: &mut Body, part: Part) -> Result<(), Fail> {
    match part {
        Part::Class(flags, superclass, interface) => {
            body.flags = ClassFlags::from_bits_retain(flags);
            body.superclass = superclass;
            body.interfaces.push(interface)?;
        }
        Part::Field => body.fields.push(field(8, 6, None))?,
        Part::Value(flags, value) => {
            let constant = ConstantValue { name: 8, value };
            body.fields.push(field(flags, 10, Some(constant)))?;
        }
        Part::Bare(_) | Part::Code(_, _, _) | Part::Row(_) => {
            body.methods.push(method(alloc, part)?)?;
        }
    }
    Ok(())
}

/// The entries that a part names.
fn entries(alloc: Global, part: Part) -> Result<PoolBuilder, Fail> {
    let rows = match part {
        Part::Value(_, _) => WITH_VALUE,
        _ => ENTRIES,
    };
    let mut pool = PoolBuilder::new(alloc);
    if add(alloc, &mut pool, rows)? {
        Ok(pool)
    } else {
        Err("other numbers".into())
    }
}

/// The class file of E's class with this part.
fn made(alloc: Global, part: Part) -> Result<Result<ClassFile, ClassError>, Fail> {
    let mut body = e_body(alloc);
    add_part(alloc, &mut body, part)?;
    Ok(ClassFile::new(alloc, entries(alloc, part)?, body))
}

/// E's method as it is.
const MAIN: Part = Part::Code(9, 7, None);

/// Whether E's class with its method has E's bytes.
fn is_e(alloc: Global) -> Result<bool, Fail> {
    let file = made(alloc, MAIN)??;
    let bytes = write(alloc, &file)?;
    Ok(bytes.as_slice() == e(alloc)?.as_slice())
}

/// What a class is to come to.
#[derive(Clone, Copy)]
enum Answer {
    Made,
    Fault(FormatFault),
}

const ATTRIBUTE: Answer = Answer::Fault(FormatFault::Attribute);

const INDEX: Answer = Answer::Fault(FormatFault::Index);

/// What is refused is told as `read` tells it of the bytes.
const PARTS: &[(Part, Answer)] = &[
    // final and abstract, a superclass that is a text, and an interface with no number
    (Part::Class(0x0021, 4, 4), Answer::Made),
    (Part::Class(0x0410, 4, 4), Answer::Fault(FormatFault::Flags)),
    (Part::Class(0x0021, 3, 4), INDEX),
    (Part::Class(0x0021, 4, 0), INDEX),
    // no code: native, and neither native nor abstract
    (Part::Bare(0x0109), Answer::Made),
    (Part::Bare(9), ATTRIBUTE),
    // code: abstract, and an attribute of another name
    (MAIN, Answer::Made),
    (Part::Code(0x0401, 7, None), ATTRIBUTE),
    (Part::Code(9, 5, None), ATTRIBUTE),
    // new of a class, and of a text
    (Part::Code(9, 7, Some(4)), Answer::Made),
    (Part::Code(9, 7, Some(3)), INDEX),
    // rows for any class, for a class, and for a text
    (Part::Row(0), Answer::Made),
    (Part::Row(4), Answer::Made),
    (Part::Row(3), INDEX),
    (Part::Field, Answer::Fault(FormatFault::Name)),
    // the Integer; a field that isn't static, of whose bytes no value would be read; and a text
    (Part::Value(8, 9), Answer::Made),
    (Part::Value(0, 9), ATTRIBUTE),
    (Part::Value(8, 5), INDEX),
];

fn is_answer(made: &Result<ClassFile, ClassError>, wanted: Answer) -> bool {
    match (made, wanted) {
        (Ok(_), Answer::Made) => true,
        (Err(ClassError::Format(found)), Answer::Fault(fault)) => *found == fault,
        _ => false,
    }
}

/// Whether E's class with this part comes to this.
fn comes_to(alloc: Global, part: Part, wanted: Answer) -> Result<bool, Fail> {
    let made = made(alloc, part)?;
    Ok(is_answer(&made, wanted))
}

/// Why a pool of 65,534 ints takes no other one, if it takes the last one again.
fn refusal_of_full(alloc: Global) -> Option<AddError> {
    let mut pool = PoolBuilder::new(alloc);
    for value in 1..65535i32 {
        let _number = pool.add(Entry::Integer(value)).is_ok();
    }
    let full = pool.add(Entry::Integer(0)).err();
    if pool.add(Entry::Integer(65534)) == Ok(65534) {
        full
    } else {
        None
    }
}

/// Whether C9 is reported for that.
fn full_is_c9(alloc: Global) -> Result<bool, AllocError> {
    match refusal_of_full(alloc) {
        Some(full) => Ok(ClassError::from(full).to_string(alloc)?.as_str() == "C9"),
        None => Ok(false),
    }
}

/// Why no instruction, or a `goto` with this offset alone, is no code.
fn refusal(alloc: Global, offset: Option<u16>) -> Option<OpError> {
    match offset {
        Some(offset) => {
            let goto = [Instruction::Branch(Test::Always(Width::Narrow), offset)];
            Instructions::encode(alloc, &goto).err()
        }
        None => Instructions::encode(alloc, &[]).err(),
    }
}

#[test]
fn parts_are_made_or_refused(rt: HostRuntime) -> Result<(), Fail> {
    assert!(rt; is_e(rt.alloc())?, "E");
    for (part, wanted) in PARTS {
        assert!(rt; comes_to(rt.alloc(), *part, *wanted)?);
    }
    assert!(rt; full_is_c9(rt.alloc())?, "full");
    assert!(rt;
        refusal(rt.alloc(), Some(1)) == Some(OpError::Branch),
        "goto 1"
    );
    assert!(rt; refusal(rt.alloc(), Some(0)) == None, "goto 0");
    assert!(rt;
        refusal(rt.alloc(), None) == Some(OpError::Length),
        "nothing"
    );
    Ok(())
}
