//! Tests by bytes that `javap` has read, and by hand.

use crate::class_bytes::hex;
use model::instructions::{
    Constant, FirstLocal, Instruction, Local, LocalAccess, LookupSwitch, TableSwitch, Test, Width,
};
use model::values::Kind;
use opcodes::{Code, Instr, OpError, decode, encode, one_spelling};
use std::alloc::{AllocError, Global};

/// The code of a method with each opcode once, and each form after `wide`: constants first, then locals and so on, as
/// `javap -c` lists it.
const CODE: &str = "
    00 01 02 03 04 05 06 07 08 09 0a 1a 1b 1c 1d 1e 1f 20 21 2a 2b 2c 2d 2e 2f 32 33 34 35 3b 3c 3d 3e 3f 40
    41 42 4b 4c 4d 4e 4f 50 53 54 55 56 57 58 59 5a 5b 5c 5d 5e 5f 60 61 64 65 68 69 6c 6d 70 71 74 75 78 79
    7a 7b 7c 7d 7e 7f 80 81 82 83 85 88 91 92 93 94 ac ad b0 b1 be bf c2 c3 1085 11fe0c 120e 13000e 14000f
    15c8 16c8 19c8 36c8 37c8 3ac8 8407ff 990000 9a0000 9b0000 9c0000 9d0000 9e0000 9f0000 a00000 a10000
    a20000 a30000 a40000 a50000 a60000 a70000 c60000 c70000 c800000000 b20008 b30008 b40008 b50008 b6000c
    b7000c b8000c b9000d0100 bb0002 bc05 bc08 bc09 bc0a bc0b bd0002 c00002 c10002 c415012c c416012c c419012c
    c436012c c437012c c43a012c c484012cfe0c aa00000000000000ffffffff00000001000000000000000000000000
    ab0000000000000000000002fffffffb000000000000000900000000";

/// Where `javap -c` says that its instructions stand.
const PCS: &[u16] = &[
    0, 1, 2, 3, 4, 5, 6, 7, 8, 9, 10, 11, 12, 13, 14, 15, 16, 17, 18, 19, 20, 21, 22, 23, 24, 25,
    26, 27, 28, 29, 30, 31, 32, 33, 34, 35, 36, 37, 38, 39, 40, 41, 42, 43, 44, 45, 46, 47, 48, 49,
    50, 51, 52, 53, 54, 55, 56, 57, 58, 59, 60, 61, 62, 63, 64, 65, 66, 67, 68, 69, 70, 71, 72, 73,
    74, 75, 76, 77, 78, 79, 80, 81, 82, 83, 84, 85, 86, 87, 88, 89, 90, 91, 92, 93, 94, 96, 99,
    101, 104, 107, 109, 111, 113, 115, 117, 119, 122, 125, 128, 131, 134, 137, 140, 143, 146, 149,
    152, 155, 158, 161, 164, 167, 170, 173, 178, 181, 184, 187, 190, 193, 196, 199, 204, 207, 209,
    211, 213, 215, 217, 220, 223, 226, 230, 234, 238, 242, 246, 250, 256, 284,
];

/// The code as it is written again.
fn again(alloc: Global, code: Code) -> Result<Vec<u8>, OpError> {
    let mut instructions = Vec::new(alloc);
    for item in code.into_items() {
        instructions.push(item.instruction)?;
    }
    encode(alloc, &instructions)
}

fn has_pcs(code: &Code, pcs: &[u16]) -> bool {
    let mut pcs = pcs.iter();
    for item in code.as_slice() {
        if pcs.next() != Some(&item.pc) {
            return false;
        }
    }
    pcs.next().is_none()
}

/// Whether bytes are read as code with these pcs, and written again.
fn come_back(alloc: Global, bytes: &[u8], pcs: &[u16]) -> Result<bool, OpError> {
    let code = decode(alloc, bytes)?;
    Ok(has_pcs(&code, pcs) && again(alloc, code)?.as_slice() == bytes)
}

/// Whether the first instructions load ints from these locals.
fn loads(code: &Code, locals: &[Local]) -> bool {
    let mut locals = locals.iter();
    for item in code.as_slice() {
        if let Instruction::Local(LocalAccess::Load(Kind::Int, local)) = &item.instruction {
            if locals.next() != Some(local) {
                return false;
            }
        }
    }
    locals.next().is_none()
}

/// `wide iload 1` isn't `iload 1`, and that isn't `iload_1`.
const FORMS: [Local; 3] = [
    Local::Wide(1),
    Local::Byte(1),
    Local::First(FirstLocal::One),
];

fn forms_stay_apart(alloc: Global) -> Result<bool, OpError> {
    let code = decode(alloc, &[196, 21, 0, 1, 21, 1, 27])?;
    Ok(loads(&code, &FORMS))
}

/// `goto` a pc.
fn goto(pc: u16) -> Instr {
    Instruction::Branch(Test::Always(Width::Narrow), pc)
}

fn table(alloc: Global, low: i32, ways: usize) -> Result<Instr, AllocError> {
    Ok(Instruction::TableSwitch(TableSwitch {
        low,
        targets: vec![in alloc; 0u16; ways]?,
        default: 0,
    }))
}

/// A switch whose keys fall.
fn falling(alloc: Global) -> Result<Instr, AllocError> {
    Ok(Instruction::LookupSwitch(LookupSwitch {
        pairs: vec![in alloc; (5, 0), (2, 0)]?,
        default: 0,
    }))
}

/// An instruction that alone has no spelling.
fn faulty(alloc: Global, name: &str) -> Result<Instr, AllocError> {
    match name {
        "ldc past a byte" => Ok(Instruction::Constant(Constant::Int(Width::Narrow, 256))),
        "a way past two bytes" => Ok(goto(40000)),
        "a way to no instruction" => Ok(goto(1)),
        "a table without ways" => table(alloc, 0, 0),
        "a table past the greatest int" => table(alloc, i32::MAX, 2),
        _ => falling(alloc),
    }
}

/// Whether an instruction alone has no spelling, for this reason.
fn is_unwritten(alloc: Global, name: &str, error: OpError) -> Result<bool, AllocError> {
    let instruction = faulty(alloc, name)?;
    Ok(encode(alloc, &[instruction]).err() == Some(error))
}

/// The names of such instructions.
const FAULTY: &[(&str, OpError)] = &[
    ("ldc past a byte", OpError::Operand),
    ("a way past two bytes", OpError::Operand),
    ("a way to no instruction", OpError::Branch),
    ("a table without ways", OpError::Switch),
    ("a table past the greatest int", OpError::Switch),
    ("keys that fall", OpError::Switch),
];

/// Whether these errors, one after another, are printed so.
fn codes_are_reported(alloc: Global) -> Result<bool, AllocError> {
    let (opcode, operand, branch) = (OpError::Opcode, OpError::Operand, OpError::Branch);
    let (switch, length, memory) = (OpError::Switch, OpError::Length, OpError::Memory);
    let reported = format!(in alloc; "{opcode} {operand} {branch} {switch} {length} {memory}")?;
    Ok(reported.as_str() == "O1 O2 O3 O4 O5 O6")
}

/// Whether each opcode is read where `javap` sees it, and written again.
fn opcodes_come_back(alloc: Global) -> Result<bool, OpError> {
    let bytes = hex(alloc, CODE)?;
    come_back(alloc, &bytes, PCS)
}

#[test]
fn code_is_read_and_written(rt: HostRuntime) {
    assert!(rt; opcodes_come_back(rt.alloc()) == Ok(true), "each opcode");
    assert!(rt; forms_stay_apart(rt.alloc()) == Ok(true), "forms");
    one_spelling();
}

#[test]
fn instructions_are_refused(rt: HostRuntime) {
    for (name, error) in FAULTY {
        assert!(rt;
            is_unwritten(rt.alloc(), name, *error) == Ok(true),
            "{name}"
        );
    }
    assert!(rt;
        encode(rt.alloc(), &[]).err() == Some(OpError::Length),
        "nothing"
    );
    assert!(rt; codes_are_reported(rt.alloc()) == Ok(true), "codes");
}
