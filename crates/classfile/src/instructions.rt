//! The code of a method as bytes and as instructions.

ghost use Rattle.std.specs.Prelude.{◌≡◌, ℕ, List, IfOk, MatchResult};
ghost use Rattle.model.specs.Bytecode.{IsCode, instructions_of};
ghost use Rattle.model.specs.declared.bytecode.Located.{Located as Placed};
ghost use Rattle.opcodes.specs.declared.error.OpError.TheVariants as op;
ghost use Rattle.classfile.specs.Reading.Answers.{Answers, Tells};
ghost use Rattle.classfile.specs.Reading.Instructions.{decoded as decoding, as_format};
ghost use Rattle.classfile.specs.Writing.{code_bytes};

use crate::error::ClassError;
use model::names::Name;
use opcodes::{Code, Instr, OpError, decode, encode};
use std::alloc::{AllocError, Global};
use std::marker::Model;

/// The name and the descriptor of a method, to tell it by.
#[derive(Clone, Copy)]
pub struct Signature<'a> {
    pub name: &'a [u8],
    pub descriptor: &'a [u8],
}

/// The instructions of a method, kept as their bytes. A contract sees the instructions.
#[derive(Drop)]
pub struct Instructions {
    bytes: Vec<u8>,
}

impl Model for Instructions {
    ghost use Rattle.std.specs.Prelude.{List};
    ghost use Rattle.model.specs.Bytecode.{IsCode};
    ghost use Rattle.model.specs.declared.bytecode.Located.{Located};
    ghost use Rattle.classfile.specs.Reading.Instructions.{items_in};

    ghost Value = { List Located };

    ghost view = { λ a. items_in a.bytes.items };

    ghost invariant = { λ a. IsCode a.bytes.items (items_in a.bytes.items) };
}

/// A method's code is faulty. Want of memory is reported alone, also where there is none for the method's name.
fn faulty(alloc: Global, method: Signature, fault: OpError) -> ClassError
    ensures { Tells fault result }
{
    match fault {
        OpError::Memory => return ClassError::Memory,
        _ => {}
    }
    let Ok(name) = Name::copy_of(alloc, method.name) else {
        return ClassError::Memory;
    };
    let Ok(descriptor) = Name::copy_of(alloc, method.descriptor) else {
        return ClassError::Memory;
    };
    ClassError::Code {
        name,
        descriptor,
        fault,
    }
}

impl Instructions {
    /// The instructions that the bytes are the code of, as they are kept and decoded. Faulty code is reported with its
    /// method.
    pub fn read(
        alloc: Global,
        method: Signature,
        bytes: &[u8],
    ) -> Result<(Instructions, Code), ClassError>
        ensures kept { Answers (λ x. x.0) result (as_format (decoding bytes.now)) }
        ensures same { IfOk result (λ x. x.1 ≡ x.0) }
    {
        match decode(alloc, bytes) {
            Ok(code) => {
                let bytes = Vec::from_slice(alloc, bytes)?;
                Ok((Instructions { bytes }, code))
            }
            Err(fault) => Err(faulty(alloc, method, fault)),
        }
    }

    /// The instructions that stand one after another from pc 0 on. Refused as by `opcodes::encode`.
    pub fn encode(alloc: Global, instructions: &[Instr]) -> Result<Instructions, OpError>
        // They have their pcs, and are what was given.
        ensures found { IfOk result (λ code. instructions_of code ≡ instructions.now) }
        // They are the code of some bytes.
        ensures code { IfOk result (λ code. (bytes : List ℕ) × IsCode bytes code) }
        // Where instructions have code, it is given, unless memory runs out.
        ensures only { (bytes : List ℕ) (items : List Placed) → IsCode bytes items
            → instructions_of items ≡ instructions.now
            → MatchResult result (λ code. code ≡ items) (λ e. e ≡ op.Memory) }
    {
        let bytes = encode(alloc, instructions)?;
        Ok(Instructions { bytes })
    }

    /// The bytes of the instructions.
    pub fn bytes(&self) -> &[u8]
        ensures { result.now ≡ code_bytes self.now }
    {
        self.bytes.as_slice()
    }

    /// The instructions, in order, each at its pc. `AllocError` where memory runs out, and for nothing else.
    pub fn decoded(&self, alloc: Global) -> Result<Code, AllocError>
        ensures same { IfOk result (λ code. code ≡ self.now) }
        // They are code.
        ensures code { IsCode (code_bytes self.now) self.now }
    {
        match decode(alloc, self.bytes.as_slice()) {
            Ok(code) => Ok(code),
            Err(_) => Err(AllocError),
        }
    }
}
