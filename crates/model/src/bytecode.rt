//! Bytecode: the instructions of a class file's method, each at its pc.

use crate::instructions::Instruction;

/// An instruction of a class file (JVMS 4.7.3): branches name pcs, and what stands in the constant pool goes by its
/// number there.
pub type Instr = Instruction<u16, u16, u16, u16, u16, u16>;

/// An instruction at its pc, and the pc after it.
#[derive(Drop)]
pub struct Located {
    pub pc: u16,
    pub next: u16,
    pub instruction: Instr,
}
