//! What stands after an opcode that has operands.

use model::instructions::{Access, ClassOperation, Test};
use model::values::Kind;

/// What a constant-pool index of two bytes, with nothing after it, is taken for.
#[derive(Clone, Copy)]
pub enum Named {
    /// `ldc_w`
    Int,
    /// `ldc2_w`
    Long,
    Static(Access),
    Field(Access),
    InvokeVirtual,
    InvokeSpecial,
    InvokeStatic,
    /// `anewarray`
    NewArray,
    Class(ClassOperation),
}

/// What stands after an opcode that has operands.
#[derive(Clone, Copy)]
pub enum Layout {
    /// `bipush`
    Byte,
    /// `sipush`
    Short,
    /// `ldc`
    NarrowInt,
    /// a local in one byte
    Load(Kind),
    Store(Kind),
    /// a local in one byte, and a signed byte
    Increment,
    Branch(Test),
    Named(Named),
    InvokeInterface,
    /// `newarray`
    NewArray,
    TableSwitch,
    LookupSwitch,
    Wide,
}
