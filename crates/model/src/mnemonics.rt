//! What a mnemonic of the text says before its operands.

use crate::instructions::{
    Access, ClassOperation, ElementKind, Invocation, LocalAccess, MonitorOperation,
    NumberOperation, SmallInt, SmallLong, StackOperation, Test, Width,
};
use crate::values::Kind;

/// The mnemonics after which a local stands, and in front of which `wide` may stand.
#[derive(Clone, Copy, PartialEq, Eq)]
pub enum LocalMnemonic {
    /// `iload` and its kin
    Load(Kind),
    /// `istore` and its kin
    Store(Kind),
    /// `iinc`: a local and a number
    Increment,
}

/// A mnemonic by its family, which says what operands follow it.
#[derive(Clone, Copy, PartialEq, Eq)]
pub enum Mnemonic {
    Nop,
    /// `aconst_null`
    Null,
    /// `iconst_m1` to `iconst_5`
    SmallInt(SmallInt),
    /// `lconst_0`, `lconst_1`
    SmallLong(SmallLong),
    /// `bipush`: a number of 8 bits
    Byte,
    /// `sipush`: a number of 16 bits
    Short,
    /// `ldc`, `ldc_w`: a number of 32 bits
    Int(Width),
    /// `ldc2_w`: a number of 64 bits
    Long,
    /// a local after the mnemonic
    Local(LocalMnemonic),
    /// a local that the mnemonic names, as `iload_0`
    FirstLocal(LocalAccess),
    /// an operation on the operand stack, as `dup`
    Stack(StackOperation),
    /// an operation on numbers, as `iadd`
    Number(NumberOperation),
    /// a branch, as `goto`: a label
    Branch(Test),
    /// a return of a value of this kind, or of none
    Return(Option<Kind>),
    /// `getstatic`, `putstatic`: a class and a field, and its descriptor
    Static(Access),
    /// `getfield`, `putfield`: a class and a field, and its descriptor
    Field(Access),
    /// `newarray`: a primitive type
    NewArray,
    /// `anewarray`: the class of the elements
    NewArrayOf,
    ArrayLength,
    /// `iaload` and its kin
    ArrayLoad(ElementKind),
    /// `iastore` and its kin
    ArrayStore(ElementKind),
    /// `new`, `checkcast`, `instanceof`: a class
    Class(ClassOperation),
    /// a call, as `invokestatic`: a class, a method and its descriptor
    Invoke(Invocation),
    /// `invokeinterface`: a class, a method and its descriptor, and the units of the arguments
    InvokeInterface,
    /// `athrow`
    Throw,
    /// `monitorenter`, `monitorexit`
    Monitor(MonitorOperation),
}
