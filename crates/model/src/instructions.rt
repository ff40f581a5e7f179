//! Instructions: what each does, and the form in which it was written.
//!
//! An instruction is generic in what its operands refer to, so that one type serves texts (labels and names), class
//! files (pcs and pool numbers), listings (pcs and names) and loaded programs (pcs and resolved places). The form is
//! part of the operand: `iload_3`, `iload 3` and `wide iload 3` are three values of `Local` with one index.

ghost use Rattle.std.specs.Prelude.{◌&&◌};
ghost use Rattle.std.specs.Cmp.{and_equiv, and_per, int_eq_equiv, on_equiv, on_per, partial_equiv_from_equiv};
ghost use Rattle.std.specs.Cmp.Lexicographic.{lists_equiv, lists_per, pointwise};
ghost use Rattle.std.specs.Ordering.{int_eq};

use crate::values::Kind;
use std::marker::Model;

/// The ints of `iconst_m1` to `iconst_5`.
#[derive(Clone, Copy, PartialEq, Eq)]
pub enum SmallInt {
    MinusOne,
    Zero,
    One,
    Two,
    Three,
    Four,
    Five,
}

/// The longs of `lconst_0` and `lconst_1`.
#[derive(Clone, Copy, PartialEq, Eq)]
pub enum SmallLong {
    Zero,
    One,
}

/// Whether an operand takes the narrow or the wide form: `ldc` or `ldc_w`, `goto` or `goto_w`.
#[derive(Clone, Copy, PartialEq, Eq)]
pub enum Width {
    Narrow,
    Wide,
}

/// Instructions that push a constant. `Int` and `Long` are what `ldc` and `ldc2_w` name: a number, or its place in the
/// constant pool.
#[derive(Clone, Copy, PartialEq, Eq)]
pub enum Constant<Int, Long> {
    /// `aconst_null`
    Null,
    /// `iconst_m1` to `iconst_5`
    SmallInt(SmallInt),
    /// `lconst_0`, `lconst_1`
    SmallLong(SmallLong),
    /// `bipush`
    Byte(i8),
    /// `sipush`
    Short(i16),
    /// `ldc`, `ldc_w`
    Int(Width, Int),
    /// `ldc2_w`
    Long(Long),
}

/// The locals that an opcode can name by itself, as `iload_0` to `iload_3`.
#[derive(Clone, Copy, PartialEq, Eq)]
pub enum FirstLocal {
    Zero,
    One,
    Two,
    Three,
}

/// The index of a local, in the form in which it was written.
#[derive(Clone, Copy, PartialEq, Eq)]
pub enum Local {
    /// in the opcode
    First(FirstLocal),
    /// in one byte
    Byte(u8),
    /// in two bytes, after `wide`
    Wide(u16),
}

/// The operands of `iinc`: a local and what is added to it.
#[derive(Clone, Copy, PartialEq, Eq)]
pub enum Increment {
    Byte(u8, i8),
    Wide(u16, i16),
}

/// Instructions that read or write a local.
#[derive(Clone, Copy, PartialEq, Eq)]
pub enum LocalAccess {
    Load(Kind, Local),
    Store(Kind, Local),
    Increment(Increment),
}

/// Instructions that rearrange the operand stack.
#[derive(Clone, Copy, PartialEq, Eq)]
pub enum StackOperation {
    Pop,
    Pop2,
    Dup,
    DupX1,
    DupX2,
    Dup2,
    Dup2X1,
    Dup2X2,
    Swap,
}

/// The two kinds of number.
#[derive(Clone, Copy, PartialEq, Eq)]
pub enum NumberKind {
    Int,
    Long,
}

/// Operators on two numbers. The right operand of a shift is an int.
#[derive(Clone, Copy, PartialEq, Eq)]
pub enum Operator {
    Add,
    Sub,
    Mul,
    Div,
    Rem,
    Shl,
    Shr,
    Ushr,
    And,
    Or,
    Xor,
}

/// Conversions of one number.
#[derive(Clone, Copy, PartialEq, Eq)]
pub enum Conversion {
    IntToLong,
    LongToInt,
    IntToByte,
    IntToChar,
    IntToShort,
}

/// Instructions on numbers.
#[derive(Clone, Copy, PartialEq, Eq)]
pub enum NumberOperation {
    Binary(NumberKind, Operator),
    Negate(NumberKind),
    Convert(Conversion),
    /// `lcmp`
    CompareLongs,
}

/// How two ints compare, signed.
#[derive(Clone, Copy, PartialEq, Eq)]
pub enum Comparison {
    Equal,
    NotEqual,
    Less,
    GreaterOrEqual,
    Greater,
    LessOrEqual,
}

/// Whether two references are one.
#[derive(Clone, Copy, PartialEq, Eq)]
pub enum Identity {
    Same,
    Different,
}

/// When a branch is taken.
#[derive(Clone, Copy, PartialEq, Eq)]
pub enum Test {
    /// `goto`, `goto_w`
    Always(Width),
    /// `ifeq` and its kin: an int against 0
    Zero(Comparison),
    /// `if_icmpeq` and its kin
    Ints(Comparison),
    /// `if_acmpeq`, `if_acmpne`
    Refs(Identity),
    /// `ifnull`, `ifnonnull`: a reference against null
    Null(Identity),
}

/// The operands of `tableswitch`: a target for each int from `low` up, and one for all others.
#[derive(Drop)]
pub struct TableSwitch<Target> {
    pub low: i32,
    pub targets: Vec<Target>,
    pub default: Target,
}

impl<Target> Model for TableSwitch<Target> {
    ghost use Rattle.model.specs.Switches.{Table};

    ghost Value = { Table Target };

    ghost view = { λ a. record { low = a.low; targets = a.targets.items; default = a.default } };
}

impl<Target: PartialEq> PartialEq for TableSwitch<Target> {
    ghost eq = { λ a b. int_eq a.low b.low && (pointwise Target.eq a.targets b.targets
        && Target.eq a.default b.default) };

    ghost laws = { and_per (on_per (λ a. a.low) (partial_equiv_from_equiv int_eq_equiv))
        (and_per (on_per (λ a. a.targets) (lists_per Target.laws)) (on_per (λ a. a.default) Target.laws)) };

    fn eq(&self, other: &Self) -> bool {
        self.low == other.low && self.targets == other.targets && self.default == other.default
    }
}

impl<Target: Eq> Eq for TableSwitch<Target> {
    ghost laws = { and_equiv (on_equiv (λ a. a.low) int_eq_equiv)
        (and_equiv (on_equiv (λ a. a.targets) (lists_equiv Target.Eq.laws))
        (on_equiv (λ a. a.default) Target.Eq.laws)) };
}

/// The operands of `lookupswitch`: a target for each key, and one for all other ints.
#[derive(Drop)]
pub struct LookupSwitch<Target> {
    pub pairs: Vec<(i32, Target)>,
    pub default: Target,
}

impl<Target> Model for LookupSwitch<Target> {
    ghost use Rattle.model.specs.Switches.{Lookup};

    ghost Value = { Lookup Target };

    ghost view = { λ a. record { pairs = a.pairs.items; default = a.default } };
}

impl<Target: PartialEq> PartialEq for LookupSwitch<Target> {
    ghost eq = { λ a b. pointwise (λ p q. int_eq p.0 q.0 && Target.eq p.1 q.1) a.pairs b.pairs
        && Target.eq a.default b.default };

    ghost laws = { and_per
        (on_per (λ a. a.pairs) (lists_per (and_per (on_per (λ p. p.0) (partial_equiv_from_equiv int_eq_equiv))
        (on_per (λ p. p.1) Target.laws))))
        (on_per (λ a. a.default) Target.laws) };

    fn eq(&self, other: &Self) -> bool {
        self.pairs == other.pairs && self.default == other.default
    }
}

impl<Target: Eq> Eq for LookupSwitch<Target> {
    ghost laws = { and_equiv
        (on_equiv (λ a. a.pairs) (lists_equiv (and_equiv (on_equiv (λ p. p.0) int_eq_equiv)
        (on_equiv (λ p. p.1) Target.Eq.laws))))
        (on_equiv (λ a. a.default) Target.Eq.laws) };
}

/// Whether a static or a field is read or written.
#[derive(Clone, Copy, PartialEq, Eq)]
pub enum Access {
    Get,
    Put,
}

/// The element types of `newarray`.
#[derive(Clone, Copy, PartialEq, Eq)]
pub enum Primitive {
    Char,
    Byte,
    Short,
    Int,
    Long,
}

/// What the opcode of an array's load or store says of the elements.
#[derive(Clone, Copy, PartialEq, Eq)]
pub enum ElementKind {
    Int,
    Long,
    Ref,
    Byte,
    Char,
    Short,
}

/// Instructions on arrays. `Class` is the element class of `anewarray`.
#[derive(PartialEq, Eq, Drop)]
pub enum ArrayOperation<Class> {
    /// `newarray`
    New(Primitive),
    /// `anewarray`
    NewOf(Class),
    Length,
    Load(ElementKind),
    Store(ElementKind),
}

/// Instructions that name a class.
#[derive(Clone, Copy, PartialEq, Eq)]
pub enum ClassOperation {
    New,
    CheckCast,
    InstanceOf,
}

/// The four ways to call a method. `invokeinterface` has a count of argument units.
#[derive(Clone, Copy, PartialEq, Eq)]
pub enum Invocation {
    Virtual,
    Special,
    Static,
    Interface(u8),
}

/// Instructions on an object's monitor.
#[derive(Clone, Copy, PartialEq, Eq)]
pub enum MonitorOperation {
    Enter,
    Exit,
}

/// An instruction (JVMS 6.5), by families. `Target` is what a branch names, `Int` and `Long` what `ldc` and `ldc2_w`
/// name, and `Field`, `Method` and `Class` what the instructions on these name.
#[derive(PartialEq, Eq, Drop)]
pub enum Instruction<Target, Int, Long, Field, Method, Class> {
    Nop,
    Constant(Constant<Int, Long>),
    Local(LocalAccess),
    Stack(StackOperation),
    Number(NumberOperation),
    Branch(Test, Target),
    TableSwitch(TableSwitch<Target>),
    LookupSwitch(LookupSwitch<Target>),
    /// a return of a value of this kind, or of none
    Return(Option<Kind>),
    Static(Access, Field),
    Field(Access, Field),
    Array(ArrayOperation<Class>),
    Class(ClassOperation, Class),
    Invoke(Invocation, Method),
    Throw,
    Monitor(MonitorOperation),
}
