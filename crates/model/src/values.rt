//! Values, their kinds, and the entries of a frame's locals.

/// What an instruction wants of a value (JVMS 2.11.1).
#[derive(Clone, Copy, Debug, PartialEq, Eq)]
pub enum Kind {
    Int,
    Long,
    Ref,
}

/// A value on an operand stack, in a local, a field, a static or an array (JVMS 2.3, 2.4). A reference is null or a
/// number: the number of a cell in the machine, the number of a birth in the ideal world.
#[derive(Clone, Copy, Debug, PartialEq, Eq)]
pub enum Value {
    Int(i32),
    Long(i64),
    Ref(Option<u32>),
}

/// What stands in one local (JVMS 2.6.1). A long takes two: its value, and the upper half after it.
#[derive(Clone, Copy, Debug, PartialEq, Eq)]
pub enum Entry {
    Unset,
    Holds(Value),
    UpperHalf,
}

/// What of an int a field, a static or an array element keeps, by its descriptor: B, C, S or I (JVMS 2.11.1, 4.3.2).
#[derive(Clone, Copy, Debug, PartialEq, Eq)]
pub enum IntType {
    Byte,
    Char,
    Short,
    Int,
}
