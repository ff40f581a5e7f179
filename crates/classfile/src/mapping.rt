//! The one match that maps the operands of an instruction.
//!
//! What becomes of each operand is an expression, over the names that stand in brackets before it. The proof of a
//! function that uses one of these is of what is written out. So the file that uses one imports `Instruction`,
//! `Constant` or `ArrayOperation` itself.

/// An instruction with other operands: its constant, the target of its branch, the table of its switch, its field, its
/// array's operation, its class, or its method and how that is called.
#[macro_export]
macro_rules! mapped_instruction {
    (
        $instruction:expr;
        constant($constant:ident) => $constants:expr,
        target($target:ident) => $targets:expr,
        table($table:ident) => $tables:expr,
        lookup($lookup:ident) => $lookups:expr,
        field($field:ident) => $fields:expr,
        array($array:ident) => $arrays:expr,
        class($class:ident) => $classes:expr,
        method($invocation:ident, $method:ident) => $methods:expr $(,)?
    ) => {
        match $instruction {
            Instruction::Nop => Instruction::Nop,
            Instruction::Constant($constant) => Instruction::Constant($constants),
            Instruction::Local(access) => Instruction::Local(*access),
            Instruction::Stack(operation) => Instruction::Stack(*operation),
            Instruction::Number(operation) => Instruction::Number(*operation),
            Instruction::Branch(test, $target) => Instruction::Branch(*test, $targets),
            Instruction::TableSwitch($table) => Instruction::TableSwitch($tables),
            Instruction::LookupSwitch($lookup) => Instruction::LookupSwitch($lookups),
            Instruction::Return(kind) => Instruction::Return(*kind),
            Instruction::Static(access, $field) => Instruction::Static(*access, $fields),
            Instruction::Field(access, $field) => Instruction::Field(*access, $fields),
            Instruction::Array($array) => Instruction::Array($arrays),
            Instruction::Class(operation, $class) => Instruction::Class(*operation, $classes),
            Instruction::Invoke($invocation, $method) => Instruction::Invoke(*$invocation, $methods),
            Instruction::Throw => Instruction::Throw,
            Instruction::Monitor(operation) => Instruction::Monitor(*operation),
        }
    };
}

/// A constant with another int or long.
#[macro_export]
macro_rules! mapped_constant {
    ($constant:expr; int($int:ident) => $ints:expr, long($long:ident) => $longs:expr $(,)?) => {
        match $constant {
            Constant::Null => Constant::Null,
            Constant::SmallInt(n) => Constant::SmallInt(n),
            Constant::SmallLong(n) => Constant::SmallLong(n),
            Constant::Byte(z) => Constant::Byte(z),
            Constant::Short(z) => Constant::Short(z),
            Constant::Int(width, $int) => Constant::Int(width, $ints),
            Constant::Long($long) => Constant::Long($longs),
        }
    };
}

/// An array's operation with another class.
#[macro_export]
macro_rules! mapped_array {
    ($operation:expr; class($class:ident) => $classes:expr $(,)?) => {
        match $operation {
            ArrayOperation::New(primitive) => ArrayOperation::New(*primitive),
            ArrayOperation::NewOf($class) => ArrayOperation::NewOf($classes),
            ArrayOperation::Length => ArrayOperation::Length,
            ArrayOperation::Load(kind) => ArrayOperation::Load(*kind),
            ArrayOperation::Store(kind) => ArrayOperation::Store(*kind),
        }
    };
}
