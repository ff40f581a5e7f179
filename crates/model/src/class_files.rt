//! Class files (JVMS 4): what their bytes spell, with pool numbers in place of names.

use crate::flags::FieldFlags;
use crate::names::Name;
use std::fmt;

/// What is wrong with bytes that are to be a class file. `Display` writes the codes that users see.
#[derive(Clone, Copy, Debug, PartialEq, Eq)]
pub enum FormatFault {
    /// C1: the bytes don't begin as a class file.
    Magic,
    /// C2: the version isn't 49.0.
    Version,
    /// C3: the bytes end too soon.
    Short,
    /// C4: bytes are left.
    Trailing,
    /// C5: an entry of the pool has a tag outside the profile.
    Tag,
    /// C6: a number names no entry of the pool, or one of another kind than is wanted there.
    Index,
    /// C7: a name or a descriptor isn't well formed.
    Name,
    /// C8: an attribute has a wrong length or place, or is there too often or not at all.
    Attribute,
    /// C11: access flags that can't stand together, or not there.
    Flags,
}

impl fmt::Display for FormatFault {
    fn fmt<W: fmt::Write>(&self, f: &mut fmt::Formatter<W>) -> fmt::Result {
        f.write_str(match self {
            FormatFault::Magic => "C1",
            FormatFault::Version => "C2",
            FormatFault::Short => "C3",
            FormatFault::Trailing => "C4",
            FormatFault::Tag => "C5",
            FormatFault::Index => "C6",
            FormatFault::Name => "C7",
            FormatFault::Attribute => "C8",
            FormatFault::Flags => "C11",
        })
    }
}

/// An entry of a constant pool (JVMS 4.4). It names other entries by their numbers: a class's name, a member's class
/// and its name with its descriptor, and these two.
#[derive(PartialEq, Eq, Hash, Drop)]
pub enum Entry {
    Utf8(Name),
    Integer(i32),
    Long(i64),
    Class(u16),
    Fieldref(u16, u16),
    Methodref(u16, u16),
    InterfaceMethodref(u16, u16),
    NameAndType(u16, u16),
}

/// A ConstantValue attribute (JVMS 4.7.2): the numbers of its name and of the value.
#[derive(Clone, Copy, Debug, PartialEq, Eq)]
pub struct ConstantValue {
    pub name: u16,
    pub value: u16,
}

/// A field of a class file (JVMS 4.5): its flags, the numbers of its name and its descriptor, and the value that it
/// begins with. Other attributes aren't kept.
#[derive(Clone, Copy, Debug, PartialEq, Eq)]
pub struct FieldEntry {
    pub flags: FieldFlags,
    pub name: u16,
    pub descriptor: u16,
    pub constant: Option<ConstantValue>,
}
