//! Access flags of classes, fields and methods (JVMS 4.1, 4.5, 4.6), and the words that texts have for them.
ghost use Rattle.std.specs.Prelude.{⊤, [], ◌∷◌, codes};

use bitflags::{Flag, Flags, bitflag_items};

/// The words of a class's flags in a text, by rising bit.
pub const CLASS_FLAGS: [(&str, u16); 3] = [
    ("public", 0x0001),
    ("final", 0x0010),
    ("abstract", 0x0400),
];

/// The words of an interface's flags, besides INTERFACE and ABSTRACT, which its directive stands for.
pub const INTERFACE_FLAGS: [(&str, u16); 1] = [("public", 0x0001)];

/// The words of a field's flags, by rising bit.
pub const FIELD_FLAGS: [(&str, u16); 7] = [
    ("public", 0x0001),
    ("private", 0x0002),
    ("protected", 0x0004),
    ("static", 0x0008),
    ("final", 0x0010),
    ("volatile", 0x0040),
    ("transient", 0x0080),
];

/// The words of a method's flags, by rising bit.
pub const METHOD_FLAGS: [(&str, u16); 8] = [
    ("public", 0x0001),
    ("private", 0x0002),
    ("protected", 0x0004),
    ("static", 0x0008),
    ("final", 0x0010),
    ("synchronized", 0x0020),
    ("native", 0x0100),
    ("abstract", 0x0400),
];

/// A class's flags. A listing leaves SUPER out.
#[derive(Clone, Copy, Debug, PartialEq, Eq)]
pub struct ClassFlags(u16);

bitflag_items! {
    impl ClassFlags: u16 {
        const PUBLIC = 0x0001;
        const FINAL = 0x0010;
        const SUPER = 0x0020;
        const INTERFACE = 0x0200;
        const ABSTRACT = 0x0400;
    }
}

impl Flags for ClassFlags {
    type Bits = u16;

    ghost exact = { ⊤ };

    ghost table = { (codes "PUBLIC", 1) ∷ (codes "FINAL", 16) ∷ (codes "SUPER", 32) ∷ (codes "INTERFACE", 512)
        ∷ (codes "ABSTRACT", 1024) ∷ [] };

    ghost set_of = { λ flags. flags.0 };

    fn flags<'a>() -> &'a [Flag<ClassFlags>] {
        ClassFlags::FLAGS
    }

    fn bits(&self) -> u16 {
        self.0
    }

    fn from_bits_retain(bits: u16) -> ClassFlags {
        ClassFlags(bits)
    }
}

/// A field's flags.
#[derive(Clone, Copy, Debug, PartialEq, Eq)]
pub struct FieldFlags(u16);

bitflag_items! {
    impl FieldFlags: u16 {
        const PUBLIC = 0x0001;
        const PRIVATE = 0x0002;
        const PROTECTED = 0x0004;
        const STATIC = 0x0008;
        const FINAL = 0x0010;
        const VOLATILE = 0x0040;
        const TRANSIENT = 0x0080;
    }
}

impl Flags for FieldFlags {
    type Bits = u16;

    ghost exact = { ⊤ };

    ghost table = { (codes "PUBLIC", 1) ∷ (codes "PRIVATE", 2) ∷ (codes "PROTECTED", 4) ∷ (codes "STATIC", 8)
        ∷ (codes "FINAL", 16) ∷ (codes "VOLATILE", 64) ∷ (codes "TRANSIENT", 128) ∷ [] };

    ghost set_of = { λ flags. flags.0 };

    fn flags<'a>() -> &'a [Flag<FieldFlags>] {
        FieldFlags::FLAGS
    }

    fn bits(&self) -> u16 {
        self.0
    }

    fn from_bits_retain(bits: u16) -> FieldFlags {
        FieldFlags(bits)
    }
}

/// A method's flags.
#[derive(Clone, Copy, Debug, PartialEq, Eq)]
pub struct MethodFlags(u16);

bitflag_items! {
    impl MethodFlags: u16 {
        const PUBLIC = 0x0001;
        const PRIVATE = 0x0002;
        const PROTECTED = 0x0004;
        const STATIC = 0x0008;
        const FINAL = 0x0010;
        const SYNCHRONIZED = 0x0020;
        const NATIVE = 0x0100;
        const ABSTRACT = 0x0400;
    }
}

impl Flags for MethodFlags {
    type Bits = u16;

    ghost exact = { ⊤ };

    ghost table = { (codes "PUBLIC", 1) ∷ (codes "PRIVATE", 2) ∷ (codes "PROTECTED", 4) ∷ (codes "STATIC", 8)
        ∷ (codes "FINAL", 16) ∷ (codes "SYNCHRONIZED", 32) ∷ (codes "NATIVE", 256) ∷ (codes "ABSTRACT", 1024) ∷ [] };

    ghost set_of = { λ flags. flags.0 };

    fn flags<'a>() -> &'a [Flag<MethodFlags>] {
        MethodFlags::FLAGS
    }

    fn bits(&self) -> u16 {
        self.0
    }

    fn from_bits_retain(bits: u16) -> MethodFlags {
        MethodFlags(bits)
    }
}
