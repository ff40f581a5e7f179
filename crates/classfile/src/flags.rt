//! Access flags by name (JVMS 4.1, 4.5, 4.6).

pub const PUBLIC: u16 = 0x0001;

pub const STATIC: u16 = 0x0008;

pub const FINAL: u16 = 0x0010;

pub const SUPER: u16 = 0x0020;

pub const NATIVE: u16 = 0x0100;

pub const INTERFACE: u16 = 0x0200;

pub const ABSTRACT: u16 = 0x0400;

/// A class's flags but SUPER.
pub const BUT_SUPER: u16 = 0xffdf;

/// What no class has: bits other than PUBLIC, FINAL, SUPER, INTERFACE and ABSTRACT.
pub const OF_NO_CLASS: u16 = 0xf9ce;

/// What no field has: bits other than PUBLIC, PRIVATE, PROTECTED, STATIC, FINAL, VOLATILE and TRANSIENT.
pub const OF_NO_FIELD: u16 = 0xff20;

/// What no method has: bits other than PUBLIC, PRIVATE, PROTECTED, STATIC, FINAL, SYNCHRONIZED, NATIVE and ABSTRACT.
pub const OF_NO_METHOD: u16 = 0xfac0;

/// What each field of an interface has: PUBLIC, STATIC and FINAL.
pub const OF_INTERFACE_FIELD: u16 = 0x0019;

/// What no abstract method has: PRIVATE, STATIC, FINAL, SYNCHRONIZED and NATIVE.
pub const NEVER_ABSTRACT: u16 = 0x013a;
