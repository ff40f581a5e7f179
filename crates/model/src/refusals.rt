//! Why a list of listings is no program.

use std::fmt;

/// What keeps a list of listings from being a program. The number after the L is what users see.
#[derive(Clone, Copy, Debug, PartialEq, Eq)]
pub enum LoadRule {
    /// L1: two classes with one name.
    ClassTwice,
    /// L2: a superclass or superinterface that isn't there.
    MissingSuperclass,
    /// L3: a class above itself.
    Cycle,
    /// L4: a superclass that is an interface or final, or a superinterface that is no interface.
    WrongSuperclass,
    /// L5: two fields, or two methods, with one name and descriptor.
    MemberTwice,
    /// L6: a reference to a class, field or method that can't be resolved.
    UnresolvedReference,
    /// L7: an exception row with wrong bounds, a wrong handler, or a class that nothing throws.
    BadExceptionRow,
    /// L8: a limit of the machine is passed.
    LimitPassed,
    /// L9: the first class declares no static `main()V`.
    NoMain,
    /// L10: a member that the machine doesn't run.
    RefusedMember,
    /// L11: the name of one of the machine's own classes.
    BuiltinName,
}

impl fmt::Display for LoadRule {
    fn fmt<W: fmt::Write>(&self, f: &mut fmt::Formatter<W>) -> fmt::Result {
        let number: u8 = match self {
            LoadRule::ClassTwice => 1,
            LoadRule::MissingSuperclass => 2,
            LoadRule::Cycle => 3,
            LoadRule::WrongSuperclass => 4,
            LoadRule::MemberTwice => 5,
            LoadRule::UnresolvedReference => 6,
            LoadRule::BadExceptionRow => 7,
            LoadRule::LimitPassed => 8,
            LoadRule::NoMain => 9,
            LoadRule::RefusedMember => 10,
            LoadRule::BuiltinName => 11,
        };
        write!(f, "L{number}")
    }
}
