//! Access flags in front of a name.
ghost use Rattle.std.specs.Prelude.{◌≡◌, ◌==◌, ℕ, List, map, None, Some, MatchResult};
ghost use Rattle.std.specs.List.{list_all};
ghost use Rattle.model.specs.Texts.Flags.{with_flag, flags_and_word, class_flags_agree, field_flags_agree};
ghost use Rattle.model.specs.Texts.Flags.{method_flags_agree, has};
ghost use Rattle.model.specs.Texts.Tables.{named};

use crate::errors::Fault;
use crate::tables::named;
use jasmin_words::words::Words;

/// JVMS 4.1, 4.5, 4.6
pub const PUBLIC: u16 = 0x0001;

pub const STATIC: u16 = 0x0008;

pub const FINAL: u16 = 0x0010;

pub const INTERFACE: u16 = 0x0200;

pub const ABSTRACT: u16 = 0x0400;

/// What a text's interface has: INTERFACE and ABSTRACT.
pub const OF_INTERFACE: u16 = 0x0600;

/// A method with one of these, NATIVE and ABSTRACT, has no code.
pub const WITHOUT_CODE: u16 = 0x0500;

/// What each field of an interface has: PUBLIC, STATIC and FINAL.
const OF_INTERFACE_FIELD: u16 = 0x0019;

/// What no abstract method has: PRIVATE, STATIC, FINAL, SYNCHRONIZED and NATIVE.
const NEVER_ABSTRACT: u16 = 0x013a;

/// The words after a directive that takes flags and one word more: the flags, which a table lists and of which none
/// is given twice, and that last word.
pub fn flags_and_word<'a>(
    table: &[(&str, u16)],
    mut words: Words<'a>,
) -> Result<(u16, &'a [u8]), Fault>
    ensures { MatchResult result (λ found. flags_and_word (map (λ row. (row.0.now, row.1)) table.now) words.entry
        ≡ Some (found.0, found.1.now)) (λ _. flags_and_word (map (λ row. (row.0.now, row.1)) table.now) words.entry
        ≡ None) }
{
    let mut flags = 0;
    let mut last = words.next_word().ok_or(Fault::Operand)?;
    while let Some(next) = words.next_word() {
        flags = with_flag(table, flags, last)?;
        last = next;
    }
    Ok((flags, last))
}

/// Flags with one more, which a table has under its word and which is not given twice.
pub fn with_flag(table: &[(&str, u16)], flags: u16, word: &[u8]) -> Result<u16, Fault>
    ensures { MatchResult result (λ more. with_flag flags (named (map (λ row. (row.0.now, row.1)) table.now) word.now)
        ≡ Some more) (λ _. with_flag flags (named (map (λ row. (row.0.now, row.1)) table.now) word.now) ≡ None) }
{
    let flag = named(table, word).ok_or(Fault::Operand)?;
    if flags & flag != 0 {
        return Err(Fault::Operand);
    }
    Ok(flags | flag)
}

/// Whether a class may have these flags together.
pub fn class_flags_agree(flags: u16) -> bool
    ensures { result ≡ class_flags_agree flags }
{
    !(flags & FINAL != 0 && flags & ABSTRACT != 0)
}

/// Whether a field may have these flags together, in a class with those.
pub fn field_flags_agree(class: u16, flags: u16) -> bool
    ensures { result ≡ field_flags_agree class flags }
{
    class & INTERFACE == 0 || flags & OF_INTERFACE_FIELD == OF_INTERFACE_FIELD
}

/// Whether a method may have these flags together, in a class with those.
pub fn method_flags_agree(class: u16, flags: u16) -> bool
    ensures { result ≡ method_flags_agree class flags }
{
    !(flags & ABSTRACT != 0 && flags & NEVER_ABSTRACT != 0)
        && (class & INTERFACE == 0 || (flags & PUBLIC != 0 && flags & ABSTRACT != 0))
}
