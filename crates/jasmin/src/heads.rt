//! The heads of a class and of its methods.
ghost use Rattle.std.specs.Prelude.{◌≡◌, ◌∷◌, not, ◌&&◌, ◌||◌, nat_le, codes, None, Some, MatchResult};
ghost use Rattle.std.specs.Str.{bytes_eq};
ghost use Rattle.model.specs.Texts.Heads.{class_of, class_head, interface_head, super_of, interface_of, method_of};
ghost use Rattle.model.specs.Texts.Heads.{method_head, units_with_object};
ghost use Rattle.model.specs.Texts.Flags.{has, method_flags_agree};
ghost use Rattle.model.specs.Texts.Names.{is_class_name, is_method_name};

use crate::errors::Fault;
use crate::flags::{
    INTERFACE, OF_INTERFACE, STATIC, class_flags_agree, flags_and_word, method_flags_agree,
};
use crate::operands::only;
use crate::signatures::{Signature, cut_signature};
use bitflags::Flags;
use jasmin_words::statements::Statement;
use model::flags::{CLASS_FLAGS, ClassFlags, INTERFACE_FLAGS, METHOD_FLAGS, MethodFlags};
use model::good_names::{is_class_name, is_method_name};

/// What a `.class` or an `.interface` says.
#[derive(Clone, Copy)]
pub struct ClassHead<'a> {
    pub flags: ClassFlags,
    pub name: &'a [u8],
}

/// A `.class` or an `.interface` with its flags and name. INTERFACE and ABSTRACT are among those of an interface.
pub fn class_head(statement: Statement<'_>) -> Result<ClassHead<'_>, Fault>
    ensures { MatchResult result (λ head. class_of (Some (statement.entry.first.now ∷ statement.entry.operands))
        ≡ Some (record { flags = head.flags; name = head.name.now }))
        (λ _. class_of (Some (statement.entry.first.now ∷ statement.entry.operands)) ≡ None) }
{
    if statement.first == b".class".as_slice() {
        let (flags, name) = flags_and_word(&CLASS_FLAGS, statement.operands)?;
        return class_with(flags, name);
    }
    if statement.first == b".interface".as_slice() {
        let (flags, name) = flags_and_word(&INTERFACE_FLAGS, statement.operands)?;
        return interface_with(flags, name);
    }
    Err(Fault::Statement)
}

/// A class with these flags and this name.
fn class_with(flags: u16, name: &[u8]) -> Result<ClassHead<'_>, Fault>
    ensures { MatchResult result (λ head. class_head (Some (flags, name.now))
        ≡ Some (record { flags = head.flags; name = head.name.now })) (λ _. class_head (Some (flags, name.now))
        ≡ None) }
{
    if is_class_name(name) && class_flags_agree(flags) {
        Ok(ClassHead {
            flags: ClassFlags::from_bits_retain(flags),
            name,
        })
    } else {
        Err(Fault::Operand)
    }
}

/// An interface with these flags besides its own, and this name.
fn interface_with(flags: u16, name: &[u8]) -> Result<ClassHead<'_>, Fault>
    ensures { MatchResult result (λ head. interface_head (Some (flags, name.now))
        ≡ Some (record { flags = head.flags; name = head.name.now })) (λ _. interface_head (Some (flags, name.now))
        ≡ None) }
{
    if is_class_name(name) {
        Ok(ClassHead {
            flags: ClassFlags::from_bits_retain(flags | OF_INTERFACE),
            name,
        })
    } else {
        Err(Fault::Operand)
    }
}

/// A `.super` with its name, in a class with these flags.
pub fn super_name(class: ClassFlags, statement: Statement<'_>) -> Result<&[u8], Fault>
    ensures { MatchResult result (λ name. super_of class (Some (statement.entry.first.now ∷ statement.entry.operands))
        ≡ Some name.now) (λ _. super_of class (Some (statement.entry.first.now ∷ statement.entry.operands)) ≡ None) }
{
    if statement.first != b".super".as_slice() {
        return Err(Fault::Statement);
    }
    let name = only(statement.operands)?;
    if is_superclass(class, name) {
        Ok(name)
    } else {
        Err(Fault::Operand)
    }
}

/// Whether a class with these flags may have a superclass of this name: an interface's is Object.
fn is_superclass(class: ClassFlags, name: &[u8]) -> bool
    ensures { result ≡ (is_class_name name.now
        && (not (has class.0 0x0200) || bytes_eq name.now (codes "java/lang/Object"))) }
{
    is_class_name(name) && (class.bits() & INTERFACE == 0 || name == b"java/lang/Object".as_slice())
}

/// The name of an `.implements`.
pub fn interface_name(statement: Statement<'_>) -> Result<&[u8], Fault>
    ensures { MatchResult result (λ name. interface_of (Some (statement.entry.first.now ∷ statement.entry.operands))
        ≡ Some name.now) (λ _. interface_of (Some (statement.entry.first.now ∷ statement.entry.operands)) ≡ None) }
{
    if statement.first != b".implements".as_slice() {
        return Err(Fault::Statement);
    }
    let name = only(statement.operands)?;
    if is_class_name(name) {
        Ok(name)
    } else {
        Err(Fault::Operand)
    }
}

/// What a `.method` says.
#[derive(Clone, Copy)]
pub struct MethodHead<'a> {
    pub flags: MethodFlags,
    pub name: &'a [u8],
    pub descriptor: &'a [u8],
}

/// A `.method` with its flags, name and descriptor, in a class with these flags.
pub fn method_head(class: ClassFlags, statement: Statement<'_>) -> Result<MethodHead<'_>, Fault>
    ensures { MatchResult result (λ head. method_of class (Some (statement.entry.first.now ∷ statement.entry.operands))
        ≡ Some (record { flags = head.flags; name = head.name.now; descriptor = head.descriptor.now }))
        (λ _. method_of class (Some (statement.entry.first.now ∷ statement.entry.operands)) ≡ None) }
{
    if statement.first != b".method".as_slice() {
        return Err(Fault::Statement);
    }
    let (flags, word) = flags_and_word(&METHOD_FLAGS, statement.operands)?;
    method_spelled(class, flags, word)
}

/// A method by its flags and the word of its name and descriptor.
#[tactic(auto, using(crate::proofs::SignatureLemmas::signatures))]
fn method_spelled(class: ClassFlags, flags: u16, word: &[u8]) -> Result<MethodHead<'_>, Fault>
    ensures { MatchResult result (λ head. method_head class.0 (Some (flags, word.now))
        ≡ Some (record { flags = head.flags; name = head.name.now; descriptor = head.descriptor.now }))
        (λ _. method_head class.0 (Some (flags, word.now)) ≡ None) }
{
    let Some(signature) = cut_signature(word) else {
        return Err(Fault::Operand);
    };
    if !is_method(class, flags, signature) {
        return Err(Fault::Operand);
    }
    Ok(MethodHead {
        flags: MethodFlags::from_bits_retain(flags),
        name: signature.path,
        descriptor: signature.descriptor,
    })
}

/// Whether a class may have a method with these flags and this signature.
fn is_method(class: ClassFlags, flags: u16, signature: Signature<'_>) -> bool
    ensures { result ≡ (is_method_name signature.entry.path.now
        && nat_le (units_with_object flags signature.entry.units) 255 && method_flags_agree class.0 flags) }
{
    is_method_name(signature.path)
        && units_fit(flags, signature.units)
        && method_flags_agree(class.bits(), flags)
}

/// Whether a method with these flags may have arguments of so many units: 255, with the object where it isn't static.
fn units_fit(flags: u16, units: usize) -> bool
    ensures { result ≡ nat_le (units_with_object flags units) 255 }
{
    if flags & STATIC != 0 {
        units <= 255
    } else {
        units < 255
    }
}
