//! Words that name a member with its class and its descriptor.
ghost use Rattle.std.specs.Prelude.{◌≡◌, ◌+◌, ◌==◌, ◌&&◌, nat_le, not, [], length, None, Some, IfNone, IfSome};
ghost use Rattle.std.specs.Prelude.{MatchOption};
ghost use Rattle.std.specs.List.{position, suffix_len};
ghost use Rattle.model.specs.Texts.Descriptors.{arguments_of, is_field_descriptor};
ghost use Rattle.model.specs.Texts.Names.{is_class_name, is_field_name, is_method_name};
ghost use Rattle.model.specs.Texts.Operands.{before_parenthesis, from_parenthesis, class_in, name_in, method_named};
ghost use Rattle.model.specs.Texts.Operands.{field_named};

use model::descriptors::{arguments_of, is_field_descriptor};
use model::good_names::{is_class_name, is_field_name, is_method_name};

/// A word cut at its first parenthesis, and the units of the arguments.
#[derive(Clone, Copy)]
pub struct Signature<'a> {
    pub path: &'a [u8],
    pub descriptor: &'a [u8],
    pub units: usize,
}

/// Cuts a word at its first parenthesis, from where on a method's descriptor stands. `None` where it stands there not.
pub fn cut_signature(word: &[u8]) -> Option<Signature<'_>>
    ensures none { IfNone result (arguments_of (from_parenthesis word.now) ≡ None) }
    ensures some { IfSome result (λ s. (s.path.now ≡ before_parenthesis word.now)
        × (s.descriptor.now ≡ from_parenthesis word.now) × (arguments_of (from_parenthesis word.now) ≡ Some s.units)) }
{
    let place = opening_in(word)?;
    let (path, descriptor) = (&word[..place], &word[place..]);
    let units = arguments_of(descriptor)?;
    Some(Signature {
        path,
        descriptor,
        units,
    })
}

/// The place of the first opening parenthesis.
fn opening_in(word: &[u8]) -> Option<usize>
    ensures { result ≡ position (λ b. b == 40) word.now }
{
    word.iter().position(|b| *b == b'(')
}

/// A member as an instruction names it: class, name and descriptor.
#[derive(Clone, Copy)]
pub struct MemberName<'a> {
    pub class: &'a [u8],
    pub name: &'a [u8],
    pub descriptor: &'a [u8],
}

/// A word of the form class/name(ARGS)RESULT, with 255 units of arguments at most.
#[tactic(auto, using(crate::proofs::SignatureLemmas::signatures))]
pub fn method_named(word: &[u8]) -> Option<MemberName<'_>>
    ensures { MatchOption result (method_named word.now ≡ None) (λ m. method_named word.now
        ≡ Some (record { class = m.class.now; name = m.name.now; descriptor = m.descriptor.now })) }
{
    let Some(signature) = cut_signature(word) else {
        return None;
    };
    let Some((class, name)) = class_and_name(signature.path) else {
        return None;
    };
    if !is_method(class, name, signature.units) {
        return None;
    }
    Some(MemberName {
        class,
        name,
        descriptor: signature.descriptor,
    })
}

/// A field by its class and name, in a word of the form class/name, and its descriptor.
#[tactic(auto, using(crate::proofs::SignatureLemmas::signatures))]
pub fn field_named<'a>(path: &'a [u8], descriptor: &'a [u8]) -> Option<MemberName<'a>>
    ensures { MatchOption result (field_named path.now descriptor.now ≡ None) (λ m. field_named path.now descriptor.now
        ≡ Some (record { class = m.class.now; name = m.name.now; descriptor = m.descriptor.now })) }
{
    let Some((class, name)) = class_and_name(path) else {
        return None;
    };
    if !is_field(class, name, descriptor) {
        return None;
    }
    Some(MemberName {
        class,
        name,
        descriptor,
    })
}

/// Whether a class and a field may be named so, with this descriptor.
fn is_field(class: &[u8], name: &[u8], descriptor: &[u8]) -> bool
    ensures { result ≡ (is_class_name class.now && is_field_name name.now && is_field_descriptor descriptor.now) }
{
    is_class_name(class) && is_field_name(name) && is_field_descriptor(descriptor)
}

/// Whether a class and a method may be named so, with arguments of so many units.
fn is_method(class: &[u8], name: &[u8], units: usize) -> bool
    ensures { result ≡ (is_class_name class.now && is_method_name name.now && nat_le units 255) }
{
    is_class_name(class) && is_method_name(name) && units <= 255
}

/// A path cut at its last slash.
fn class_and_name(path: &[u8]) -> Option<(&[u8], &[u8])>
    ensures none { IfNone result (class_in path.now ≡ []) }
    ensures some { IfSome result (λ cut. (cut.0.now ≡ class_in path.now) × (cut.1.now ≡ name_in path.now)) }
{
    let following = after_last_slash(path);
    if following == 0 {
        return None;
    }
    Some((&path[..following - 1], &path[following..]))
}

/// The place after the last slash, or 0 where there is none.
fn after_last_slash(path: &[u8]) -> usize
    ensures { result + suffix_len (λ b. not (b == 47)) path.now ≡ length path.now }
{
    let mut place = path.len();
    while place > 0 && path[place - 1] != b'/' {
        place -= 1;
    }
    place
}
