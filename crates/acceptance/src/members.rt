//! What is asked of the members of a class.
ghost use Rattle.std.specs.Prelude.{◌≡◌, IfOk};
ghost use Rattle.std.specs.List.{list_any};
ghost use Rattle.model.specs.declared.listings.Field.{Field as FieldListing};
ghost use Rattle.model.specs.declared.listings.Method.{Method as MethodListing};
ghost use Rattle.model.specs.Accepted.MembersTwice.{has_field_twice, has_method_twice, has_member_twice};
ghost use Rattle.model.specs.Accepted.RefusedMembers.{is_wrong_initializer, is_run, is_refused, has_refused_member};
ghost use Rattle.acceptance.specs.Repeats.{signature_again};

use crate::repeats::Repeats;
use crate::well_named::is_well_named;
use bitflags::Flags;
use linking::named_methods::is_class_initializer;
use model::flags::MethodFlags;
use model::listings::{Field, Listing, Method};
use resolve::classes::Classes;
use resolve::keys::NameKey;
use std::alloc::{AllocError, Global};

/// The name and the descriptor of a member.
type Signature<'a> = (NameKey<'a>, NameKey<'a>);

fn field_signature(field: &Field) -> Signature<'_>
    ensures name { result.0.bytes.now ≡ field.now.name }
    ensures descriptor { result.1.bytes.now ≡ field.now.descriptor }
{
    (
        NameKey {
            bytes: field.name.as_bytes(),
        },
        NameKey {
            bytes: field.descriptor.as_bytes(),
        },
    )
}

fn method_signature(method: &Method) -> Signature<'_>
    ensures name { result.0.bytes.now ≡ method.now.name }
    ensures descriptor { result.1.bytes.now ≡ method.now.descriptor }
{
    (
        NameKey {
            bytes: method.name.as_bytes(),
        },
        NameKey {
            bytes: method.descriptor.as_bytes(),
        },
    )
}

fn is_one_field_again(repeats: &Repeats<Signature<'_>>, fields: &[Field]) -> bool
    ensures { result ≡ list_any (λ (f : FieldListing). signature_again repeats.now f.name f.descriptor) fields.now }
{
    fields
        .iter()
        .any(|field| repeats.has_again(field_signature(field)))
}

fn has_field_twice(alloc: Global, fields: &[Field]) -> Result<bool, AllocError>
    ensures { IfOk result (λ found. found ≡ has_field_twice fields.now) }
{
    let mut repeats = Repeats::new(alloc);
    for field in fields {
        repeats.note(field_signature(field))?;
    }
    Ok(is_one_field_again(&repeats, fields))
}

fn is_one_method_again(repeats: &Repeats<Signature<'_>>, methods: &[Method]) -> bool
    ensures { result ≡ list_any (λ (m : MethodListing). signature_again repeats.now m.name m.descriptor) methods.now }
{
    methods
        .iter()
        .any(|method| repeats.has_again(method_signature(method)))
}

fn has_method_twice(alloc: Global, methods: &[Method]) -> Result<bool, AllocError>
    ensures { IfOk result (λ found. found ≡ has_method_twice methods.now) }
{
    let mut repeats = Repeats::new(alloc);
    for method in methods {
        repeats.note(method_signature(method))?;
    }
    Ok(is_one_method_again(&repeats, methods))
}

/// Whether two fields of the class have one name and descriptor, or two methods. `AllocError` where memory runs
/// out.
#[tactic(auto, unfolding(model::specs::Accepted::MembersTwice::has_member_twice))]
pub fn has_member_twice(alloc: Global, class: &Listing) -> Result<bool, AllocError>
    ensures { IfOk result (λ found. found ≡ has_member_twice class.now) }
{
    Ok(has_field_twice(alloc, &class.fields)? || has_method_twice(alloc, &class.methods)?)
}

fn is_run(method: &Method) -> bool
    ensures { result ≡ is_run method.now }
{
    method.name.as_bytes() == b"run".as_slice() && method.descriptor.as_bytes() == b"()V".as_slice()
}

/// Whether a method is a class initializer that no class may have: one that isn't static, or isn't `()V`, or has no
/// code.
fn is_wrong_initializer(method: &Method) -> bool
    ensures { result ≡ is_wrong_initializer method.now }
{
    is_class_initializer(method)
        && !(method.flags.contains(MethodFlags::STATIC)
            && method.descriptor.as_bytes() == b"()V".as_slice()
            && method.code.is_some())
}

/// Whether a method of the class is refused: a wrong class initializer, a native method, a static synchronized one, or
/// a thread's synchronized `run()V`.
fn is_refused(classes: &Classes<'_>, class: &[u8], method: &Method) -> bool
    ensures { result ≡ is_refused classes.now class.now method.now }
{
    let flags = method.flags;
    is_wrong_initializer(method)
        || flags.contains(MethodFlags::NATIVE)
        || flags.contains(MethodFlags::SYNCHRONIZED)
            && (flags.contains(MethodFlags::STATIC)
                || is_run(method) && classes.is_subclass(class, b"java/lang/Thread"))
}

fn is_one_refused(classes: &Classes<'_>, class: &[u8], methods: &[Method]) -> bool
    ensures { result ≡ list_any (is_refused classes.now class.now) methods.now }
{
    methods
        .iter()
        .any(|method| is_refused(classes, class, method))
}

/// Whether a member of the class is refused, or the class has names that the listing of no source has.
#[tactic(auto, unfolding(model::specs::Accepted::RefusedMembers::has_refused_member))]
pub fn has_refused_member(classes: &Classes<'_>, class: &Listing) -> bool
    ensures { result ≡ has_refused_member classes.now class.now }
{
    is_one_refused(classes, class.name.as_bytes(), &class.methods) || !is_well_named(class)
}
