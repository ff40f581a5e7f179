//! The machine's own methods.
ghost use Rattle.std.specs.Prelude.{◌≡◌};
ghost use Rattle.model.specs.Classes.MethodPlaces.{member_of};
ghost use Rattle.model.specs.Programs.{builtin_of, is_member, is_own_initializer};

use model::builtins::Builtin;
use model::listings::Method;
use resolve::builtins::is_builtin;
use resolve::found::Found;
use std::marker::Model;

/// A method as a reference to it names it, with names that are lent. A contract sees the reference.
#[derive(Drop)]
struct Named<'m> {
    class: &'m [u8],
    name: &'m [u8],
    descriptor: &'m [u8],
}

impl<'m> Model for Named<'m> {
    ghost use Rattle.model.specs.declared.names.Member.{Member};

    ghost Value = { Member };

    ghost view = { λ a. record { class = a.class.now; name = a.name.now; descriptor = a.descriptor.now } };
}

/// Whether a method has this class, name and descriptor.
fn is_member(method: &Named<'_>, class: &str, name: &str, descriptor: &str) -> bool
    ensures { result ≡ is_member method.now class.now name.now descriptor.now }
{
    method.class == class.as_bytes()
        && method.name == name.as_bytes()
        && method.descriptor == descriptor.as_bytes()
}

/// Whether a method is the initializer of one of the machine's own classes.
fn is_own_initializer(method: &Named<'_>) -> bool
    ensures { result ≡ is_own_initializer method.now }
{
    is_builtin(method.class)
        && method.name == b"<init>".as_slice()
        && method.descriptor == b"()V".as_slice()
}

/// The method of the machine's own with these names, if there is one.
fn builtin_named(method: &Named<'_>) -> Option<Builtin>
    ensures { result ≡ builtin_of method.now }
{
    if is_member(method, "vm/Sys", "print", "(I)V") {
        Some(Builtin::PrintInt)
    } else if is_member(method, "vm/Sys", "printl", "(J)V") {
        Some(Builtin::PrintLong)
    } else if is_member(method, "vm/Sys", "putc", "(I)V") {
        Some(Builtin::PutByte)
    } else if is_member(method, "java/lang/Thread", "run", "()V") {
        Some(Builtin::RunThread)
    } else if is_member(method, "java/lang/Thread", "start", "()V") {
        Some(Builtin::StartThread)
    } else if is_member(method, "java/lang/Thread", "join", "()V") {
        Some(Builtin::JoinThread)
    } else if is_own_initializer(method) {
        Some(Builtin::Initialize)
    } else {
        None
    }
}

/// Which of the machine's own methods this is, if it is one.
pub fn builtin_found(found: &Found<'_, Method>) -> Option<Builtin>
    ensures { result ≡ builtin_of (member_of found.now) }
{
    let class = found.class;
    let method = found.member;
    builtin_named(&Named {
        class: class.name.as_bytes(),
        name: method.name.as_bytes(),
        descriptor: method.descriptor.as_bytes(),
    })
}
