//! What is asked of the superclass and the superinterfaces of a class, and of its name.
ghost use Rattle.std.specs.Prelude.{◌≡◌, IfOk};
ghost use Rattle.std.specs.List.{find, list_any};
ghost use Rattle.std.specs.Option.{option_copied};
ghost use Rattle.model.specs.ClassListings.{ClassListing};
ghost use Rattle.model.specs.Classes.Named.{class_named};
ghost use Rattle.model.specs.Accepted.Superclasses.{is_class_twice, has_wrong_parent, is_no_superclass};
ghost use Rattle.model.specs.Accepted.Superclasses.{is_no_superinterface};
ghost use Rattle.acceptance.specs.Repeats.{name_again};

use crate::repeats::Repeats;
use bitflags::Flags;
use model::flags::ClassFlags;
use model::listings::Listing;
use model::names::Name;
use resolve::classes::Classes;
use resolve::keys::NameKey;
use std::alloc::{AllocError, Global};

fn first_again<'a>(repeats: &Repeats<NameKey<'_>>, program: &'a [Listing]) -> Option<&'a Listing>
    ensures { option_copied result ≡ find (λ (c : ClassListing). name_again repeats.now c.name) program.now }
{
    program.iter().find(|class| repeats.has_again(NameKey {
        bytes: class.name.as_bytes(),
    }))
}

/// The first class of the program whose name another one has. `AllocError` where memory runs out.
pub fn first_class_twice(alloc: Global, program: &[Listing]) -> Result<Option<&Listing>, AllocError>
    ensures { IfOk result (λ found. option_copied found ≡ find (is_class_twice program.now) program.now) }
{
    let mut repeats = Repeats::new(alloc);
    for class in program {
        repeats.note(NameKey {
            bytes: class.name.as_bytes(),
        })?;
    }
    Ok(first_again(&repeats, program))
}

/// Whether a class of this name is there that can't be extended.
fn is_no_superclass(classes: &Classes<'_>, name: &[u8]) -> bool
    ensures { result ≡ is_no_superclass (class_named classes.now name.now) }
{
    match classes.class_named(name) {
        Some(class) => class.flags.contains(ClassFlags::INTERFACE)
            || class.flags.contains(ClassFlags::FINAL),
        None => false,
    }
}

/// Whether a class of this name is there that can't be implemented.
fn is_no_superinterface(classes: &Classes<'_>, name: &[u8]) -> bool
    ensures { result ≡ is_no_superinterface (class_named classes.now name.now) }
{
    match classes.class_named(name) {
        Some(class) => !class.flags.contains(ClassFlags::INTERFACE),
        None => false,
    }
}

fn is_one_no_superinterface(classes: &Classes<'_>, names: &[Name]) -> bool
    ensures { result ≡ list_any (λ name. is_no_superinterface (class_named classes.now name)) names.now }
{
    names
        .iter()
        .any(|name| is_no_superinterface(classes, name.as_bytes()))
}

/// Whether the superclass is an interface or final, or a superinterface is no interface.
#[tactic(auto, unfolding(model::specs::Accepted::Superclasses::has_wrong_parent))]
pub fn has_wrong_parent(classes: &Classes<'_>, class: &Listing) -> bool
    ensures { result ≡ has_wrong_parent classes.now class.now }
{
    is_no_superclass(classes, class.superclass.as_bytes())
        || is_one_no_superinterface(classes, &class.interfaces)
}
