//! Whether a class is above itself.
ghost use Rattle.std.specs.Prelude.{◌≡◌, is_none, is_some, slice_get, true, IfOk};
ghost use Rattle.std.specs.List.{find, list_all};
ghost use Rattle.model.specs.ClassListings.{ClassListing};
ghost use Rattle.model.specs.Accepted.Cycles.{is_on_cycle};
ghost use Rattle.model.specs.Classes.Builtin.{builtin_classes};
ghost use Rattle.model.specs.Classes.Named.{listed};
ghost use Rattle.resolve.specs.Interfaces.{AreFirst, AreFull, AreLists, lists_in};

use crate::builtins::{BUILTINS, Builtin};
use crate::index::Index;
use crate::interfaces::Interfaces;
use crate::parents::first_on_cycle;
use model::listings::Listing;
use std::alloc::{AllocError, Global};

fn is_first(index: &Index<'_>, number: usize, class: &Listing) -> bool
    ensures { result ≡ true → slice_get index.now number ≡ listed index.now class.now.name }
{
    match index.number(class.name.as_bytes()) {
        Some(first) => first == number,
        None => false,
    }
}

/// Whether each class of the program is the first with its name.
fn are_first(index: &Index<'_>) -> bool
    ensures { result ≡ true → AreFirst index.now index.now }
{
    for (number, class) in index.program().iter().enumerate() {
        if !is_first(index, number, class) {
            return false;
        }
    }
    true
}

fn are_superclasses_apart(index: &Index<'_>, classes: &[Builtin]) -> bool
    ensures { result ≡ list_all (λ b. is_none (listed index.now b.superclass.now)) classes.now }
{
    classes
        .iter()
        .all(|class| index.listed(class.superclass).is_none())
}

/// Whether the program has no class with the name of a superclass of the machine's own classes.
#[tactic(auto, unfolding(model::specs::Classes::Builtin::builtin_classes))]
fn is_apart(index: &Index<'_>) -> bool
    ensures { result ≡ list_all (λ (c : ClassListing). is_none (listed index.now c.superclass)) builtin_classes }
{
    are_superclasses_apart(index, &BUILTINS)
}

/// Whether a class is above itself. Where each has its list of superinterfaces, after its parents, there is none, as
/// long as no two have one name and none is above the machine's own classes; else all that is above each class is
/// looked at. `AllocError` where memory runs out.
pub fn has_cycle<'a>(
    alloc: Global,
    index: &Index<'a>,
    interfaces: &Interfaces<'a>,
) -> Result<bool, AllocError>
    requires lists { AreLists index.now (lists_in interfaces.now.lists.entries) }
    requires full { AreFull index.now (lists_in interfaces.now.lists.entries) }
    ensures { IfOk result (λ found. found ≡ is_some (find (is_on_cycle index.now) index.now)) }
{
    if !interfaces.has_all(index) {
        return Ok(true);
    }
    if is_apart(index) && are_first(index) {
        return Ok(false);
    }
    Ok(first_on_cycle(alloc, index, index.program())?.is_some())
}
