//! The parents of a class: its superclass and its superinterfaces.
ghost use Rattle.std.specs.Prelude.{◌≡◌, is_none, IfOk};
ghost use Rattle.std.specs.List.{find, list_any};
ghost use Rattle.std.specs.Option.{option_copied};
ghost use Rattle.model.specs.Classes.Named.{class_named};
ghost use Rattle.model.specs.Accepted.Superclasses.{has_missing_parent};
ghost use Rattle.model.specs.Accepted.Cycles.{is_on_cycle};
ghost use Rattle.resolve.specs.Parents.{all_parents, parents_once};

use crate::index::Index;
use crate::reached::Reached;
use model::listings::Listing;
use model::names::Name;
use std::alloc::{AllocError, Global};

fn is_one_missing(index: &Index<'_>, names: &[Name]) -> bool
    ensures { result ≡ list_any (λ name. is_none (class_named index.now name)) names.now }
{
    names.iter().any(|name| !index.is_there(name.as_bytes()))
}

/// Whether a superclass or superinterface of the class isn't there.
#[tactic(auto, unfolding(model::specs::Accepted::Superclasses::has_missing_parent))]
fn has_missing_parent(index: &Index<'_>, class: &Listing) -> bool
    ensures { result ≡ has_missing_parent index.now class.now }
{
    !index.is_there(class.superclass.as_bytes()) || is_one_missing(index, &class.interfaces)
}

/// The superclass and the superinterfaces of a class, each once.
fn parents_once<'a>(alloc: Global, class: &'a Listing) -> Result<Reached<'a>, AllocError>
    ensures { IfOk result (λ names. names ≡ parents_once class.now) }
{
    let mut names = Reached::new(alloc);
    names.add_parents(class)?;
    Ok(names)
}

/// The parents of each class of a program, each once. `AllocError` where memory runs out.
pub fn parents_of_all<'a>(
    alloc: Global,
    program: &'a [Listing],
) -> Result<Vec<Reached<'a>>, AllocError>
    ensures { IfOk result (λ parents. parents.items ≡ all_parents program.now) }
{
    let mut parents = Vec::new(alloc);
    for class in program {
        parents.push(parents_once(alloc, class)?)?;
    }
    Ok(parents)
}

/// Whether a superclass or superinterface of the class is the class itself or below it. Each class above it is looked
/// at once. `AllocError` where memory runs out.
fn is_on_cycle<'a>(
    alloc: Global,
    index: &Index<'_>,
    parents: &[Reached<'a>],
    class: &'a Listing,
) -> Result<bool, AllocError>
    requires { parents.now ≡ all_parents index.now }
    ensures { IfOk result (λ found. found ≡ is_on_cycle index.now class.now) }
{
    let mut reached = Reached::new(alloc);
    reached.add_parents(class)?;
    reached.close(index, parents)?;
    Ok(reached.has(class.name.as_bytes()))
}

/// The first class of which a superclass or superinterface isn't there.
pub fn first_with_missing_parent<'a>(
    index: &Index<'_>,
    program: &'a [Listing],
) -> Option<&'a Listing>
    ensures { option_copied result ≡ find (has_missing_parent index.now) program.now }
{
    program
        .iter()
        .find(|class| has_missing_parent(index, class))
}

/// The first class that is its own superclass or superinterface, or above one of these. `AllocError` where memory runs
/// out.
pub fn first_on_cycle<'a>(
    alloc: Global,
    index: &Index<'a>,
    program: &'a [Listing],
) -> Result<Option<&'a Listing>, AllocError>
    ensures { IfOk result (λ found. option_copied found ≡ find (is_on_cycle index.now) program.now) }
{
    let parents = parents_of_all(alloc, index.program())?;
    for class in program {
        if is_on_cycle(alloc, index, parents.as_slice(), class)? {
            return Ok(Some(class));
        }
    }
    Ok(None)
}
