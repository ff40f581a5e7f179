//! What is above a class (JVMS 5.4.3, 6.5).
ghost use Rattle.std.specs.Prelude.{◌≡◌, ℕ, List, IfOk, IfErr};
ghost use Rattle.model.specs.Classes.Search.{interfaces_named};
ghost use Rattle.model.specs.Classes.Subclasses.{is_subclass};
ghost use Rattle.resolve.specs.Above.{AreAbove, IsAbove};
ghost use Rattle.resolve.specs.Parents.{all_parents};
ghost use Rattle.resolve.specs.Reached.{is_one_below};

use crate::index::Index;
use crate::parents::parents_of_all;
use crate::reached::Reached;
use model::listings::Listing;
use std::alloc::{AllocError, Global};

/// The names of all that is above the superinterfaces that a class declares, these among them. Each is looked at once.
fn above_interfaces<'a>(
    alloc: Global,
    index: &Index<'_>,
    parents: &[Reached<'a>],
    class: &'a Listing,
) -> Result<Reached<'a>, AllocError>
    requires { parents.now ≡ all_parents index.now }
    ensures { IfOk result (λ names. IsAbove index.now class.now names) }
{
    let mut names = Reached::new(alloc);
    names.add_interfaces(&class.interfaces)?;
    names.close(index, parents)?;
    Ok(names)
}

/// For each class of the program, what is above the superinterfaces that it declares. `AllocError` where memory runs
/// out.
pub fn above_all_interfaces<'a>(
    alloc: Global,
    index: &Index<'a>,
) -> Result<Vec<Reached<'a>>, AllocError>
    ensures { IfOk result (λ above. AreAbove index.now index.now above.items) }
{
    let parents = parents_of_all(alloc, index.program())?;
    let mut above = Vec::new(alloc);
    for class in index.program() {
        above.push(above_interfaces(alloc, index, parents.as_slice(), class)?)?;
    }
    Ok(above)
}

/// Whether a class is above a superinterface that the class of a name declares, or is one.
fn is_above_interface(
    index: &Index<'_>,
    interfaces: &[Reached<'_>],
    name: &[u8],
    above: &[u8],
) -> bool
    requires { AreAbove index.now index.now interfaces.now }
    ensures { result ≡ is_one_below index.now (interfaces_named index.now name.now) above.now }
{
    match index.number(name) {
        Some(number) => match interfaces.get(number) {
            Some(names) => names.has(above),
            None => false,
        },
        None => false,
    }
}

/// Whether a class is another's subclass: the same, or below it through superclasses and superinterfaces. Each class
/// from the first upwards is looked at, with what is above its superinterfaces.
pub fn is_subclass(index: &Index<'_>, interfaces: &[Reached<'_>], name: &[u8], above: &[u8]) -> bool
    requires { AreAbove index.now index.now interfaces.now }
    ensures { result ≡ is_subclass index.now name.now above.now }
{
    let mut next = name;
    for _ in 0..index.enough_steps() {
        if next == above || is_above_interface(index, interfaces, next, above) {
            return true;
        }
        match index.superclass(next) {
            Some(superclass) => next = superclass,
            None => return false,
        }
    }
    next == above
}
