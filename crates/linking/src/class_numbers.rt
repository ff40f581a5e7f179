//! The numbers of classes.
ghost use Rattle.std.specs.Prelude.{◌≡◌, ◌++◌, map, IfOk, OnOk};
ghost use Rattle.model.specs.ClassListings.{ClassListing as Class};
ghost use Rattle.resolve.specs.Numbers.{class_names, class_number};
ghost use Rattle.linking.specs.ClassNumbers.{class_place, names_now};

use crate::first_places::first_places;
use indexmap::IndexMap;
use model::listings::Listing;
use resolve::builtins::{BUILTINS, Builtin};
use resolve::keys::NameKey;
use std::alloc::{AllocError, Global};
use std::marker::Model;

/// The numbers of a program's classes by their names: those of the program from 0 on in order, and after them the
/// machine's own. A contract sees the program.
#[derive(Drop)]
pub struct ClassNumbers<'a> {
    program: &'a [Listing],
    names: Vec<NameKey<'a>>,
    numbers: IndexMap<NameKey<'a>, usize>,
}

impl<'a> Model for ClassNumbers<'a> {
    ghost use Rattle.std.specs.Prelude.{List};
    ghost use Rattle.model.specs.ClassListings.{ClassListing};
    ghost use Rattle.linking.specs.ClassNumbers.{AreNumbers};

    ghost Value = { List ClassListing };

    ghost view = { λ a. a.program.now };

    ghost invariant = { λ a. AreNumbers a.program.now a.names.items a.numbers.entries };
}

fn add_own_names<'a>(names: &mut Vec<NameKey<'a>>, classes: &[Builtin]) -> Result<(), AllocError>
    ensures { OnOk result (names_now names.new.items ≡ names_now names.old.items ++ map (λ b. b.name.now) classes.now) }
{
    for class in classes {
        names.push(NameKey { bytes: class.name })?;
    }
    Ok(())
}

fn names_in<'a>(alloc: Global, program: &'a [Listing]) -> Result<Vec<NameKey<'a>>, AllocError>
    ensures { IfOk result (λ names. names_now names.items ≡ map (λ (c : Class). c.name) program.now) }
{
    let mut names = Vec::new(alloc);
    for class in program {
        names.push(NameKey {
            bytes: class.name.as_bytes(),
        })?;
    }
    Ok(names)
}

/// The names of all classes, the machine's own last.
#[tactic(auto, unfolding(model::specs::Classes::Builtin::builtin_classes))]
fn names_of<'a>(alloc: Global, program: &'a [Listing]) -> Result<Vec<NameKey<'a>>, AllocError>
    ensures { IfOk result (λ names. names_now names.items ≡ class_names program.now) }
{
    let mut names = names_in(alloc, program)?;
    add_own_names(&mut names, &BUILTINS)?;
    Ok(names)
}

impl<'a> ClassNumbers<'a> {
    /// The numbers of a program's classes. `AllocError` where memory runs out.
    pub fn new(alloc: Global, program: &'a [Listing]) -> Result<ClassNumbers<'a>, AllocError>
        ensures { IfOk result (λ numbers. numbers ≡ program.now) }
    {
        let names = names_of(alloc, program)?;
        let numbers = first_places(alloc, &names)?;
        Ok(ClassNumbers {
            program,
            names,
            numbers,
        })
    }

    /// The names of all classes in the order of their numbers.
    pub fn names(&self) -> &[NameKey<'a>]
        ensures { names_now result.now ≡ class_names self.now }
    {
        &self.names
    }

    /// The number of the class of a name.
    pub fn number(&self, name: &[u8]) -> Option<usize>
        ensures { result ≡ class_number self.now name.now }
    {
        self.numbers.get(&NameKey { bytes: name }).copied()
    }

    /// The number of the class of a name; how many classes there are where none has it.
    pub fn place(&self, name: &[u8]) -> usize
        ensures { result ≡ class_place self.now name.now }
    {
        self.number(name).unwrap_or(self.names().len())
    }
}
