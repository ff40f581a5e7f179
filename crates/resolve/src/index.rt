//! Classes by their names (JVMS 5.3).
ghost use Rattle.std.specs.Prelude.{◌≡◌, is_some, map, slice_get, IfOk};
ghost use Rattle.std.specs.List.{position};
ghost use Rattle.std.specs.Option.{option_and_then, option_copied, option_map};
ghost use Rattle.model.specs.ClassListings.{ClassListing};
ghost use Rattle.model.specs.Classes.Named.{class_named, listed};
ghost use Rattle.model.specs.Classes.Subclasses.{enough_steps};
ghost use Rattle.std.specs.Str.{bytes_eq};
ghost use Rattle.resolve.specs.Numbers.{name_of};

use crate::builtins::{BUILTINS, builtin_superclass, is_builtin};
use crate::keys::NameKey;
use indexmap::IndexMap;
use model::listings::Listing;
use std::alloc::{AllocError, Global};
use std::marker::Model;

/// A class and its place in the program.
#[derive(Clone, Copy)]
struct Numbered<'a> {
    number: usize,
    class: &'a Listing,
}

/// The classes of a program by their names. A contract sees the program.
#[derive(Drop)]
pub struct Index<'a> {
    program: &'a [Listing],
    classes: IndexMap<NameKey<'a>, Numbered<'a>>,
}

impl<'a> Model for Index<'a> {
    ghost use Rattle.std.specs.Prelude.{List};
    ghost use Rattle.model.specs.ClassListings.{ClassListing};
    ghost use Rattle.resolve.specs.Indexed.{IsIndex};

    ghost Value = { List ClassListing };

    ghost view = { λ a. a.program.now };

    ghost invariant = { λ a. IsIndex (λ k. k.bytes.now) (λ c. c.class.now)
        (λ c. c.number) a.program.now a.classes.entries };
}

impl<'a> Index<'a> {
    /// The index of a program; where classes have one name, the first is found. `AllocError` where memory runs out.
    pub fn new(alloc: Global, program: &'a [Listing]) -> Result<Index<'a>, AllocError>
        ensures { IfOk result (λ index. index ≡ program.now) }
    {
        let mut classes = IndexMap::new(alloc);
        for (number, class) in program.iter().enumerate() {
            let name = NameKey {
                bytes: class.name.as_bytes(),
            };
            if classes.get(&name).is_none() {
                classes.insert(name, Numbered { number, class })?;
            }
        }
        Ok(Index { program, classes })
    }

    /// The classes in order.
    pub fn program(&self) -> &'a [Listing]
        ensures { result.now ≡ self.now }
    {
        self.program
    }

    /// The first class with this name.
    pub fn listed(&self, name: &[u8]) -> Option<&'a Listing>
        ensures { option_copied result ≡ listed self.now name.now }
    {
        Some(self.classes.get(&NameKey { bytes: name })?.class)
    }

    /// The place in the program of the first class with this name.
    pub fn number(&self, name: &[u8]) -> Option<usize>
        ensures place { option_and_then (slice_get self.now) result ≡ listed self.now name.now }
        ensures first { result ≡ position (bytes_eq name.now) (map name_of self.now) }
    {
        Some(self.classes.get(&NameKey { bytes: name })?.number)
    }

    /// The name of the superclass of the class of a name, of the program or of the machine itself; empty at
    /// `java/lang/Object`.
    pub fn superclass(&self, name: &[u8]) -> Option<&'a [u8]>
        ensures { option_copied result ≡ option_map (λ (c : ClassListing). c.superclass)
            (class_named self.now name.now) }
    {
        match self.listed(name) {
            Some(class) => Some(class.superclass.as_bytes()),
            None => builtin_superclass(name),
        }
    }

    /// Whether a class of this name is there: one of the program, or of the machine itself.
    pub fn is_there(&self, name: &[u8]) -> bool
        ensures { result ≡ is_some (class_named self.now name.now) }
    {
        self.listed(name).is_some() || is_builtin(name)
    }

    /// So many steps upwards pass every class once, the machine's own too.
    pub fn enough_steps(&self) -> usize
        ensures { result ≡ enough_steps self.now }
    {
        self.program.len() + BUILTINS.len()
    }
}
