//! The names of the classes that are reached upwards from some.
ghost use Rattle.std.specs.Prelude.{◌≡◌, ℕ, List, [], map, OnOk};
ghost use Rattle.std.specs.Option.{option_copied, option_map};
ghost use Rattle.model.specs.Classes.Named.{listed, parents_named, parents_of};
ghost use Rattle.resolve.specs.Parents.{all_parents, parents_once};
ghost use Rattle.resolve.specs.Reached.{has_name, with_name, with_names, is_one_below};

use crate::builtins::builtin_superclass;
use crate::index::Index;
use crate::keys::NameKey;
use indexmap::IndexSet;
use model::listings::Listing;
use model::names::Name;
use std::alloc::{AllocError, Global};
use std::marker::Model;

/// Names of classes, each once, in the order in which they were reached. A contract sees their list.
#[derive(Drop)]
pub struct Reached<'a> {
    names: IndexSet<NameKey<'a>>,
}

impl<'a> Model for Reached<'a> {
    ghost use Rattle.std.specs.Prelude.{List, ℕ, map};

    ghost Value = { List (List ℕ) };

    ghost view = { λ a. map (λ name. name.bytes.now) a.names.keys };
}

/// The parents of the program's class of a name, among those of all.
fn parents_listed<'p, 'a>(
    index: &Index<'_>,
    parents: &'p [Reached<'a>],
    name: &[u8],
) -> Option<&'p Reached<'a>>
    requires { parents.now ≡ all_parents index.now }
    ensures { option_copied result ≡ option_map parents_once (listed index.now name.now) }
{
    parents.get(index.number(name)?)
}

impl<'a> Reached<'a> {
    ghost use Rattle.std.specs.Prelude.{◌<◌, ◌^◌, Some, length, slice_get};

    /// No names.
    pub fn new(alloc: Global) -> Reached<'a>
        ensures { result ≡ [] }
    {
        Reached {
            names: IndexSet::new(alloc),
        }
    }

    /// Adds a name where it isn't there. `AllocError` where memory runs out.
    pub fn add(&mut self, name: &'a [u8]) -> Result<(), AllocError>
        ensures { OnOk result (self.new ≡ with_name self.old name.now) }
    {
        self.names.insert(NameKey { bytes: name })?;
        Ok(())
    }

    /// Adds these names of interfaces, in order.
    pub fn add_interfaces(&mut self, interfaces: &'a [Name]) -> Result<(), AllocError>
        ensures { OnOk result (self.new ≡ with_names self.old interfaces.now) }
    {
        for interface in interfaces {
            self.add(interface.as_bytes())?;
        }
        Ok(())
    }

    /// Adds the superclass and the superinterfaces of a class.
    pub fn add_parents(&mut self, class: &'a Listing) -> Result<(), AllocError>
        ensures { OnOk result (self.new ≡ with_names self.old (parents_of class.now)) }
    {
        self.add(class.superclass.as_bytes())?;
        self.add_interfaces(&class.interfaces)
    }

    /// Adds the parents of the class of a name, where there is one.
    fn add_parents_named(
        &mut self,
        index: &Index<'_>,
        parents: &[Reached<'a>],
        name: &[u8],
    ) -> Result<(), AllocError>
        requires { parents.now ≡ all_parents index.now }
        ensures { OnOk result (self.new ≡ with_names self.old (parents_named index.now name.now)) }
    {
        match parents_listed(index, parents, name) {
            Some(names) => self.add_all(names),
            None => match builtin_superclass(name) {
                Some(superclass) => self.add(superclass),
                None => Ok(()),
            },
        }
    }

    fn len(&self) -> usize
        ensures len { result ≡ length self.now }
        ensures few { result < 2 ^ 63 }
    {
        self.names.len()
    }

    fn get(&self, index: usize) -> &'a [u8]
        requires { index < length self.now }
        ensures { slice_get self.now index ≡ Some result.now }
    {
        self.names.as_slice()[index].bytes
    }

    /// Adds these names, in order.
    pub fn add_all(&mut self, names: &Reached<'a>) -> Result<(), AllocError>
        ensures { OnOk result (self.new ≡ with_names self.old names.now) }
    {
        for name in names.names.as_slice() {
            self.add(name.bytes)?;
        }
        Ok(())
    }

    /// The names in order.
    pub fn as_slice(&self) -> &[NameKey<'a>]
        ensures { map (λ name. name.bytes.now) result.now ≡ self.now }
    {
        self.names.as_slice()
    }

    /// Adds all that is above the names, each name's parents once. Of each class of the program its parents are given,
    /// each once, so that a name that a class repeats is looked at once.
    pub fn close(&mut self, index: &Index<'_>, parents: &[Reached<'a>]) -> Result<(), AllocError>
        requires { parents.now ≡ all_parents index.now }
        ensures { OnOk result ((above : List ℕ) → has_name self.new above ≡ is_one_below index.now self.old above) }
    {
        let mut next = 0;
        while next < self.len() {
            let name = self.get(next);
            self.add_parents_named(index, parents, name)?;
            next += 1;
        }
        Ok(())
    }

    /// Whether a name is among them.
    pub fn has(&self, name: &[u8]) -> bool
        ensures { result ≡ has_name self.now name.now }
    {
        self.names.contains(&NameKey { bytes: name })
    }
}
